//! The pairs at concrete rules, against those of a loop over all pairs.

mod crowded;
mod index;
mod refused_in_turn;
mod rules;

use crowded::of_two_classes;
use leg_geom::Rect;
use leg_sweep::{PairRule, each_pair, pairs, pairs_counted, pairs_in_bands};
use rules::{Overlap, Shape, Within};
use std::alloc::Global;
use std::cell::Cell;
use std::process::Abort;

/// The corners of a rectangle: the lower left one and the upper right one.
type Corners = (i64, i64, i64, i64);

fn rect(rt: &impl Abort, corners: Corners) -> Rect {
    let (x1, y1, x2, y2) = corners;
    Rect::new(x1, y1, x2, y2).expect(rt, "empty")
}

fn rects_of(rt: &impl Abort, alloc: Global, all_corners: &[Corners]) -> Vec<Rect> {
    let mut rects = Vec::new(alloc);
    for corners in all_corners {
        rects.push(rect(rt, *corners)).expect(rt, "memory");
    }
    rects
}

/// `count` shapes with sides below 100 in a square with sides of 2000, on `layers` layers, by a fixed rule that looks
/// random.
fn scattered(rt: &impl Abort, alloc: Global, count: usize, layers: usize) -> Vec<Shape> {
    assert!(rt; 0 < layers);
    let mut shapes = Vec::new(alloc);
    let mut seed = 12_345u32;
    for number in 0..count {
        let mut sides = [0i64; 4];
        for side in &mut sides {
            seed = seed.wrapping_mul(1_664_525).wrapping_add(1_013_904_223);
            *side = i64::from(seed >> 16);
        }
        let [x, y, width, height] = sides;
        let (x, y) = (x % 2000, y % 2000);
        let shape = Shape {
            number,
            layer: number % layers,
            rect: rect(rt, (x, y, x + 1 + width % 100, y + 1 + height % 100)),
        };
        shapes.push(shape).expect(rt, "memory");
    }
    shapes
}

/// `count` slim shapes across the whole of a square, and as many small ones in addition.
fn crossed(rt: &impl Abort, alloc: Global, count: usize) -> Vec<Shape> {
    let mut shapes = scattered(rt, alloc, count, 2);
    for number in 0..count {
        let x = (number % 40) as i64 * 50;
        let shape = Shape {
            number: count.saturating_add(number),
            layer: 0,
            rect: rect(rt, (x, 0, x + 10, 2000)),
        };
        shapes.push(shape).expect(rt, "memory");
    }
    shapes
}

fn rects_among(rt: &impl Abort, alloc: Global, shapes: &[Shape]) -> Vec<Rect> {
    let mut rects = Vec::new(alloc);
    for shape in shapes {
        rects.push(shape.rect).expect(rt, "memory");
    }
    rects
}

/// The pairs for which the rule holds, by a loop over all pairs; with no rule, those that overlap.
fn one_by_one(
    rt: &impl Abort,
    alloc: Global,
    shapes: &[Shape],
    rule: Option<&Within>,
) -> Vec<(u32, u32)> {
    assert!(rt; shapes.len() <= 3000);
    let mut found = Vec::new(alloc);
    for i in 0..shapes.len() {
        for j in i + 1..shapes.len() {
            let holds = match rule {
                Some(rule) => rule.holds(&shapes[i], &shapes[j]),
                None => shapes[i].rect.overlaps(&shapes[j].rect),
            };
            if holds {
                found.push((i as u32, j as u32)).expect(rt, "memory");
            }
        }
    }
    found
}

/// The pairs of shapes of one layer that are within the reach.
fn pairs_within(
    rt: &impl Abort,
    alloc: Global,
    shapes: &[Shape],
    reach: u32,
    in_bands: bool,
) -> Vec<(u32, u32)> {
    assert!(rt; shapes.len() < 1000);
    let mut rule = Within::new(reach, 0, &[]);
    let found = if in_bands {
        pairs_in_bands(alloc, shapes, &mut rule)
    } else {
        pairs(alloc, shapes, &mut rule)
    };
    found.expect(rt, "memory")
}

/// Which pairs overlap, and how many tests and looks are made at most to find them.
#[derive(Clone, Copy)]
struct Overlapping<'a> {
    pairs: &'a [(u32, u32)],
    tests: u64,
    looks: u64,
}

fn check_overlaps(
    rt: &impl Abort,
    alloc: Global,
    rects: &[Rect],
    in_bands: bool,
    expected: &Overlapping,
) {
    assert!(rt; rects.len() <= 1_000_000);
    let mut rule = Overlap::new();
    let found = if in_bands {
        pairs_in_bands(alloc, rects, &mut rule)
    } else {
        pairs(alloc, rects, &mut rule)
    };
    let found = found.expect(rt, "memory");
    let (tests, looks) = (rule.tests(), rule.looks());
    let are_few = tests <= expected.tests && looks <= expected.looks;
    assert!(rt;
        are_few && found.as_slice() == expected.pairs,
        "{found:?} by {tests} tests and {looks} looks"
    );
}

#[test]
fn finds_the_two_that_overlap(rt: HostRuntime) {
    static CELLS: [Corners; 3] = [(0, 0, 400, 2000), (399, 0, 799, 2000), (799, 0, 1000, 2000)];
    static PAIRS: [(u32, u32); 1] = [(0, 1)];
    let cells = rects_of(&rt, rt.alloc(), &CELLS);
    assert!(rt; cells.len() == 3);
    let mut rule = Overlap::new();
    let found = pairs_counted(rt.alloc(), &cells, &mut rule).expect(&rt, "memory");
    assert!(rt; found.pairs.as_slice() == PAIRS.as_slice());
    let (tests, looks) = (found.tests, found.looks);
    assert!(rt; tests <= 2 && looks <= 5 && tests == rule.tests() && looks == rule.looks());
}

#[test]
fn no_items_and_one_item_have_no_pairs(rt: HostRuntime) {
    static NONE: Overlapping = Overlapping {
        pairs: &[],
        tests: 0,
        looks: 0,
    };
    let cell = rect(&rt, (0, 0, 400, 2000));
    check_overlaps(&rt, rt.alloc(), &[], false, &NONE);
    check_overlaps(&rt, rt.alloc(), &[cell], false, &NONE);
}

#[test]
fn numbers_go_by_the_list_and_not_by_the_left_edges(rt: HostRuntime) {
    static CELLS: [Corners; 4] = [
        (900, 0, 1000, 10),
        (0, 0, 500, 10),
        (450, 5, 950, 15),
        (0, 9, 10, 19),
    ];
    static EXPECTED: Overlapping = Overlapping {
        pairs: &[(0, 2), (1, 2), (1, 3)],
        tests: 6,
        looks: 10,
    };
    let cells = rects_of(&rt, rt.alloc(), &CELLS);
    check_overlaps(&rt, rt.alloc(), &cells, false, &EXPECTED);
}

#[test]
fn an_item_stays_for_the_reach_behind_its_right_edge(rt: HostRuntime) {
    static PLACES: [Corners; 4] = [
        (0, 0, 100, 100),
        (150, 300, 160, 400),
        (190, 0, 290, 100),
        (391, 0, 400, 100),
    ];
    static PAIRS: [(u32, u32); 1] = [(0, 2)];
    let mut shapes = Vec::new(rt.alloc());
    for (number, corners) in PLACES.iter().enumerate() {
        let shape = Shape {
            number,
            layer: 0,
            rect: rect(&rt, *corners),
        };
        shapes.push(shape).expect(&rt, "memory");
    }
    let found = pairs_within(&rt, rt.alloc(), &shapes, 100, false);
    assert!(rt; found.as_slice() == PAIRS.as_slice());
}

#[test]
fn the_same_overlaps_as_one_by_one(rt: HostRuntime) {
    let shapes = scattered(&rt, rt.alloc(), 400, 1);
    let rects = rects_among(&rt, rt.alloc(), &shapes);
    let pairs = one_by_one(&rt, rt.alloc(), &shapes, None);
    assert!(rt; !pairs.is_empty());
    let expected = Overlapping {
        pairs: &pairs,
        tests: 400 * 399 / 2,
        looks: 400 * 401 / 2,
    };
    check_overlaps(&rt, rt.alloc(), &rects, false, &expected);
}

fn check_within(rt: &impl Abort, alloc: Global, count: usize, reach: u32) {
    let shapes = scattered(rt, alloc, count, 1);
    let found = pairs_within(rt, alloc, &shapes, reach, false);
    let wanted = one_by_one(rt, alloc, &shapes, Some(&Within::new(reach, 0, &[])));
    assert!(rt; found.as_slice() == wanted.as_slice(), "at {count} {reach}");
}

#[test]
fn the_same_as_one_by_one(rt: HostRuntime) {
    static CASES: [(usize, u32); 5] = [(40, 0), (200, 0), (200, 30), (300, 500), (100, 5000)];
    for (count, reach) in &CASES {
        check_within(&rt, rt.alloc(), *count, *reach);
    }
}

/// How often each of `count` pairs of numbers was asked about: not yet.
fn unasked(rt: &impl Abort, alloc: Global, count: usize) -> Vec<Cell<u32>> {
    let mut asked = Vec::new(alloc);
    for _ in 0..count {
        asked.push(Cell::new(0)).expect(rt, "memory");
    }
    asked
}

/// Whether this many questions were asked, none of them twice.
fn were_asked_once(asked: &[Cell<u32>], count: u64) -> bool {
    let mut total = 0u64;
    for times in asked {
        if times.get() > 1 {
            return false;
        }
        total = total.wrapping_add(u64::from(times.get()));
    }
    total == count
}

/// A search for the pairs of a rule.
#[derive(Clone, Copy)]
enum Search {
    Pairs,
    InBands,
    Each,
}

/// That the search finds pairs among the shapes, and asks of some pairs, of each of them once.
fn check_asked_once(rt: &impl Abort, alloc: Global, shapes: &[Shape], reach: u32, search: Search) {
    let count = shapes.len();
    assert!(rt; 0 < count && count <= 300);
    let asked = unasked(rt, alloc, count * count);
    let mut rule = Within::new(reach, count, &asked);
    let found = match search {
        Search::Pairs => pairs(alloc, shapes, &mut rule),
        Search::InBands => pairs_in_bands(alloc, shapes, &mut rule),
        Search::Each => {
            let mut found = Vec::new(alloc);
            each_pair(alloc, shapes, &mut rule, &mut found).map(|()| found)
        }
    };
    let found = found.expect(rt, "memory");
    let (tests, all) = (rule.tests(), (count * (count - 1) / 2) as u64);
    assert!(rt; were_asked_once(&asked, tests) && !found.is_empty() && tests < all);
}

#[test]
fn asked_once(rt: HostRuntime) {
    for search in [Search::Pairs, Search::InBands, Search::Each] {
        for (count, reach) in [(3, 400), (9, 800)] {
            let few = scattered(&rt, rt.alloc(), count, 1);
            check_asked_once(&rt, rt.alloc(), &few, reach, search);
        }
        let many = crossed(&rt, rt.alloc(), 75);
        check_asked_once(&rt, rt.alloc(), &many, 200, search);
        // Here bands have many items that wait.
        let waiting = of_two_classes(&rt, rt.alloc(), 300, 1);
        check_asked_once(&rt, rt.alloc(), &waiting, 2, search);
    }
}

/// That none of a million rectangles overlaps another, and that this takes no test and few looks.
fn check_wide(rt: &impl Abort, alloc: Global, rects: &[Rect]) {
    static NONE: Overlapping = Overlapping {
        pairs: &[],
        tests: 0,
        looks: 1_000_000,
    };
    // One look in addition for each 32 rectangles, to see whether many wait.
    static NONE_IN_BANDS: Overlapping = Overlapping {
        pairs: &[],
        tests: 0,
        looks: 1_000_000 + 1_000_000 / 32,
    };
    assert!(rt; rects.len() == 1_000_000);
    check_overlaps(rt, alloc, rects, false, &NONE);
    check_overlaps(rt, alloc, rects, true, &NONE_IN_BANDS);
}

#[test]
fn wide(rt: HostRuntime) {
    let mut cells = Vec::new(rt.alloc());
    for place in 0..1_000_000u32 {
        let left = i64::from(4 * place);
        let cell = rect(&rt, (left, 0, left + 2, 2));
        cells.push(cell).expect(&rt, "memory");
    }
    check_wide(&rt, rt.alloc(), &cells);
}

#[test]
fn wide_from_right_to_left(rt: HostRuntime) {
    let mut cells = Vec::new(rt.alloc());
    for place in 0..1_000_000u32 {
        let left = i64::from(100 * (999_999 - place));
        let cell = rect(&rt, (left, 0, left + 50, 10));
        cells.push(cell).expect(&rt, "memory");
    }
    check_wide(&rt, rt.alloc(), &cells);
}

/// Two tall rectangles, and a row of small ones side by side, on which the tall ones stand.
fn tall_and_small(rt: &impl Abort, alloc: Global) -> Vec<Rect> {
    let mut rects = Vec::new(alloc);
    for place in 0..2u32 {
        let left = 100_000 * i64::from(place);
        let tall = rect(rt, (left, 0, left + 400, 1_000_000));
        rects.push(tall).expect(rt, "memory");
    }
    for place in 0..2000u32 {
        let left = 400 * i64::from(place);
        let small = rect(rt, (left, 0, left + 400, 2000));
        rects.push(small).expect(rt, "memory");
    }
    rects
}

#[test]
fn few_looks_at_tall_items_among_small_ones(rt: HostRuntime) {
    static EXPECTED: Overlapping = Overlapping {
        pairs: &[(0, 2), (1, 252)],
        tests: 2004,
        looks: 4 * 2002 + 2004,
    };
    let rects = tall_and_small(&rt, rt.alloc());
    check_overlaps(&rt, rt.alloc(), &rects, true, &EXPECTED);
}

/// A row of 400 rectangles side by side at each of `count` heights.
fn rows(rt: &impl Abort, alloc: Global, count: u32) -> Vec<Rect> {
    let mut rects = Vec::new(alloc);
    for row in 0..count {
        for place in 0..400u32 {
            let (x, y) = (400 * i64::from(place), 2000 * i64::from(row));
            let cell = rect(rt, (x, y, x + 400, y + 2000));
            rects.push(cell).expect(rt, "memory");
        }
    }
    rects
}

/// A number of rows whose rectangles don't overlap, with the numbers of tests and looks at most, and of looks in bands.
#[derive(Clone, Copy)]
struct RowCase {
    count: u32,
    tests: u64,
    looks: u64,
    looks_in_bands: u64,
}

fn check_rows(rt: &impl Abort, alloc: Global, case: RowCase) {
    let rects = rows(rt, alloc, case.count);
    let mut expected = Overlapping {
        pairs: &[],
        tests: case.tests,
        looks: case.looks,
    };
    check_overlaps(rt, alloc, &rects, false, &expected);
    expected.looks = case.looks_in_bands;
    check_overlaps(rt, alloc, &rects, true, &expected);
}

#[test]
fn few_looks_in_rows(rt: HostRuntime) {
    static ONE: RowCase = RowCase {
        count: 1,
        tests: 399,
        looks: 799,
        looks_in_bands: 10 * 400,
    };
    static MANY: RowCase = RowCase {
        count: 20,
        tests: 30_742,
        looks: 243_600,
        looks_in_bands: 10 * 8000,
    };
    check_rows(&rt, rt.alloc(), ONE);
    check_rows(&rt, rt.alloc(), MANY);
}

/// That the pairs in bands are those of the sweep, and that there are some among many shapes.
fn check_bands(rt: &impl Abort, alloc: Global, shapes: &[Shape], reach: u32) {
    let found = pairs_within(rt, alloc, shapes, reach, true);
    let wanted = pairs_within(rt, alloc, shapes, reach, false);
    let count = shapes.len();
    assert!(rt; found.as_slice() == wanted.as_slice(), "at {count} {reach}");
    assert!(rt; count < 100 || !found.is_empty());
}

#[test]
fn the_same_in_bands(rt: HostRuntime) {
    // How many shapes there are, on how many layers, and the reach.
    static CASES: [(usize, usize, u32); 8] = [
        (0, 1, 0),
        (1, 1, 5),
        (6, 2, 1000),
        (9, 1, 800),
        (40, 2, 0),
        (300, 3, 30),
        (300, 1, 500),
        (100, 5, 5000),
    ];
    for (count, layers, reach) in &CASES {
        let shapes = scattered(&rt, rt.alloc(), *count, *layers);
        check_bands(&rt, rt.alloc(), &shapes, *reach);
    }
}

#[test]
fn the_same_where_items_stand_in_many_bands(rt: HostRuntime) {
    check_bands(&rt, rt.alloc(), &crossed(&rt, rt.alloc(), 5), 20);
    check_bands(&rt, rt.alloc(), &crossed(&rt, rt.alloc(), 100), 20);
}

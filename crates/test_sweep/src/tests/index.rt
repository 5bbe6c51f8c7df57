//! What an index finds near a rectangle, against a look at each one.

use super::{crossed, rect, rects_among};
use leg_geom::Rect;
use leg_sweep::BinIndex;
use std::alloc::Global;
use std::process::Abort;

/// The numbers of what is near, each once, in order.
fn near_numbers(
    rt: &impl Abort,
    alloc: Global,
    index: &BinIndex<Global>,
    rect: &Rect,
    reach: u32,
) -> Vec<u32> {
    let mut numbers = Vec::new(alloc);
    for number in index.near(rect, reach) {
        numbers.push(number).expect(rt, "memory");
    }
    numbers.sort_unstable();
    numbers.dedup();
    numbers
}

/// The same, by a look at each rectangle.
fn one_by_one(rt: &impl Abort, alloc: Global, rects: &[Rect], rect: &Rect, reach: u32) -> Vec<u32> {
    assert!(rt; rects.len() < 1000);
    let reach = u64::from(reach);
    let mut numbers = Vec::new(alloc);
    for (number, other) in rects.iter().enumerate() {
        if rect.x_gap(other) <= reach && rect.y_gap(other) <= reach {
            numbers.push(number as u32).expect(rt, "memory");
        }
    }
    numbers
}

fn check_near(
    rt: &impl Abort,
    alloc: Global,
    index: &BinIndex<Global>,
    rect: &Rect,
    reach: u32,
    expected: &[u32],
) {
    let found = near_numbers(rt, alloc, index, rect, reach);
    assert!(rt;
        found.as_slice() == expected,
        "near {rect:?} at {reach}: {found:?}"
    );
}

#[test]
fn finds_what_was_added(rt: HostRuntime) {
    static FIRST: [u32; 1] = [0];
    static BOTH: [u32; 2] = [0, 1];
    let first = rect(&rt, (0, 0, 100, 100));
    let mut index = BinIndex::build(rt.alloc(), &[first]).expect(&rt, "memory");
    assert!(rt; index.len() == 1);
    let number = index
        .add(rect(&rt, (200, 0, 300, 100)))
        .expect(&rt, "memory");
    assert!(rt; number == 1 && index.len() == 2);
    check_near(&rt, rt.alloc(), &index, &first, 100, &BOTH);
    check_near(&rt, rt.alloc(), &index, &first, 99, &FIRST);
}

#[test]
fn at_the_ends_of_the_plane(rt: HostRuntime) {
    static LOW: [u32; 1] = [0];
    static BOTH: [u32; 2] = [0, 1];
    static HIGH: [u32; 1] = [2];
    const END: i64 = 10_000_000_000;
    const REACH: u32 = 2_000_000_000;
    let low = rect(&rt, (-END, -END, 1 - END, 1 - END));
    let left = 1 - END + i64::from(REACH);
    let other = rect(&rt, (left, left, left + 1, left + 1));
    let high = rect(&rt, (END - 1, END - 1, END, END));
    let index = BinIndex::build(rt.alloc(), &[low, other, high]).expect(&rt, "memory");
    check_near(&rt, rt.alloc(), &index, &low, REACH, &BOTH);
    check_near(&rt, rt.alloc(), &index, &low, REACH - 1, &LOW);
    check_near(&rt, rt.alloc(), &index, &high, u32::MAX, &HIGH);
}

#[test]
fn a_few_units_apart(rt: HostRuntime) {
    static FIRST: [u32; 1] = [0];
    static BOTH: [u32; 2] = [0, 1];
    let first = rect(&rt, (0, 0, 1, 1));
    let second = rect(&rt, (3, 4, 4, 5));
    let index = BinIndex::build(rt.alloc(), &[first, second]).expect(&rt, "memory");
    check_near(&rt, rt.alloc(), &index, &first, 3, &BOTH);
    check_near(&rt, rt.alloc(), &index, &first, 2, &FIRST);
}

/// That a search finds this number alone, and looks at it fewer than a hundred times.
fn check_alone(rt: &impl Abort, index: &BinIndex<Global>, rect: &Rect, place: usize) {
    let mut times = 0u32;
    for number in index.near(rect, 100) {
        assert!(rt; number as usize == place && times < 100);
        times += 1;
    }
    assert!(rt; 0 < times);
}

#[test]
fn far_left_out(rt: HostRuntime) {
    let mut rects = Vec::new(rt.alloc());
    for place in 0..200_000u32 {
        let left = 4000 * i64::from(place);
        let far = rect(&rt, (left, 0, left + 100, 100));
        rects.push(far).expect(&rt, "memory");
    }
    assert!(rt; rects.len() == 200_000);
    let index = BinIndex::build(rt.alloc(), &rects).expect(&rt, "memory");
    for (place, rect) in rects.iter().enumerate() {
        check_alone(&rt, &index, rect, place);
    }
}

/// An index that is built over the first rectangles, and to which the others are added.
fn grown_index(rt: &impl Abort, alloc: Global, rects: &[Rect], built: usize) -> BinIndex<Global> {
    assert!(rt; built <= rects.len() && rects.len() < 1000);
    let mut index = BinIndex::build(alloc, &rects[..built]).expect(rt, "memory");
    for rect in &rects[built..] {
        assert!(rt; index.len() < rects.len());
        index.add(*rect).expect(rt, "memory");
    }
    index
}

#[test]
fn the_same_as_one_by_one(rt: HostRuntime) {
    // How many rectangles the index is built over, and the reach.
    static CASES: [(usize, u32); 5] = [(0, 0), (1, 30), (130, 100), (200, 700), (400, 2000)];
    let shapes = crossed(&rt, rt.alloc(), 200);
    let rects = rects_among(&rt, rt.alloc(), &shapes);
    assert!(rt; rects.len() == 400);
    for (built, reach) in &CASES {
        check_grown(&rt, rt.alloc(), &rects, *built, *reach);
    }
}

fn check_grown(rt: &impl Abort, alloc: Global, rects: &[Rect], built: usize, reach: u32) {
    let index = grown_index(rt, alloc, rects, built);
    for rect in rects {
        let wanted = one_by_one(rt, alloc, rects, rect, reach);
        check_near(rt, alloc, &index, rect, reach, &wanted);
    }
}

//! The pairs among items of two very different heights on one layer, where bands have many items that wait.

use super::rules::{Overlap, Shape, Within};
use super::{one_by_one, rect};
use leg_geom::Rect;
use leg_sweep::{PairRule, pairs_in_bands};
use std::alloc::Global;
use std::process::Abort;

/// Flat rectangles on one another, and beside them half as many tall ones, which are as high as all of those: 1,500 times
/// `count` in all. The first tall one touches all flat ones.
fn flat_and_tall(rt: &impl Abort, alloc: Global, count: u32) -> Vec<Rect> {
    let flat = 1000 * i64::from(count);
    let mut rects = Vec::new(alloc);
    for place in 0..flat {
        let lying = rect(rt, (0, place, 1000, place + 1));
        rects.push(lying).expect(rt, "memory");
    }
    for place in 0..flat / 2 {
        let upright = rect(rt, (1000 + place, 0, 1001 + place, flat));
        rects.push(upright).expect(rt, "memory");
    }
    rects
}

#[test]
fn few_looks_at_flat_and_tall_items(rt: HostRuntime) {
    let rects = flat_and_tall(&rt, rt.alloc(), 4);
    assert!(&rt; rects.len() == 6000);
    let mut rule = Overlap::new();
    let found = pairs_in_bands(rt.alloc(), &rects, &mut rule).expect(&rt, "memory");
    let (tests, looks) = (rule.tests(), rule.looks());
    assert!(&rt;
        found.is_empty() && tests <= 10_000 && looks <= 4 * 6000,
        "{tests} tests, {looks} looks"
    );
}

/// `count` shapes in turn on each of some layers: every second one is flat, and the others are tall and lie above most of the
/// flat ones. By a fixed rule that looks random.
pub(super) fn of_two_classes(
    rt: &impl Abort,
    alloc: Global,
    count: usize,
    layers: usize,
) -> Vec<Shape> {
    assert!(rt; 0 < layers);
    let mut shapes = Vec::new(alloc);
    let mut seed = 12_345u32;
    for number in 0..count {
        let mut sides = [0i64; 4];
        for side in &mut sides {
            seed = seed.wrapping_mul(1_664_525).wrapping_add(1_013_904_223);
            *side = i64::from(seed >> 16);
        }
        let [x, y, long, short] = sides;
        let (long, short) = (1500 + long % 500, 1 + short % 3);
        let corners = if number / layers % 2 == 0 {
            let (left, bottom) = (x % 500, y % 500);
            (left, bottom, left + long, bottom + short)
        } else {
            let (left, bottom) = (300 + x % 1400, 400 + y % 300);
            (left, bottom, left + short, bottom + long)
        };
        let shape = Shape {
            number,
            layer: number % layers,
            rect: rect(rt, corners),
        };
        shapes.push(shape).expect(rt, "memory");
    }
    shapes
}

/// That the pairs are those of a loop over all pairs, found by the search that is wanted: a sweep takes more looks than one for
/// each test and two for each item.
fn check_two_classes(rt: &impl Abort, alloc: Global, shapes: &[Shape], reach: u32, crowded: bool) {
    assert!(rt; shapes.len() <= 3000);
    let mut rule = Within::new(reach, 0, &[]);
    let found = pairs_in_bands(alloc, shapes, &mut rule).expect(rt, "memory");
    let wanted = one_by_one(rt, alloc, shapes, Some(&rule));
    let (count, tests, looks) = (shapes.len(), rule.tests(), rule.looks());
    let few = looks <= tests.saturating_add(2 * count as u64);
    assert!(rt; found.as_slice() == wanted.as_slice(), "at {count} {reach}");
    assert!(rt;
        few == crowded && !found.is_empty(),
        "at {count} {reach}: {tests} tests, {looks} looks"
    );
}

#[test]
fn the_same_among_two_classes(rt: HostRuntime) {
    // How many shapes there are, on how many layers, the reach, and whether so many wait that there is no sweep.
    static CASES: [(usize, usize, u32, bool); 7] = [
        (50, 1, 2, false),
        (200, 1, 0, false),
        (300, 1, 2, true),
        (400, 2, 5, false),
        (1000, 1, 0, true),
        (1500, 1, 7, true),
        (2500, 2, 3, true),
    ];
    for (count, layers, reach, crowded) in &CASES {
        let shapes = of_two_classes(&rt, rt.alloc(), *count, *layers);
        check_two_classes(&rt, rt.alloc(), &shapes, *reach, *crowded);
    }
}

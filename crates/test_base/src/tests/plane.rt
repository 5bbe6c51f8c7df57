//! Points and rectangles by worked values.

use leg_geom::{Orient, Place, Point, Rect};

/// The left, lower, right and upper side of a rectangle.
type RectModel = [i64; 4];

const CELL: RectModel = [0, 0, 400, 2000];

fn rect(sides: &RectModel) -> Option<Rect> {
    let [x1, y1, x2, y2] = *sides;
    Rect::new(x1, y1, x2, y2)
}

fn has_sides(rect: &Rect, sides: &RectModel) -> bool {
    [rect.x1(), rect.y1(), rect.x2(), rect.y2()] == *sides
}

fn is_at(point: &Point, x: i64, y: i64) -> bool {
    point.x() == x && point.y() == y
}

#[test]
fn a_point_is_within_the_limit(rt: HostRuntime) {
    let corner = Point::new(10_000_000_000, -10_000_000_000);
    assert!(rt; corner.is_some_and(|corner| is_at(&corner, 10_000_000_000, -10_000_000_000)));
    assert!(rt; Point::new(10_000_000_001, 0).is_none());
    assert!(rt; Point::new(0, -10_000_000_001).is_none());
}

#[test]
fn a_rectangle_has_area_within_the_limit(rt: HostRuntime) {
    for sides in [
        [5, 0, 5, 9],
        [0, 9, 9, 9],
        [9, 0, 5, 9],
        [0, 9, 9, 0],
        [0, 0, 10_000_000_001, 9],
        [-10_000_000_001, 0, 9, 9],
        [0, 0, 9, 10_000_000_001],
        [0, -10_000_000_001, 9, 9],
        [i64::MIN, i64::MIN, i64::MAX, i64::MAX],
    ] {
        assert!(rt; rect(&sides).is_none());
    }
    let whole = [
        -10_000_000_000,
        -9_999_999_999,
        9_999_999_998,
        10_000_000_000,
    ];
    assert!(rt; rect(&whole).is_some_and(|rect| has_sides(&rect, &whole)));
}

/// Whether another rectangle overlaps the cell, if that is so in either order.
fn overlaps(other: &RectModel) -> Option<bool> {
    let (cell, other) = (rect(&CELL)?, rect(other)?);
    let found = cell.overlaps(&other);
    (other.overlaps(&cell) == found).then_some(found)
}

#[test]
fn rectangles_that_abut_do_not_overlap(rt: HostRuntime) {
    for (other, found) in [
        ([400, 0, 800, 2000], false),
        ([399, 0, 799, 2000], true),
        ([0, 2000, 400, 4000], false),
        ([0, 1999, 400, 3999], true),
        ([400, 2000, 800, 4000], false),
        ([100, 100, 101, 101], true),
        ([0, 0, 400, 2000], true),
    ] {
        assert!(rt; overlaps(&other) == Some(found));
    }
}

/// Whether another rectangle shares a point with the cell and whether it touches it, if both are so in either order.
fn meets(other: &RectModel) -> Option<(bool, bool)> {
    let (cell, other) = (rect(&CELL)?, rect(other)?);
    let found = (cell.shares_point(&other), cell.touches(&other));
    ((other.shares_point(&cell), other.touches(&cell)) == found).then_some(found)
}

#[test]
fn rectangles_touch_along_more_than_a_corner(rt: HostRuntime) {
    for (other, shares_point, touches) in [
        ([400, 2000, 800, 4000], true, false),
        ([-400, 2000, 0, 4000], true, false),
        ([400, 1999, 800, 4000], true, true),
        ([400, 0, 800, 2000], true, true),
        ([100, 2000, 101, 4000], true, true),
        ([401, 0, 801, 2000], false, false),
        ([0, 2001, 400, 4001], false, false),
        ([100, 100, 200, 200], true, true),
    ] {
        assert!(rt; meets(&other) == Some((shares_point, touches)));
    }
}

fn contains(other: &RectModel) -> Option<bool> {
    Some(rect(&CELL)?.contains(&rect(other)?))
}

#[test]
fn a_rectangle_contains_what_is_within_its_border(rt: HostRuntime) {
    for (other, found) in [
        ([0, 0, 400, 2000], true),
        ([1, 1, 399, 1999], true),
        ([0, 0, 401, 2000], false),
        ([0, 0, 400, 2001], false),
        ([-1, 0, 400, 2000], false),
        ([0, -1, 400, 2000], false),
    ] {
        assert!(rt; contains(&other) == Some(found));
    }
}

/// The gaps along x and y between two rectangles, if they are the same in either order.
fn gaps(one: &RectModel, other: &RectModel) -> Option<(u64, u64)> {
    let (one, other) = (rect(one)?, rect(other)?);
    let found = (one.x_gap(&other), one.y_gap(&other));
    ((other.x_gap(&one), other.y_gap(&one)) == found).then_some(found)
}

#[test]
fn gaps_lie_between_the_nearest_edges(rt: HostRuntime) {
    for (other, x_gap, y_gap) in [
        ([499, 0, 899, 2000], 99, 0),
        ([400, 2000, 800, 4000], 0, 0),
        ([-500, -2100, -100, -100], 100, 100),
        ([100, 2007, 300, 4007], 0, 7),
    ] {
        assert!(rt; gaps(&CELL, &other) == Some((x_gap, y_gap)));
    }
    let left = [-10_000_000_000, 0, -9_999_999_999, 1];
    let right = [9_999_999_999, 0, 10_000_000_000, 1];
    assert!(rt; gaps(&left, &right) == Some((19_999_999_998, 0)));
}

/// The squared gap of two rectangles, if it is the same in either order.
fn gap2(one: &RectModel, other: &RectModel) -> Option<i128> {
    let (one, other) = (rect(one)?, rect(other)?);
    let found = one.gap2(&other);
    (other.gap2(&one) == found).then_some(found)
}

#[test]
fn the_squared_gap_is_that_of_the_nearest_points(rt: HostRuntime) {
    for (other, found) in [
        ([399, 1999, 800, 4000], 0),
        ([400, 2000, 800, 4000], 0),
        ([403, 2004, 800, 4000], 25),
        ([403, 1000, 800, 4000], 9),
        ([-500, -2100, -100, -100], 20_000),
        ([100, 2007, 300, 4007], 49),
    ] {
        assert!(rt; gap2(&CELL, &other) == Some(found));
    }
    let low = [-1_000_000_000, -1_000_000_000, -999_999_999, -999_999_999];
    let high = [999_999_999, 999_999_999, 1_000_000_000, 1_000_000_000];
    assert!(rt; gap2(&low, &high) == Some(7_999_999_984_000_000_008));
    let low = [
        -10_000_000_000,
        -10_000_000_000,
        -9_999_999_999,
        -9_999_999_999,
    ];
    let high = [9_999_999_999, 9_999_999_999, 10_000_000_000, 10_000_000_000];
    assert!(rt; gap2(&low, &high) == Some(799_999_999_840_000_000_008));
}

fn has_its_centre_at(sides: &RectModel, x: i64, y: i64) -> bool {
    match rect(sides) {
        Some(rect) => is_at(&rect.centre(), x, y),
        None => false,
    }
}

#[test]
fn a_centre_is_rounded_down(rt: HostRuntime) {
    for (sides, x, y) in [
        ([0, 0, 400, 2000], 200, 1000),
        ([0, 0, 401, 2001], 200, 1000),
        ([-401, -2001, 0, 0], -201, -1001),
        ([-1, -4, 0, 1], -1, -2),
        ([-2, -1, 1, 2], -1, 0),
        (
            [
                9_999_999_997,
                -10_000_000_000,
                10_000_000_000,
                -9_999_999_999,
            ],
            9_999_999_998,
            -10_000_000_000,
        ),
    ] {
        assert!(rt; has_its_centre_at(&sides, x, y));
    }
}

#[test]
fn rectangles_compare_by_their_corners(rt: HostRuntime) {
    assert!(rt; rect(&CELL) == rect(&CELL));
    assert!(rt; rect(&[0, 0, 400, 2001]) != rect(&CELL));
}

/// Whether the orientation takes the point at 50, 850 of the cell to this one.
fn takes_point_to(orient: Orient, x: i64, y: i64) -> bool {
    match Point::new(50, 850) {
        Some(point) => is_at(&orient.apply(400, 2000, point), x, y),
        None => false,
    }
}

#[test]
fn orientations_take_points_within_the_oriented_box(rt: HostRuntime) {
    for (orient, x, y) in [
        (Orient::N, 50, 850),
        (Orient::S, 350, 1150),
        (Orient::W, 1150, 50),
        (Orient::E, 850, 350),
        (Orient::FN, 350, 850),
        (Orient::FS, 50, 1150),
        (Orient::FW, 850, 50),
        (Orient::FE, 1150, 350),
    ] {
        assert!(rt; takes_point_to(orient, x, y));
    }
}

#[test]
fn mirroring_flips_an_orientation_and_back(rt: HostRuntime) {
    for (plain, flipped) in [
        (Orient::N, Orient::FN),
        (Orient::S, Orient::FS),
        (Orient::W, Orient::FW),
        (Orient::E, Orient::FE),
    ] {
        assert!(rt; plain.mirror_y() == flipped && flipped.mirror_y() == plain);
    }
}

/// Whether a place at the lower left corner of the die takes a pin of the cell to this rectangle.
fn takes_pin_to(orient: Orient, sides: &RectModel) -> bool {
    match (Rect::new(50, 850, 150, 1050), Point::new(0, 0)) {
        (Some(pin), Some(at)) => has_sides(&Place { at, orient }.rect(400, 2000, &pin), sides),
        _ => false,
    }
}

#[test]
fn places_take_rectangles_to_the_oriented_box(rt: HostRuntime) {
    for (orient, sides) in [
        (Orient::N, [50, 850, 150, 1050]),
        (Orient::S, [250, 950, 350, 1150]),
        (Orient::W, [950, 50, 1150, 150]),
        (Orient::E, [850, 250, 1050, 350]),
        (Orient::FN, [250, 850, 350, 1050]),
        (Orient::FS, [50, 950, 150, 1150]),
        (Orient::FW, [850, 50, 1050, 150]),
        (Orient::FE, [950, 250, 1150, 350]),
    ] {
        assert!(rt; takes_pin_to(orient, &sides));
    }
}

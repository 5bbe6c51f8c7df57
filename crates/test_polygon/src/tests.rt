//! Polygons whose slabs were drawn by hand.

use crate::shapes::{comb, spiral, stairs};
use leg_polygon::{PolygonFault, Slab, Vertex, slabs};
use std::alloc::{AllocError, Global};
use std::process::Abort;

/// Whether the polygon with these points has these slabs.
fn has(alloc: Global, points: &[Vertex], expected: &[Slab]) -> bool {
    match slabs(alloc, points, expected.len()) {
        Ok(found) => found.as_slice() == expected,
        Err(_) => false,
    }
}

/// How many slabs the polygon with these points has, where it may have at most so many.
fn count(
    alloc: Global,
    points: Result<Vec<Vertex, Global>, AllocError>,
    limit: usize,
) -> Result<usize, PolygonFault> {
    let points = points?;
    let slabs = slabs(alloc, &points, limit)?;
    Ok(slabs.len())
}

fn at(x: i64, y: i64) -> Vertex {
    Vertex { x, y }
}

fn slab(x1: i64, y1: i64, x2: i64, y2: i64) -> Slab {
    Slab { x1, y1, x2, y2 }
}

#[test]
fn corners_alone(rt: HostRuntime) {
    let alloc = rt.alloc();
    let l = [
        at(0, 0),
        at(20, 0),
        at(20, 10),
        at(10, 10),
        at(10, 20),
        at(0, 20),
    ];
    assert!(rt; has(alloc, &l, &[slab(0, 0, 20, 10), slab(0, 10, 10, 20)]));
    let u = [
        at(0, 0),
        at(30, 0),
        at(30, 20),
        at(20, 20),
        at(20, 10),
        at(10, 10),
        at(10, 20),
        at(0, 20),
    ];
    let of_u = [
        slab(0, 0, 30, 10),
        slab(0, 10, 10, 20),
        slab(20, 10, 30, 20),
    ];
    assert!(rt; has(alloc, &u, &of_u));
}

#[test]
fn points_passed_over(rt: HostRuntime) {
    let alloc = rt.alloc();
    // Closed by its first point, with one in the middle of two sides, and one that is repeated.
    let square = [
        at(0, 0),
        at(5, 0),
        at(10, 0),
        at(10, 5),
        at(10, 5),
        at(10, 10),
        at(0, 10),
        at(0, 0),
    ];
    assert!(rt; has(alloc, &square, &[slab(0, 0, 10, 10)]));
    // Begun in the middle of a side.
    let begun = [at(0, 5), at(0, -7), at(10, -7), at(10, 10), at(0, 10)];
    assert!(rt; has(alloc, &begun, &[slab(0, -7, 10, 10)]));
}

#[test]
fn sides_that_meet(rt: HostRuntime) {
    let alloc = rt.alloc();
    // A square with a square hole, to which the walk goes and from which it comes along one line.
    let ring = [
        at(0, 0),
        at(30, 0),
        at(30, 30),
        at(0, 30),
        at(0, 10),
        at(10, 10),
        at(10, 20),
        at(20, 20),
        at(20, 10),
        at(0, 10),
    ];
    let of_ring = [
        slab(0, 0, 30, 10),
        slab(0, 10, 10, 20),
        slab(20, 10, 30, 20),
        slab(0, 20, 30, 30),
    ];
    assert!(rt; has(alloc, &ring, &of_ring));
    // A side within the square that is walked up and down again: only the height of its end counts.
    let doubled = [
        at(0, 0),
        at(5, 0),
        at(5, 5),
        at(5, 0),
        at(10, 0),
        at(10, 10),
        at(0, 10),
    ];
    assert!(rt; has(alloc, &doubled, &[slab(0, 0, 10, 5), slab(0, 5, 10, 10)]));
    // A walk that crosses itself.
    let eight = [
        at(0, 0),
        at(10, 0),
        at(10, 20),
        at(20, 20),
        at(20, 10),
        at(0, 10),
    ];
    assert!(rt; has(alloc, &eight, &[slab(0, 0, 10, 10), slab(10, 10, 20, 20)]));
}

#[test]
fn the_widest(rt: HostRuntime) {
    let (low, high) = (i64::MIN, i64::MAX);
    let square = [at(low, low), at(high, low), at(high, high), at(low, high)];
    assert!(rt; has(rt.alloc(), &square, &[slab(low, low, high, high)]));
}

#[test]
fn refused(rt: HostRuntime) {
    let alloc = rt.alloc();
    let slanted = [at(0, 0), at(10, 10), at(0, 10)];
    assert!(rt; slabs(alloc, &slanted, 0).is_err_and(|fault| fault == PolygonFault::Slanted));
    let flat = [at(0, 0), at(10, 0), at(10, 5), at(10, 0)];
    assert!(rt; slabs(alloc, &flat, 0).is_err_and(|fault| fault == PolygonFault::Empty));
    assert!(rt; slabs(alloc, &[at(3, 4)], 0).is_err_and(|fault| fault == PolygonFault::Empty));
    assert!(rt; slabs(alloc, &[], 0).is_err_and(|fault| fault == PolygonFault::Empty));
}

#[test]
fn as_many_as_there_may_be(rt: HostRuntime) {
    let alloc = rt.alloc();
    // The bar, and in the row below each height all teeth that reach it.
    assert!(rt; count(alloc, comb(alloc, 100), 5_051).is_ok_and(|slabs| slabs == 5_051));
    assert!(rt;
        count(alloc, comb(alloc, 100), 5_050).is_err_and(|fault| fault == PolygonFault::TooMany)
    );
    // What has too many and a slanted side is slanted.
    let zigzag = [at(0, 0), at(9, 0), at(9, 9), at(0, 5)];
    assert!(rt; slabs(alloc, &zigzag, 0).is_err_and(|fault| fault == PolygonFault::Slanted));
}

#[test]
fn of_many_points(rt: HostRuntime) {
    let alloc = rt.alloc();
    assert!(rt; count(alloc, stairs(alloc, 20_000), 20_000).is_ok_and(|slabs| slabs == 20_000));
    assert!(rt; count(alloc, spiral(alloc, 9), 1_000).is_ok_and(|slabs| slabs == 17));
    assert!(rt; count(alloc, spiral(alloc, 41), 1_000).is_ok_and(|slabs| slabs == 401));
    // These have some millions.
    assert!(rt;
        count(alloc, spiral(alloc, 4_997), 1_000_000).is_err_and(|fault| fault
            == PolygonFault::TooMany)
    );
    assert!(rt;
        count(alloc, comb(alloc, 5_000), 1_000_000).is_err_and(|fault| fault
            == PolygonFault::TooMany)
    );
}

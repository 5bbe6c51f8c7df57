//! Polygons of many points.

use leg_polygon::Vertex;
use std::alloc::{AllocError, Allocator};

/// A comb of so many teeth, each of which is one higher than the tooth to the west of it.
pub(crate) fn comb<A: Allocator>(alloc: A, teeth: u32) -> Result<Vec<Vertex, A>, AllocError> {
    let mut points = Vec::new(alloc);
    points.push(Vertex { x: 0, y: -1 })?;
    points.push(Vertex { x: 0, y: 0 })?;
    for number in 0..teeth {
        let west = 2 * i64::from(number);
        let top = i64::from(number) + 1;
        points.push(Vertex { x: west, y: 0 })?;
        points.push(Vertex { x: west, y: top })?;
        points.push(Vertex {
            x: west + 1,
            y: top,
        })?;
        points.push(Vertex { x: west + 1, y: 0 })?;
    }
    points.push(Vertex {
        x: 2 * i64::from(teeth),
        y: 0,
    })?;
    points.push(Vertex {
        x: 2 * i64::from(teeth),
        y: -1,
    })?;
    Ok(points)
}

/// A flight of so many steps, each one wide and one high.
pub(crate) fn stairs<A: Allocator>(alloc: A, steps: u32) -> Result<Vec<Vertex, A>, AllocError> {
    let mut points = Vec::new(alloc);
    points.push(Vertex {
        x: i64::from(steps),
        y: 0,
    })?;
    points.push(Vertex { x: 0, y: 0 })?;
    for number in 0..steps {
        let west = i64::from(number);
        points.push(Vertex {
            x: west,
            y: west + 1,
        })?;
        points.push(Vertex {
            x: west + 1,
            y: west + 1,
        })?;
    }
    Ok(points)
}

/// The corner after so many quarter turns of a spiral whose sides lie 4 further out with each, moved outward by `out`.
fn turn(number: u32, out: u8) -> Vertex {
    let near = 4 * i64::from(number) + i64::from(out);
    let far = near + 4;
    match number % 4 {
        0 => Vertex { x: far, y: -near },
        1 => Vertex { x: near, y: far },
        2 => Vertex { x: -far, y: near },
        _ => Vertex { x: -near, y: -far },
    }
}

/// A spiral of so many quarter turns, two wide: along its inner sides from the middle outward, and along its outer ones back.
pub(crate) fn spiral<A: Allocator>(alloc: A, turns: u32) -> Result<Vec<Vertex, A>, AllocError> {
    let mut points = Vec::new(alloc);
    for number in 0..turns {
        points.push(turn(number, 0))?;
    }
    let last = turns.saturating_sub(1);
    points.push(Vertex {
        x: turn(last, 2).x,
        y: turn(last, 0).y,
    })?;
    for number in (0..turns).rev() {
        points.push(turn(number, 2))?;
    }
    points.push(Vertex {
        x: turn(0, 0).x,
        y: turn(0, 2).y,
    })?;
    Ok(points)
}

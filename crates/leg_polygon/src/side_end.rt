//! The heights at which the sides of a walk begin and end.

ghost use Rattle.std.specs.Prelude.{◌≡◌, ◌≤◌, ◌<ℤ◌, ◌≤ℤ◌, length, flat_map, IfOk};
ghost use Rattle.std.specs.List.{AllWithin};
ghost use Rattle.std.specs.List.Sorted.{IsPermutation};
ghost use Rattle.leg_polygon.specs.Steps.Sweep.{ends, DoClimb};

use crate::shape::Vertex;
use crate::side::Side;
use std::alloc::{AllocError, Allocator};

/// Where each side begins and ends, at the place of its first point along x.
pub(crate) fn ends<A: Allocator + Copy>(
    alloc: A,
    walk: &[Side],
) -> Result<Vec<Vertex, A>, AllocError>
    ensures { IfOk result (λ v. v.items ≡ flat_map ends walk.now) }
{
    let mut ends = Vec::new(alloc);
    'sides: for side in walk {
        ends.push(side.from)?;
        ends.push(Vertex {
            x: side.from.x,
            y: side.to.y,
        })?;
    }
    Ok(ends)
}

/// Puts the points in the order of their heights, from the bottom up.
pub(crate) fn sort_by_height<A: Allocator>(points: &mut Vec<Vertex, A>)
    ensures same { IsPermutation points.old.items points.new.items }
    ensures in_order { DoClimb points.new.items }
{
    points.sort_unstable_by_key(|point| point.y);
}

/// How many of the points, which stand from the bottom up, stand on the line or below it.
pub(crate) fn count_upto(points: &[Vertex], line: i64) -> usize
    requires { DoClimb points.now }
    ensures bound { result ≤ length points.now }
    ensures upto { AllWithin (λ point. point.y ≤ℤ line) points.now 0 result }
    ensures above { AllWithin (λ point. line <ℤ point.y) points.now result (length points.now) }
{
    points.partition_point(|point| point.y <= line)
}

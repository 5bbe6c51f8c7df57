//! The closed walk through the points of a polygon.

ghost use Rattle.std.specs.Prelude.{◌≡◌, [], ◌∷◌, ◌++◌, map, filter, IfOk, OnOk};
ghost use Rattle.leg_polygon.specs.Walk.{has_length, round, sides, turns};

use crate::shape::Vertex;
use crate::side::Side;
use std::alloc::{AllocError, Allocator};

/// Adds the side between two points, if it has length.
fn add_side<A: Allocator>(
    sides: &mut Vec<Side, A>,
    from: &Vertex,
    to: &Vertex,
) -> Result<(), AllocError>
    ensures { OnOk result (sides.new.items ≡ sides.old.items ++ filter has_length ((from.now, to.now) ∷ [])) }
{
    let side = Side {
        from: *from,
        to: *to,
    };
    if side.has_length() {
        sides.push(side)?;
    }
    Ok(())
}

/// The sides of the closed walk through the points, without those that have no length.
pub(crate) fn sides<A: Allocator + Copy>(
    alloc: A,
    points: &[Vertex],
) -> Result<Vec<Side, A>, AllocError>
    ensures { IfOk result (λ v. v.items ≡ sides points.now) }
{
    let mut sides = Vec::new(alloc);
    if let [first, rest @ ..] = points {
        let mut before = *first;
        'points: for point in rest {
            add_side(&mut sides, &before, point)?;
            before = *point;
        }
        add_side(&mut sides, &before, first)?;
    }
    Ok(sides)
}

/// Adds the point where a side ends and the next one begins, if the walk turns there.
fn add_corner<A: Allocator>(
    corners: &mut Vec<Vertex, A>,
    side: &Side,
    next: &Side,
) -> Result<(), AllocError>
    ensures { OnOk result (corners.new.items ≡ corners.old.items ++ map (λ two. two.0.1) (filter turns ((side.now, next.now) ∷ []))) }
{
    if side.turns(next) {
        corners.push(side.to)?;
    }
    Ok(())
}

/// The points at which the walk along these sides turns.
pub(crate) fn corners<A: Allocator + Copy>(
    alloc: A,
    sides: &[Side],
) -> Result<Vec<Vertex, A>, AllocError>
    ensures { IfOk result (λ v. v.items ≡ map (λ two. two.0.1) (filter turns (round sides.now))) }
{
    let mut corners = Vec::new(alloc);
    if let [first, rest @ ..] = sides {
        let mut before = *first;
        'sides: for side in rest {
            add_corner(&mut corners, &before, side)?;
            before = *side;
        }
        add_corner(&mut corners, &before, first)?;
    }
    Ok(corners)
}

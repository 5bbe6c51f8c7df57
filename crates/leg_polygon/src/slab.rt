//! The slabs of a polygon.

ghost use Rattle.std.specs.Prelude.{◌≡◌, ◌≢◌, ◌<◌, [], true, false, length, map, IfOk, IfErr, IsErrOf, None, Some};
ghost use Rattle.std.specs.List.{list_all};
ghost use Rattle.leg_polygon.specs.Walk.{walk, is_straight};
ghost use Rattle.leg_polygon.specs.Slab.{heights, slabs, slabs_within};

use crate::band::bands;
use crate::fault::PolygonFault;
use crate::number_list::in_order;
use crate::shape::{Slab, Vertex};
use crate::side::Side;
use crate::sweep::all_bands;
use crate::walk::{corners, sides};
use std::alloc::{AllocError, Allocator};

/// The heights of the corners, in their order.
fn all_heights<A: Allocator + Copy>(alloc: A, corners: &[Vertex]) -> Result<Vec<i64, A>, AllocError>
    ensures { IfOk result (λ v. v.items ≡ map (λ point. point.y) corners.now) }
{
    corners.iter().map(|corner| corner.y).collect(alloc)
}

/// The heights of the corners, each once, from the bottom up.
fn heights<A: Allocator + Copy>(alloc: A, corners: &[Vertex]) -> Result<Vec<i64, A>, AllocError>
    ensures { IfOk result (λ v. v.items ≡ heights corners.now) }
{
    Ok(in_order(all_heights(alloc, corners)?))
}

/// Whether each side is horizontal or vertical.
fn are_straight(walk: &[Side]) -> bool
    ensures { result ≡ list_all is_straight walk.now }
{
    walk.iter().all(|side| side.is_straight())
}

/// The slabs of the polygon with these points, from the bottom up, and in each band from west to east, if there are at most so
/// many. The walk goes from point to point and from the last to the first, which may be the same. Refused where a side is
/// slanted (`Slanted`), where there are more slabs (`TooMany`), where no unit square is inside (`Empty`), and where memory is.
pub fn slabs<A: Allocator + Copy>(
    alloc: A,
    points: &[Vertex],
    limit: usize,
) -> Result<Vec<Slab, A>, PolygonFault>
    ensures slabs { IfOk result (λ v. slabs_within limit points.now ≡ Some v.items) }
    ensures none { IfErr result (λ fault. fault ≢ PolygonFault.Memory → slabs_within limit points.now ≡ None) }
    ensures slanted { IsErrOf result PolygonFault.Slanted → list_all is_straight (walk points.now) ≡ false }
    ensures many { IsErrOf result PolygonFault.TooMany → (list_all is_straight (walk points.now) ≡ true) × (limit < length (slabs points.now)) }
    ensures straight { IsErrOf result PolygonFault.Empty → list_all is_straight (walk points.now) ≡ true }
    ensures empty { IsErrOf result PolygonFault.Empty → slabs points.now ≡ [] }
{
    let all = sides(alloc, points)?;
    let corners = corners(alloc, &all)?;
    let walk = sides(alloc, &corners)?;
    if !are_straight(&walk) {
        return Err(PolygonFault::Slanted);
    }
    let heights = heights(alloc, &corners)?;
    let bands = bands(alloc, &heights)?;
    let slabs = all_bands(alloc, &walk, &bands, limit)?;
    if slabs.is_empty() {
        return Err(PolygonFault::Empty);
    }
    Ok(slabs)
}

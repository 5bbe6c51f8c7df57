//! How far components move that take places.

ghost use Rattle.std.specs.Prelude.{◌≡◌, ◌≤◌, pos, All, IfOk, length, replicate};
ghost use Rattle.leg_design_records.specs.declared.limits.TheConstants.{ENTRY_LIMIT};
ghost use Rattle.leg_rules.specs.Legalise.Moves.{AreMoves, total_of, greatest_of};
ghost use Rattle.leg_rules.specs.Legalise.Start.{distance};
ghost use Rattle.leg_legal.specs.Steps.Distances.{IsMoveDistance, AreDistances};
ghost use Rattle.leg_legal.specs.Steps.AfterPlaces.{CanTake, placed_all};

use crate::moves::Moves;
use crate::taken::Taken;
use crate::turns::start_of;
use leg_design_records::Design;
use leg_geom::Point;
use leg_lib_records::Items;
use std::alloc::{AllocError, Allocator};

/// How far two points are apart along x and along y together.
fn distance(p: &Point, q: &Point) -> i64
    ensures is { result ≡ pos (distance p.now q.now) }
    ensures within { IsMoveDistance result }
{
    (p.x().abs_diff(q.x()) + p.y().abs_diff(q.y())) as i64
}

/// A list of this many zeros.
fn zeroes<A: Allocator + Copy>(alloc: A, count: usize) -> Result<Vec<i64, A>, AllocError>
    ensures { IfOk result (λ list. list.items ≡ replicate count (pos 0)) }
{
    Vec::from_elem(alloc, 0, count)
}

/// Sets, where all distances are 0, those of the components that take places.
fn set_distances<A: Allocator + Copy>(
    design: &Design<'_, A>,
    taken: &[Taken],
    distances: &mut [i64],
)
    requires can { All (CanTake design.now) taken.now }
    requires zero { distances.old ≡ replicate (length design.now.components) (pos 0) }
    ensures { AreDistances design.now (placed_all design.now taken.now) distances.new }
{
    for each in taken {
        let number = each.number as usize;
        let start = start_of(design, &design.components()[number].place);
        distances[number] = distance(&each.place.at, &start);
    }
}

/// How far each component moves where these components, one after the other, take their places.
fn distances_of<A: Allocator + Copy>(
    alloc: A,
    design: &Design<'_, A>,
    taken: &[Taken],
) -> Result<Vec<i64, A>, AllocError>
    requires { All (CanTake design.now) taken.now }
    ensures are { IfOk result (λ list. AreDistances design.now (placed_all design.now taken.now) list.items) }
    ensures few { length design.now.components ≤ ENTRY_LIMIT }
{
    let mut distances = zeroes(alloc, design.components().len())?;
    set_distances(design, taken, distances.as_mut_slice());
    Ok(distances)
}

/// The sum of distances.
fn total_of(distances: &[i64]) -> i64
    requires each { All IsMoveDistance distances.now }
    requires few { length distances.now ≤ ENTRY_LIMIT }
    ensures { result ≡ total_of distances.now }
{
    let mut total = 0;
    for distance in distances {
        total += *distance;
    }
    total
}

/// The greatest of distances, or 0 where there are none.
fn greatest_of(distances: &[i64]) -> i64
    ensures { result ≡ greatest_of distances.now }
{
    let mut greatest: i64 = 0;
    for distance in distances {
        greatest = greatest.max(*distance);
    }
    greatest
}

/// How far all components move where these, one after the other, take their places.
pub(crate) fn moves_of<A: Allocator + Copy>(
    alloc: A,
    design: &Design<'_, A>,
    taken: &[Taken],
) -> Result<Moves<A>, AllocError>
    requires { All (CanTake design.now) taken.now }
    ensures { IfOk result (λ moves. AreMoves design.now (placed_all design.now taken.now) moves.per_component moves.total moves.greatest) }
{
    let distances = distances_of(alloc, design, taken)?;
    let total = total_of(distances.as_slice());
    let greatest = greatest_of(distances.as_slice());
    Ok(Moves {
        per_component: Items::from_vec(distances),
        total,
        greatest,
    })
}

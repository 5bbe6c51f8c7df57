//! Arrays of vias in the paths of `SPECIALNETS` (LEF/DEF 5.8, "Special Wiring Statement").

ghost use Rattle.std.specs.Prelude.{◌≡◌, ◌*◌, ◌+ℤ◌, true, nat_le};
ghost use Rattle.leg_lex.specs.Words.{Reads, Means};
ghost use Rattle.leg_design_records.specs.declared.limits.TheConstants.{PART_LIMIT};
ghost use Rattle.leg_grammar.specs.Def.Guard.{is_within};
ghost use Rattle.leg_grammar.specs.Def.ViaArray.{array_at, row_vias, array_vias};
ghost use Rattle.leg_design_wires.specs.Steps.Walk.{behind};

use crate::coordinate::read_coordinate;
use leg_design_common::count::number_from_one;
use leg_design_common::number::is_within;
use leg_design_records::{PART_LIMIT, Wire};
use leg_geom::Point;
use leg_grammar::{Coordinate, ViaArray};
use leg_lex::{Cursor, Entry, FaultKind, FaultPlace, Need, ReadFault};
use std::alloc::Allocator;

/// Whether an array has no more vias than all nets together may have wires.
fn are_few(columns: u64, rows: u64) -> bool
    ensures { result ≡ nat_le (columns * rows) PART_LIMIT }
{
    columns.saturating_mul(rows) <= PART_LIMIT
}

/// How the vias of an array lie: `DO columns BY rows STEP x y`. More vias than there may be are `TooMany`.
#[tactic(auto, unfolding(leg_grammar::specs::Def::ViaArray::array_at))]
pub(crate) fn array(words: &mut Cursor<'_, '_>) -> Result<ViaArray, ReadFault>
    ensures { Reads (λ a. a) result words.new (array_at words.old) }
{
    words.keyword(b"DO")?;
    let first = words.again();
    let columns = number_from_one(words)?;
    words.keyword(b"BY")?;
    let rows = number_from_one(words)?;
    if !are_few(columns, rows) {
        return Err(first.need(FaultKind::TooMany, Need::Fewer(Entry::NetPart)));
    }
    words.keyword(b"STEP")?;
    let x_step = read_coordinate(words)?;
    let y_step = read_coordinate(words)?;
    Ok(ViaArray {
        columns,
        rows,
        x_step,
        y_step,
    })
}

/// The next point of a row.
fn beside(at: Point, step: Coordinate) -> Point
    requires { is_within at.x ≡ true }
    ensures { result ≡ record { x = at.x +ℤ step; y = at.y } }
{
    Point::new(at.x() + step.number(), at.y()).unwrap()
}

/// The first point of the next row.
fn above(at: Point, step: Coordinate) -> Point
    requires { is_within at.y ≡ true }
    ensures { result ≡ record { x = at.x; y = at.y +ℤ step } }
{
    Point::new(at.x(), at.y() + step.number()).unwrap()
}

/// Adds the vias of a row, from its first point on. A point beyond the limit of numbers is `TooLarge`.
#[tactic(auto, using(crate::proofs::ViaArrays::row_on, crate::proofs::ViaArrays::row_fails, crate::proofs::ViaArrays::row_ends))]
fn push_row<A: Allocator + Copy>(
    via: usize,
    array: &ViaArray,
    first: Point,
    place: FaultPlace<'_>,
    wires: &mut Vec<Wire, A>,
) -> Result<(), ReadFault>
    ensures { Means (λ _. wires.new.items) result (behind wires.old.items (row_vias via array.now.x_step array.now.columns first)) }
{
    let mut at = first;
    for k in 0..array.columns {
        if !is_within(at.x()) {
            return Err(place.fault(FaultKind::TooLarge));
        }
        wires.push(Wire::ViaAt { via, at })?;
        at = beside(at, array.x_step);
    }
    Ok(())
}

/// Adds the vias of an array, row by row, from its first point on. A point beyond the limit of numbers is `TooLarge`.
#[tactic(auto, using(crate::proofs::ViaArrays::rows_on, crate::proofs::ViaArrays::rows_fail, crate::proofs::ViaArrays::rows_fail_in_row, crate::proofs::ViaArrays::rows_end))]
pub(crate) fn push_array<A: Allocator + Copy>(
    via: usize,
    array: &ViaArray,
    first: Point,
    place: FaultPlace<'_>,
    wires: &mut Vec<Wire, A>,
) -> Result<(), ReadFault>
    ensures { Means (λ _. wires.new.items) result (behind wires.old.items (array_vias via array.now first)) }
{
    let mut at = first;
    for k in 0..array.rows {
        if !is_within(at.y()) {
            return Err(place.fault(FaultKind::TooLarge));
        }
        push_row(via, array, at, place, wires)?;
        at = above(at, array.y_step);
    }
    Ok(())
}

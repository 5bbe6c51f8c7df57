//! The rectangles of a generated via (LEF/DEF 5.8, "Vias", "Via").

ghost use Rattle.std.specs.Prelude.{◌≡◌, ◌≤◌, ◌+ℤ◌, ◌-ℤ◌, ◌*ℤ◌, pos, unsigned_abs};
ghost use Rattle.leg_lex.specs.Words.{Means};
ghost use Rattle.leg_lex.specs.Until.{over};
ghost use Rattle.leg_geom.specs.Plane.{halfway};
ghost use Rattle.leg_grammar.specs.Def.CutArray.{area_of, array_side, array_width, array_height, array_sides, array_of, plate_sides, cut_start, cut_sides, with_area, with_plate, with_cut, numbers_from, with_row, array_shapes};

use crate::cut_pattern::{SameRows, has_cut};
use leg_design_common::area::area;
use leg_design_common::number::{half, is_even};
use leg_geom::Rect;
use leg_grammar::{CutArray, GeneratedVia, Plate};
use leg_lex::{Cursor, FaultKind, ReadFault};
use leg_lib_records::{Items, Shape, ShapeList};
use std::alloc::Allocator;
use std::marker::Model;

/// So many steps together.
fn steps(count: u16, step: i64) -> i64
    requires { unsigned_abs step ≤ 20000000000 }
    ensures is { result ≡ pos count *ℤ step }
    ensures small { unsigned_abs result ≤ 1400000000000000 }
{
    i64::from(count) * step
}

/// From where a cut begins to where the next one does.
fn pitch(side: i64, gap: i64) -> i64
    requires side { unsigned_abs side ≤ 10000000000 }
    requires gap { unsigned_abs gap ≤ 10000000000 }
    ensures is { result ≡ side +ℤ gap }
    ensures small { unsigned_abs result ≤ 20000000000 }
{
    side + gap
}

/// The side of an array of so many cuts, with gaps between them.
fn array_side(count: u16, side: i64, gap: i64) -> i64
    requires side { unsigned_abs side ≤ 10000000000 }
    requires gap { unsigned_abs gap ≤ 10000000000 }
    ensures is { result ≡ array_side count side gap }
    ensures small { unsigned_abs result ≤ 2000000000000000 }
{
    steps(count, pitch(side, gap)) - gap
}

/// The width of an array.
fn array_width(cuts: &CutArray) -> i64
    ensures is { result ≡ array_width cuts.now }
    ensures small { unsigned_abs result ≤ 2000000000000000 }
{
    array_side(cuts.columns, cuts.cut.x(), cuts.gap.x())
}

/// The height of an array.
fn array_height(cuts: &CutArray) -> i64
    ensures is { result ≡ array_height cuts.now }
    ensures small { unsigned_abs result ≤ 2000000000000000 }
{
    array_side(cuts.rows, cuts.cut.y(), cuts.gap.y())
}

/// Where a side about this middle begins.
fn low_end(middle: i64, side: i64) -> i64
    requires middle { unsigned_abs middle ≤ 10000000000 }
    requires side { unsigned_abs side ≤ 2000000000000000 }
    ensures { result ≡ middle -ℤ halfway (pos 0) side }
{
    middle - half(side)
}

/// Where a side about this middle ends.
fn high_end(middle: i64, side: i64) -> i64
    requires middle { unsigned_abs middle ≤ 10000000000 }
    requires side { unsigned_abs side ≤ 2000000000000000 }
    ensures { result ≡ middle +ℤ halfway (pos 0) side }
{
    middle + half(side)
}

/// The rectangle round an array with these sides.
fn array_area(cuts: &CutArray, width: i64, height: i64) -> Option<Rect>
    requires width { unsigned_abs width ≤ 2000000000000000 }
    requires height { unsigned_abs height ≤ 2000000000000000 }
    ensures { result ≡ area_of (array_sides cuts.now width height) }
{
    let middle = cuts.middle;
    area(
        low_end(middle.x(), width),
        low_end(middle.y(), height),
        high_end(middle.x(), width),
        high_end(middle.y(), height),
    )
}

/// The rectangle round the cuts. Where one of its sides is odd, that is `BadVia`, and beyond the limit of numbers `TooLarge`.
#[tactic(auto, unfolding(leg_grammar::specs::Def::CutArray::array_of))]
fn array(cuts: &CutArray, entry: &Cursor<'_, '_>) -> Result<Rect, ReadFault>
    ensures { Means (λ r. r) result (array_of cuts.now) }
{
    let width = array_width(cuts);
    let height = array_height(cuts);
    if !is_even(width) || !is_even(height) {
        return Err(entry.fault(FaultKind::BadVia));
    }
    match array_area(cuts, width, height) {
        Some(array) => Ok(array),
        None => Err(entry.fault(FaultKind::TooLarge)),
    }
}

/// Adds a rectangle on a layer, where it is one. Where it is none, its sides are beyond the limit of numbers, which is `TooLarge`.
fn push_area<A: Allocator + Copy>(
    layer: usize,
    area: Option<Rect>,
    shapes: &mut ShapeList<A>,
    entry: &Cursor<'_, '_>,
) -> Result<(), ReadFault>
    ensures { Means (λ _. shapes.new) result (with_area layer area shapes.old) }
{
    let Some(rect) = area else {
        return Err(entry.fault(FaultKind::TooLarge));
    };
    shapes.push(Shape { layer, rect })?;
    Ok(())
}

/// The lower side of a plate, of that of the array.
fn low_side(side: i64, reach: i64, shift: i64) -> i64
    requires side { unsigned_abs side ≤ 10000000000 }
    requires reach { unsigned_abs reach ≤ 10000000000 }
    requires shift { unsigned_abs shift ≤ 10000000000 }
    ensures { result ≡ side -ℤ reach +ℤ shift }
{
    side - reach + shift
}

/// The upper side of a plate, of that of the array.
fn high_side(side: i64, reach: i64, shift: i64) -> i64
    requires side { unsigned_abs side ≤ 10000000000 }
    requires reach { unsigned_abs reach ≤ 10000000000 }
    requires shift { unsigned_abs shift ≤ 10000000000 }
    ensures { result ≡ side +ℤ reach +ℤ shift }
{
    side + reach + shift
}

/// The rectangle of a plate.
fn plate_area(array: &Rect, plate: &Plate) -> Option<Rect>
    ensures { result ≡ area_of (plate_sides array.now plate.now) }
{
    let (reach, shift) = (plate.reach, plate.shift);
    area(
        low_side(array.x1(), reach.x(), shift.x()),
        low_side(array.y1(), reach.y(), shift.y()),
        high_side(array.x2(), reach.x(), shift.x()),
        high_side(array.y2(), reach.y(), shift.y()),
    )
}

/// Adds a plate.
#[tactic(auto, unfolding(leg_grammar::specs::Def::CutArray::with_plate))]
fn push_plate<A: Allocator + Copy>(
    array: &Rect,
    shapes: &mut ShapeList<A>,
    plate: &Plate,
    entry: &Cursor<'_, '_>,
) -> Result<(), ReadFault>
    ensures { Means (λ _. shapes.new) result (with_plate array.now shapes.old plate.now) }
{
    push_area(plate.layer, plate_area(array, plate), shapes, entry)
}

/// Where the cut of this number begins, of cuts that begin there one after the other.
fn cut_start(start: i64, number: u16, side: i64, gap: i64) -> i64
    requires start { unsigned_abs start ≤ 10000000000 }
    requires side { unsigned_abs side ≤ 10000000000 }
    requires gap { unsigned_abs gap ≤ 10000000000 }
    ensures is { result ≡ cut_start start number side gap }
    ensures small { unsigned_abs result ≤ 2000000000000000 }
{
    start + steps(number, pitch(side, gap))
}

/// Where the cut that begins there ends.
fn cut_end(start: i64, side: i64) -> i64
    requires start { unsigned_abs start ≤ 2000000000000000 }
    requires side { unsigned_abs side ≤ 10000000000 }
    ensures { result ≡ start +ℤ side }
{
    start + side
}

/// The cut of this row and this column.
fn cut_area(array: &Rect, cuts: &CutArray, row: u16, column: u16) -> Option<Rect>
    ensures { result ≡ area_of (cut_sides array.now cuts.now row column) }
{
    let x = cut_start(array.x1(), column, cuts.cut.x(), cuts.gap.x());
    let y = cut_start(array.y1(), row, cuts.cut.y(), cuts.gap.y());
    area(x, y, cut_end(x, cuts.cut.x()), cut_end(y, cuts.cut.y()))
}

/// The rectangle round the cuts of a via, what is said of them, and which of them there are. Contracts see it as these.
#[derive(Drop)]
struct CutsInPlace<'v, A: Allocator> {
    array: Rect,
    cuts: &'v CutArray,
    pattern: &'v Option<Items<SameRows<A>, A>>,
}

impl<'v, A: Allocator> Model for CutsInPlace<'v, A> {
    ghost use Rattle.leg_grammar.specs.Def.CutArray.{PlacedCuts};

    ghost Value = { PlacedCuts };

    ghost view = { λ c. record { array = c.array; cuts = c.cuts.now; pattern = c.pattern.now } };
}

/// Adds a cut, if it is there.
#[tactic(auto, unfolding(leg_grammar::specs::Def::CutArray::with_cut))]
fn push_cut<A: Allocator + Copy>(
    placed: &CutsInPlace<'_, A>,
    row: u16,
    shapes: &mut ShapeList<A>,
    column: u16,
    entry: &Cursor<'_, '_>,
) -> Result<(), ReadFault>
    ensures { Means (λ _. shapes.new) result (with_cut placed.now row shapes.old column) }
{
    if !has_cut(placed.pattern, row, column) {
        return Ok(());
    }
    let area = cut_area(&placed.array, placed.cuts, row, column);
    push_area(placed.cuts.layer, area, shapes, entry)
}

/// Adds a row of cuts.
#[tactic(auto, using(crate::proofs::EachNumber::number_ends, crate::proofs::EachNumber::number_goes_on, crate::proofs::EachNumber::number_fails), unfolding(leg_grammar::specs::Def::CutArray::with_row))]
fn push_row<A: Allocator + Copy>(
    placed: &CutsInPlace<'_, A>,
    shapes: &mut ShapeList<A>,
    row: u16,
    entry: &Cursor<'_, '_>,
) -> Result<(), ReadFault>
    ensures { Means (λ _. shapes.new) result (with_row placed.now shapes.old row) }
{
    for column in 0..placed.cuts.columns {
        push_cut(placed, row, shapes, column, entry)?;
    }
    Ok(())
}

/// Adds the cuts, row by row.
#[tactic(auto, using(crate::proofs::EachNumber::number_ends, crate::proofs::EachNumber::number_goes_on, crate::proofs::EachNumber::number_fails))]
fn push_rows<A: Allocator + Copy>(
    placed: &CutsInPlace<'_, A>,
    shapes: &mut ShapeList<A>,
    entry: &Cursor<'_, '_>,
) -> Result<(), ReadFault>
    ensures { Means (λ _. shapes.new) result (over (with_row placed.now) shapes.old (numbers_from 0 placed.now.cuts.rows)) }
{
    for row in 0..placed.cuts.rows {
        push_row(placed, shapes, row, entry)?;
    }
    Ok(())
}

/// The rectangles of a whole via, with the numbers of the layers on which they lie. `BadVia` where the array has an odd side, and `TooLarge`
/// where a side is beyond the limit of numbers.
#[tactic(auto, unfolding(leg_grammar::specs::Def::CutArray::array_shapes))]
pub fn array_shapes<A: Allocator + Copy>(
    alloc: A,
    pattern: &Option<Items<SameRows<A>, A>>,
    via: &GeneratedVia,
    entry: &Cursor<'_, '_>,
) -> Result<ShapeList<A>, ReadFault>
    ensures { Means (λ v. v) result (array_shapes pattern.now via.now) }
{
    let array = array(&via.cuts, entry)?;
    let mut shapes = ShapeList::with_capacity(alloc, 3)?;
    push_plate(&array, &mut shapes, &via.low, entry)?;
    let placed = CutsInPlace {
        array,
        cuts: &via.cuts,
        pattern,
    };
    push_rows(&placed, &mut shapes, entry)?;
    push_plate(&array, &mut shapes, &via.high, entry)?;
    Ok(shapes)
}

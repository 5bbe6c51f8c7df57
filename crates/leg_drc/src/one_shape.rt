//! What can be wrong with one shape of a wire.

ghost use Rattle.std.specs.Prelude.{◌↔◌, ◌≤◌, ◌<ℤ◌, pos, IsTrue};
ghost use Rattle.leg_rules.specs.Metal.Flat.{IsFlatOf};
ghost use Rattle.leg_drc.specs.OneShape.{ReachesOut, IsMultiple, IsOutOfDie, IsOffGrid, IsTooNarrow};
ghost use Rattle.leg_drc.specs.Steps.ShapeParts.{ReachesPast, HasSideOff, IsNarrow};

use crate::segments::is_of_segment;
use crate::sides::lesser_side;
use crate::wire_shape::is_of_wire;
use leg_design_records::Design;
use leg_design_records::laws::design_is_sound;
use leg_drc_rules::DeckRules;
use leg_flat::{Flat, Shape};
use leg_geom::Rect;
use std::alloc::Allocator;

/// How many millionths of a micron a micron has.
const MILLIONTHS_IN_MICRON: u128 = 1_000_000;

/// Whether the shape is of a wire, and reaches out of the die (LEF/DEF 5.8, "Die Area").
pub(crate) fn is_out_of_die<A: Allocator + Copy>(
    design: &Design<'_, A>,
    flat: &Flat<A>,
    shape: &Shape,
) -> bool
    ensures { IsTrue result ↔ IsOutOfDie design.now flat.now shape.now }
{
    is_of_wire(flat, shape) && reaches_out(&design.die(), &shape.rect)
}

/// Whether a unit square of the rectangle isn't one of the die.
fn reaches_out(die: &Rect, rect: &Rect) -> bool
    ensures { IsTrue result ↔ ReachesOut die.now rect.now }
{
    reaches_past(die.x1(), die.x2(), rect.x1(), rect.x2())
        || reaches_past(die.y1(), die.y2(), rect.y1(), rect.y2())
}

/// Whether the second interval reaches past an end of the first.
fn reaches_past(low: i64, high: i64, from: i64, to: i64) -> bool
    ensures { IsTrue result ↔ ReachesPast low high from to }
{
    from < low || high < to
}

/// Whether the shape is of a wire, and a coordinate of its sides isn't on the manufacturing grid (LEF/DEF 5.8, "Manufacturing
/// Grid"). A grid of 0, or none, forbids nothing.
pub(crate) fn is_off_grid<A: Allocator + Copy>(
    design: &Design<'_, A>,
    deck: &DeckRules<A>,
    flat: &Flat<A>,
    shape: &Shape,
) -> bool
    ensures { IsTrue result ↔ IsOffGrid design.now deck.now flat.now shape.now }
{
    design_is_sound(design);
    match deck.grid() {
        Some(grid) if grid.millionths() > 0 => {
            is_of_wire(flat, shape)
                && has_side_off(design.library().units(), grid.millionths(), &shape.rect)
        }
        _ => false,
    }
}

/// Whether a coordinate of the rectangle's sides isn't a multiple of the grid, which is given in millionths of a micron, where a
/// micron has this many units.
fn has_side_off(units: u32, grid: i64, rect: &Rect) -> bool
    requires units { 1 ≤ units }
    requires grid { pos 0 <ℤ grid }
    ensures { IsTrue result ↔ HasSideOff units grid rect.now }
{
    let left = is_multiple(units, grid, rect.x1());
    let bottom = is_multiple(units, grid, rect.y1());
    let right = is_multiple(units, grid, rect.x2());
    let top = is_multiple(units, grid, rect.y2());
    !(left && bottom && right && top)
}

/// Whether a coordinate in database units, of which a micron has this many, is a multiple of so many millionths of a micron.
fn is_multiple(units: u32, grid: i64, z: i64) -> bool
    requires units { 1 ≤ units }
    requires grid { pos 0 <ℤ grid }
    ensures { IsTrue result ↔ IsMultiple units grid z }
{
    let scaled = u128::from(z.unsigned_abs()) * MILLIONTHS_IN_MICRON;
    scaled % (u128::from(grid.unsigned_abs()) * u128::from(units)) == 0
}

/// Whether the shape is a segment, and narrower than the least width of its layer (LEF/DEF 5.8, "Layer (Routing)", on MINWIDTH).
///
/// The flat is that of the design.
pub(crate) fn is_too_narrow<A: Allocator + Copy>(
    design: &Design<'_, A>,
    deck: &DeckRules<A>,
    flat: &Flat<A>,
    shape: &Shape,
) -> bool
    requires { IsFlatOf design.now flat.now }
    ensures { IsTrue result ↔ IsTooNarrow design.now deck.now flat.now shape.now }
{
    is_narrow(deck, shape) && is_of_segment(design, flat, shape)
}

/// Whether the shape is narrower than the least width of its layer.
fn is_narrow<A: Allocator + Copy>(deck: &DeckRules<A>, shape: &Shape) -> bool
    ensures { IsTrue result ↔ IsNarrow deck.now shape.now }
{
    match deck.layers().get(shape.layer) {
        Some(rules) => lesser_side(&shape.rect) < rules.width,
        None => false,
    }
}

//! The shapes with which something is wrong by themselves.

ghost use Rattle.std.specs.Prelude.{IfOk};
ghost use Rattle.leg_rules.specs.Metal.Flat.{IsFlatOf};
ghost use Rattle.leg_drc.specs.Steps.Kinds.{IsWrongShape};
ghost use Rattle.leg_drc.specs.Steps.Numbers.{AreNumbersWhere};

use crate::shape_kind::ShapeKind;
use leg_design_records::Design;
use leg_drc_rules::DeckRules;
use leg_flat::Flat;
use std::alloc::{AllocError, Allocator};

/// The numbers of the shapes with which this is wrong, in increasing order.
///
/// The flat is that of the design. It fails only when out of memory.
pub(crate) fn wrong_shapes<A: Allocator + Copy>(
    alloc: A,
    kind: ShapeKind,
    design: &Design<'_, A>,
    deck: &DeckRules<A>,
    flat: &Flat<A>,
) -> Result<Vec<u32, A>, AllocError>
    requires { IsFlatOf design.now flat.now }
    ensures { IfOk result (λ numbers. AreNumbersWhere (IsWrongShape kind design.now deck.now flat.now) flat.now numbers.items) }
{
    let mut numbers = Vec::new(alloc);
    for (number, shape) in flat.shapes().iter().enumerate() {
        if kind.holds(design, deck, flat, shape) {
            numbers.push(number as u32)?;
        }
    }
    Ok(numbers)
}

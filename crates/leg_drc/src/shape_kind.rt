//! The kinds of violations of one shape.

ghost use Rattle.std.specs.Prelude.{◌≡◌, ◌↔◌, IsTrue};
ghost use Rattle.leg_rules.specs.Metal.Flat.{IsFlatOf};
ghost use Rattle.leg_drc.specs.Steps.Kinds.{IsWrongShape, shape_fault};

use crate::fault::DrcFault;
use crate::one_shape::{is_off_grid, is_out_of_die, is_too_narrow};
use leg_design_records::Design;
use leg_drc_rules::DeckRules;
use leg_flat::{Flat, Shape};
use std::alloc::Allocator;

/// What can be wrong with a shape by itself.
#[derive(Clone, Copy)]
pub(crate) enum ShapeKind {
    MinWidth,
    OffGrid,
    OutDie,
}

impl ShapeKind {
    /// Whether this is wrong with the shape.
    ///
    /// The flat is that of the design.
    pub(crate) fn holds<A: Allocator + Copy>(
        self,
        design: &Design<'_, A>,
        deck: &DeckRules<A>,
        flat: &Flat<A>,
        shape: &Shape,
    ) -> bool
        requires { IsFlatOf design.now flat.now }
        ensures { IsTrue result ↔ IsWrongShape self design.now deck.now flat.now shape.now }
    {
        match self {
            ShapeKind::MinWidth => is_too_narrow(design, deck, flat, shape),
            ShapeKind::OffGrid => is_off_grid(design, deck, flat, shape),
            ShapeKind::OutDie => is_out_of_die(design, flat, shape),
        }
    }

    /// The violation of this kind of the shape of this number.
    pub(crate) fn fault(self, number: u32) -> DrcFault
        ensures { result ≡ shape_fault self number }
    {
        match self {
            ShapeKind::MinWidth => DrcFault::MinWidth(number),
            ShapeKind::OffGrid => DrcFault::OffGrid(number),
            ShapeKind::OutDie => DrcFault::OutDie(number),
        }
    }
}

//! Laws of designs. Each function does nothing: its contract is the law.

ghost use Rattle.leg_lib_records.specs.Sound.{IsSound};
ghost use Rattle.leg_design_records.specs.WellFormed.{IsWellFormed};

use crate::design::Design;
use std::alloc::Allocator;

/// Every design is well-formed, and its library sound, as their types state.
pub fn design_is_sound<A: Allocator + Copy>(design: &Design<'_, A>)
    ensures library { IsSound design.now.library }
    ensures proper { IsWellFormed design.now }
{
    let _layers = design.library().layers();
    let _vias = design.vias();
}

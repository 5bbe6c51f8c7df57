//! The section of vias.

ghost use Rattle.std.specs.Prelude.{◌≡◌, ◌++◌, OnOk};
ghost use Rattle.leg_output.specs.Words.{line};
ghost use Rattle.leg_output.specs.Text.Vias.{via_words};
ghost use Rattle.leg_output.specs.Text.Whole.{vias_text};

use crate::clauses::push_shapes;
use crate::sections::{push_section_end, push_section_start};
use crate::words::push_start;
use leg_design_records::Design;
use leg_lib_records::Via;
use leg_print_words::push_end;
use std::alloc::{AllocError, Allocator};

/// Adds the entry of a via.
fn push_via<A: Allocator + Copy>(
    text: &mut Vec<u8, A>,
    design: &Design<'_, A>,
    via: &Via<'_, A>,
) -> Result<(), AllocError>
    ensures { OnOk result (text.new.items ≡ text.old.items ++ line (via_words design.now via.now)) }
{
    push_start(text, b"-", &[via.name.bytes()])?;
    push_shapes(text, design, b"RECT", via.shapes.as_slice())?;
    push_end(text)
}

/// Adds the section of vias, where there are any.
#[tactic(auto, using(crate::proofs::SectionText::no_section))]
pub(crate) fn push_vias<A: Allocator + Copy>(
    text: &mut Vec<u8, A>,
    design: &Design<'_, A>,
    vias: &[Via<'_, A>],
) -> Result<(), AllocError>
    ensures { OnOk result (text.new.items ≡ text.old.items ++ vias_text design.now vias.now) }
{
    if vias.is_empty() {
        return Ok(());
    }
    push_section_start(text, b"VIAS", vias.len())?;
    for via in vias {
        push_via(text, design, via)?;
    }
    push_section_end(text, b"VIAS")
}

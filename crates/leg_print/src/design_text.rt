//! The text of a design.

ghost use Rattle.std.specs.Prelude.{◌≡◌, IfOk};
ghost use Rattle.leg_output.specs.Text.Whole.{design_text};

use crate::blockages::push_blockages;
use crate::components::push_components;
use crate::header::push_header;
use crate::nets::push_nets;
use crate::pins::push_pins;
use crate::rows::push_rows;
use crate::sections::push_section_end;
use crate::tracks::push_tracks;
use crate::vias::push_vias;
use leg_design_records::Design;
use leg_lib_records::Library;
use std::alloc::{AllocError, Allocator};

/// The text of the design, a DEF of which each byte depends on the design alone (LEF/DEF 5.8, "DEF Syntax"; its order
/// and its layout are lefdef's own rules).
///
/// The design was read with this library. It fails only when out of memory.
#[tactic(auto, unfolding(leg_output::specs::Text::Whole::design_text))]
pub fn print_def<A: Allocator + Copy>(
    alloc: A,
    library: &Library<'_, A>,
    design: &Design<'_, A>,
) -> Result<Vec<u8, A>, AllocError>
    requires { library.now ≡ design.now.library }
    ensures { IfOk result (λ text. text.items ≡ design_text design.now) }
{
    let mut text = Vec::new(alloc);
    push_header(&mut text, design)?;
    push_rows(&mut text, design, design.rows())?;
    push_tracks(&mut text, design, design.tracks())?;
    push_vias(&mut text, design, design.vias())?;
    push_components(&mut text, design, design.components())?;
    push_pins(&mut text, design, design.pins())?;
    push_blockages(&mut text, design, design.blockages())?;
    push_nets(&mut text, design, true, design.special())?;
    push_nets(&mut text, design, false, design.nets())?;
    push_section_end(&mut text, b"DESIGN")?;
    Ok(text)
}

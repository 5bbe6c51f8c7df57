//! The section of components.

ghost use Rattle.std.specs.Prelude.{◌≡◌, ◌++◌, OnOk};
ghost use Rattle.leg_output.specs.Words.{line};
ghost use Rattle.leg_output.specs.Text.Components.{component_words};
ghost use Rattle.leg_output.specs.Text.Whole.{components_text};

use crate::clauses::push_placement;
use crate::name::master_name;
use crate::sections::{push_section_end, push_section_start};
use crate::words::push_start;
use leg_design_records::{Component, Design};
use leg_print_words::push_end;
use std::alloc::{AllocError, Allocator};

/// Adds the entry of a component.
fn push_component<A: Allocator + Copy>(
    text: &mut Vec<u8, A>,
    design: &Design<'_, A>,
    component: &Component<'_>,
) -> Result<(), AllocError>
    ensures { OnOk result (text.new.items ≡ text.old.items ++ line (component_words design.now component.now)) }
{
    let master = master_name(design, component.master);
    push_start(text, b"-", &[component.name.bytes(), master])?;
    push_placement(text, component.status, component.place.as_ref())?;
    push_end(text)
}

/// Adds the section of components, where there are any.
#[tactic(auto, using(crate::proofs::SectionText::no_section))]
pub(crate) fn push_components<A: Allocator + Copy>(
    text: &mut Vec<u8, A>,
    design: &Design<'_, A>,
    components: &[Component<'_>],
) -> Result<(), AllocError>
    ensures { OnOk result (text.new.items ≡ text.old.items ++ components_text design.now components.now) }
{
    if components.is_empty() {
        return Ok(());
    }
    push_section_start(text, b"COMPONENTS", components.len())?;
    for component in components {
        push_component(text, design, component)?;
    }
    push_section_end(text, b"COMPONENTS")
}

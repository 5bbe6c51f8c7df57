//! The section of pins.

ghost use Rattle.std.specs.Prelude.{◌≡◌, ◌++◌, OnOk};
ghost use Rattle.std.specs.List.{flat_map};
ghost use Rattle.leg_output.specs.Words.{spaced, line};
ghost use Rattle.leg_output.specs.Text.Clauses.{clause_words};
ghost use Rattle.leg_output.specs.Text.Pins.{port_clauses, pin_words};
ghost use Rattle.leg_output.specs.Text.Whole.{pins_text};

use crate::clauses::{push_kept, push_placement, push_shapes};
use crate::sections::{push_section_end, push_section_start};
use crate::words::push_start;
use leg_design_records::{Design, Pin, Port};
use leg_print_words::{push_end, push_words};
use std::alloc::{AllocError, Allocator};

/// Adds the clauses of a port.
fn push_port<A: Allocator + Copy>(
    text: &mut Vec<u8, A>,
    design: &Design<'_, A>,
    port: &Port<A>,
) -> Result<(), AllocError>
    ensures { OnOk result (text.new.items ≡ text.old.items ++ spaced (clause_words (port_clauses design.now port.now))) }
{
    push_words(text, &[b"+".as_slice(), b"PORT"])?;
    push_shapes(text, design, b"LAYER", port.shapes.as_slice())?;
    match &port.place {
        Some(place) => push_placement(text, port.status, Some(place)),
        None => Ok(()),
    }
}

/// Adds the clauses of ports, in their order.
fn push_ports<A: Allocator + Copy>(
    text: &mut Vec<u8, A>,
    design: &Design<'_, A>,
    ports: &[Port<A>],
) -> Result<(), AllocError>
    ensures { OnOk result (text.new.items ≡ text.old.items ++ spaced (clause_words (flat_map (port_clauses design.now) ports.now))) }
{
    for port in ports {
        push_port(text, design, port)?;
    }
    Ok(())
}

/// Adds the entry of a pin.
fn push_pin<A: Allocator + Copy>(
    text: &mut Vec<u8, A>,
    design: &Design<'_, A>,
    pin: &Pin<'_, A>,
) -> Result<(), AllocError>
    ensures { OnOk result (text.new.items ≡ text.old.items ++ line (pin_words design.now pin.now)) }
{
    push_start(text, b"-", &[pin.name.bytes()])?;
    push_kept(text, b"NET", &pin.net_name)?;
    push_kept(text, b"DIRECTION", &pin.direction)?;
    push_kept(text, b"USE", &pin.usage)?;
    push_ports(text, design, pin.ports.as_slice())?;
    push_end(text)
}

/// Adds the section of pins, where there are any.
#[tactic(auto, using(crate::proofs::SectionText::no_section))]
pub(crate) fn push_pins<A: Allocator + Copy>(
    text: &mut Vec<u8, A>,
    design: &Design<'_, A>,
    pins: &[Pin<'_, A>],
) -> Result<(), AllocError>
    ensures { OnOk result (text.new.items ≡ text.old.items ++ pins_text design.now pins.now) }
{
    if pins.is_empty() {
        return Ok(());
    }
    push_section_start(text, b"PINS", pins.len())?;
    for pin in pins {
        push_pin(text, design, pin)?;
    }
    push_section_end(text, b"PINS")
}

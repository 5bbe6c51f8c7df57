//! The sections of nets.

ghost use Rattle.std.specs.Prelude.{◌≡◌, ◌++◌, OnOk, map};
ghost use Rattle.std.specs.List.{flat_map};
ghost use Rattle.leg_output.specs.Words.{spaced};
ghost use Rattle.leg_output.specs.Text.Wires.{wire_words};
ghost use Rattle.leg_output.specs.Text.Nets.{terminal_words, wiring_lines, wire_line, net_text};
ghost use Rattle.leg_output.specs.Text.Whole.{nets_text};

use crate::clauses::push_kept;
use crate::sections::{push_section_end, push_section_start};
use crate::wires::push_wire;
use crate::words::push_start;
use leg_design_records::{Design, Net, Terminal, Wire, net_section};
use leg_print_words::{push_end, push_words};
use std::alloc::{AllocError, Allocator};

/// Adds the terminals of a net, each in its parentheses.
fn push_terminals<A: Allocator + Copy>(
    text: &mut Vec<u8, A>,
    design: &Design<'_, A>,
    terminals: &[Terminal],
) -> Result<(), AllocError>
    ensures { OnOk result (text.new.items ≡ text.old.items ++ spaced (flat_map (terminal_words design.now) terminals.now)) }
{
    for terminal in terminals {
        let (owner, pin) = design.terminal_names(terminal);
        push_words(text, &[b"(", owner, pin, b")"])?;
    }
    Ok(())
}

/// Adds the line of a wire, which begins with these words.
fn push_wire_line<A: Allocator + Copy>(
    text: &mut Vec<u8, A>,
    design: &Design<'_, A>,
    special: bool,
    words: &[&[u8]],
    wire: &Wire,
) -> Result<(), AllocError>
    ensures { OnOk result (text.new.items ≡ text.old.items ++ wire_line (map (λ word. word.now) words.now ++ wire_words design.now special wire.now)) }
{
    push_start(text, b"\n ", words)?;
    push_wire(text, design, special, wire)
}

/// Adds the lines of a net's wires.
fn push_wires<A: Allocator + Copy>(
    text: &mut Vec<u8, A>,
    design: &Design<'_, A>,
    special: bool,
    wires: &[Wire],
) -> Result<(), AllocError>
    ensures { OnOk result (text.new.items ≡ text.old.items ++ flat_map wire_line (wiring_lines design.now special wires.now)) }
{
    let Some((first, others)) = wires.split_first() else {
        return Ok(());
    };
    push_wire_line(text, design, special, &[b"+", b"ROUTED"], first)?;
    for wire in others {
        push_wire_line(text, design, special, &[b"NEW"], wire)?;
    }
    Ok(())
}

/// Adds the entry of a net.
fn push_net<A: Allocator + Copy>(
    text: &mut Vec<u8, A>,
    design: &Design<'_, A>,
    special: bool,
    net: &Net<'_, A>,
) -> Result<(), AllocError>
    ensures { OnOk result (text.new.items ≡ text.old.items ++ net_text design.now special net.now) }
{
    push_start(text, b"-", &[net.name.bytes()])?;
    push_terminals(text, design, net.terminals.as_slice())?;
    push_kept(text, b"USE", &net.usage)?;
    push_wires(text, design, special, net.wires.as_slice())?;
    push_end(text)
}

/// Adds the section of these nets, which are those of `SPECIALNETS` or those of `NETS`, where there are any.
#[tactic(auto, using(crate::proofs::SectionText::no_section))]
pub(crate) fn push_nets<A: Allocator + Copy>(
    text: &mut Vec<u8, A>,
    design: &Design<'_, A>,
    special: bool,
    nets: &[Net<'_, A>],
) -> Result<(), AllocError>
    ensures { OnOk result (text.new.items ≡ text.old.items ++ nets_text design.now special nets.now) }
{
    if nets.is_empty() {
        return Ok(());
    }
    let keyword = net_section(special);
    push_section_start(text, keyword, nets.len())?;
    for net in nets {
        push_net(text, design, special, net)?;
    }
    push_section_end(text, keyword)
}

//! How lines name what they speak of.

ghost use Rattle.std.specs.Prelude.{◌≡◌, ◌++◌, OnOk};
ghost use Rattle.leg_output.specs.Names.{layer_name, site_name, master_name, owner_text, piece_text};

use itoa::Buffer;
use leg_design_records::Design;
use leg_flat::{Owner, Piece};
use leg_print_words::{push_first, push_parts};
use std::alloc::{AllocError, Allocator};

/// The name of the layer of this number; empty where there is none.
pub(crate) fn layer_name<'d, A: Allocator + Copy>(
    design: &'d Design<'_, A>,
    layer: usize,
) -> &'d [u8]
    ensures { result.now ≡ layer_name design.now layer }
{
    match design.library().layers().get(layer) {
        Some(layer) => layer.name.bytes(),
        None => b"",
    }
}

/// The name of the site of this number; empty where there is none.
pub(crate) fn site_name<'d, A: Allocator + Copy>(design: &'d Design<'_, A>, site: usize) -> &'d [u8]
    ensures { result.now ≡ site_name design.now site }
{
    match design.library().sites().get(site) {
        Some(site) => site.name.bytes(),
        None => b"",
    }
}

/// The name of the macro of this number; empty where there is none.
pub(crate) fn master_name<'d, A: Allocator + Copy>(
    design: &'d Design<'_, A>,
    master: usize,
) -> &'d [u8]
    ensures { result.now ≡ master_name design.now master }
{
    match design.library().masters().get(master) {
        Some(master) => master.name.bytes(),
        None => b"",
    }
}

/// Adds whose metal a shape is. Blockages are counted from 1.
pub(crate) fn push_owner<A: Allocator + Copy>(
    text: &mut Vec<u8, A>,
    design: &Design<'_, A>,
    owner: &Owner,
) -> Result<(), AllocError>
    ensures { OnOk result (text.new.items ≡ text.old.items ++ owner_text design.now owner.now) }
{
    match owner {
        Owner::Net(net) => push_parts(text, &[b"NET ", design.net_name(*net)]),
        Owner::Lone(terminal) => {
            let (owner, pin) = design.terminal_names(terminal);
            push_parts(text, &[b"TERM ", owner, b" ", pin])
        }
        Owner::Power => push_first(text, b"POWER"),
        Owner::Ground => push_first(text, b"GROUND"),
        Owner::Obs(component) => push_parts(text, &[b"OBS ", design.component_name(*component)]),
        Owner::Blocking(blockage) => {
            let mut digits = Buffer::new();
            let count = digits.format(u64::from(*blockage) + 1);
            push_parts(text, &[b"BLOCKAGE ", count.as_bytes()])
        }
    }
}

/// Adds the words that name a piece of a net of the design: a component and its pin, `PIN` and a pin of the design, or `WIRE` and
/// which wire of the net it is, counted from 1. On a refusal the text may have the front of them.
pub fn push_piece<A: Allocator + Copy>(
    text: &mut Vec<u8, A>,
    design: &Design<'_, A>,
    piece: &Piece,
) -> Result<(), AllocError>
    ensures { OnOk result (text.new.items ≡ text.old.items ++ piece_text design.now piece.now) }
{
    match piece {
        Piece::Term(terminal) => {
            let (owner, pin) = design.terminal_names(terminal);
            push_parts(text, &[owner, b" ", pin])
        }
        Piece::Wire(number) => {
            let mut digits = Buffer::new();
            let count = digits.format(u64::from(*number) + 1);
            push_parts(text, &[b"WIRE ", count.as_bytes()])
        }
    }
}

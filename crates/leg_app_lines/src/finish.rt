//! The lines that `finish` prints.

ghost use Rattle.std.specs.Prelude.{◌≡◌, ◌++◌, Some, option_map, codes, IfOk, OnOk};
ghost use Rattle.std.specs.List.{flat_map};
ghost use Rattle.leg_output.specs.Names.{piece_text};
ghost use Rattle.leg_design_records.specs.Names.{name_by};
ghost use Rattle.leg_output.specs.Lines.{piece_at};
ghost use Rattle.leg_output.specs.Commands.Finish.{number_line, finished_text, unfinished_line, unfinished_text};

use leg_design_records::Design;
use leg_flat::{Flat, Piece};
use leg_lib_records::Items;
use leg_print::{print_def, push_piece};
use leg_print_words::push_count;
use std::alloc::{AllocError, Allocator};

/// The text of a finished design, how long its added wires are together, and how many of them are vias.
pub fn finished_text<A: Allocator + Copy>(
    alloc: A,
    design: &Design<'_, A>,
    length: u64,
    vias: u64,
) -> Result<Vec<u8, A>, AllocError>
    ensures { IfOk result (λ text. text.items ≡ finished_text design.now length vias) }
{
    let mut text = print_def(alloc, design.library(), design)?;
    push_number_line(&mut text, b"# length ", length)?;
    push_number_line(&mut text, b"# vias ", vias)?;
    Ok(text)
}

/// Adds a line of a word and a number.
fn push_number_line<A: Allocator>(
    text: &mut Vec<u8, A>,
    word: &[u8],
    number: u64,
) -> Result<(), AllocError>
    ensures { OnOk result (text.new.items ≡ text.old.items ++ number_line word.now number) }
{
    text.extend_from_slice(word)?;
    push_count(text, number)?;
    text.extend_from_slice(b"\n")
}

/// The line of a piece of this name that cannot be reached, in the net of this name.
pub fn unreachable_text<A: Allocator + Copy>(
    alloc: A,
    net: &[u8],
    piece: &[u8],
) -> Result<Vec<u8, A>, AllocError>
    ensures { IfOk result (λ text. text.items ≡ codes "UNREACHABLE " ++ net.now ++ codes " " ++ piece.now ++ codes "\n") }
{
    let mut text = Vec::from_slice(alloc, b"UNREACHABLE ")?;
    text.extend_from_slice(net)?;
    text.extend_from_slice(b" ")?;
    text.extend_from_slice(piece)?;
    text.extend_from_slice(b"\n")?;
    Ok(text)
}

/// The name of the piece of this number of a net of the flat; empty where there is none.
pub fn piece_name<A: Allocator + Copy>(
    alloc: A,
    design: &Design<'_, A>,
    flat: &Flat<A>,
    net: u32,
    piece: u32,
) -> Result<Items<u8, A>, AllocError>
    ensures { IfOk result (λ name. name ≡ name_by (piece_text design.now) (piece_at (Some flat.now) net piece)) }
{
    let mut name = Vec::new(alloc);
    push_found(&mut name, design, piece_at(flat, net, piece))?;
    Ok(Items::from_vec(name))
}

/// Adds the words that name the piece, if there is one.
fn push_found<A: Allocator + Copy>(
    text: &mut Vec<u8, A>,
    design: &Design<'_, A>,
    piece: Option<&Piece>,
) -> Result<(), AllocError>
    ensures { OnOk result (text.new.items ≡ text.old.items ++ name_by (piece_text design.now) (option_map (λ piece. piece.now) piece.entry)) }
{
    match piece {
        Some(piece) => push_piece(text, design, piece),
        None => Ok(()),
    }
}

/// The piece of this number of a net of the flat, if it has one.
fn piece_at<A: Allocator + Copy>(flat: &Flat<A>, net: u32, piece: u32) -> Option<&Piece>
    ensures { option_map (λ piece. piece.now) result ≡ piece_at (Some flat.now) net piece }
{
    if net >= flat.net_count() {
        return None;
    }
    flat.pieces(net).get(piece as usize)
}

/// A line for each net that is left, and their number.
pub fn unfinished_text<A: Allocator + Copy>(
    alloc: A,
    design: &Design<'_, A>,
    nets: &[u32],
) -> Result<Vec<u8, A>, AllocError>
    ensures { IfOk result (λ text. text.items ≡ unfinished_text design.now nets.now) }
{
    let mut text = lines_of_nets(alloc, design, nets)?;
    push_number_line(&mut text, b"unfinished ", nets.len() as u64)?;
    Ok(text)
}

/// A line for each net that is left.
fn lines_of_nets<A: Allocator + Copy>(
    alloc: A,
    design: &Design<'_, A>,
    nets: &[u32],
) -> Result<Vec<u8, A>, AllocError>
    ensures { IfOk result (λ text. text.items ≡ flat_map (unfinished_line design.now) nets.now) }
{
    let mut text = Vec::new(alloc);
    for net in nets {
        push_unfinished(&mut text, design, *net)?;
    }
    Ok(text)
}

/// Adds the line of a net that is left.
fn push_unfinished<A: Allocator + Copy>(
    text: &mut Vec<u8, A>,
    design: &Design<'_, A>,
    net: u32,
) -> Result<(), AllocError>
    ensures { OnOk result (text.new.items ≡ text.old.items ++ unfinished_line design.now net) }
{
    text.extend_from_slice(b"UNFINISHED ")?;
    text.extend_from_slice(design.net_name(net))?;
    text.extend_from_slice(b"\n")
}

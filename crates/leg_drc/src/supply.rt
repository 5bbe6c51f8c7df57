//! Nets of `SPECIALNETS` alone whose pieces aren't joined.

ghost use Rattle.std.specs.Prelude.{◌≡◌, ◌↔◌, ◌<◌, ◌^◌, ◌++◌, ℕ, IsTrue, Some, All, length, map, position, IfOk, OnOk};
ghost use Rattle.leg_geom.specs.Plane.{IsRect};
ghost use Rattle.leg_rules.specs.Metal.Flat.{IsFlatOf};
ghost use Rattle.leg_rules.specs.Joins.Touch.{piece_count};
ghost use Rattle.leg_wire.specs.NetShapes.{AreNumbersOf};
ghost use Rattle.leg_wire.specs.PieceMarks.{AreMarks};
ghost use Rattle.leg_drc.specs.Supply.{HasSomePoint};
ghost use Rattle.leg_drc.specs.Steps.CutOff.{AreCutOff, ArePiecesCutOff, IsFirstMark, IsApart, AreApart};

use leg_design_records::Design;
use leg_flat::{Flat, Shape};
use leg_wire::{groups_among, numbers_by_net};
use std::alloc::{AllocError, Allocator};

/// The pieces of the nets of `SPECIALNETS` alone that have points and aren't joined to the net's first piece that has: the numbers of
/// net and piece, in increasing order (lefdef's own rule).
///
/// The flat is that of the design. It fails only when out of memory.
pub(crate) fn cut_off_pieces<A: Allocator + Copy>(
    alloc: A,
    design: &Design<'_, A>,
    flat: &Flat<A>,
) -> Result<Vec<(u32, u32), A>, AllocError>
    requires { IsFlatOf design.now flat.now }
    ensures { IfOk result (λ pairs. AreCutOff design.now flat.now pairs.items) }
{
    let nets = flat.net_count();
    let numbers = numbers_by_net(alloc, flat.shapes(), nets)?;
    let mut found = Vec::new(alloc);
    for net in design.nets().len() as u32..nets {
        let pieces = cut_off_of_net(alloc, flat, net, numbers[net as usize].as_slice())?;
        push_pieces(net, &pieces, &mut found)?;
    }
    Ok(found)
}

/// Adds the pairs of the net with each of these pieces.
fn push_pieces<A: Allocator>(
    net: u32,
    pieces: &[u32],
    found: &mut Vec<(u32, u32), A>,
) -> Result<(), AllocError>
    ensures { OnOk result (found.new.items ≡ found.old.items ++ map (λ k. (net, k)) pieces.now) }
{
    for piece in pieces {
        found.push((net, *piece))?;
    }
    Ok(())
}

/// The pieces of the net that have points and aren't joined to its first piece that has, by their numbers. Those of the net's shapes
/// are known.
fn cut_off_of_net<A: Allocator + Copy>(
    alloc: A,
    flat: &Flat<A>,
    net: u32,
    numbers: &[u32],
) -> Result<Vec<u32, A>, AllocError>
    requires net { net < length flat.now.pieces }
    requires numbers { AreNumbersOf flat.now.shapes net numbers.now }
    requires proper { All (λ shape. IsRect shape.rect) flat.now.shapes }
    ensures { IfOk result (λ pieces. ArePiecesCutOff flat.now net pieces.items) }
{
    let marks = pieces_with_metal(alloc, flat, net, numbers)?;
    let groups = groups_among(alloc, flat, net, numbers)?;
    pieces_apart(alloc, &marks, &groups)
}

/// A mark for each piece of the net that has points, of whose shapes the numbers are known.
fn pieces_with_metal<A: Allocator + Copy>(
    alloc: A,
    flat: &Flat<A>,
    net: u32,
    numbers: &[u32],
) -> Result<Vec<bool, A>, AllocError>
    requires net { net < length flat.now.pieces }
    requires numbers { AreNumbersOf flat.now.shapes net numbers.now }
    requires proper { All (λ shape. IsRect shape.rect) flat.now.shapes }
    ensures marks { IfOk result (λ marks. AreMarks (HasSomePoint flat.now net) (piece_count flat.now net) marks.items) }
    ensures few { IfOk result (λ marks. length marks.items < 2 ^ 32) }
{
    let shapes = flat.shapes();
    let count = flat.pieces_of_net(net);
    let mut marks = vec![in alloc; false; count as usize]?;
    for number in numbers {
        if let Some(piece) = piece_below(&shapes[*number as usize], count) {
            marks[piece as usize] = true;
        }
    }
    Ok(marks)
}

/// Which of so many pieces the shape is metal of, if it is of one.
fn piece_below(shape: &Shape, count: u32) -> Option<u32>
    ensures { (piece : ℕ) → result ≡ Some piece ↔ ((shape.now.piece ≡ Some piece) × (piece < count)) }
{
    match shape.piece {
        Some(piece) if piece < count => Some(piece),
        _ => None,
    }
}

/// The marked pieces that aren't in the group of the first that is marked, in increasing order.
fn pieces_apart<A: Allocator>(
    alloc: A,
    marks: &[bool],
    groups: &[u32],
) -> Result<Vec<u32, A>, AllocError>
    requires same { length groups.now ≡ length marks.now }
    requires few { length marks.now < 2 ^ 32 }
    ensures { IfOk result (λ pieces. AreApart marks.now groups.now pieces.items) }
{
    let mut pieces = Vec::new(alloc);
    let Some(first) = first_marked(marks) else {
        return Ok(pieces);
    };
    for piece in 0..marks.len() {
        if is_apart(marks, groups, first, piece) {
            pieces.push(piece as u32)?;
        }
    }
    Ok(pieces)
}

/// The first place that is marked.
fn first_marked(marks: &[bool]) -> Option<usize>
    ensures { result ≡ position (λ marked. marked) marks.now }
{
    marks.iter().position(|marked| *marked)
}

/// Whether the place is marked, and in another group than the first that is.
fn is_apart(marks: &[bool], groups: &[u32], first: usize, place: usize) -> bool
    requires first { IsFirstMark marks.now first }
    requires within { place < length marks.now }
    requires same { length groups.now ≡ length marks.now }
    ensures { IsTrue result ↔ IsApart marks.now groups.now place }
{
    marks[place] && groups[place] != groups[first]
}

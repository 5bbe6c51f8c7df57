//! The metal of the pieces of a net.

ghost use Rattle.std.specs.Prelude.{◌≡◌, ◌↔◌, ◌<◌, ◌^◌, Some, length, Contains, IfOk};
ghost use Rattle.std.specs.List.Sorted.{IsNonDecreasingBy, IsPermutation};
ghost use Rattle.leg_wire.specs.NetShapes.{AreNumbersOf};
ghost use Rattle.leg_wire.specs.Joins.{IsWholeNet, ArePieceShapes};
ghost use Rattle.leg_wire.specs.Steps.PieceMetal.{SaysShape};

use leg_flat::{Flat, Shape};
use leg_geom::Rect;
use std::alloc::{AllocError, Allocator};

/// A rectangle of metal of a piece of a net.
#[derive(Clone, Copy)]
pub struct PieceShape {
    /// Which piece of the net it is.
    pub piece: u32,
    pub layer: usize,
    pub rect: Rect,
}

/// The metal of the pieces of the net, whose shapes have these numbers.
pub(crate) fn metal_of_net<A: Allocator + Copy>(
    alloc: A,
    flat: &Flat<A>,
    net: u32,
    numbers: &[u32],
) -> Result<Vec<PieceShape, A>, AllocError>
    requires net { net < length flat.now.pieces }
    requires numbers { AreNumbersOf flat.now.shapes net numbers.now }
    ensures shapes { IfOk result (λ pieces. ArePieceShapes flat.now net pieces.items) }
    ensures few { IfOk result (λ pieces. length pieces.items < 2 ^ 32) }
    // They are as many as the shapes only where each of these is metal of a piece.
    ensures whole { IfOk result (λ pieces. length pieces.items ≡ length numbers.now → IsWholeNet flat.now net) }
{
    let shapes = flat.shapes();
    let count = flat.pieces_of_net(net);
    let mut pieces = Vec::with_capacity(alloc, numbers.len())?;
    for number in numbers {
        if let Some(piece) = piece_shape(count, &shapes[*number as usize]) {
            pieces.push(piece)?;
        }
    }
    Ok(pieces)
}

/// The shape as metal of a piece of its net, which has this many pieces.
fn piece_shape(count: u32, shape: &Shape) -> Option<PieceShape>
    ensures { (piece : PieceShape) → result ≡ Some piece ↔ SaysShape count shape.now piece }
{
    let piece = shape.piece?;
    if piece >= count {
        return None;
    }
    Some(PieceShape {
        piece,
        layer: shape.layer,
        rect: shape.rect,
    })
}

/// Puts the metal in the order of its pieces.
pub(crate) fn sort_by_piece<A: Allocator>(metal: &mut Vec<PieceShape, A>)
    ensures same { IsPermutation metal.old.items metal.new.items }
    ensures in_order { IsNonDecreasingBy (λ (shape : PieceShape). shape.piece) metal.new.items }
{
    metal.sort_unstable_by_key(|shape| shape.piece);
}

/// The metal of the piece, of metal that is in the order of its pieces.
pub(crate) fn metal_of(metal: &[PieceShape], piece: u32) -> &[PieceShape]
    requires { IsNonDecreasingBy (λ (shape : PieceShape). shape.piece) metal.now }
    ensures { (shape : PieceShape) → Contains result.now shape ↔ (Contains metal.now shape × (shape.piece ≡ piece)) }
{
    let first = metal.partition_point(|shape| shape.piece < piece);
    let end = metal.partition_point(|shape| shape.piece <= piece);
    prove!(first <= end);
    &metal[first..end]
}

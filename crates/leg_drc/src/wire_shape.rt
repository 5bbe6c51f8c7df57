//! Which shapes are metal of wires.

ghost use Rattle.std.specs.Prelude.{◌≡◌, ◌↔◌, ℕ, IsTrue, Some, option_map};
ghost use Rattle.leg_rules.specs.declared.owner.Owner.TheVariants.{Net};
ghost use Rattle.leg_rules.specs.declared.piece.Piece.TheVariants.{Wire};
ghost use Rattle.leg_drc.specs.Wires.{IsOfWireOf, IsOfWire};

use leg_flat::{Flat, Owner, Piece, Shape};
use std::alloc::Allocator;

/// The numbers of the net and of its wire whose metal the shape is, if it is that of a wire.
pub(crate) fn wire_of<A: Allocator + Copy>(flat: &Flat<A>, shape: &Shape) -> Option<(u32, u32)>
    ensures { (n w : ℕ) → result ≡ Some (n, w) ↔ IsOfWireOf flat.now n w shape.now }
{
    let net = net_of(shape.owner)?;
    let piece = shape.piece?;
    if net >= flat.net_count() {
        return None;
    }
    let wire = wire_number(flat.pieces(net).get(piece as usize))?;
    Some((net, wire))
}

/// The number of the net that the owner is, if it is one.
fn net_of(owner: Owner) -> Option<u32>
    ensures { (n : ℕ) → result ≡ Some n ↔ owner ≡ Net n }
{
    match owner {
        Owner::Net(net) => Some(net),
        _ => None,
    }
}

/// The number of the wire that a piece is, if it is one.
fn wire_number(piece: Option<&Piece>) -> Option<u32>
    ensures { (w : ℕ) → result ≡ Some w ↔ option_map (λ piece. piece.now) piece.entry ≡ Some (Wire w) }
{
    match piece {
        Some(Piece::Wire(wire)) => Some(*wire),
        _ => None,
    }
}

/// Whether the shape is metal of a wire.
pub(crate) fn is_of_wire<A: Allocator + Copy>(flat: &Flat<A>, shape: &Shape) -> bool
    ensures { IsTrue result ↔ IsOfWire flat.now shape.now }
{
    wire_of(flat, shape).is_some()
}

//! Which pieces of a net are joined: to its first one, and to each other.

ghost use Rattle.std.specs.Prelude.{◌<◌, length, IfOk};
ghost use Rattle.leg_wire.specs.PieceMarks.{AreMarks, AreFirsts};
ghost use Rattle.leg_rules.specs.Joins.Touch.{piece_count, AreJoined};
ghost use Rattle.leg_wire.specs.NetShapes.{AreNumbersOf};

use crate::joining::joined_sets;
use crate::net_shapes::numbers_of_net;
use crate::piece_shape::metal_of_net;
use leg_flat::Flat;
use std::alloc::{AllocError, Allocator};

/// For each piece of the net of this number whether it is joined to the net's first piece: whether it is that piece, or
/// touches one that is joined to it. Pieces touch if two different points on one layer lie in both (lefdef's own rule).
///
/// It fails only when out of memory.
pub fn joined<A: Allocator + Copy>(
    alloc: A,
    flat: &Flat<A>,
    net: u32,
) -> Result<Vec<bool, A>, AllocError>
    requires { net < length flat.now.pieces }
    ensures { IfOk result (λ marks. AreMarks (AreJoined flat.now net 0) (piece_count flat.now net) marks.items) }
{
    prove!(net < flat.net_count());
    let numbers = numbers_of_net(alloc, flat.shapes(), net)?;
    joined_among(alloc, flat, net, &numbers)
}

/// The same for a net of whose shapes the numbers are known: in increasing order, as `numbers_by_net` gives them. It looks at
/// these shapes alone.
///
/// It fails only when out of memory.
pub fn joined_among<A: Allocator + Copy>(
    alloc: A,
    flat: &Flat<A>,
    net: u32,
    numbers: &[u32],
) -> Result<Vec<bool, A>, AllocError>
    requires net { net < length flat.now.pieces }
    requires numbers { AreNumbersOf flat.now.shapes net numbers.now }
    ensures { IfOk result (λ marks. AreMarks (AreJoined flat.now net 0) (piece_count flat.now net) marks.items) }
{
    let metal = metal_of_net(alloc, flat, net, numbers)?;
    let sets = joined_sets(alloc, flat, net, &metal)?;
    sets.marks(alloc)
}

/// For each piece of the net the least piece that it is joined to, by their numbers: two pieces are joined to each other just
/// where these are the same. The numbers of the net's shapes are known, in increasing order, as for `joined_among`.
///
/// It fails only when out of memory.
pub fn groups_among<A: Allocator + Copy>(
    alloc: A,
    flat: &Flat<A>,
    net: u32,
    numbers: &[u32],
) -> Result<Vec<u32, A>, AllocError>
    requires net { net < length flat.now.pieces }
    requires numbers { AreNumbersOf flat.now.shapes net numbers.now }
    ensures { IfOk result (λ firsts. AreFirsts (AreJoined flat.now net) (piece_count flat.now net) firsts.items) }
{
    let metal = metal_of_net(alloc, flat, net, numbers)?;
    let sets = joined_sets(alloc, flat, net, &metal)?;
    sets.roots(alloc)
}

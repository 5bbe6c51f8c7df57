//! Which pieces of a net are joined, which is kept from walk to walk.

ghost use Rattle.std.specs.Prelude.{◌≡◌, ◌<◌, ◌⊎◌, [], length, Some, IfOk, IfSome};
ghost use Rattle.leg_wire.specs.NetShapes.{AreNumbersOf};
ghost use Rattle.leg_wire.specs.Joins.{AreJoinsOf};
ghost use Rattle.leg_route.specs.Steps.Ready.{IsWithWire};

use leg_flat::{Flat, Shape};
use leg_wire::NetJoins;
use std::alloc::{AllocError, Allocator};

/// The joins of the net of this number, whose shapes have these numbers: what is kept, where it is of this net.
pub(crate) fn joins_of<A: Allocator + Copy>(
    alloc: A,
    kept: Option<NetJoins<A>>,
    flat: &Flat<A>,
    net: u32,
    numbers: &[u32],
) -> Result<NetJoins<A>, AllocError>
    requires net { net < length flat.now.pieces }
    requires numbers { AreNumbersOf flat.now.shapes net numbers.now }
    requires kept { IfSome kept (AreJoinsOf flat.now) }
    ensures of { IfOk result (λ joins. AreJoinsOf flat.now joins) }
    ensures net { IfOk result (λ joins. joins.net ≡ net) }
    ensures given { IfOk result (λ joins. joins.given ≡ [] ⊎ kept ≡ Some joins) }
{
    if let Some(joins) = kept {
        if joins.net() == net {
            return Ok(joins);
        }
    }
    NetJoins::new(alloc, flat, net, numbers)
}

/// What is kept when the net gets a wire of these shapes: the joins with that piece, where they are of this net and it can be added,
/// and else nothing.
pub(crate) fn with_wire<A: Allocator + Copy>(
    kept: Option<NetJoins<A>>,
    net: u32,
    shapes: &[Shape],
) -> Result<Option<NetJoins<A>>, AllocError>
    ensures { IfOk result (λ after. IfSome after (IsWithWire kept net shapes.now)) }
{
    let Some(joins) = kept else {
        return Ok(None);
    };
    if joins.net() != net || !joins.can_add(shapes.len()) {
        return Ok(None);
    }
    let joins = joins.with_piece(shapes)?;
    Ok(Some(joins))
}

//! The slots of nodes in the metal of some pieces of a net: of those that are joined to one of them, or of the others.

ghost use Rattle.std.specs.Prelude.{◌↔◌, ◌<◌, IsTrue, All, length, IfOk};
ghost use Rattle.leg_finish.specs.Steps.GroupSlots.{IsJoinedAs, AreSlotsOf};

use leg_flat::Shape;
use leg_route_grid::{BoxedSlots, Grid, add_slots_in};
use std::alloc::{AllocError, Allocator};

/// Whether the piece is one that is joined to this first one, or one that isn't.
fn is_joined_as(piece: Option<u32>, firsts: &[u32], first: u32, is_joined: bool) -> bool
    ensures { IsTrue result ↔ IsJoinedAs firsts.now first is_joined piece }
{
    match piece {
        Some(number) => match firsts.get(number as usize) {
            Some(least) => (*least == first) == is_joined,
            None => false,
        },
        None => false,
    }
}

/// The slots that lie in shapes of the pieces that are joined to this first one, or of those that aren't, of the shapes of these
/// numbers, and for each shape in which some lie their box. `firsts` has for each piece of the net the least one that it is joined to.
pub(crate) fn group_slots<A: Allocator + Copy>(
    alloc: A,
    grid: &Grid<'_, '_, A>,
    shapes: &[Shape],
    numbers: &[u32],
    firsts: &[u32],
    first: u32,
    is_joined: bool,
) -> Result<BoxedSlots<A>, AllocError>
    requires { All (λ k. k < length shapes.now) numbers.now }
    ensures { IfOk result (λ found. AreSlotsOf grid.now shapes.now (IsJoinedAs firsts.now first is_joined) numbers.now found.boxes.items found.slots.items) }
{
    let mut found = BoxedSlots::new(alloc);
    for number in numbers {
        let shape = &shapes[*number as usize];
        if is_joined_as(shape.piece, firsts, first, is_joined) {
            add_slots_in(grid, shape.layer, &shape.rect, &mut found)?;
        }
    }
    Ok(found)
}

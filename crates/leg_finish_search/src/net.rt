//! Nets to be routed.

ghost use Rattle.leg_finish_search.specs.Slots.{AreSlots, AreSlotLists};

use crate::ground::Ground;
use crate::lattice::Lattice;
use crate::place::PlaceBox;
use leg_lib_records::Items;
use std::alloc::Allocator;

/// A net whose pieces are to be joined: for each group of pieces that are joined already the slots of the nodes that lie in their
/// metal and are open to the net, in increasing order.
#[derive(Drop)]
pub struct NetToJoin<A: Allocator> {
    /// The net's number.
    pub net: u32,
    pub groups: Vec<Items<u32, A>, A>,
}

/// The least box around what there is of both.
fn around(a: Option<PlaceBox>, b: Option<PlaceBox>) -> Option<PlaceBox> {
    match (a, b) {
        (Some(a), Some(b)) => Some(a.with(b.low).with(b.high)),
        (None, b) => b,
        (a, None) => a,
    }
}

/// The box around these slots, if there are any.
pub(crate) fn box_of<A: Allocator + Copy, L: Lattice>(
    ground: &Ground<'_, A, L>,
    slots: &[u32],
) -> Option<PlaceBox>
    requires { AreSlots (L.size_of ground.now.lattice.now) slots.now }
{
    let mut ends = None;
    for slot in slots {
        ends = around(ends, Some(PlaceBox::of(ground.place_at(*slot))));
    }
    ends
}

/// The width and the height together of the box around all nodes of the net; 0 where there are none.
pub(crate) fn half_perimeter<A: Allocator + Copy, L: Lattice>(
    ground: &Ground<'_, A, L>,
    net: &NetToJoin<A>,
) -> u32
    requires { AreSlotLists (L.size_of ground.now.lattice.now) net.now.groups.items }
{
    let mut ends = None;
    for group in &net.groups {
        ends = around(ends, box_of(ground, group.as_slice()));
    }
    match ends {
        Some(ends) => ends.half_perimeter(),
        None => 0,
    }
}

//! The nodes of open nets, group by group.

ghost use Rattle.std.specs.Prelude.{◌≡◌, ◌<◌, ℕ, All, length, IfOk};
ghost use Rattle.leg_route_grid.specs.Steps.Grid.{slot_total};
ghost use Rattle.leg_finish_search.specs.Slots.{AreSlots, AreSlotLists};

use crate::group_slots::group_slots;
use crate::groups::OpenNet;
use leg_finish_search::NetToJoin;
use leg_flat::Flat;
use leg_lib_records::Items;
use leg_route_access::SlotAccess;
use leg_route_grid::Grid;
use std::alloc::{AllocError, Allocator};

/// The nets with their groups, and of each group the nodes that are open to the net.
pub(crate) fn nets_to_join<A: Allocator + Copy>(
    alloc: A,
    grid: &Grid<'_, '_, A>,
    slots: &[SlotAccess],
    flat: &Flat<A>,
    nets: &[OpenNet<A>],
) -> Result<Vec<NetToJoin<A>, A>, AllocError>
    requires count { length slots.now ≡ slot_total grid.now }
    requires shapes { All (λ net. All (λ k. k < length flat.now.shapes) net.shapes) nets.now }
    ensures count { IfOk result (λ joined. length joined.items ≡ length nets.now) }
    ensures within { IfOk result (λ joined. All (λ net. AreSlotLists (slot_total grid.now) net.groups.items) joined.items) }
{
    let mut joined = Vec::with_capacity(alloc, nets.len())?;
    for net in nets {
        joined.push(NetToJoin {
            net: net.net,
            groups: groups_of(alloc, grid, slots, flat, net)?,
        })?;
    }
    Ok(joined)
}

/// The groups of a net.
fn groups_of<A: Allocator + Copy>(
    alloc: A,
    grid: &Grid<'_, '_, A>,
    slots: &[SlotAccess],
    flat: &Flat<A>,
    net: &OpenNet<A>,
) -> Result<Vec<Items<u32, A>, A>, AllocError>
    requires count { length slots.now ≡ slot_total grid.now }
    requires shapes { All (λ k. k < length flat.now.shapes) net.now.shapes }
    ensures { IfOk result (λ groups. AreSlotLists (slot_total grid.now) groups.items) }
{
    let mut groups = Vec::new(alloc);
    for (piece, first) in net.firsts.as_slice().iter().enumerate() {
        // (a group has the number of its least piece)
        if *first as usize == piece {
            groups.push(group_of(alloc, grid, slots, flat, net, *first)?)?;
        }
    }
    Ok(groups)
}

/// The open nodes of the group of this first piece, in increasing order.
fn group_of<A: Allocator + Copy>(
    alloc: A,
    grid: &Grid<'_, '_, A>,
    slots: &[SlotAccess],
    flat: &Flat<A>,
    net: &OpenNet<A>,
    first: u32,
) -> Result<Items<u32, A>, AllocError>
    requires count { length slots.now ≡ slot_total grid.now }
    requires shapes { All (λ k. k < length flat.now.shapes) net.now.shapes }
    ensures { IfOk result (AreSlots (slot_total grid.now)) }
{
    let mut found = group_slots(
        alloc,
        grid,
        flat.shapes(),
        net.shapes.as_slice(),
        net.firsts.as_slice(),
        first,
        true,
    )?;
    put_in_order(&mut found.slots);
    open_ones(alloc, slots, net.net, &found.slots)
}

/// Puts the numbers of slots in increasing order, each once.
fn put_in_order<A: Allocator>(numbers: &mut Vec<u32, A>)
    ensures { (size : ℕ) → AreSlots size numbers.old.items → AreSlots size numbers.new.items }
{
    numbers.sort_unstable();
    numbers.dedup();
}

/// Those of the slots whose node is open to the net.
fn open_ones<A: Allocator + Copy>(
    alloc: A,
    slots: &[SlotAccess],
    net: u32,
    numbers: &[u32],
) -> Result<Items<u32, A>, AllocError>
    requires { AreSlots (length slots.now) numbers.now }
    ensures { IfOk result (AreSlots (length slots.now)) }
{
    let mut kept = Vec::new(alloc);
    for number in numbers {
        if slots[*number as usize].node.admits(net) {
            kept.push(*number)?;
        }
    }
    Ok(Items::from_vec(kept))
}

//! The first piece that cannot be reached.

ghost use Rattle.std.specs.Prelude.{◌≡◌, ◌↔◌, ◌<◌, IsTrue, Some, slice_get, All, length, IfOk};
ghost use Rattle.leg_route_grid.specs.Steps.Grid.{slot_total};
ghost use Rattle.leg_route_grid.specs.Steps.WalkBounds.{AreBoxed};
ghost use Rattle.leg_route_access.specs.Steps.AccessTable.{IsAccessTable};
ghost use Rattle.leg_rules.specs.Finish.Reach.{IsUnreachable, IsFirstOfNetIfAny};
ghost use Rattle.leg_finish.specs.Steps.OpenNets.{IsOpenWith, AreOpenNets};
ghost use Rattle.leg_finish.specs.Steps.Reach.{HasNoWay, IsFirstUnreachableIfAny};

use crate::group_slots::group_slots;
use crate::groups::OpenNet;
use leg_design_records::Design;
use leg_flat::Flat;
use leg_route_access::laws::searches_walk_as_nodes;
use leg_route_access::{NetGraph, SlotAccess, slots_beside};
use leg_route_grid::laws::nodes_have_numbers;
use leg_route_grid::{BoxedSlots, Grid, grid_is_sound, hulls_of};
use leg_route_search::{Marks, shortest};
use leg_wire::laws::{joined_both_ways, joined_onward};
use std::alloc::{AllocError, Allocator};

/// Whether no open walk of the net leads from one of these slots to one of those. `slots` has what is open in the flat.
fn has_no_way<A: Allocator + Copy>(
    alloc: A,
    grid: &Grid<'_, '_, A>,
    flat: &Flat<A>,
    slots: &[SlotAccess],
    net: u32,
    starts: &BoxedSlots<A>,
    ends: &BoxedSlots<A>,
    marks: &mut Marks<A>,
) -> Result<bool, AllocError>
    requires told { IsAccessTable grid.now flat.now slots.now }
    requires starts_within { All (λ n. n < slot_total grid.now) starts.now.slots.items }
    requires ends_within { All (λ n. n < slot_total grid.now) ends.now.slots.items }
    requires starts_boxed { AreBoxed grid.now starts.now.boxes.items starts.now.slots.items }
    requires ends_boxed { AreBoxed grid.now ends.now.boxes.items ends.now.slots.items }
    requires count { length marks.old ≡ slot_total grid.now }
    ensures none { IfOk result (λ none. IsTrue none ↔ HasNoWay grid.now flat.now net starts.now.slots.items ends.now.slots.items) }
    ensures count { length marks.new ≡ length marks.old }
{
    grid_is_sound(grid);
    if starts.slots.is_empty() {
        return Ok(true);
    }
    if ends.slots.is_empty() {
        return Ok(true);
    }
    let start_hulls = hulls_of(alloc, &starts.boxes)?;
    let end_hulls = hulls_of(alloc, &ends.boxes)?;
    let graph = NetGraph {
        grid,
        slots,
        net,
        starts: starts.boxes.as_slice(),
        start_hulls: start_hulls.as_slice(),
        ends: ends.boxes.as_slice(),
        end_hulls: end_hulls.as_slice(),
    };
    searches_walk_as_nodes();
    let walk = shortest(alloc, &graph, &starts.slots, &ends.slots, marks)?;
    Ok(walk.is_none())
}

/// Whether no open walk leads from the pieces that are joined to this one to another piece of the net, which is open. The piece is
/// the least of those. `slots` has what is open in the flat.
fn is_unreachable<A: Allocator + Copy>(
    alloc: A,
    grid: &Grid<'_, '_, A>,
    flat: &Flat<A>,
    slots: &[SlotAccess],
    net: &OpenNet<A>,
    first: u32,
    marks: &mut Marks<A>,
) -> Result<bool, AllocError>
    requires told { IsAccessTable grid.now flat.now slots.now }
    requires is_open { IsOpenWith grid.now.design flat.now net.now }
    requires least { slice_get net.now.firsts first ≡ Some first }
    requires count { length marks.old ≡ slot_total grid.now }
    ensures unreachable { IfOk result (λ unreachable. IsTrue unreachable ↔ IsUnreachable grid.now.design flat.now net.now.net first) }
    ensures count { length marks.new ≡ length marks.old }
{
    let shapes = flat.shapes();
    let numbers = net.shapes.as_slice();
    let firsts = net.firsts.as_slice();
    let starts = group_slots(alloc, grid, shapes, numbers, firsts, first, true)?;
    let ends = group_slots(alloc, grid, shapes, numbers, firsts, first, false)?;
    grid_is_sound(grid);
    nodes_have_numbers();
    joined_both_ways();
    joined_onward();
    let none = has_no_way(alloc, grid, flat, slots, net.net, &starts, &ends, marks)?;
    Ok(none)
}

/// The first piece of the net, which is open, that cannot be reached, if there is one. `slots` has what is open in the flat.
fn unreachable_piece<A: Allocator + Copy>(
    alloc: A,
    grid: &Grid<'_, '_, A>,
    flat: &Flat<A>,
    slots: &[SlotAccess],
    net: &OpenNet<A>,
    marks: &mut Marks<A>,
) -> Result<Option<u32>, AllocError>
    requires told { IsAccessTable grid.now flat.now slots.now }
    requires is_open { IsOpenWith grid.now.design flat.now net.now }
    requires count { length marks.old ≡ slot_total grid.now }
    ensures found { IfOk result (λ found. IsFirstOfNetIfAny grid.now.design flat.now net.now.net found) }
    ensures count { length marks.new ≡ length marks.old }
{
    joined_both_ways();
    joined_onward();
    let firsts = net.firsts.as_slice();
    for (piece, first) in firsts.iter().enumerate() {
        // (pieces that are joined are all reached, or none of them)
        if *first as usize != piece {
            continue;
        }
        let unreachable = is_unreachable(alloc, grid, flat, slots, net, *first, marks)?;
        if unreachable {
            return Ok(Some(*first));
        }
    }
    Ok(None)
}

/// The first piece of these nets, which are those that are open, that cannot be reached, if there is one: by the numbers of its net and
/// of itself.
pub(crate) fn first_unreachable<A: Allocator + Copy>(
    alloc: A,
    grid: &Grid<'_, '_, A>,
    design: &Design<'_, A>,
    flat: &Flat<A>,
    nets: &[OpenNet<A>],
) -> Result<Option<(u32, u32)>, AllocError>
    requires of_design { grid.now.design ≡ design.now }
    requires nets { AreOpenNets design.now flat.now nets.now }
    ensures { IfOk result (λ found. IsFirstUnreachableIfAny design.now flat.now found) }
{
    let slots = slots_beside(alloc, grid, design, flat.shapes())?;
    let mut marks = Marks::new(alloc, grid.size() as usize)?;
    for net in nets {
        let found = unreachable_piece(alloc, grid, flat, &slots, net, &mut marks)?;
        if let Some(piece) = found {
            return Ok(Some((net.net, piece)));
        }
    }
    Ok(None)
}

/// The same of one net that is open.
pub(crate) fn unreachable_piece_of<A: Allocator + Copy>(
    alloc: A,
    grid: &Grid<'_, '_, A>,
    design: &Design<'_, A>,
    flat: &Flat<A>,
    net: &OpenNet<A>,
) -> Result<Option<u32>, AllocError>
    requires of_design { grid.now.design ≡ design.now }
    requires is_open { IsOpenWith design.now flat.now net.now }
    ensures { IfOk result (λ found. IsFirstOfNetIfAny design.now flat.now net.now.net found) }
{
    let slots = slots_beside(alloc, grid, design, flat.shapes())?;
    let mut marks = Marks::new(alloc, grid.size() as usize)?;
    let found = unreachable_piece(alloc, grid, flat, &slots, net, &mut marks)?;
    Ok(found)
}

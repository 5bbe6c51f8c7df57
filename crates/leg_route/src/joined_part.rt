//! The joined part of a net, which is kept from walk to walk while the net has its turn.

ghost use Rattle.std.specs.Prelude.{◌≡◌, ◌<◌, ◌≤◌, [], All, length, IfOk, OnOk};
ghost use Rattle.leg_rules.specs.Metal.Flat.{FlatModel};
ghost use Rattle.leg_rules.specs.Joins.Touch.{piece_count, AreJoined};
ghost use Rattle.leg_wire.specs.Joins.{AreJoinsOf};
ghost use Rattle.leg_wire.specs.NetShapes.{AreNumbersOf};
ghost use Rattle.leg_wire.specs.PieceMarks.{AreMarks, AreFirsts};
ghost use Rattle.leg_route_access.specs.Steps.AccessTable.{IsAccessTable};
ghost use Rattle.leg_route_grid.specs.Steps.Grid.{GridModel};
ghost use Rattle.leg_route.specs.Steps.JoinedPart.{part_in, IsJoinedPart, HaveCome, HaveMarked, HaveGotSlots, IsGrowing, MeetsMetal, MeetsPieces};
ghost use Rattle.leg_route.specs.Steps.NetEnds.{ends_in};
ghost use Rattle.leg_route.specs.Steps.NetSlots.{IsPartOf};

use crate::end_slots::{are_joined_from, ends_left, ends_of};
use crate::net_ends::{NetEnds, net_ends, note_boxes};
use crate::next_wires::marked_slots;
use leg_flat::Flat;
use leg_route_access::SlotAccess;
use leg_route_grid::{BoxedSlots, Grid, Hull, add_hulls, add_slots_in, grid_is_sound, hulls_of};
use leg_wire::{NetJoins, PieceShape};
use std::alloc::{AllocError, Allocator};

/// For pieces of a net whether they are joined to its first one, the slots in the shapes of those that are, with the hulls of their
/// boxes, and the slots in those of the others. What came to the net later isn't in it.
#[derive(Drop)]
pub(crate) struct JoinedPart<A: Allocator> {
    pub(crate) net: u32,
    pub(crate) joined: Vec<bool, A>,
    pub(crate) slots: BoxedSlots<A>,
    pub(crate) hulls: Vec<Hull, A>,
    pub(crate) ends: NetEnds<A>,
}

impl<A: Allocator + Copy> JoinedPart<A> {
    /// Of no pieces of a net.
    pub(crate) fn new(alloc: A, net: u32) -> JoinedPart<A>
        ensures net { result.net ≡ net }
        ensures joined { result.joined.items ≡ [] }
        ensures slots { result.slots.slots.items ≡ [] }
        ensures boxes { result.slots.boxes.items ≡ [] }
        ensures hulls { result.hulls.items ≡ [] }
        ensures ends { ends_in result.ends ≡ record { near = []; listed = []; far = [] } }
    {
        JoinedPart {
            net,
            joined: Vec::new(alloc),
            slots: BoxedSlots::new(alloc),
            hulls: Vec::new(alloc),
            ends: NetEnds {
                near: Vec::new(alloc),
                listed: Vec::new(alloc),
                far: Vec::new(alloc),
            },
        }
    }

    /// The same where it is of this net, and else that of no pieces.
    pub(crate) fn of_net(self, alloc: A, net: u32) -> JoinedPart<A>
        ensures net { result.net ≡ net }
        ensures same { self.net ≡ net → result ≡ self }
        ensures is { (grid : GridModel) (flat : FlatModel)
            → IsJoinedPart grid flat (part_in self) → IsJoinedPart grid flat (part_in result) }
    {
        if self.net == net {
            return self;
        }
        JoinedPart::new(alloc, net)
    }
}

/// The part of the net, to whose joined pieces these have come. What is in the part from before is not looked for again, where the
/// pieces that came later are joined. `numbers` are those of the net's shapes, and `table` has what is open in the flat.
pub(crate) fn part_now<A: Allocator + Copy>(
    alloc: A,
    grid: &Grid<'_, '_, A>,
    flat: &Flat<A>,
    table: &[SlotAccess],
    net: u32,
    numbers: &[u32],
    joins: &NetJoins<A>,
    come: &[u32],
    mut part: JoinedPart<A>,
) -> Result<JoinedPart<A>, AllocError>
    requires told { IsAccessTable grid.now flat.now table.now }
    requires in_range { net < length flat.now.pieces }
    requires numbers { AreNumbersOf flat.now.shapes net numbers.now }
    requires joins { AreJoinsOf flat.now joins.now }
    requires of_net { joins.now.net ≡ net }
    requires net { part.net ≡ net }
    requires part { IsJoinedPart grid.now flat.now (part_in part) }
    requires come { HaveCome flat.now net part.joined.items come.now }
    ensures net { IfOk result (λ now. now.net ≡ net) }
    ensures joined { IfOk result (λ now. AreMarks (AreJoined flat.now net 0) (piece_count flat.now net) now.joined.items) }
    ensures is { IfOk result (λ now. IsPartOf grid.now flat.now net now.joined.items numbers.now
        now.slots.boxes.items now.slots.slots.items now.hulls.items (ends_in now.ends)) }
{
    let had = part.joined.len();
    mark_joined(&mut part.joined, flat.pieces_of_net(net), come)?;
    if had > 0 && are_joined_from(&part.joined, had) {
        return grown_part(alloc, grid, flat, numbers, joins, come, part);
    }
    let firsts = joins.firsts(alloc)?;
    new_part(alloc, grid, flat, table, net, numbers, &firsts, part.joined)
}

/// Marks the pieces that have come, of this many.
fn mark_joined<A: Allocator>(
    joined: &mut Vec<bool, A>,
    count: u32,
    come: &[u32],
) -> Result<(), AllocError>
    requires few { length joined.old.items ≤ count }
    requires within { All (λ piece. piece < count) come.now }
    ensures { OnOk result (HaveMarked joined.old.items count come.now joined.new.items) }
{
    joined.resize(count as usize, false)?;
    for piece in come {
        joined[*piece as usize] = true;
    }
    Ok(())
}

/// The part of a net of which nothing is kept. `firsts` has for each piece the first one that it is joined to.
fn new_part<A: Allocator + Copy>(
    alloc: A,
    grid: &Grid<'_, '_, A>,
    flat: &Flat<A>,
    table: &[SlotAccess],
    net: u32,
    numbers: &[u32],
    firsts: &[u32],
    joined: Vec<bool, A>,
) -> Result<JoinedPart<A>, AllocError>
    requires told { IsAccessTable grid.now flat.now table.now }
    requires numbers { All (λ k. k < length flat.now.shapes) numbers.now }
    requires firsts { AreFirsts (AreJoined flat.now net) (piece_count flat.now net) firsts.now }
    requires marks { length joined.items ≡ piece_count flat.now net }
    ensures net { IfOk result (λ now. now.net ≡ net) }
    ensures joined { IfOk result (λ now. now.joined.items ≡ joined.items) }
    ensures is { IfOk result (λ now. IsPartOf grid.now flat.now net now.joined.items numbers.now
        now.slots.boxes.items now.slots.slots.items now.hulls.items (ends_in now.ends)) }
{
    grid_is_sound(grid);
    let shapes = flat.shapes();
    let slots = marked_slots(alloc, grid, shapes, numbers, &joined, true)?;
    let hulls = hulls_of(alloc, &slots.boxes)?;
    let ends = ends_of(
        alloc,
        grid,
        table,
        net,
        shapes,
        numbers,
        &joined,
        firsts,
        &slots.boxes,
        &hulls,
    )?;
    let ends = net_ends(alloc, grid, ends)?;
    Ok(JoinedPart {
        net,
        joined,
        slots,
        hulls,
        ends,
    })
}

/// The part with the metal of the pieces that have come to the joined ones, and are marked so.
fn grown_part<A: Allocator + Copy>(
    alloc: A,
    grid: &Grid<'_, '_, A>,
    flat: &Flat<A>,
    numbers: &[u32],
    joins: &NetJoins<A>,
    come: &[u32],
    part: JoinedPart<A>,
) -> Result<JoinedPart<A>, AllocError>
    requires growing { IsGrowing grid.now flat.now numbers.now joins.now.metal come.now (part_in part) }
    ensures net { IfOk result (λ now. now.net ≡ part.net) }
    ensures joined { IfOk result (λ now. now.joined.items ≡ part.joined.items) }
    ensures is { IfOk result (λ now. IsPartOf grid.now flat.now part.net now.joined.items numbers.now
        now.slots.boxes.items now.slots.slots.items now.hulls.items (ends_in now.ends)) }
{
    grid_is_sound(grid);
    let JoinedPart {
        net,
        joined,
        mut slots,
        mut hulls,
        mut ends,
    } = part;
    let first = slots.boxes.len();
    add_pieces(grid, joins, come, &mut slots)?;
    add_hulls(&slots.boxes, &mut hulls)?;
    let come = &slots.boxes[first..];
    let come_hulls = hulls_of(alloc, come)?;
    ends.near = ends_left(alloc, grid, &ends.near, &joined, come, &come_hulls)?;
    note_boxes(&mut ends.far, come, &come_hulls);
    Ok(JoinedPart {
        net,
        joined,
        slots,
        hulls,
        ends,
    })
}

/// Adds the slots in the metal of these pieces.
fn add_pieces<A: Allocator + Copy>(
    grid: &Grid<'_, '_, A>,
    joins: &NetJoins<A>,
    pieces: &[u32],
    found: &mut BoxedSlots<A>,
) -> Result<(), AllocError>
    ensures { OnOk result (HaveGotSlots grid.now (MeetsPieces joins.now.metal pieces.now) found.old.boxes.items found.old.slots.items
        found.new.boxes.items found.new.slots.items) }
{
    for piece in pieces {
        add_metal(grid, joins.metal_of(*piece), found)?;
    }
    Ok(())
}

/// Adds the slots in these shapes.
fn add_metal<A: Allocator + Copy>(
    grid: &Grid<'_, '_, A>,
    metal: &[PieceShape],
    found: &mut BoxedSlots<A>,
) -> Result<(), AllocError>
    ensures { OnOk result (HaveGotSlots grid.now (MeetsMetal metal.now) found.old.boxes.items found.old.slots.items
        found.new.boxes.items found.new.slots.items) }
{
    for shape in metal {
        add_slots_in(grid, shape.layer, &shape.rect, found)?;
    }
    Ok(())
}

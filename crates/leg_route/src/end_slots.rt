//! The slots in the pieces of a net that are not joined to its first one: where its walks end.

ghost use Rattle.std.specs.Prelude.{◌≡◌, ◌≤◌, ◌<◌, ◌++◌, ◌∷◌, [], ℕ, true, IsTrue, length, get_or, map, All, IfOk, OnOk};
ghost use Rattle.leg_wire.specs.Steps.NumberSets.{AreTogether};
ghost use Rattle.leg_route_access.specs.Steps.AccessToNet.{IsNodeAdmitted};
ghost use Rattle.leg_route_grid.specs.Steps.Grid.{slot_total};
ghost use Rattle.leg_route_grid.specs.Steps.Hulls.{AreHulls};
ghost use Rattle.leg_route_grid.specs.Steps.WalkBounds.{IsBoxOf};
ghost use Rattle.leg_route.specs.declared.end_slots.EndSlot.{EndSlot};
ghost use Rattle.leg_route.specs.Steps.EndSlots.{IsApart, MeetsPiece, IsBoundFrom, HasEndFor, HaveGotSlotEnds, HaveGotEnds, AreEndSlots, AreSameEnds, AreEndsLeft};

use crate::next_wires::has_mark;
use leg_flat::Shape;
use leg_geom::Rect;
use leg_route_access::SlotAccess;
use leg_route_grid::{BoxedSlots, Grid, Hull, SlotBox, add_slots_in, bound};
use std::alloc::{AllocError, Allocator};

/// A slot in a piece of a net that is not joined to its first one, and a number of steps, of which an open walk of the net from the
/// joined ones to it has no fewer.
#[derive(Clone, Copy)]
pub(crate) struct EndSlot {
    pub(crate) piece: u32,
    pub(crate) slot: u32,
    pub(crate) least: u32,
}

/// Ends, and for each slot, where places are noted, the place in the list of an end that stands at it, if there is one.
#[derive(Drop)]
struct EndList<A: Allocator> {
    ends: Vec<EndSlot, A>,
    places: Vec<u32, A>,
}

impl<A: Allocator> EndList<A> {
    /// Whether the end at the place of the slot stands at the slot, in a piece whose first one is that of this piece.
    fn has(&self, firsts: &[u32], piece: u32, slot: u32) -> bool
        ensures { IsTrue result → HasEndFor firsts.now self.now.ends.items piece slot }
    {
        let Some(place) = self.places.get(slot as usize) else {
            return false;
        };
        let Some(end) = self.ends.get(*place as usize) else {
            return false;
        };
        end.slot == slot && have_one_first(firsts, end.piece, piece)
    }

    /// Whether the slot is passed over as an end in the piece: where places are noted, it is if it is not open to the net, or if it
    /// is listed.
    fn passes_over(
        &self,
        table: &[SlotAccess],
        net: u32,
        firsts: &[u32],
        piece: u32,
        slot: u32,
    ) -> bool
        requires { slot < length table.now }
        ensures { IsTrue result → IsNodeAdmitted table.now net slot → HasEndFor firsts.now self.now.ends.items piece slot }
    {
        if self.places.is_empty() {
            return false;
        }
        !table[slot as usize].node.admits(net) || self.has(firsts, piece, slot)
    }

    /// Adds the end, whose place is noted where places are.
    fn push(&mut self, end: EndSlot) -> Result<(), AllocError>
        ensures { OnOk result (self.new.ends.items ≡ self.old.ends.items ++ end ∷ []) }
    {
        if (end.slot as usize) < self.places.len() {
            self.places[end.slot as usize] = self.ends.len().min(u32::MAX as usize) as u32;
        }
        self.ends.push(end)?;
        Ok(())
    }

    /// Makes room for the places of this many slots, where the list gets as many ends more that there may be one for every eighth slot.
    fn note_places(&mut self, slots: u32, more: usize) -> Result<(), AllocError>
        ensures { OnOk result (self.new.ends.items ≡ self.old.ends.items) }
    {
        let many = slots / SLOTS_PER_END;
        if self.places.is_empty() && self.ends.len().saturating_add(more) > many as usize {
            self.places.resize(slots as usize, 0)?;
        }
        Ok(())
    }
}

/// Where there is an end for so many slots of the grid, the places of ends are noted, and no slot is listed again for pieces that are
/// joined: most of them lie in metal as large as the block.
const SLOTS_PER_END: u32 = 8;

/// Whether the first piece that is joined to the one is that of the other.
fn have_one_first(firsts: &[u32], one: u32, other: u32) -> bool
    ensures { IsTrue result → AreTogether firsts.now one other }
{
    match firsts.get(other as usize) {
        Some(first) => firsts.get(one as usize) == Some(first),
        None => false,
    }
}

/// Adds the slots as ends in the piece, each with how many steps are left to it from the boxes, whose hulls these are; where places
/// are noted, only those that are open to the net and are not listed yet.
fn push_ends<A: Allocator + Copy>(
    grid: &Grid<'_, '_, A>,
    table: &[SlotAccess],
    net: u32,
    firsts: &[u32],
    slots: &[u32],
    piece: u32,
    boxes: &[SlotBox],
    hulls: &[Hull],
    list: &mut EndList<A>,
) -> Result<(), AllocError>
    requires count { length table.now ≡ slot_total grid.now }
    requires first { piece < length firsts.now }
    requires within { All (λ n. n < slot_total grid.now) slots.now }
    requires boxes { All (IsBoxOf grid.now) boxes.now }
    requires hulls { AreHulls boxes.now hulls.now }
    ensures { OnOk result (HaveGotSlotEnds grid.now (IsNodeAdmitted table.now net) firsts.now boxes.now piece slots.now
        list.old.ends.items list.new.ends.items) }
{
    for slot in slots {
        if !list.passes_over(table, net, firsts, piece, *slot) {
            let least = bound(grid, boxes, hulls, *slot, u32::MAX);
            list.push(EndSlot {
                piece,
                slot: *slot,
                least,
            })?;
        }
    }
    Ok(())
}

/// Adds the slots in the rectangle on this layer as ends in the piece.
fn add_ends<A: Allocator + Copy>(
    alloc: A,
    grid: &Grid<'_, '_, A>,
    table: &[SlotAccess],
    net: u32,
    firsts: &[u32],
    layer: usize,
    rect: &Rect,
    piece: u32,
    boxes: &[SlotBox],
    hulls: &[Hull],
    list: &mut EndList<A>,
) -> Result<(), AllocError>
    requires count { length table.now ≡ slot_total grid.now }
    requires first { piece < length firsts.now }
    requires boxes { All (IsBoxOf grid.now) boxes.now }
    requires hulls { AreHulls boxes.now hulls.now }
    ensures { OnOk result (HaveGotEnds grid.now (IsNodeAdmitted table.now net) firsts.now boxes.now piece layer rect.now
        list.old.ends.items list.new.ends.items) }
{
    let mut found = BoxedSlots::new(alloc);
    add_slots_in(grid, layer, rect, &mut found)?;
    list.note_places(grid.size(), found.slots.len())?;
    push_ends(
        grid,
        table,
        net,
        firsts,
        &found.slots,
        piece,
        boxes,
        hulls,
        list,
    )?;
    Ok(())
}

/// The slots in the shapes of these numbers whose pieces are not joined, each with how many steps are left to it from the boxes, whose
/// hulls these are. `firsts` has for each piece the first one that it is joined to, and `table` for each slot what is open: where ends
/// are many, a slot is one only if it is open to the net, and once for all pieces that are joined.
pub(crate) fn ends_of<A: Allocator + Copy>(
    alloc: A,
    grid: &Grid<'_, '_, A>,
    table: &[SlotAccess],
    net: u32,
    shapes: &[Shape],
    numbers: &[u32],
    joined: &[bool],
    firsts: &[u32],
    boxes: &[SlotBox],
    hulls: &[Hull],
) -> Result<Vec<EndSlot, A>, AllocError>
    requires count { length table.now ≡ slot_total grid.now }
    requires numbers { All (λ k. k < length shapes.now) numbers.now }
    requires firsts { length joined.now ≤ length firsts.now }
    requires boxes { All (IsBoxOf grid.now) boxes.now }
    requires hulls { AreHulls boxes.now hulls.now }
    ensures { IfOk result (λ ends. AreEndSlots grid.now (IsApart joined.now) (MeetsPiece shapes.now numbers.now) (IsNodeAdmitted table.now net)
        (IsBoundFrom grid.now boxes.now) firsts.now ends.items) }
{
    let mut list = EndList {
        ends: Vec::new(alloc),
        places: Vec::new(alloc),
    };
    for number in numbers {
        let shape = &shapes[*number as usize];
        if has_mark(shape.piece, joined, false) {
            let piece = shape.piece.unwrap_or(0);
            add_ends(
                alloc,
                grid,
                table,
                net,
                firsts,
                shape.layer,
                &shape.rect,
                piece,
                boxes,
                hulls,
                &mut list,
            )?;
        }
    }
    Ok(list.ends)
}

/// Those of the ends whose pieces are not joined, each no further than from the boxes that have come to the joined ones, whose hulls
/// these are.
pub(crate) fn ends_left<A: Allocator + Copy>(
    alloc: A,
    grid: &Grid<'_, '_, A>,
    ends: &[EndSlot],
    joined: &[bool],
    boxes: &[SlotBox],
    hulls: &[Hull],
) -> Result<Vec<EndSlot, A>, AllocError>
    requires within { All (λ (end : EndSlot). end.slot < slot_total grid.now) ends.now }
    requires boxes { All (IsBoxOf grid.now) boxes.now }
    requires hulls { AreHulls boxes.now hulls.now }
    ensures { IfOk result (λ left. AreEndsLeft grid.now joined.now boxes.now ends.now left.items) }
{
    let mut left = Vec::with_capacity(alloc, ends.len())?;
    for end in ends {
        if has_mark(Some(end.piece), joined, false) {
            let least = bound(grid, boxes, hulls, end.slot, end.least);
            left.push(EndSlot {
                piece: end.piece,
                slot: end.slot,
                least,
            })?;
        }
    }
    Ok(left)
}

/// The slots of the ends, by their numbers.
pub(crate) fn slots_of_ends<A: Allocator>(
    alloc: A,
    ends: &[EndSlot],
) -> Result<Vec<u32, A>, AllocError>
    ensures { IfOk result (λ slots. slots.items ≡ map (λ (end : EndSlot). end.slot) ends.now) }
{
    let mut slots = Vec::with_capacity(alloc, ends.len())?;
    for end in ends {
        slots.push(end.slot)?;
    }
    Ok(slots)
}

/// How many steps a walk to each of the ends has at least.
pub(crate) fn steps_to_ends<A: Allocator>(
    alloc: A,
    ends: &[EndSlot],
) -> Result<Vec<u32, A>, AllocError>
    ensures { IfOk result (λ steps. steps.items ≡ map (λ (end : EndSlot). end.least) ends.now) }
{
    let mut steps = Vec::with_capacity(alloc, ends.len())?;
    for end in ends {
        steps.push(end.least)?;
    }
    Ok(steps)
}

/// Notes how many steps a walk to each of the ends has at least.
pub(crate) fn note_steps(ends: &mut [EndSlot], steps: &[u32])
    requires { length steps.now ≡ length ends.old }
    ensures same { AreSameEnds ends.old ends.new }
    ensures noted { (k : ℕ) (d : EndSlot) → k < length steps.now → (get_or ends.new k d).least ≡ get_or steps.now k 0 }
{
    for k in 0..ends.len() {
        ends[k].least = steps[k];
    }
}

/// Whether the pieces from this number on are joined.
pub(crate) fn are_joined_from(joined: &[bool], first: usize) -> bool
    ensures { result ≡ true → (k : ℕ) → first ≤ k → k < length joined.now → get_or joined.now k true ≡ true }
{
    for k in first..joined.len() {
        if !joined[k] {
            return false;
        }
    }
    true
}

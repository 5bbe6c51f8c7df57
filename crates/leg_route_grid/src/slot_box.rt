//! How many steps are left at least to some boxes of slots.

ghost use Rattle.std.specs.Prelude.{◌≡◌, ◌<◌, ◌≤◌, ◌^◌, [], ℕ, min, All};
ghost use Rattle.leg_route_grid.specs.Steps.Grid.{GridModel, slot_total};
ghost use Rattle.leg_route_grid.specs.declared.slot.Slot.{Slot};
ghost use Rattle.leg_route_grid.specs.Steps.WalkBounds.{gap, slot_bound, nearest, bound_at, IsBoxOf, IsInBox, AreBoxed};
ghost use Rattle.leg_route_grid.specs.Steps.Hulls.{AreHulls};

use crate::grid::Grid;
use crate::hulls::Hull;
use crate::slot::Slot;
use leg_rules::GREATEST_GRID;
use std::alloc::Allocator;

/// A box of slots, from the lowest layer, row and column to the highest.
#[derive(Clone, Copy, PartialEq, Eq, Debug)]
pub struct SlotBox {
    pub low: Slot,
    pub high: Slot,
}

/// Slots by their numbers, and the boxes in which they lie.
#[derive(Drop)]
pub struct BoxedSlots<A: Allocator> {
    pub slots: Vec<u32, A>,
    pub boxes: Vec<SlotBox, A>,
    /// For each slot of the grid, where places are noted, the place in the list at which it stands, if it is listed.
    pub(crate) places: Vec<u32, A>,
}

/// So few boxes are looked at one by one as fast as in an order.
const FEW_BOXES: usize = 16;

impl<A: Allocator + Copy> BoxedSlots<A> {
    /// No slots.
    pub fn new(alloc: A) -> BoxedSlots<A>
        ensures slots { result.slots.items ≡ [] }
        ensures boxes { result.boxes.items ≡ [] }
    {
        BoxedSlots {
            slots: Vec::new(alloc),
            boxes: Vec::new(alloc),
            places: Vec::new(alloc),
        }
    }
}

impl<A: Allocator> BoxedSlots<A> {
    /// Puts the boxes in the order of their first rows, and of their first columns within a row, where they are many: so boxes that
    /// stand one behind the other mostly lie near to one another, and their hulls are small.
    pub fn sort_boxes(&mut self)
        ensures slots { self.new.slots.items ≡ self.old.slots.items }
        ensures boxed { (grid : GridModel) → AreBoxed grid self.old.boxes.items self.old.slots.items → AreBoxed grid self.new.boxes.items self.new.slots.items }
    {
        if self.boxes.len() > FEW_BOXES {
            self.boxes
                .sort_unstable_by_key(|ends| (ends.low.row, ends.low.column));
        }
    }
}

/// How far a place lies outside of a stretch.
fn gap(low: usize, high: usize, place: usize) -> usize
    ensures { result ≡ gap low high place }
{
    low.saturating_sub(place) + place.saturating_sub(high)
}

/// By how many layers, rows and columns the slot lies outside of the box.
fn outside(ends: &SlotBox, slot: Slot) -> usize
    requires { slot_bound ends.now slot < 2 ^ 32 }
    ensures { result ≡ slot_bound ends.now slot }
{
    let layers = gap(ends.low.layer, ends.high.layer, slot.layer);
    let rows = gap(ends.low.row, ends.high.row, slot.row);
    let columns = gap(ends.low.column, ends.high.column, slot.column);
    layers + rows + columns
}

/// How many steps are left at least from the slot of this number to the slots of the boxes: by how many layers, rows and columns
/// it lies outside of the nearest; or `most` where those are more. Boxes whose hull is no nearer than one that was found are passed
/// over.
pub fn bound<A: Allocator + Copy>(
    grid: &Grid<'_, '_, A>,
    boxes: &[SlotBox],
    hulls: &[Hull],
    number: u32,
    most: u32,
) -> u32
    requires boxes { All (IsBoxOf grid.now) boxes.now }
    requires hulls { AreHulls boxes.now hulls.now }
    requires within { number < slot_total grid.now }
    ensures { result ≡ min most (bound_at grid.now boxes.now number) }
{
    let slot = grid.slot(number);
    let mut least = (most as usize).min(GREATEST_GRID as usize);
    let mut before = boxes.len();
    'boxes: while before > 0 && least > 0 {
        let hull = &hulls[before - 1];
        if outside(&hull.ends, slot) >= least {
            before -= hull.count;
        } else {
            before -= 1;
            least = least.min(outside(&boxes[before], slot));
        }
    }
    least as u32
}

/// How far the second stretch lies from the first.
fn gap_between(low: usize, high: usize, first: usize, last: usize) -> usize
    ensures { (place : ℕ) → first ≤ place → place ≤ last → result ≤ gap low high place }
{
    low.saturating_sub(last)
        .saturating_add(first.saturating_sub(high))
}

/// By how many layers, rows and columns the second box lies from the first.
fn apart(ends: &SlotBox, other: &SlotBox) -> usize
    ensures { (s : Slot) → IsInBox other.now s → result ≤ slot_bound ends.now s }
{
    let layers = gap_between(
        ends.low.layer,
        ends.high.layer,
        other.low.layer,
        other.high.layer,
    );
    let rows = gap_between(ends.low.row, ends.high.row, other.low.row, other.high.row);
    let columns = gap_between(
        ends.low.column,
        ends.high.column,
        other.low.column,
        other.high.column,
    );
    layers.saturating_add(rows).saturating_add(columns)
}

/// How many steps are left at least from each slot of a box to the slots of the boxes, whose hulls these are: by how many layers, rows
/// and columns the box lies from the nearest; or `most` where those are more. Boxes whose hull is no nearer than one that was found
/// are passed over.
pub fn bound_of_box(boxes: &[SlotBox], hulls: &[Hull], ends: &SlotBox, most: u32) -> u32
    requires hulls { AreHulls boxes.now hulls.now }
    ensures most { result ≤ most }
    ensures least { (s : Slot) → IsInBox ends.now s → result ≤ nearest boxes.now s }
{
    let mut least = (most as usize).min(GREATEST_GRID as usize);
    let mut before = boxes.len();
    'boxes: while before > 0 && least > 0 {
        let hull = &hulls[before - 1];
        if apart(&hull.ends, ends) >= least {
            before -= hull.count;
        } else {
            before -= 1;
            least = least.min(apart(&boxes[before], ends));
        }
    }
    least as u32
}

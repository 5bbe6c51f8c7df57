//! The slots whose points lie in a rectangle, and their box.

ghost use Rattle.std.specs.Prelude.{◌≡◌, ◌↔◌, IsTrue, ◌⊎◌, ◌<◌, ◌≤◌, ℕ, List, ◌++◌, length, All, Contains, OnOk};
ghost use Rattle.leg_route_grid.specs.Steps.NodesInRect.{LiesInRect};
ghost use Rattle.leg_route_grid.specs.Steps.Grid.{slot_total, IsNumberOf};
ghost use Rattle.leg_route_grid.specs.Steps.NodeNumbers.{IsOneOf};
ghost use Rattle.leg_route_grid.specs.declared.slot_box.SlotBox.{SlotBox};
ghost use Rattle.leg_route_grid.specs.Steps.WalkBounds.{HasJust, AreBoxed};
ghost use Rattle.leg_route_grid.specs.Steps.Boxes.{HaveGotBox};
ghost use Rattle.leg_route_grid.specs.Steps.SlotRanges.{IsInRow, IsInRows, HaveGot, HaveDropped};

use crate::grid::Grid;
use crate::layers::routing_layer_of;
use crate::slot::Slot;
use crate::slot_box::{BoxedSlots, SlotBox};
use leg_geom::{Rect, places_within};
use std::alloc::{AllocError, Allocator};

/// Whether the slot of this number lies in these rows and columns of a layer.
fn lies_in<A: Allocator + Copy>(
    grid: &Grid<'_, '_, A>,
    layer: usize,
    rows: (usize, usize),
    columns: (usize, usize),
    number: u32,
) -> bool
    ensures { IsTrue result → IsInRows grid.now layer rows columns number }
{
    if number >= grid.size() {
        return false;
    }
    let slot = grid.slot(number);
    slot.layer == layer
        && (rows.0 <= slot.row && slot.row < rows.1)
        && (columns.0 <= slot.column && slot.column < columns.1)
}

/// How many slots these rows and columns of a layer have.
fn slots_of(rows: (usize, usize), columns: (usize, usize)) -> usize {
    let height = rows.1.saturating_sub(rows.0);
    let width = columns.1.saturating_sub(columns.0);
    height.saturating_mul(width)
}

/// Where a slot is listed for so many of the grid, the places of slots are noted, and none is listed again: most of them lie in metal
/// as large as the block.
const SLOTS_PER_PLACE: u32 = 8;

/// Whether the slot stands at the place in the list that is noted for it.
fn is_listed(slots: &[u32], places: &[u32], slot: u32) -> bool
    ensures { IsTrue result → Contains slots.now slot }
{
    let Some(place) = places.get(slot as usize) else {
        return false;
    };
    match slots.get(*place as usize) {
        Some(listed) => *listed == slot,
        None => false,
    }
}

/// Notes the place of the slot, where places are noted.
fn note_place(places: &mut [u32], slot: u32, place: usize) {
    if (slot as usize) < places.len() {
        places[slot as usize] = place.min(u32::MAX as usize) as u32;
    }
}

/// Notes the place of each slot in the list, where places are noted.
fn note_all(places: &mut [u32], slots: &[u32]) {
    for (place, slot) in slots.iter().enumerate() {
        note_place(places, *slot, place);
    }
}

/// Notes the place of each slot in the list from now on, where others are to come to it, so many that there may be one for every
/// eighth slot of the grid, which has this many.
fn note_places<A: Allocator>(
    size: u32,
    more: usize,
    slots: &[u32],
    places: &mut Vec<u32, A>,
) -> Result<(), AllocError> {
    let many = (size / SLOTS_PER_PLACE) as usize;
    if places.is_empty() && !slots.is_empty() && slots.len().saturating_add(more) > many {
        places.resize(size as usize, 0)?;
        note_all(places, slots);
    }
    Ok(())
}

/// Drops those of the slots that lie in these rows and columns of a layer, where these have as many slots at least: else it would
/// cost more than the slots that are added are worth.
fn drop_rows<A: Allocator + Copy>(
    grid: &Grid<'_, '_, A>,
    layer: usize,
    rows: (usize, usize),
    columns: (usize, usize),
    slots: &mut Vec<u32, A>,
    places: &mut [u32],
)
    ensures { HaveDropped (IsInRows grid.now layer rows columns) slots.old.items slots.new.items }
{
    if slots.len() <= slots_of(rows, columns) {
        slots.retain(|number| !lies_in(grid, layer, rows, columns, *number));
        note_all(places, slots);
    }
}

/// Adds the slot, unless it stands at its place in the list.
fn push_once<A: Allocator>(
    slot: u32,
    slots: &mut Vec<u32, A>,
    places: &mut [u32],
) -> Result<(), AllocError>
    ensures { OnOk result (HaveGot (λ n. n ≡ slot) slots.old.items slots.new.items) }
{
    if !is_listed(slots, places, slot) {
        note_place(places, slot, slots.len());
        slots.push(slot)?;
    }
    Ok(())
}

/// Adds the slots of these columns in a row.
fn add_row<A: Allocator + Copy>(
    grid: &Grid<'_, '_, A>,
    layer: usize,
    row: usize,
    columns: (usize, usize),
    slots: &mut Vec<u32, A>,
    places: &mut [u32],
) -> Result<(), AllocError>
    requires layer { layer < length grid.now.layers }
    requires row { row < length grid.now.ys }
    requires columns { columns.1 ≤ length grid.now.xs }
    ensures { OnOk result (HaveGot (IsInRow grid.now layer row columns) slots.old.items slots.new.items) }
{
    for column in columns.0..columns.1 {
        push_once(grid.number_at(Slot { layer, row, column }), slots, places)?;
    }
    Ok(())
}

/// Adds the slots of these rows and columns on a layer.
fn add_rows<A: Allocator + Copy>(
    grid: &Grid<'_, '_, A>,
    layer: usize,
    rows: (usize, usize),
    columns: (usize, usize),
    slots: &mut Vec<u32, A>,
    places: &mut [u32],
) -> Result<(), AllocError>
    requires layer { layer < length grid.now.layers }
    requires rows { rows.1 ≤ length grid.now.ys }
    requires columns { columns.1 ≤ length grid.now.xs }
    ensures { OnOk result (HaveGot (IsInRows grid.now layer rows columns) slots.old.items slots.new.items) }
{
    for row in rows.0..rows.1 {
        add_row(grid, layer, row, columns, slots, places)?;
    }
    Ok(())
}

/// The same, and large boxes over one another don't make the list longer.
fn add_rows_once<A: Allocator + Copy>(
    grid: &Grid<'_, '_, A>,
    layer: usize,
    rows: (usize, usize),
    columns: (usize, usize),
    slots: &mut Vec<u32, A>,
    places: &mut Vec<u32, A>,
) -> Result<(), AllocError>
    requires layer { layer < length grid.now.layers }
    requires rows { rows.1 ≤ length grid.now.ys }
    requires columns { columns.1 ≤ length grid.now.xs }
    ensures { OnOk result (HaveGot (IsInRows grid.now layer rows columns) slots.old.items slots.new.items) }
{
    note_places(grid.size(), slots_of(rows, columns), slots, places)?;
    drop_rows(grid, layer, rows, columns, slots, places);
    add_rows(grid, layer, rows, columns, slots, places)?;
    Ok(())
}

/// Adds the box of these rows and columns on a layer, where there are any.
fn add_box<A: Allocator>(
    layer: usize,
    rows: (usize, usize),
    columns: (usize, usize),
    boxes: &mut Vec<SlotBox, A>,
) -> Result<(), AllocError>
    ensures { OnOk result (HaveGotBox layer rows columns boxes.old.items boxes.new.items) }
{
    if rows.0 < rows.1 && columns.0 < columns.1 {
        let low = Slot {
            layer,
            row: rows.0,
            column: columns.0,
        };
        let high = Slot {
            layer,
            row: rows.1 - 1,
            column: columns.1 - 1,
        };
        boxes.push(SlotBox { low, high })?;
    }
    Ok(())
}

/// Adds the slots whose points lie in the rectangle, its sides among them, on the layer of this number in the library: by
/// their numbers, and their box, where there are any. It fails only when out of memory.
pub fn add_slots_in<A: Allocator + Copy>(
    grid: &Grid<'_, '_, A>,
    layer: usize,
    rect: &Rect,
    found: &mut BoxedSlots<A>,
) -> Result<(), AllocError>
    ensures added { OnOk result ((n : ℕ) → Contains found.new.slots.items n
        ↔ (Contains found.old.slots.items n ⊎ IsOneOf (IsNumberOf grid.now) (LiesInRect layer rect.now) n)) }
    ensures boxes { OnOk result ((ends : SlotBox) → Contains found.new.boxes.items ends
        → Contains found.old.boxes.items ends ⊎ HasJust grid.now (IsOneOf (IsNumberOf grid.now) (LiesInRect layer rect.now)) ends) }
    ensures after { OnOk result ((more : List SlotBox) × (found.new.boxes.items ≡ found.old.boxes.items ++ more)) }
    ensures within { All (λ n. n < slot_total grid.now) found.old.slots.items → OnOk result (All (λ n. n < slot_total grid.now) found.new.slots.items) }
    ensures boxed { AreBoxed grid.now found.old.boxes.items found.old.slots.items
        → OnOk result (AreBoxed grid.now found.new.boxes.items found.new.slots.items) }
{
    let Some(k) = routing_layer_of(grid.layers(), layer) else {
        return Ok(());
    };
    let columns = places_within(grid.xs(), rect.x1(), rect.x2());
    let rows = places_within(grid.ys(), rect.y1(), rect.y2());
    add_box(k, rows, columns, &mut found.boxes)?;
    add_rows_once(grid, k, rows, columns, &mut found.slots, &mut found.places)?;
    Ok(())
}

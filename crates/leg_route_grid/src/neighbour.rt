//! Steps from slot to slot.

ghost use Rattle.std.specs.Prelude.{◌≡◌, ◌↔◌, ◌<◌, ℕ, Some, IsTrue, IfSome, length};
ghost use Rattle.leg_rules.specs.declared.side.Side.TheVariants.{West, East, South, North, Below, Above};
ghost use Rattle.leg_route_grid.specs.Steps.SlotNeighbours.{IsSlotIn};
ghost use Rattle.leg_route_grid.specs.Steps.Grid.{IsDesignGrid, slot_total};
ghost use Rattle.leg_route_grid.specs.Steps.NodeNumbers.{IsNeighbourAt};
ghost use Rattle.leg_route_grid.specs.Steps.SlotSides.{RunsAt, IsNeighbourIfAny};

use crate::grid::Grid;
use crate::slot::Slot;
use leg_lib_records::Direction;
use leg_rules::Side;
use std::alloc::Allocator;

/// Whether wires of routing layer k run in this direction.
fn runs_at<A: Allocator + Copy>(grid: &Grid<'_, '_, A>, k: usize, direction: Direction) -> bool
    requires { k < length grid.now.layers }
    ensures { IsTrue result ↔ RunsAt grid.now k direction }
{
    grid.layer_at(k).direction == direction
}

/// The slot to the west.
fn west_of<A: Allocator + Copy>(grid: &Grid<'_, '_, A>, slot: Slot) -> Option<Slot>
    requires { IsSlotIn grid.now slot }
    ensures { IsNeighbourIfAny grid.now West slot result }
{
    if slot.column == 0 || !runs_at(grid, slot.layer, Direction::Horizontal) {
        return None;
    }
    Some(Slot {
        layer: slot.layer,
        row: slot.row,
        column: slot.column - 1,
    })
}

/// The slot to the east.
fn east_of<A: Allocator + Copy>(grid: &Grid<'_, '_, A>, slot: Slot) -> Option<Slot>
    requires { IsSlotIn grid.now slot }
    ensures { IsNeighbourIfAny grid.now East slot result }
{
    let columns = grid.columns();
    if slot.column + 1 == columns || !runs_at(grid, slot.layer, Direction::Horizontal) {
        return None;
    }
    Some(Slot {
        layer: slot.layer,
        row: slot.row,
        column: slot.column + 1,
    })
}

/// The slot to the south.
fn south_of<A: Allocator + Copy>(grid: &Grid<'_, '_, A>, slot: Slot) -> Option<Slot>
    requires { IsSlotIn grid.now slot }
    ensures { IsNeighbourIfAny grid.now South slot result }
{
    if slot.row == 0 || !runs_at(grid, slot.layer, Direction::Vertical) {
        return None;
    }
    Some(Slot {
        layer: slot.layer,
        row: slot.row - 1,
        column: slot.column,
    })
}

/// The slot to the north.
fn north_of<A: Allocator + Copy>(grid: &Grid<'_, '_, A>, slot: Slot) -> Option<Slot>
    requires { IsSlotIn grid.now slot }
    ensures { IsNeighbourIfAny grid.now North slot result }
{
    let rows = grid.rows();
    if slot.row + 1 == rows || !runs_at(grid, slot.layer, Direction::Vertical) {
        return None;
    }
    Some(Slot {
        layer: slot.layer,
        row: slot.row + 1,
        column: slot.column,
    })
}

/// The slot below, if a via leads there.
fn below_of<A: Allocator + Copy>(grid: &Grid<'_, '_, A>, slot: Slot) -> Option<Slot>
    requires { IsSlotIn grid.now slot }
    ensures { IsNeighbourIfAny grid.now Below slot result }
{
    if slot.layer == 0 {
        return None;
    }
    match grid.via_at(slot.layer - 1) {
        Some(_via) => Some(Slot {
            layer: slot.layer - 1,
            row: slot.row,
            column: slot.column,
        }),
        None => None,
    }
}

/// The slot above, if a via leads there.
fn above_of<A: Allocator + Copy>(grid: &Grid<'_, '_, A>, slot: Slot) -> Option<Slot>
    requires { IsSlotIn grid.now slot }
    ensures { IsNeighbourIfAny grid.now Above slot result }
{
    let layers = grid.layer_count();
    if slot.layer + 1 == layers {
        return None;
    }
    match grid.via_at(slot.layer) {
        Some(_via) => Some(Slot {
            layer: slot.layer + 1,
            row: slot.row,
            column: slot.column,
        }),
        None => None,
    }
}

/// The slot on this side.
pub(crate) fn slot_beside<A: Allocator + Copy>(
    grid: &Grid<'_, '_, A>,
    slot: Slot,
    side: Side,
) -> Option<Slot>
    requires { IsSlotIn grid.now slot }
    ensures { IsNeighbourIfAny grid.now side slot result }
{
    match side {
        Side::West => west_of(grid, slot),
        Side::East => east_of(grid, slot),
        Side::South => south_of(grid, slot),
        Side::North => north_of(grid, slot),
        Side::Below => below_of(grid, slot),
        Side::Above => above_of(grid, slot),
    }
}

impl<'g, 'a, A: Allocator + Copy> Grid<'g, 'a, A> {
    /// The number of the node on this side of the node of this number, or none where no node lies in one of the slots.
    pub fn beside(&self, number: u32, side: Side) -> Option<u32>
        requires { number < slot_total self.now }
        ensures is { (to : ℕ) → (result ≡ Some to) ↔ IsNeighbourAt self.now side number to }
        ensures within { IfSome result (λ to. to < slot_total self.now) }
        ensures proper { IsDesignGrid self.now }
    {
        let slot = self.slot(number);
        if !self.has_node(slot) {
            return None;
        }
        match slot_beside(self, slot, side) {
            Some(next) => {
                if self.has_node(next) {
                    Some(self.number_at(next))
                } else {
                    None
                }
            }
            None => None,
        }
    }
}

//! Whether numbers are those of the nodes of a walk over the grid.

ghost use Rattle.std.specs.Prelude.{◌↔◌, ◌<◌, IsTrue, List, All};
ghost use Rattle.std.specs.List.{AllZip};
ghost use Rattle.leg_rules.specs.declared.side.Side.{Side};
ghost use Rattle.leg_rules.specs.declared.node.Node.{Node};
ghost use Rattle.leg_rules.specs.Route.Nodes.{IsNode};
ghost use Rattle.leg_route_grid.specs.Steps.Grid.{IsDesignGrid, slot_total, IsNumberOf};
ghost use Rattle.leg_route_grid.specs.Steps.NodeNumbers.{IsOneOf, IsNeighbourAt};
ghost use Rattle.leg_rules.specs.Route.GridWalk.{IsGridWalk};
ghost use Rattle.leg_route_access.specs.Steps.GridWalk.{IsWalkByNumbers};

use leg_route_grid::Grid;
use leg_route_search::Side;
use std::alloc::Allocator;

/// Whether there is a slot of this number, in which a node lies.
fn has_node_of<A: Allocator + Copy>(grid: &Grid<'_, '_, A>, number: u32) -> bool
    ensures is { IsTrue result ↔ IsOneOf (IsNumberOf grid.now) (IsNode grid.now.design) number }
    ensures proper { IsDesignGrid grid.now }
{
    number < grid.size() && grid.holds_node(number)
}

/// Whether the node of the number `to` lies on this side of the other.
fn is_to<A: Allocator + Copy>(grid: &Grid<'_, '_, A>, number: u32, side: Side, to: u32) -> bool
    requires { number < slot_total grid.now }
    ensures { IsTrue result ↔ IsNeighbourAt grid.now side number to }
{
    match grid.beside(number, side) {
        Some(next) => next == to,
        None => false,
    }
}

/// Whether the node of the number `to` lies beside the other, on whatever side.
fn are_beside<A: Allocator + Copy>(grid: &Grid<'_, '_, A>, number: u32, to: u32) -> bool
    requires { number < slot_total grid.now }
    ensures { IsTrue result ↔ ((side : Side) × IsNeighbourAt grid.now side number to) }
{
    is_to(grid, number, Side::West, to)
        || is_to(grid, number, Side::East, to)
        || is_to(grid, number, Side::South, to)
        || is_to(grid, number, Side::North, to)
        || is_to(grid, number, Side::Below, to)
        || is_to(grid, number, Side::Above, to)
}

/// Whether these are the numbers of the nodes of a walk over the grid, one after another: there is one at least, in the slot
/// of each lies a node, and each node is beside the one before, on whatever side. A number may be that of no slot: then
/// they are not.
pub fn is_walk<A: Allocator + Copy>(grid: &Grid<'_, '_, A>, numbers: &[u32]) -> bool
    ensures is { IsTrue result ↔ IsWalkByNumbers grid.now numbers.now }
    ensures walk { IsTrue result → (nodes : List Node) → AllZip (IsNumberOf grid.now) numbers.now nodes → IsGridWalk grid.now.design nodes }
    ensures within { IsTrue result → All (λ n. n < slot_total grid.now) numbers.now }
{
    if numbers.is_empty() || !has_node_of(grid, numbers[0]) {
        return false;
    }
    for k in 1..numbers.len() {
        if !are_beside(grid, numbers[k - 1], numbers[k]) {
            return false;
        }
    }
    true
}

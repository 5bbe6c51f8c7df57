//! The nodes of numbers.

ghost use Rattle.std.specs.Prelude.{◌<◌, All, IfOk};
ghost use Rattle.std.specs.List.{AllZip};
ghost use Rattle.leg_route_grid.specs.Steps.Grid.{slot_total, IsNumberOf};

use leg_route_grid::Grid;
use leg_rules::Node;
use std::alloc::{AllocError, Allocator};

/// The points of the slots of these numbers, on their layers, in their order. It fails only when out of memory.
pub fn nodes_of<A: Allocator + Copy>(
    alloc: A,
    grid: &Grid<'_, '_, A>,
    numbers: &[u32],
) -> Result<Vec<Node, A>, AllocError>
    requires { All (λ n. n < slot_total grid.now) numbers.now }
    ensures { IfOk result (λ nodes. AllZip (IsNumberOf grid.now) numbers.now nodes.items) }
{
    let mut nodes = Vec::with_capacity(alloc, numbers.len())?;
    for number in numbers {
        nodes.push(grid.node(*number))?;
    }
    Ok(nodes)
}

//! The wires of walks.

ghost use Rattle.std.specs.Prelude.{◌≡◌, false, All, IfOk, IfSome};
ghost use Rattle.leg_design_records.specs.WellFormedNets.{IsWire};
ghost use Rattle.leg_rules.specs.Finish.Wires.{AreWiresOfWalks};

use leg_design_records::{Design, Wire};
use leg_lib_records::Items;
use leg_route_access::{is_walk, nodes_of, wires_of};
use leg_route_grid::Grid;
use std::alloc::{AllocError, Allocator};

/// The wires of a walk, given by the numbers of its slots. None where it is no walk over the grid.
fn wires_of_walk<A: Allocator + Copy>(
    alloc: A,
    grid: &Grid<'_, '_, A>,
    design: &Design<'_, A>,
    walk: &[u32],
) -> Result<Option<Vec<Wire, A>>, AllocError>
    requires { grid.now.design ≡ design.now }
    ensures walks { IfOk result (λ found. IfSome found (λ wires. AreWiresOfWalks design.now wires.items)) }
    ensures spelled { IfOk result (λ found. IfSome found (λ wires. All (IsWire design.now.library design.now.vias false) wires.items)) }
{
    if !is_walk(grid, walk) {
        return Ok(None);
    }
    let nodes = nodes_of(alloc, grid, walk)?;
    let wires = wires_of(alloc, grid, design, &nodes)?;
    Ok(Some(wires))
}

/// The wires of these walks, one after another. None where one of them is no walk over the grid.
pub(crate) fn wires_of_walks<A: Allocator + Copy>(
    alloc: A,
    grid: &Grid<'_, '_, A>,
    design: &Design<'_, A>,
    walks: &[Items<u32, A>],
) -> Result<Option<Vec<Wire, A>>, AllocError>
    requires { grid.now.design ≡ design.now }
    ensures walks { IfOk result (λ found. IfSome found (λ wires. AreWiresOfWalks design.now wires.items)) }
    ensures spelled { IfOk result (λ found. IfSome found (λ wires. All (IsWire design.now.library design.now.vias false) wires.items)) }
{
    let mut wires = Vec::new(alloc);
    for walk in walks {
        let Some(mut more) = wires_of_walk(alloc, grid, design, walk.as_slice())? else {
            return Ok(None);
        };
        wires.append(&mut more)?;
    }
    Ok(Some(wires))
}

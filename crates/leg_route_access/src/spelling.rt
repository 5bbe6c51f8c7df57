//! The wires of a walk.

ghost use Rattle.std.specs.Prelude.{◌≡◌, ℕ, ◌<◌, ◌⊎◌, [], ◌∷◌, false, Some, IsTrue, All, IfOk, length, drop};
ghost use Rattle.leg_lib_records.specs.Sound.{IsSound};
ghost use Rattle.leg_design_records.specs.Layers.{width_of_layer, is_routing};
ghost use Rattle.leg_design_records.specs.WellFormed.{IsWellFormed};
ghost use Rattle.leg_design_records.specs.WellFormedNets.{IsWire};
ghost use Rattle.leg_rules.specs.Route.Nodes.{IsNode};
ghost use Rattle.leg_rules.specs.Route.Neighbours.{IsOver};
ghost use Rattle.leg_rules.specs.Route.StepWires.{NodeAdds, IsLine, IsViaStep};
ghost use Rattle.leg_rules.specs.Route.GridWalk.{IsGridWalk};
ghost use Rattle.leg_rules.specs.Route.Spelling.{AreWiresOf};
ghost use Rattle.leg_route_access.specs.Steps.FirstWire.{SpellsAll, BeginsWithWire};

use crate::patch::{half, square};
use crate::sides::{run_length, side_of, stays_on_layer};
use leg_design_records::{Design, Wire, wire_width};
use leg_lib_records::Library;
use leg_route_grid::{Grid, grid_is_sound, routing_layer_of};
use leg_rules::Node;
use std::alloc::{AllocError, Allocator};

/// The width of the wires on the routing layer of this number.
fn width_on<A: Allocator + Copy>(library: &Library<'_, A>, layer: usize) -> i64
    requires { IsTrue (is_routing library.now layer) }
    ensures is { width_of_layer library.now layer ≡ Some result }
    ensures proper { IsSound library.now }
{
    wire_width(library.layers()[layer].kind).unwrap()
}

/// The patch of a node.
fn patch<A: Allocator + Copy>(design: &Design<'_, A>, node: &Node) -> Wire
    requires { IsTrue (is_routing design.now.library node.now.layer) }
    ensures adds { NodeAdds design.now node.now result }
    ensures proper { IsSound design.now.library }
{
    let width = width_on(design.library(), node.layer);
    Wire::Patch {
        layer: node.layer,
        at: node.at,
        rect: square(width),
    }
}

/// The segment from one node to another of its layer.
fn segment<A: Allocator + Copy>(design: &Design<'_, A>, from: &Node, to: &Node) -> Wire
    requires { IsTrue (is_routing design.now.library from.now.layer) }
    ensures { IsLine design.now from.now to.now result }
{
    let width = width_on(design.library(), from.layer);
    let extension = half(width);
    Wire::Segment {
        layer: from.layer,
        from: from.at,
        to: to.at,
        width,
        ext_from: extension,
        ext_to: extension,
    }
}

/// The via from a node to the one above it.
fn via_up<A: Allocator + Copy>(grid: &Grid<'_, '_, A>, low: &Node, high: &Node) -> usize
    requires { (via : ℕ) × IsOver grid.now.design via low.now high.now }
    ensures { IsOver grid.now.design result low.now high.now }
{
    grid_is_sound(grid);
    let place = routing_layer_of(grid.layers(), low.layer).unwrap();
    grid.via_at(place).unwrap()
}

/// The via from a node to the one above or below it.
fn via_step<A: Allocator + Copy>(grid: &Grid<'_, '_, A>, a: &Node, b: &Node) -> Wire
    requires { (via : ℕ) × (IsOver grid.now.design via a.now b.now ⊎ IsOver grid.now.design via b.now a.now) }
    ensures { IsViaStep grid.now.design a.now b.now result }
{
    if a.layer < b.layer {
        Wire::ViaAt {
            via: via_up(grid, a, b),
            at: a.at,
        }
    } else {
        Wire::ViaAt {
            via: via_up(grid, b, a),
            at: a.at,
        }
    }
}

/// The first wire of a walk, and how many steps it takes.
fn first_wire<A: Allocator + Copy>(
    grid: &Grid<'_, '_, A>,
    design: &Design<'_, A>,
    nodes: &[Node],
) -> (Wire, usize)
    requires of_design { grid.now.design ≡ design.now }
    requires many { 1 < length nodes.now }
    requires walk { IsGridWalk design.now nodes.now }
    ensures some { 0 < result.1 }
    ensures within { result.1 < length nodes.now }
    ensures begins { BeginsWithWire design.now nodes.now result.0 result.1 }
    ensures spelled { IsWire design.now.library design.now.vias false result.0 }
{
    is_proper(design);
    let from = &nodes[0];
    let next = &nodes[1];
    let side = side_of(from, next);
    if stays_on_layer(side) {
        let steps = run_length(nodes, side);
        (segment(design, from, &nodes[steps]), steps)
    } else {
        (via_step(grid, from, next), 1)
    }
}

/// The design is well-formed.
fn is_proper<A: Allocator + Copy>(design: &Design<'_, A>)
    ensures { IsWellFormed design.now }
{
    let _tracks = design.tracks();
}

/// The walk after this many steps.
fn after(nodes: &[Node], steps: usize) -> &[Node]
    requires { steps < length nodes.now }
    ensures { result.now ≡ drop steps nodes.now }
{
    &nodes[steps..]
}

/// The wires of a walk, but for one of a single node, which has none.
fn wires_of_steps<A: Allocator + Copy>(
    alloc: A,
    grid: &Grid<'_, '_, A>,
    design: &Design<'_, A>,
    nodes: &[Node],
) -> Result<Vec<Wire, A>, AllocError>
    requires of_design { grid.now.design ≡ design.now }
    requires walk { IsGridWalk design.now nodes.now }
    ensures wires { IfOk result (λ wires. SpellsAll design.now nodes.now wires.items) }
    ensures spelled { IfOk result (λ wires. All (IsWire design.now.library design.now.vias false) wires.items) }
{
    let mut wires = Vec::new(alloc);
    let mut rest = nodes;
    while rest.len() > 1 {
        let (wire, steps) = first_wire(grid, design, rest);
        wires.push(wire)?;
        rest = after(rest, steps);
    }
    Ok(wires)
}

/// The wire of a walk of no steps.
fn wire_of_node<A: Allocator + Copy>(
    alloc: A,
    design: &Design<'_, A>,
    node: &Node,
) -> Result<Vec<Wire, A>, AllocError>
    requires { IsNode design.now node.now }
    ensures wires { IfOk result (λ wires. AreWiresOf design.now (node.now ∷ []) wires.items) }
    ensures spelled { IfOk result (λ wires. All (IsWire design.now.library design.now.vias false) wires.items) }
{
    is_proper(design);
    let mut wires = Vec::new(alloc);
    wires.push(patch(design, node))?;
    Ok(wires)
}

/// The wires of a walk over the grid of the design: a segment for each maximal straight run, a via for each step by one, and
/// the patch of its node for a walk of no steps.
pub fn wires_of<A: Allocator + Copy>(
    alloc: A,
    grid: &Grid<'_, '_, A>,
    design: &Design<'_, A>,
    nodes: &[Node],
) -> Result<Vec<Wire, A>, AllocError>
    requires of_design { grid.now.design ≡ design.now }
    requires walk { IsGridWalk design.now nodes.now }
    ensures wires { IfOk result (λ wires. AreWiresOf design.now nodes.now wires.items) }
    ensures spelled { IfOk result (λ wires. All (IsWire design.now.library design.now.vias false) wires.items) }
{
    if nodes.len() == 1 {
        wire_of_node(alloc, design, &nodes[0])
    } else {
        let wires = wires_of_steps(alloc, grid, design, nodes)?;
        Ok(wires)
    }
}

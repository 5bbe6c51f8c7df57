//! Routing a design.

ghost use Rattle.std.specs.Prelude.{◌≡◌, ◌≤◌, false, All, length, map, IfOk, IfErr, OnOk};
ghost use Rattle.leg_design_records.specs.declared.limits.TheConstants.{PART_LIMIT};
ghost use Rattle.leg_design_records.specs.WellFormedNets.{IsWire};
ghost use Rattle.leg_rules.specs.Metal.Metal.{metal_of};
ghost use Rattle.leg_rules.specs.Route.GridSize.{IsGridTooLarge};
ghost use Rattle.leg_rules.specs.Legal.{IsLegal};
ghost use Rattle.leg_rules.specs.Route.SameButForWires.{IsSameButForWires};
ghost use Rattle.leg_rules.specs.Route.Result.{IsRouted};
ghost use Rattle.leg_route.specs.Refusal.{IsRouteRefusal};
ghost use Rattle.leg_route.specs.Steps.RunEnd.{IsFinishedRun};

use crate::fault::RouteFault;
use crate::finish::finish;
use crate::grid_ground::GridGround;
use crate::nets::route_nets;
use leg_check::clean_flat;
use leg_design_records::{Design, Wire};
use leg_lib_records::Library;
use std::alloc::Allocator;

/// The design with all its nets routed (lefdef's own rules): each entry of `NETS` keeps its wires and gets further ones
/// after them, until all pieces of each net are joined. Nothing else changes, and the design is then legal.
///
/// As long as a net is open, the first such net gets the wires of a shortest walk on the grid of tracks, from the metal that is
/// joined to its first piece to that of its other pieces. A walk's length is the number of its steps, whatever they measure in
/// database units. All its metal keeps the spacing from shapes of other owners. Of several shortest walks (tested, not proved) one is
/// taken whose end is least by layer, then y, then x; each node before the end is, of those from which a shortest walk can enter the
/// next one, the first of west, east, south, north, below and above. A run along a layer becomes one wire of the layer's width, which reaches
/// past both ends by half of it; a step between layers becomes the first default via that joins them, or where none is default
/// the first via that does; a walk of a single node becomes a square patch.
///
/// The library is the one that the design was read with. On each refusal the design comes back unchanged: `TooMany` where it has
/// more shapes than a flat may have, else `NotClean` with all violations of other kinds than open nets, else `GridTooLarge`, else
/// where the run first stops: `Unroutable` with the number of the net whose turn it is and for which no such walk is left, or
/// `TooMany` where a wire would pass the number of shapes. `Memory` is returned wherever an allocation failed.
pub fn route<'a, A: Allocator + Copy>(
    alloc: A,
    library: &Library<'_, A>,
    design: Design<'a, A>,
) -> Result<Design<'a, A>, (Design<'a, A>, RouteFault<A>)>
    requires { library.now ≡ design.library }
    ensures legal { IfOk result (λ done. IsLegal done) }
    ensures same { IfOk result (λ done. IsSameButForWires design.entry done) }
    ensures run { IfOk result (λ done. IsRouted design.entry done) }
    ensures few { IfOk result (λ done. length (metal_of done) ≤ PART_LIMIT) }
    ensures fits { OnOk result (¬ IsGridTooLarge design.entry) }
    ensures unchanged { IfErr result (λ back. back.0 ≡ design.entry) }
    ensures refused { IfErr result (λ back. IsRouteRefusal design.entry back.1) }
{
    match wires_for(alloc, &design) {
        Ok(lists) => finish(design, lists),
        Err(fault) => Err((design, fault)),
    }
}

/// For each entry of `NETS` the wires that it gets until no net is open, in their order.
fn wires_for<A: Allocator + Copy>(
    alloc: A,
    design: &Design<'_, A>,
) -> Result<Vec<Vec<Wire, A>, A>, RouteFault<A>>
    ensures run { IfOk result (λ lists. IsFinishedRun design.now (map (λ wires. wires.items) lists.items)) }
    ensures spelled { IfOk result (λ lists. All (λ wires. All (IsWire design.now.library design.now.vias false) wires.items) lists.items) }
    ensures refused { IfErr result (λ fault. IsRouteRefusal design.now fault) }
{
    let flat = clean_flat(alloc, design)?;
    let mut ground = GridGround::new(alloc, design, flat)?;
    let lists = route_nets(alloc, &mut ground, design.nets().len() as u32)?;
    Ok(lists)
}

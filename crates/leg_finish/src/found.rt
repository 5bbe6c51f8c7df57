//! Wires that are found for a design and judged.

ghost use Rattle.std.specs.Prelude.{◌≡◌, ◌≢◌, ◌<◌, ◌^◌, [], All, AllPairs, length, IfOk};
ghost use Rattle.leg_rules.specs.Finish.Refusal.{ComesToSearch};
ghost use Rattle.leg_finish.specs.Steps.OpenNets.{AreOpenNets};
ghost use Rattle.leg_finish.specs.Steps.Places.{ArePlacesIn};
ghost use Rattle.leg_finish.specs.Steps.SearchResult.{IsFinding};

use crate::grid_lattice::{GridLattice, parts_of};
use crate::groups::OpenNet;
use crate::judge::is_finished;
use crate::layout::lay_out;
use crate::to_join::nets_to_join;
use leg_design_records::{Design, Wire};
use leg_finish_search::{Budget, Negotiated, Progress, negotiate};
use leg_flat::Flat;
use leg_route_access::slots_beside;
use leg_route_grid::Grid;
use std::alloc::{AllocError, Allocator};

/// What a search comes to.
#[derive(Drop)]
pub(crate) enum Found<A: Allocator> {
    /// For each entry of `NETS` the wires with which the design is finished.
    Wires(Vec<Vec<Wire, A>, A>),
    /// The places of open nets that are left.
    Left(Vec<u32, A>),
}

/// Walks that join the open nets past one another, or what is left when the budget is used up.
fn walks_for<A: Allocator + Copy, P: Progress>(
    alloc: A,
    design: &Design<'_, A>,
    grid: &Grid<'_, '_, A>,
    flat: &Flat<A>,
    nets: &[OpenNet<A>],
    budget: Budget,
    progress: &mut P,
) -> Result<Negotiated<A>, AllocError>
    requires of_design { grid.now.design ≡ design.now }
    requires nets { AreOpenNets design.now flat.now nets.now }
    requires few { length nets.now < 2 ^ 32 }
    ensures count { IfOk result (λ found. length found.walks.items ≡ length nets.now) }
    ensures within { IfOk result (λ found. All (λ place. place < length nets.now) found.left.items) }
    ensures increasing { IfOk result (λ found. AllPairs (λ a b. a < b) found.left.items) }
{
    let slots = slots_beside(alloc, grid, design, flat.shapes())?;
    let to_join = nets_to_join(alloc, grid, &slots, flat, nets)?;
    let parts = parts_of(alloc, grid, design)?;
    let lattice = GridLattice {
        grid,
        slots: &slots,
    };
    let found = negotiate(alloc, &lattice, &parts, &to_join, budget, progress)?;
    Ok(found)
}

/// The numbers below the count.
fn all_places<A: Allocator + Copy>(alloc: A, count: usize) -> Result<Vec<u32, A>, AllocError>
    requires some { 0 < count }
    requires few { count < 2 ^ 32 }
    ensures { IfOk result (λ places. ArePlacesIn count places.items) }
{
    let mut places = Vec::with_capacity(alloc, count)?;
    for place in 0..count {
        places.push(place as u32)?;
    }
    Ok(places)
}

/// Wires with which the design is finished, whose open nets these are, as far as some are found within the budget: they are judged
/// by what `check` asks of a design.
pub(crate) fn found_wires<A: Allocator + Copy, P: Progress>(
    alloc: A,
    design: &Design<'_, A>,
    grid: &Grid<'_, '_, A>,
    flat: Flat<A>,
    nets: &[OpenNet<A>],
    budget: Budget,
    progress: &mut P,
) -> Result<Found<A>, AllocError>
    requires of_design { grid.now.design ≡ design.now }
    requires comes { ComesToSearch design.now flat }
    requires nets { AreOpenNets design.now flat nets.now }
    requires some { nets.now ≢ [] }
    requires few { length nets.now < 2 ^ 32 }
    ensures { IfOk result (λ found. IsFinding design.now (length nets.now) found) }
{
    let mut flat = flat;
    let found = walks_for(alloc, design, grid, &flat, nets, budget, progress)?;
    if !found.left.is_empty() {
        return Ok(Found::Left(found.left));
    }
    let Some(lists) = lay_out(alloc, design, grid, &mut flat, nets, found.walks.as_slice())? else {
        return Ok(Found::Left(all_places(alloc, nets.len())?));
    };
    if !is_finished(alloc, design, &flat)? {
        return Ok(Found::Left(all_places(alloc, nets.len())?));
    }
    Ok(Found::Wires(lists))
}

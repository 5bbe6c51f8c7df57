//! Why a design is not finished.

ghost use Rattle.std.specs.Prelude.{◌≡◌, length, IfOk, IfErr};
ghost use Rattle.std.specs.List.{AllZip};
ghost use Rattle.leg_rules.specs.Metal.Flat.{FlatModel, IsFlatOf};
ghost use Rattle.leg_rules.specs.declared.grid_limits.TheConstants.{GREATEST_GRID};
ghost use Rattle.leg_rules.specs.Route.GridSize.{IsGridBeyond};
ghost use Rattle.leg_finish.specs.Refusal.{IsFinishRefusal};
ghost use Rattle.leg_finish.specs.Steps.OpenNets.{AreOpenNets};
ghost use Rattle.leg_finish.specs.Steps.Places.{ArePlacesIn, IsNetAt};

use crate::fault::FinishFault;
use crate::groups::OpenNet;
use crate::reach::first_unreachable;
use leg_check::clean_flat;
use leg_design_records::Design;
use leg_lib_records::Items;
use leg_route_grid::Grid;
use std::alloc::{AllocError, Allocator};

/// The numbers of the nets of these places.
fn nets_at<A: Allocator + Copy>(
    alloc: A,
    nets: &[OpenNet<A>],
    places: &[u32],
) -> Result<Items<u32, A>, AllocError>
    requires { ArePlacesIn (length nets.now) places.now }
    ensures { IfOk result (λ numbers. AllZip (IsNetAt nets.now) places.now numbers) }
{
    let mut numbers = Vec::with_capacity(alloc, places.len())?;
    for place in places {
        numbers.push(nets[*place as usize].net)?;
    }
    Ok(Items::from_vec(numbers))
}

/// The cause for which a design is not finished, whose open nets these are, if those of these places are left: the first piece that
/// cannot be reached, or else that the nets are left. The flat is made anew.
fn cause_of<A: Allocator + Copy>(
    alloc: A,
    design: &Design<'_, A>,
    grid: &Grid<'_, '_, A>,
    nets: &[OpenNet<A>],
    left: &[u32],
) -> Result<FinishFault<A>, FinishFault<A>>
    requires of_design { grid.now.design ≡ design.now }
    requires fits { ¬ IsGridBeyond GREATEST_GRID design.now }
    requires nets { (flat : FlatModel) → IsFlatOf design.now flat → AreOpenNets design.now flat nets.now }
    requires left { ArePlacesIn (length nets.now) left.now }
    ensures cause { IfOk result (λ fault. IsFinishRefusal design.now fault) }
    ensures refused { IfErr result (λ fault. IsFinishRefusal design.now fault) }
{
    let flat = clean_flat(alloc, design)?;
    let unreachable = first_unreachable(alloc, grid, design, &flat, nets)?;
    if let Some((net, piece)) = unreachable {
        return Ok(FinishFault::Unreachable(net, piece));
    }
    let numbers = nets_at(alloc, nets, left)?;
    Ok(FinishFault::Unfinished(numbers))
}

/// The same cause; that memory ran out where it is sought is one too.
pub(crate) fn why_unfinished<A: Allocator + Copy>(
    alloc: A,
    design: &Design<'_, A>,
    grid: &Grid<'_, '_, A>,
    nets: &[OpenNet<A>],
    left: &[u32],
) -> FinishFault<A>
    requires of_design { grid.now.design ≡ design.now }
    requires fits { ¬ IsGridBeyond GREATEST_GRID design.now }
    requires nets { (flat : FlatModel) → IsFlatOf design.now flat → AreOpenNets design.now flat nets.now }
    requires left { ArePlacesIn (length nets.now) left.now }
    ensures { IsFinishRefusal design.now result }
{
    match cause_of(alloc, design, grid, nets, left) {
        Ok(fault) => fault,
        Err(fault) => fault,
    }
}

//! The flat of a design of which nothing is wrong but that nets are open.

ghost use Rattle.std.specs.Prelude.{◌≡◌, ◌↔◌, ◌<◌, List, length, IfOk, IfErr};
ghost use Rattle.leg_design_records.specs.declared.fault.Fault.{Fault};
ghost use Rattle.leg_design_records.specs.declared.limits.TheConstants.{PART_LIMIT};
ghost use Rattle.leg_flat.specs.declared.fault.FlatFault.TheVariants.{TooMany};
ghost use Rattle.leg_rules.specs.Metal.Metal.{metal_of};
ghost use Rattle.leg_rules.specs.Metal.Flat.{FlatModel, IsJudgedBy};
ghost use Rattle.leg_rules.specs.Legal.{IsCleanIn};
ghost use Rattle.leg_rules.specs.Route.Refusals.{IsNotClean};
ghost use Rattle.leg_check.specs.declared.fault.CleanFlatFault.TheVariants.{NoFlat, NotClean};

use crate::but_open::faults_but_open;
use crate::fault::CleanFlatFault;
use leg_design_records::Design;
use leg_flat::{Flat, flatten};
use leg_lib_records::Items;
use std::alloc::Allocator;

/// The flat of the design, if no violation of another kind than `OpenNet` holds; else these violations.
///
/// `NoFlat` with `TooMany` means that the design has more than `leg_design::PART_LIMIT` shapes.
pub fn clean_flat<A: Allocator + Copy>(
    alloc: A,
    design: &Design<'_, A>,
) -> Result<Flat<A>, CleanFlatFault<A>>
    ensures clean { IfOk result (λ flat. IsCleanIn design.now flat) }
    ensures many { IfErr result (λ fault. fault ≡ NoFlat TooMany ↔ PART_LIMIT < length (metal_of design.now)) }
    ensures not_clean { IfErr result (λ fault. (faults : List Fault) → fault ≡ NotClean faults
        → (flat : FlatModel) × IsJudgedBy design.now flat × IsNotClean design.now flat faults) }
{
    let flat = flatten(alloc, design.library(), design)?;
    let faults = faults_but_open(alloc, design, &flat)?;
    if faults.is_empty() {
        Ok(flat)
    } else {
        Err(CleanFlatFault::NotClean(Items::from_vec(faults)))
    }
}

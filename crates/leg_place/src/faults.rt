//! The violations of placement.

ghost use Rattle.std.specs.Prelude.{◌≡◌, ◌+◌, IfOk, OnOk};
ghost use Rattle.leg_design_records.specs.Violation.{kind_number, IsListOf};
ghost use Rattle.leg_rules.specs.Placement.Violations.{IsPlacementViolation};
ghost use Rattle.leg_place.specs.Among.{IsViolationAmong};
ghost use Rattle.leg_place.specs.Steps.ComponentFault.{fault_of};
ghost use Rattle.leg_place.specs.Steps.Floorplan.{IsFloorplan};
ghost use Rattle.leg_place.specs.Steps.ListPrefix.{IsListBefore};

use crate::component_fault::ComponentFault;
use crate::floorplan::Floorplan;
use crate::marks::{all_marked, is_marked};
use crate::overlap::push_overlaps;
use leg_design_records::{Design, Fault};
use leg_lib_records::Library;
use std::alloc::{AllocError, Allocator};

/// The components without a place, those outside the die, those off the sites of the rows, the pairs of components that
/// overlap, and the movable components in placement blockages: all that hold, each once, in order (lefdef's own rules).
///
/// The design was read with this library. It fails only when out of memory.
pub fn place_faults<A: Allocator + Copy>(
    alloc: A,
    library: &Library<'_, A>,
    design: &Design<'_, A>,
) -> Result<Vec<Fault, A>, AllocError>
    requires { library.now ≡ design.now.library }
    ensures { IfOk result (λ found. IsListOf (IsPlacementViolation design.now) found.items) }
{
    let marks = all_marked(alloc, design)?;
    let faults = place_faults_among(alloc, library, design, &marks)?;
    Ok(faults)
}

/// Those violations that name only components that are marked, as `place_faults` lists them. A component is marked
/// where `true` is at its number.
///
/// Pairs of other components cost no time, however many of them overlap. It fails only when out of memory.
pub fn place_faults_among<A: Allocator + Copy>(
    alloc: A,
    library: &Library<'_, A>,
    design: &Design<'_, A>,
    marks: &[bool],
) -> Result<Vec<Fault, A>, AllocError>
    requires { library.now ≡ design.now.library }
    ensures { IfOk result (λ found. IsListOf (IsViolationAmong design.now marks.now) found.items) }
{
    let plan = Floorplan::of_design(alloc, design)?;
    let mut found = Vec::new(alloc);
    push_each(design, &plan, marks, ComponentFault::Unplaced, &mut found)?;
    push_each(design, &plan, marks, ComponentFault::Outside, &mut found)?;
    push_each(design, &plan, marks, ComponentFault::OffSite, &mut found)?;
    push_overlaps(alloc, design, marks, &mut found)?;
    push_each(design, &plan, marks, ComponentFault::Blocked, &mut found)?;
    Ok(found)
}

/// Adds the violations of a kind that is asked of one component, as far as they name marked ones, to those of the kinds
/// before it. The floorplan is that of the design.
fn push_each<A: Allocator + Copy>(
    design: &Design<'_, A>,
    floorplan: &Floorplan<A>,
    marks: &[bool],
    kind: ComponentFault,
    found: &mut Vec<Fault, A>,
) -> Result<(), AllocError>
    requires floorplan { IsFloorplan design.now floorplan.now }
    requires before { IsListBefore design.now marks.now (kind_number (fault_of kind 0)) 0 found.old.items }
    ensures { OnOk result (IsListBefore design.now marks.now (kind_number (fault_of kind 0) + 1) 0 found.new.items) }
{
    for i in 0..design.components().len() {
        if is_marked(marks, i) && kind.holds(design, floorplan, i) {
            found.push(kind.fault(i as u32))?;
        }
    }
    Ok(())
}

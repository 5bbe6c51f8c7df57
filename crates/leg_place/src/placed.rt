//! Whether all components are legally placed.

ghost use Rattle.std.specs.Prelude.{◌≡◌, ◌<◌, ◌↔◌, length, IsTrue, IfOk};
ghost use Rattle.leg_rules.specs.Placement.Violations.{IsLegallyPlaced};
ghost use Rattle.leg_place.specs.Steps.Floorplan.{IsFloorplan};
ghost use Rattle.leg_place.specs.Steps.ListPrefix.{IsMisplaced, IsOneMisplaced};

use crate::component_fault::ComponentFault;
use crate::floorplan::Floorplan;
use crate::overlap::do_some_overlap;
use leg_design_records::Design;
use leg_lib_records::Library;
use std::alloc::{AllocError, Allocator};

/// Whether no violation holds that `place_faults` would list. It ends at the first one, so that it takes no time for the
/// others, however many there are.
///
/// The design was read with this library. It fails only when out of memory.
pub fn is_placed<A: Allocator + Copy>(
    alloc: A,
    library: &Library<'_, A>,
    design: &Design<'_, A>,
) -> Result<bool, AllocError>
    requires { library.now ≡ design.now.library }
    ensures { IfOk result (λ placed. IsTrue placed ↔ IsLegallyPlaced design.now) }
{
    let floorplan = Floorplan::of_design(alloc, design)?;
    if is_one_misplaced(design, &floorplan) {
        return Ok(false);
    }
    let overlap = do_some_overlap(alloc, design)?;
    Ok(!overlap)
}

/// Whether some component has no place, is outside the die, is off the sites of the rows, or may be moved and is in a
/// placement blockage. The floorplan is that of the design.
fn is_one_misplaced<A: Allocator + Copy>(design: &Design<'_, A>, floorplan: &Floorplan<A>) -> bool
    requires { IsFloorplan design.now floorplan.now }
    ensures { IsTrue result ↔ IsOneMisplaced design.now (length design.now.components) }
{
    for i in 0..design.components().len() {
        if is_misplaced(design, floorplan, i) {
            return true;
        }
    }
    false
}

/// Whether this component is so.
fn is_misplaced<A: Allocator + Copy>(
    design: &Design<'_, A>,
    floorplan: &Floorplan<A>,
    number: usize,
) -> bool
    requires there { number < length design.now.components }
    requires floorplan { IsFloorplan design.now floorplan.now }
    ensures { IsTrue result ↔ IsMisplaced design.now number }
{
    ComponentFault::Unplaced.holds(design, floorplan, number)
        || ComponentFault::Outside.holds(design, floorplan, number)
        || ComponentFault::OffSite.holds(design, floorplan, number)
        || ComponentFault::Blocked.holds(design, floorplan, number)
}

//! Violations of one component by itself: it has no place, lies outside the die, is off the sites of the rows, or lies in a
//! placement blockage.

ghost use Rattle.std.specs.Prelude.{◌≡◌, ◌<◌, ◌↔◌, length, IsTrue};
ghost use Rattle.leg_rules.specs.Placement.Violations.{IsUnplaced, IsOutside, IsPlacementViolation};
ghost use Rattle.leg_place.specs.Steps.Floorplan.{IsFloorplan};
ghost use Rattle.leg_place.specs.Steps.ComponentFault.{fault_of};

use crate::floorplan::Floorplan;
use crate::placed_box::box_of;
use crate::placement_blockages::is_blocked;
use crate::sites::is_off_site;
use leg_design_records::{Design, Fault};
use std::alloc::Allocator;

/// A kind of violation that is asked of one component by itself.
#[derive(Clone, Copy)]
pub(crate) enum ComponentFault {
    Unplaced,
    Outside,
    OffSite,
    Blocked,
}

impl ComponentFault {
    /// The violation of this kind that names this component.
    pub(crate) fn fault(self, component: u32) -> Fault
        ensures { result ≡ fault_of self component }
    {
        match self {
            ComponentFault::Unplaced => Fault::Unplaced(component),
            ComponentFault::Outside => Fault::Outside(component),
            ComponentFault::OffSite => Fault::OffSite(component),
            ComponentFault::Blocked => Fault::Blocked(component),
        }
    }

    /// Whether it holds. The floorplan is that of the design.
    pub(crate) fn holds<A: Allocator + Copy>(
        self,
        design: &Design<'_, A>,
        floorplan: &Floorplan<A>,
        component: usize,
    ) -> bool
        requires there { component < length design.now.components }
        requires floorplan { IsFloorplan design.now floorplan.now }
        ensures { IsTrue result ↔ IsPlacementViolation design.now (fault_of self component) }
    {
        match self {
            ComponentFault::Unplaced => is_unplaced(design, component),
            ComponentFault::Outside => is_outside(design, component),
            ComponentFault::OffSite => is_off_site(design, &floorplan.rows, component),
            ComponentFault::Blocked => is_blocked(design, &floorplan.blockages, component),
        }
    }
}

/// Whether the component has no place.
fn is_unplaced<A: Allocator + Copy>(design: &Design<'_, A>, number: usize) -> bool
    requires { number < length design.now.components }
    ensures { IsTrue result ↔ IsUnplaced design.now number }
{
    design.components()[number].place.is_none()
}

/// Whether a unit square of the component lies outside the die.
fn is_outside<A: Allocator + Copy>(design: &Design<'_, A>, number: usize) -> bool
    requires { number < length design.now.components }
    ensures { IsTrue result ↔ IsOutside design.now number }
{
    match box_of(design.library(), &design.components()[number]) {
        Some(rect) => !design.die().contains(&rect),
        None => false,
    }
}

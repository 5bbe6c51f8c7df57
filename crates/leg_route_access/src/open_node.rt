//! Which nets may use a node beside a shape.

ghost use Rattle.std.specs.Prelude.{◌≡◌, ◌<◌};
ghost use Rattle.leg_wire_spacing.specs.Access.{alone};
ghost use Rattle.leg_rules.specs.Route.OpenMetal.{IsOpenNode};
ghost use Rattle.leg_route_grid.specs.Steps.Grid.{IsNumberOf, slot_total};
ghost use Rattle.leg_route_grid.specs.Steps.NodeNumbers.{IsOneOf};
ghost use Rattle.leg_route_access.specs.Steps.AccessTable.{AdmitsJust};

use crate::patch::{patch_beside, square};
use leg_design_records::Design;
use leg_route_grid::Grid;
use leg_rules::Shape;
use leg_wire_spacing::Access;
use std::alloc::Allocator;

/// To which nets the node in the slot of this number is open, where this shape alone lies; to none where the slot holds no node.
pub(crate) fn node_beside<A: Allocator + Copy>(
    grid: &Grid<'_, '_, A>,
    design: &Design<'_, A>,
    shape: &Shape,
    number: u32,
) -> Access
    requires of_design { grid.now.design ≡ design.now }
    requires within { number < slot_total grid.now }
    ensures { AdmitsJust result (λ net. IsOneOf (IsNumberOf grid.now) (IsOpenNode design.now (alone shape.now) net) number) }
{
    if grid.holds_node(number) {
        let node = grid.node(number);
        let width = grid.width_at(number);
        patch_beside(design, shape, node.layer, &node.at, &square(width))
    } else {
        Access::Blocked
    }
}

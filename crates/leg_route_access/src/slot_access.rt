//! To which nets a slot's node and the steps from it are open.

ghost use Rattle.std.specs.Prelude.{◌≡◌, ◌↔◌, ◌<◌, IsTrue};
ghost use Rattle.leg_wire_spacing.specs.Access.{alone};
ghost use Rattle.leg_route_grid.specs.Steps.Grid.{slot_total};
ghost use Rattle.leg_route_access.specs.Steps.AccessTable.{IsSlotAccess};
ghost use Rattle.leg_route_access.specs.Steps.AccessUpdates.{IsBoth, LosesNothing, AreSettled};

use crate::open_node::node_beside;
use crate::open_step::{above_beside, along_beside};
use leg_design_records::Design;
use leg_route_grid::Grid;
use leg_rules::{Owner, Shape};
use leg_wire_spacing::Access;
use std::alloc::Allocator;

/// To which nets a slot's node is open, the step along its layer to the next slot, to the east or to the north, and the step up.
#[derive(Clone, Copy, PartialEq, Eq, Debug)]
pub struct SlotAccess {
    pub node: Access,
    pub along: Access,
    pub above: Access,
}

/// Whether metal of this owner takes away none of the nets that are admitted.
fn is_settled(access: Access, owner: Owner) -> bool
    ensures { IsTrue result ↔ LosesNothing access owner }
{
    match access {
        Access::Free => false,
        Access::Only(net) => owner == Owner::Net(net),
        Access::Blocked => true,
    }
}

impl SlotAccess {
    /// Whether metal of this owner takes away nothing of what is kept: of the node and the step along the layer, if it lies
    /// on that layer, and of the step up.
    pub(crate) fn is_settled(self, owner: Owner, on_layer: bool) -> bool
        ensures { IsTrue result ↔ AreSettled self owner on_layer }
    {
        is_settled(self.above, owner)
            && (!on_layer || (is_settled(self.node, owner) && is_settled(self.along, owner)))
    }

    /// What both admit.
    pub(crate) fn and(self, other: SlotAccess) -> SlotAccess
        ensures node { IsBoth self.node other.node result.node }
        ensures along { IsBoth self.along other.along result.along }
        ensures above { IsBoth self.above other.above result.above }
    {
        SlotAccess {
            node: self.node.and(other.node),
            along: self.along.and(other.along),
            above: self.above.and(other.above),
        }
    }
}

/// What is known of the slot of this number where this shape alone lies.
pub(crate) fn slot_beside<A: Allocator + Copy>(
    grid: &Grid<'_, '_, A>,
    design: &Design<'_, A>,
    shape: &Shape,
    number: u32,
) -> SlotAccess
    requires of_design { grid.now.design ≡ design.now }
    requires within { number < slot_total grid.now }
    ensures { IsSlotAccess grid.now (alone shape.now) number result }
{
    SlotAccess {
        node: node_beside(grid, design, shape, number),
        along: along_beside(grid, design, shape, number),
        above: above_beside(grid, design, shape, number),
    }
}

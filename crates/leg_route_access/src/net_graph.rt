//! The grid as the graph in which a walk of a net is looked for.

ghost use Rattle.std.specs.Prelude.{◌≡◌, ◌↔◌, ◌<◌, ℕ, IsTrue, length, All};
ghost use Rattle.leg_rules.specs.declared.side.Side.TheVariants.{West, South, Below};
ghost use Rattle.leg_route_access.specs.declared.slot_access.SlotAccess.{SlotAccess};
ghost use Rattle.leg_route_grid.specs.Steps.Grid.{slot_total};
ghost use Rattle.leg_route_grid.specs.Steps.NodeNumbers.{IsNeighbourAt};
ghost use Rattle.leg_route_grid.specs.Steps.WalkBounds.{IsBoxOf};
ghost use Rattle.leg_route_access.specs.Steps.AccessToNet.{IsAdmittedAt};
ghost use Rattle.leg_route_grid.specs.Steps.Hulls.{AreHulls};

use crate::slot_access::SlotAccess;
use leg_route_grid::{Grid, Hull, SlotBox, bound, grid_is_sound};
use leg_route_search::{Graph, Side};
use std::alloc::Allocator;

/// The grid of a design as the graph of a net, whose walks start in one of some boxes and end in one of others, each
/// with the hulls of their boxes. What is open to the
/// net is what `slots` admits, which has one for each slot.
#[derive(Drop)]
pub struct NetGraph<'s, 'g, 'a, A: Allocator + Copy> {
    pub grid: &'s Grid<'g, 'a, A>,
    pub slots: &'s [SlotAccess],
    pub net: u32,
    pub starts: &'s [SlotBox],
    pub start_hulls: &'s [Hull],
    pub ends: &'s [SlotBox],
    pub end_hulls: &'s [Hull],
    ghost count: { length slots.now ≡ slot_total grid.now },
    ghost starts_within: { All (IsBoxOf grid.now) starts.now },
    ghost within: { All (IsBoxOf grid.now) ends.now },
    ghost start_hulls_are: { AreHulls starts.now start_hulls.now },
    ghost end_hulls_are: { AreHulls ends.now end_hulls.now },
}

impl<'s, 'g, 'a, A: Allocator + Copy> Graph for NetGraph<'s, 'g, 'a, A> {
    ghost use Rattle.leg_route_grid.specs.Steps.Grid.{slot_total};
    ghost use Rattle.leg_route_access.specs.Steps.AccessToNet.{IsNodeAdmitted, IsStepAdmitted};
    ghost use Rattle.leg_route_grid.specs.Steps.WalkBounds.{bound_at};
    ghost use Rattle.leg_route_access.specs.Steps.NearNeighbours.{IsNeighbourNear, turned_near};

    ghost size_of = { λ g. slot_total g.grid.now };

    ghost IsBeside = { λ g side a b. IsNeighbourNear g.grid.now g.starts.now g.ends.now side a b };

    ghost OpenNode = { λ g n. IsNodeAdmitted g.slots.now g.net n };

    ghost OpenStep = { λ g side n. IsStepAdmitted g.grid.now g.slots.now g.net side n };

    ghost bound_of = { λ g n. bound_at g.grid.now g.ends.now n };

    ghost back_bound_of = { λ g n. bound_at g.grid.now g.starts.now n };

    fn beside(&self, node: u32, side: Side) -> Option<u32> {
        self.grid.beside(node, side)
    }

    fn is_open_step(&self, node: u32, side: Side) -> bool {
        grid_is_sound(self.grid);
        match side {
            Side::West => self.is_open_along(number_to_west(self.grid, node)),
            Side::East => self.is_open_along(node),
            Side::South => self.is_open_along(number_to_south(self.grid, node)),
            Side::North => self.is_open_along(node),
            Side::Below => self.is_open_above(number_below(self.grid, node)),
            Side::Above => self.is_open_above(node),
        }
    }

    fn is_open_node(&self, node: u32) -> bool {
        self.slots[node as usize].node.admits(self.net)
    }

    fn bound(&self, node: u32, most: u32) -> u32 {
        bound(self.grid, self.ends, self.end_hulls, node, most)
    }

    fn back_bound(&self, node: u32, most: u32) -> u32 {
        bound(self.grid, self.starts, self.start_hulls, node, most)
    }

    ghost one_nearer = { λ g side a b beside. beside.nearer };

    ghost one_further = { λ g side a b beside. beside.further };

    ghost both_ways = { λ g side a b beside. turned_near g.grid.now g.starts.now g.ends.now side a b beside };
}

impl<'s, 'g, 'a, A: Allocator + Copy> NetGraph<'s, 'g, 'a, A> {
    /// Whether the step from the slot along its layer, to the east or to the north, is admitted.
    fn is_open_along(&self, node: u32) -> bool
        requires { node < slot_total self.now.grid.now }
        ensures { IsTrue result ↔ IsAdmittedAt self.now.slots.now (λ (slot : SlotAccess). slot.along) self.now.net node }
    {
        self.slots[node as usize].along.admits(self.net)
    }

    /// Whether the step up from the slot is admitted.
    fn is_open_above(&self, node: u32) -> bool
        requires { node < slot_total self.now.grid.now }
        ensures { IsTrue result ↔ IsAdmittedAt self.now.slots.now (λ (slot : SlotAccess). slot.above) self.now.net node }
    {
        self.slots[node as usize].above.admits(self.net)
    }
}

/// The number of the node to the west of that of this number, where one lies there.
fn number_to_west<A: Allocator + Copy>(grid: &Grid<'_, '_, A>, number: u32) -> u32
    requires within { number < slot_total grid.now }
    requires there { (to : ℕ) × IsNeighbourAt grid.now West number to }
    ensures { IsNeighbourAt grid.now West number result }
{
    grid_is_sound(grid);
    number - 1
}

/// The number of the node to the south of that of this number, where one lies there.
fn number_to_south<A: Allocator + Copy>(grid: &Grid<'_, '_, A>, number: u32) -> u32
    requires within { number < slot_total grid.now }
    requires there { (to : ℕ) × IsNeighbourAt grid.now South number to }
    ensures { IsNeighbourAt grid.now South number result }
{
    grid_is_sound(grid);
    let row = grid.columns();
    (number as usize - row) as u32
}

/// The number of the node below that of this number, where one lies there.
fn number_below<A: Allocator + Copy>(grid: &Grid<'_, '_, A>, number: u32) -> u32
    requires within { number < slot_total grid.now }
    requires there { (to : ℕ) × IsNeighbourAt grid.now Below number to }
    ensures { IsNeighbourAt grid.now Below number result }
{
    grid_is_sound(grid);
    let layer = grid.rows() * grid.columns();
    (number as usize - layer) as u32
}

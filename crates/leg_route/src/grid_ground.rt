//! The grid of a design as the router's ground.

ghost use Rattle.std.specs.Prelude.{◌≡◌, ◌-◌, ◌++◌, ℕ, option_map, IfOk, IfErr, OnOk};
ghost use Rattle.std.specs.List.{range_with_len};
ghost use Rattle.leg_design_records.specs.Records.{DesignModel};
ghost use Rattle.leg_rules.specs.Metal.Flat.{FlatModel};
ghost use Rattle.leg_rules.specs.Joins.Violations.{IsOpenNet};
ghost use Rattle.leg_route.specs.Steps.NextWires.{IsNextAnswer, IsNextStep};
ghost use Rattle.leg_flat.specs.Limits.{IsWithinLimits};
ghost use Rattle.leg_rules.specs.Legal.{IsCleanIn};
ghost use Rattle.leg_route.specs.Refusal.{IsRouteRefusal};
ghost use Rattle.leg_rules.specs.Route.Refusal.{ComesToRun};
ghost use Rattle.leg_route.specs.Steps.JoinedPart.{part_in};
ghost use Rattle.leg_route.specs.Steps.Ready.{IsReadyGround};

use crate::fault::RouteFault;
use crate::ground::{Ground, NextStep};
use crate::joined_part::{JoinedPart, part_now};
use crate::kept_joins::{joins_of, with_wire};
use crate::next_wires::next_wires;
use leg_design_records::{Design, Wire};
use leg_flat::{Flat, FlatFault, Shape};
use leg_lib_records::Items;
use leg_route_access::{SlotAccess, add_shapes, slots_beside};
use leg_route_grid::Grid;
use leg_route_laws::laws::{other_numbers_stay, own_numbers_grow};
use leg_route_search::Marks;
use leg_wire::{NetJoins, numbers_by_net};
use std::alloc::{AllocError, Allocator};
use std::mem;

/// The ground of a design: its grid, its flat as that grows, to which nets each slot of the grid and the steps from it are open in
/// the flat, for each net of `NETS` the numbers of its shapes, room for marks in the slots, what is kept of the joined part of the
/// net that was searched last, and which pieces of the last net are joined.
#[derive(Drop)]
pub(crate) struct GridGround<'g, 'a, A: Allocator + Copy> {
    design: &'g Design<'a, A>,
    grid: Grid<'g, 'a, A>,
    flat: Flat<A>,
    slots: Vec<SlotAccess, A>,
    numbers: Vec<Items<u32, A>, A>,
    marks: Marks<A>,
    part: JoinedPart<A>,
    joins: Option<NetJoins<A>>,
}

impl<'g, 'a, A: Allocator + Copy> GridGround<'g, 'a, A> {
    /// The ground of a design of which this is the flat. `GridTooLarge` is returned where its grid is too large, and
    /// `Memory` where an allocation failed.
    pub(crate) fn new(
        alloc: A,
        design: &'g Design<'a, A>,
        flat: Flat<A>,
    ) -> Result<GridGround<'g, 'a, A>, RouteFault<A>>
        requires clean { IsCleanIn design.now flat }
        ensures ready { IfOk result (λ ground. IsReadyGround design.now ground.grid ground.flat ground.slots.items ground.numbers.items ground.marks
            (part_in ground.part) ground.joins) }
        ensures same_design { IfOk result (λ ground. ground.design.now ≡ design.now) }
        ensures comes { IfOk result (λ ground. ComesToRun design.now ground.flat) }
        ensures within { IfOk result (λ ground. IsWithinLimits ground.flat) }
        ensures refused { IfErr result (λ fault. IsRouteRefusal design.now fault) }
    {
        let grid = Grid::new(alloc, design)?;
        let slots = slots_beside(alloc, &grid, design, flat.shapes())?;
        let nets = design.nets().len() as u32;
        let numbers = numbers_by_net(alloc, flat.shapes(), nets)?;
        let marks = Marks::new(alloc, grid.size() as usize)?;
        Ok(GridGround {
            design,
            grid,
            flat,
            slots,
            numbers,
            marks,
            part: JoinedPart::new(alloc, 0),
            joins: None,
        })
    }
}

impl<'g, 'a, A: Allocator + Copy> Ground<A> for GridGround<'g, 'a, A> {
    ghost use Rattle.leg_route.specs.Steps.JoinedPart.{part_in};
    ghost use Rattle.leg_route.specs.Steps.Ready.{IsReadyGround};

    ghost design = { λ g. g.design.now };

    ghost flat = { λ g. g.flat };

    ghost IsReady = { λ g. IsReadyGround g.design.now g.grid g.flat g.slots.items g.numbers.items g.marks
        (part_in g.part) g.joins };

    fn next(&mut self, alloc: A, net: u32) -> Result<NextStep<A>, AllocError> {
        let own = self.numbers[net as usize].as_slice();
        let kept = self.joins.take();
        let mut joins = joins_of(alloc, kept, &self.flat, net, own)?;
        if !joins.is_one_apart() {
            self.joins = Some(joins);
            return Ok(NextStep::Joined);
        }
        let part = mem::replace(&mut self.part, JoinedPart::new(alloc, net));
        let part = part.of_net(alloc, net);
        let come = joins.take_joined(alloc)?;
        let mut part = part_now(
            alloc,
            &self.grid,
            &self.flat,
            &self.slots,
            net,
            own,
            &joins,
            &come,
            part,
        )?;
        self.joins = Some(joins);
        let wires = next_wires(
            alloc,
            &self.grid,
            self.design,
            &self.flat,
            &self.slots,
            net,
            own,
            &mut part,
            &mut self.marks,
        )?;
        self.part = part;
        Ok(step_by(wires))
    }

    fn add(&mut self, net: u32, wire: Wire) -> Result<(), FlatFault> {
        own_numbers_grow();
        other_numbers_stay();
        let before = self.flat.shapes().len();
        self.flat
            .add_wire(self.design.library(), self.design, net, &wire)?;
        let shapes = self.flat.shapes();
        add_shapes(&self.grid, self.design, &shapes[before..], &mut self.slots);
        note_numbers(
            before as u32,
            shapes.len() as u32,
            &mut self.numbers[net as usize],
        )?;
        let kept = self.joins.take();
        self.joins = with_wire(kept, net, &shapes[before..])?;
        Ok(())
    }
}

/// The step of an open net that gets these wires, or for which there is no walk.
fn step_by<A: Allocator>(wires: Option<Vec<Wire, A>>) -> NextStep<A>
    ensures { (design : DesignModel) (flat : FlatModel) (net : ℕ) → IsOpenNet design flat net
        → IsNextAnswer design flat net (option_map (λ wires. wires.items) wires) → IsNextStep design flat net result }
{
    match wires {
        Some(wires) => NextStep::Wires(wires),
        None => NextStep::NoWalk,
    }
}

/// Adds the numbers from the first to before the end to a net's numbers.
fn note_numbers<A: Allocator + Copy>(
    first: u32,
    end: u32,
    numbers: &mut Items<u32, A>,
) -> Result<(), AllocError>
    ensures { OnOk result (numbers.new ≡ numbers.old ++ range_with_len first (end - first)) }
{
    for number in first..end {
        numbers.push(number)?;
    }
    Ok(())
}

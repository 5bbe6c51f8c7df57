//! Changes of a design: a component that moves, and nets that get wires.

ghost use Rattle.std.specs.Prelude.{◌≡◌, ◌<◌, ◌≤◌, ◌+◌, ◌++◌, false, List, length, map, Some, slice_get, slice_set, All, IfOk, IfErr, OnOk, OnErr};
ghost use Rattle.leg_design_records.specs.declared.records.Status.TheVariants.{Placed};
ghost use Rattle.leg_design_records.specs.declared.records.Component.{Component};
ghost use Rattle.leg_design_records.specs.declared.limits.TheConstants.{PART_LIMIT};
ghost use Rattle.leg_design_records.specs.declared.records.Wire as wires;
ghost use Rattle.leg_design_records.specs.MoreWires.{with_more_wires};
ghost use Rattle.leg_design_records.specs.Steps.FirstWires.{with_first_wires};
ghost use Rattle.leg_design_records.specs.Records.{NetModel, wire_count};
ghost use Rattle.leg_design_records.specs.WellFormedParts.{IsPosition};
ghost use Rattle.leg_design_records.specs.WellFormedNets.{IsWire};

use crate::design::Design;
use crate::records::{Net, Status, Wire};
use leg_geom::Place;
use std::alloc::{AllocError, Allocator};

impl<'a, A: Allocator + Copy> Design<'a, A> {
    /// The same design with the component of this number `PLACED` there. Takes no memory.
    pub fn with_place(mut self, component: u32, place: Place) -> Design<'a, A>
        requires in_range { component < length self.components }
        requires within { IsPosition place.at }
        // The status and the place of that component change, and nothing else.
        ensures { (before : Component) → slice_get self.entry.components component ≡ Some before
            → result ≡ record self.entry { components = slice_set self.entry.components component (record before { status = Placed; place = Some place }) } }
    {
        let chosen = &mut self.fields.components[component as usize];
        chosen.status = Status::Placed;
        chosen.place = Some(place);
        self
    }

    /// The same design with these wires after those of the entry of `NETS` of this number. If an allocation fails, the
    /// design comes back as it was, and the wires are dropped.
    pub fn with_wires(
        mut self,
        net: u32,
        wires: Vec<Wire, A>,
    ) -> Result<Design<'a, A>, (Design<'a, A>, AllocError)>
        requires in_range { net < length self.nets }
        requires spelled { All (IsWire self.library self.vias false) wires.items }
        requires few { wire_count self.nets + wire_count self.special + length wires.items ≤ PART_LIMIT }
        // The wires of that entry change, and nothing else.
        ensures added { IfOk result (λ design. (before : NetModel) → slice_get self.entry.nets net ≡ Some before
            → design ≡ record self.entry { nets = slice_set self.entry.nets net (record before { wires = before.wires ++ wires.items }) }) }
        ensures unchanged { IfErr result (λ back. back.0 ≡ self.entry) }
    {
        let entry = &mut self.fields.nets[net as usize];
        match entry.wires.append(wires) {
            Ok(()) => Ok(self),
            Err(refusal) => Err((self, refusal)),
        }
    }

    /// The same design with the wires of each list after those of one entry of `NETS`: the first list's for the first entry,
    /// and so on. If an allocation fails, the design comes back as it was, and all the lists are dropped.
    pub fn with_all_wires(
        mut self,
        lists: Vec<Vec<Wire, A>, A>,
    ) -> Result<Design<'a, A>, (Design<'a, A>, AllocError)>
        requires one_each { length lists.items ≡ length self.nets }
        requires spelled { All (λ wires. All (IsWire self.library self.vias false) wires.items) lists.items }
        requires few { wire_count (with_more_wires self.nets (map (λ wires. wires.items) lists.items)) + wire_count self.special ≤ PART_LIMIT }
        // The wires of the entries of `NETS` change, and nothing else.
        ensures added { IfOk result (λ design. design ≡ record self.entry { nets = with_more_wires self.entry.nets (map (λ wires. wires.items) lists.items) }) }
        ensures unchanged { IfErr result (λ back. back.0 ≡ self.entry) }
    {
        let alloc = *self.fields.nets.allocator();
        match append_to_all(alloc, self.fields.nets.as_mut_slice(), lists) {
            Ok(()) => Ok(self),
            Err(refusal) => Err((self, refusal)),
        }
    }
}

/// Adds the wires of each list to one entry, all or none.
fn append_to_all<'a, A: Allocator + Copy>(
    alloc: A,
    nets: &mut [Net<'a, A>],
    lists: Vec<Vec<Wire, A>, A>,
) -> Result<(), AllocError>
    requires { length lists.items ≡ length nets.old }
    ensures appended { OnOk result (nets.new ≡ with_more_wires nets.old (map (λ wires. wires.items) lists.items)) }
    ensures unchanged { OnErr result (nets.new ≡ nets.old) }
{
    let counts = counts_of_wires(alloc, nets)?;
    match append_in_turn(nets, lists) {
        Ok(()) => Ok(()),
        Err(refusal) => {
            keep_first_wires(nets, counts.as_slice());
            Err(refusal)
        }
    }
}

/// How many wires each entry has.
fn counts_of_wires<A: Allocator + Copy>(
    alloc: A,
    nets: &[Net<'_, A>],
) -> Result<Vec<usize, A>, AllocError>
    ensures { IfOk result (λ counts. counts.items ≡ map (λ net. length net.wires) nets.now) }
{
    let mut counts = Vec::with_capacity(alloc, nets.len())?;
    for net in nets {
        counts.push(net.wires.as_slice().len())?;
    }
    Ok(counts)
}

/// Adds the wires of each list to one entry, in turn, until an allocation fails.
fn append_in_turn<'a, A: Allocator + Copy>(
    nets: &mut [Net<'a, A>],
    lists: Vec<Vec<Wire, A>, A>,
) -> Result<(), AllocError>
    requires { length lists.items ≡ length nets.old }
    ensures all { OnOk result (nets.new ≡ with_more_wires nets.old (map (λ wires. wires.items) lists.items)) }
    ensures some { OnErr result ((more : List (List wires.Wire)) × (nets.new ≡ with_more_wires nets.old more)) }
{
    let mut n = 0;
    for wires in lists {
        let net = &mut nets[n];
        net.wires.append(wires)?;
        n += 1;
    }
    Ok(())
}

/// Keeps the given number of first wires of each entry.
fn keep_first_wires<'a, A: Allocator + Copy>(nets: &mut [Net<'a, A>], counts: &[usize])
    requires { length counts.now ≡ length nets.old }
    ensures { nets.new ≡ with_first_wires nets.old counts.now }
{
    for n in 0..counts.len() {
        let net = &mut nets[n];
        net.wires.truncate(counts[n]);
    }
}

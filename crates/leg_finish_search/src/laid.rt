//! A net that was laid.

ghost use Rattle.std.specs.Prelude.{◌≡◌, ◌<◌, [], All, IfOk, OnOk};
ghost use Rattle.leg_finish_search.specs.Slots.{AreSlots, AreSlotLists};
ghost use Rattle.leg_finish_search.specs.Steps.NetWalks.{IsLaidIn};

use crate::clash::Clash;
use crate::element::Element;
use crate::ground::Ground;
use crate::lattice::Lattice;
use crate::stamp::{is_via_step, stamps_of};
use crate::table::Table;
use leg_lib_records::Items;
use std::alloc::{AllocError, Allocator};
use std::marker::Model;

/// The walks of a net, and the elements with which their metal is in conflict: at each of them the net is counted.
#[derive(Drop)]
pub(crate) struct Laid<A: Allocator> {
    walks: Vec<Items<u32, A>, A>,
    nodes: Items<u32, A>,
    vias: Items<u32, A>,
}

impl<A: Allocator> Model for Laid<A> {
    ghost use Rattle.leg_finish_search.specs.Steps.NetWalks.{LaidModel};

    ghost Value = { LaidModel };

    ghost view = { λ l. record { walks = l.walks.items; nodes = l.nodes; vias = l.vias } };
}

impl<A: Allocator + Copy> Laid<A> {
    /// No walks.
    pub(crate) fn nothing(alloc: A) -> Laid<A>
        ensures { result ≡ record { walks = []; nodes = []; vias = [] } }
    {
        Laid {
            walks: Vec::new(alloc),
            nodes: Items::from_vec(Vec::new(alloc)),
            vias: Items::from_vec(Vec::new(alloc)),
        }
    }

    /// These walks, laid: the net is counted at what is in conflict with them.
    pub(crate) fn new<L: Lattice>(
        alloc: A,
        ground: &Ground<'_, A, L>,
        table: &mut Table<A>,
        clashes: &[Clash],
        walks: Vec<Items<u32, A>, A>,
    ) -> Result<Laid<A>, AllocError>
        requires size { table.old ≡ L.size_of ground.now.lattice.now }
        requires clashes { All (λ clash. clash.other_level < L.levels_of ground.now.lattice.now) clashes.now }
        requires walks { AreSlotLists (L.size_of ground.now.lattice.now) walks.items }
        ensures same { table.new ≡ table.old }
        ensures laid { IfOk result (IsLaidIn (L.size_of ground.now.lattice.now)) }
    {
        let nodes = stamps_of(alloc, ground, table, clashes, &walks, Element::Node)?;
        let vias = stamps_of(alloc, ground, table, clashes, &walks, Element::Via)?;
        table.close(Element::Node, &nodes);
        table.close(Element::Via, &vias);
        take_all(table, Element::Node, &nodes);
        take_all(table, Element::Via, &vias);
        Ok(Laid {
            walks,
            nodes: Items::from_vec(nodes),
            vias: Items::from_vec(vias),
        })
    }

    /// The net is no longer counted.
    pub(crate) fn lift(&self, table: &mut Table<A>)
        requires { IsLaidIn table.old self.now }
        ensures { table.new ≡ table.old }
    {
        give_up_all(table, Element::Node, self.nodes.as_slice());
        give_up_all(table, Element::Via, self.vias.as_slice());
    }

    /// The net is counted again.
    pub(crate) fn put_back(&self, table: &mut Table<A>)
        requires { IsLaidIn table.old self.now }
        ensures { table.new ≡ table.old }
    {
        take_all(table, Element::Node, self.nodes.as_slice());
        take_all(table, Element::Via, self.vias.as_slice());
    }

    /// Whether another net is in conflict with something that the net uses.
    pub(crate) fn is_in_conflict<L: Lattice>(
        &self,
        ground: &Ground<'_, A, L>,
        table: &Table<A>,
    ) -> bool
        requires size { table.now ≡ L.size_of ground.now.lattice.now }
        requires laid { IsLaidIn (L.size_of ground.now.lattice.now) self.now }
    {
        for walk in &self.walks {
            if has_conflict(ground, table, walk.as_slice()) {
                return true;
            }
        }
        false
    }

    /// Adds the elements that the net uses and with which another net is in conflict to these lists.
    pub(crate) fn note_conflicts<L: Lattice>(
        &self,
        ground: &Ground<'_, A, L>,
        table: &mut Table<A>,
        nodes: &mut Vec<u32, A>,
        vias: &mut Vec<u32, A>,
    ) -> Result<(), AllocError>
        requires size { table.old ≡ L.size_of ground.now.lattice.now }
        requires laid { IsLaidIn (L.size_of ground.now.lattice.now) self.now }
        requires nodes { AreSlots (L.size_of ground.now.lattice.now) nodes.old.items }
        requires vias { AreSlots (L.size_of ground.now.lattice.now) vias.old.items }
        ensures same { table.new ≡ table.old }
        ensures nodes { OnOk result (AreSlots (L.size_of ground.now.lattice.now) nodes.new.items) }
        ensures vias { OnOk result (AreSlots (L.size_of ground.now.lattice.now) vias.new.items) }
    {
        for walk in &self.walks {
            note_conflicts_of(ground, table, walk.as_slice(), nodes, vias)?;
        }
        Ok(())
    }

    /// Whether there are walks.
    pub(crate) fn has_walks(&self) -> bool {
        !self.walks.is_empty()
    }

    /// The walks.
    pub(crate) fn into_walks(self) -> Vec<Items<u32, A>, A>
        ensures { result.items ≡ self.walks }
    {
        self.walks
    }
}

/// One net more asks for each of these.
fn take_all<A: Allocator>(table: &mut Table<A>, element: Element, slots: &[u32])
    requires { AreSlots table.old slots.now }
    ensures { table.new ≡ table.old }
{
    for slot in slots {
        table.take(element, *slot);
    }
}

/// One net less.
fn give_up_all<A: Allocator>(table: &mut Table<A>, element: Element, slots: &[u32])
    requires { AreSlots table.old slots.now }
    ensures { table.new ≡ table.old }
{
    for slot in slots {
        table.give_up(element, *slot);
    }
}

/// Whether another net is in conflict with a node that the net uses, where it is counted itself.
fn is_node_shared<A: Allocator>(table: &Table<A>, number: u32) -> bool
    requires { number < table.now }
{
    table.congestion(Element::Node, number).nets > 1
}

/// Whether another net is in conflict with a via that the net uses, where it is not counted itself.
fn is_via_shared<A: Allocator>(table: &Table<A>, number: u32) -> bool
    requires { number < table.now }
{
    table.congestion(Element::Via, number).nets > 0
}

/// Whether another net is in conflict with a node or a via of this walk.
fn has_conflict<A: Allocator + Copy, L: Lattice>(
    ground: &Ground<'_, A, L>,
    table: &Table<A>,
    walk: &[u32],
) -> bool
    requires size { table.now ≡ L.size_of ground.now.lattice.now }
    requires walk { AreSlots (L.size_of ground.now.lattice.now) walk.now }
{
    for k in 0..walk.len() {
        if is_node_shared(table, walk[k]) {
            return true;
        }
        if k > 0
            && is_via_step(ground, walk[k - 1], walk[k])
            && is_via_shared(table, walk[k].min(walk[k - 1]))
        {
            return true;
        }
    }
    false
}

/// Adds the nodes and the vias of this walk with which another net is in conflict.
fn note_conflicts_of<A: Allocator + Copy, L: Lattice>(
    ground: &Ground<'_, A, L>,
    table: &mut Table<A>,
    walk: &[u32],
    nodes: &mut Vec<u32, A>,
    vias: &mut Vec<u32, A>,
) -> Result<(), AllocError>
    requires size { table.old ≡ L.size_of ground.now.lattice.now }
    requires walk { AreSlots (L.size_of ground.now.lattice.now) walk.now }
    requires nodes { AreSlots (L.size_of ground.now.lattice.now) nodes.old.items }
    requires vias { AreSlots (L.size_of ground.now.lattice.now) vias.old.items }
    ensures same { table.new ≡ table.old }
    ensures nodes { OnOk result (AreSlots (L.size_of ground.now.lattice.now) nodes.new.items) }
    ensures vias { OnOk result (AreSlots (L.size_of ground.now.lattice.now) vias.new.items) }
{
    for k in 0..walk.len() {
        if is_node_shared(table, walk[k]) {
            table.note(Element::Node, walk[k], nodes)?;
        }
        if k > 0 && is_via_step(ground, walk[k - 1], walk[k]) {
            let low = walk[k].min(walk[k - 1]);
            if is_via_shared(table, low) {
                table.note(Element::Via, low, vias)?;
            }
        }
    }
    Ok(())
}

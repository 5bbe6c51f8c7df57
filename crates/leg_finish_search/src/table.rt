//! What is kept of all slots while nets are routed.

ghost use Rattle.std.specs.Prelude.{◌≡◌, ◌<◌, IfOk, IfSome};
ghost use Rattle.leg_finish_search.specs.Slots.{AreSlots};

use crate::congestion::Congestion;
use crate::element::Element;
use crate::front::Front;
use crate::slot_state::{Origin, SlotState};
use std::alloc::{AllocError, Allocator};
use std::marker::Model;

/// What is kept of all slots, and of the search that goes on. Contracts see it as the number of slots.
#[derive(Drop)]
pub(crate) struct Table<A: Allocator> {
    states: Vec<SlotState, A>,
    /// The slots that the search has reached.
    touched: Vec<u32, A>,
    front: Front<A>,
    /// How many entries may still be taken from the front.
    looks: u64,
}

impl<A: Allocator> Model for Table<A> {
    ghost use Rattle.std.specs.Prelude.{ℕ, ◌≡◌, length};
    ghost use Rattle.leg_finish_search.specs.Slots.{AreSlots};

    ghost Value = { ℕ };

    ghost view = { λ t. length t.states.items };

    ghost invariant = { λ t. AreSlots (length t.states.items) t.touched.items × (t.front ≡ length t.states.items) };
}

impl<A: Allocator + Copy> Table<A> {
    /// Of this many slots, of which nothing is known.
    pub(crate) fn new(alloc: A, size: usize, looks: u64) -> Result<Table<A>, AllocError>
        ensures { IfOk result (λ table. table ≡ size) }
    {
        Ok(Table {
            states: Vec::from_elem(alloc, SlotState::NEW, size)?,
            touched: Vec::new(alloc),
            front: Front::new(alloc, size),
            looks,
        })
    }
}

impl<A: Allocator> Table<A> {
    /// How many entries may still be taken from the front.
    pub(crate) fn looks(&self) -> u64 {
        self.looks
    }

    /// How much the node of the slot is asked for, or the step up.
    pub(crate) fn congestion(&self, element: Element, slot: u32) -> Congestion
        requires { slot < self.now }
    {
        let state = &self.states[slot as usize];
        match element {
            Element::Node => state.node,
            Element::Via => state.via,
        }
    }

    fn set_congestion(&mut self, element: Element, slot: u32, congestion: Congestion)
        requires { slot < self.old }
        ensures { self.new ≡ self.old }
    {
        let state = &mut self.states[slot as usize];
        match element {
            Element::Node => state.node = congestion,
            Element::Via => state.via = congestion,
        }
    }

    /// One net more asks for it.
    pub(crate) fn take(&mut self, element: Element, slot: u32)
        requires { slot < self.old }
        ensures { self.new ≡ self.old }
    {
        let congestion = self.congestion(element, slot);
        self.set_congestion(element, slot, congestion.taken());
    }

    /// One net less.
    pub(crate) fn give_up(&mut self, element: Element, slot: u32)
        requires { slot < self.old }
        ensures { self.new ≡ self.old }
    {
        let congestion = self.congestion(element, slot);
        self.set_congestion(element, slot, congestion.given_up());
    }

    /// A round ended with a conflict there.
    fn fight_over(&mut self, element: Element, slot: u32)
        requires { slot < self.old }
        ensures { self.new ≡ self.old }
    {
        let congestion = self.congestion(element, slot);
        self.set_congestion(element, slot, congestion.fought_over());
    }

    /// Whether the slot is one of the net that is routed, which may still have to be joined.
    pub(crate) fn is_end(&self, slot: u32) -> bool
        requires { slot < self.now }
    {
        self.states[slot as usize].is_end
    }

    /// Sets whether it is.
    pub(crate) fn set_end(&mut self, slot: u32, is_end: bool)
        requires { slot < self.old }
        ensures { self.new ≡ self.old }
    {
        self.states[slot as usize].is_end = is_end;
    }

    /// From where the cheapest way that was found enters the slot.
    pub(crate) fn origin(&self, slot: u32) -> Origin
        requires { slot < self.now }
    {
        self.states[slot as usize].origin
    }

    /// Notes a way to the slot, if it is cheaper than the one that is known.
    pub(crate) fn reach(
        &mut self,
        slot: u32,
        cost: u32,
        origin: Origin,
        left: u32,
    ) -> Result<(), AllocError>
        requires { slot < self.old }
        ensures { self.new ≡ self.old }
    {
        let state = self.states[slot as usize];
        if state.cost <= cost {
            return Ok(());
        }
        if state.origin == Origin::Nowhere {
            self.touched.push(slot)?;
        }
        self.front.push(slot, cost, left)?;
        let state = &mut self.states[slot as usize];
        state.cost = cost;
        state.origin = origin;
        Ok(())
    }

    /// The most promising slot that waits, and what the way to it costs.
    pub(crate) fn next(&mut self) -> Option<(u32, u32)>
        ensures same { self.new ≡ self.old }
        ensures within { IfSome result (λ found. found.0 < self.old) }
    {
        let looks = self.looks;
        for _ in 0..looks {
            self.looks = self.looks.saturating_sub(1);
            let (slot, cost) = self.front.pop()?;
            // (else a cheaper way was found since)
            if self.states[slot as usize].cost == cost {
                return Some((slot, cost));
            }
        }
        None
    }

    /// Forgets the search.
    pub(crate) fn forget(&mut self)
        ensures { self.new ≡ self.old }
    {
        self.front.clear();
        while let Some(slot) = self.touched.pop() {
            let state = &mut self.states[slot as usize];
            state.cost = u32::MAX;
            state.origin = Origin::Nowhere;
        }
    }

    /// Adds the slot to the list, where its node, or the step up, is not in it yet.
    pub(crate) fn note(
        &mut self,
        element: Element,
        slot: u32,
        list: &mut Vec<u32, A>,
    ) -> Result<(), AllocError>
        requires slot { slot < self.old }
        requires list { AreSlots self.old list.old.items }
        ensures same { self.new ≡ self.old }
        ensures list { AreSlots self.new list.new.items }
    {
        if !self.is_noted(element, slot) {
            list.push(slot)?;
            self.set_noted(element, slot, true);
        }
        Ok(())
    }

    /// Whether its node, or the step up, is in the list that is being made.
    pub(crate) fn is_noted(&self, element: Element, slot: u32) -> bool
        requires { slot < self.now }
    {
        let state = &self.states[slot as usize];
        match element {
            Element::Node => state.has_node,
            Element::Via => state.has_via,
        }
    }

    fn set_noted(&mut self, element: Element, slot: u32, is_noted: bool)
        requires { slot < self.old }
        ensures { self.new ≡ self.old }
    {
        let state = &mut self.states[slot as usize];
        match element {
            Element::Node => state.has_node = is_noted,
            Element::Via => state.has_via = is_noted,
        }
    }

    /// A round ended with a conflict at each of these, which are in a list no more.
    pub(crate) fn fight_over_all(&mut self, element: Element, list: &[u32])
        requires { AreSlots self.old list.now }
        ensures { self.new ≡ self.old }
    {
        self.close(element, list);
        for slot in list {
            self.fight_over(element, *slot);
        }
    }

    /// None of these is in a list any more.
    pub(crate) fn close(&mut self, element: Element, list: &[u32])
        requires { AreSlots self.old list.now }
        ensures { self.new ≡ self.old }
    {
        for slot in list {
            self.set_noted(element, *slot, false);
        }
    }
}

//! The slots that a search has still to look at.

ghost use Rattle.std.specs.Prelude.{◌≡◌, ◌<◌, IfSome};

use std::alloc::{AllocError, Allocator};
use std::cmp::Reverse;
use std::collections::BinaryHeap;
use std::marker::Model;

/// A slot that a way has reached, as it waits for its turn: the greatest one comes first.
#[derive(Clone, Copy, PartialEq, Eq, PartialOrd, Ord, Debug)]
struct Entry {
    /// What the way costs, and what is left of it at least: the less, the sooner.
    total: Reverse<u32>,
    /// What the way costs so far: of two that promise as much the one that has come further.
    cost: u32,
    slot: Reverse<u32>,
}

/// The slots that wait. Contracts see it as how many slots the grid has.
#[derive(Drop)]
pub(crate) struct Front<A: Allocator> {
    entries: BinaryHeap<Entry, A>,
    size: usize,
}

impl<A: Allocator> Model for Front<A> {
    ghost use Rattle.std.specs.Prelude.{ℕ, ◌<◌, All};
    ghost use Rattle.std.specs.BinaryHeap.{heap_items};
    ghost use Rattle.leg_finish_search.specs.declared.front.Entry.{Entry};

    ghost Value = { ℕ };

    ghost view = { λ f. f.size };

    ghost invariant = { λ f. All (λ (e : Entry). e.slot.0 < f.size) (heap_items f.entries) };
}

impl<A: Allocator> Front<A> {
    /// Of so many slots none waits.
    pub(crate) fn new(alloc: A, size: usize) -> Front<A>
        ensures { result ≡ size }
    {
        Front {
            entries: BinaryHeap::new(alloc),
            size,
        }
    }

    /// The slot waits, with what the way to it costs and what is left at least.
    pub(crate) fn push(&mut self, slot: u32, cost: u32, left: u32) -> Result<(), AllocError>
        requires { slot < self.old }
        ensures { self.new ≡ self.old }
    {
        self.entries.push(Entry {
            total: Reverse(cost.saturating_add(left)),
            cost,
            slot: Reverse(slot),
        })?;
        Ok(())
    }

    /// The most promising slot, with what the way to it costs.
    pub(crate) fn pop(&mut self) -> Option<(u32, u32)>
        ensures same { self.new ≡ self.old }
        ensures within { IfSome result (λ found. found.0 < self.old) }
    {
        let entry = self.entries.pop()?;
        Some((entry.slot.0, entry.cost))
    }

    /// No slot waits any more.
    pub(crate) fn clear(&mut self)
        ensures { self.new ≡ self.old }
    {
        self.entries.clear();
    }
}

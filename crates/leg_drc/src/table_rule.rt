//! The rule of shapes that are nearer than a table asks for.

ghost use Rattle.std.specs.Prelude.{◌≡◌, ◌+◌, ◌↔◌, length, min, get_or, IsTrue};
ghost use Rattle.std.proofs.Common.{ap};
ghost use Rattle.leg_drc.specs.Table.{AreNearerThanTable};
ghost use Rattle.leg_drc.specs.Steps.NearRule.{greatest};
ghost use Rattle.leg_drc.specs.Steps.TableRule.{AreTableReaches, table_back, table_near, table_near_on_layer};

use crate::candidate::Candidate;
use crate::reach::{greatest, reach_on};
use crate::table::{layer_table, table_spacing};
use leg_drc_rules::DeckRules;
use leg_lib_records::Library;
use leg_rules::Shape;
use leg_sweep::{LayeredRule, PairRule};
use leg_wire_spacing::{are_closer_than, required_spacing};
use std::alloc::Allocator;

/// Holds of comparable shapes that share no point, are as far apart as the layer's spacing, and lie nearer than its table asks for.
#[derive(Drop)]
pub(crate) struct NearerThanTable<'l, 'a, A: Allocator + Copy> {
    library: &'l Library<'a, A>,
    deck: &'l DeckRules<A>,
    reaches: &'l [u32],
    tests: u64,
    looks: u64,
    ghost bound: { AreTableReaches deck.now reaches.now },
}

impl<'l, 'a, A: Allocator + Copy> NearerThanTable<'l, 'a, A> {
    /// The rule for this library and deck. No table asks for more than the reach of its layer.
    pub(crate) fn new(
        library: &'l Library<'a, A>,
        deck: &'l DeckRules<A>,
        reaches: &'l [u32],
    ) -> NearerThanTable<'l, 'a, A>
        requires { AreTableReaches deck.now reaches.now }
        ensures library { result.library.now ≡ library.now }
        ensures deck { result.deck.now ≡ deck.now }
        ensures reaches { result.reaches.now ≡ reaches.now }
        ensures untested { result.tests ≡ 0 }
        ensures unseen { result.looks ≡ 0 }
    {
        NearerThanTable {
            library,
            deck,
            reaches,
            tests: 0,
            looks: 0,
        }
    }

    /// Whether two shapes of different owners on one layer are nearer than its table asks for, and no violation of its spacing.
    fn breaks_table(&self, a: &Shape, b: &Shape) -> bool
        ensures { IsTrue result ↔ AreNearerThanTable self.now.library.now self.now.deck.now a.now b.now }
    {
        if a.layer != b.layer || a.owner == b.owner {
            return false;
        }
        match layer_table(self.deck, a.layer) {
            Some(table) => {
                are_closer_than(table_spacing(table, &a.rect, &b.rect), a, b)
                    && !are_closer_than(required_spacing(self.library, a, b), a, b)
            }
            None => false,
        }
    }
}

impl<'l, 'a, A: Allocator + Copy> PairRule for NearerThanTable<'l, 'a, A> {
    type Item = Candidate;

    ghost fixed = { λ r. record r { tests = 0; looks = 0 } };

    ghost Holds = { λ r a b. AreNearerThanTable r.library.now r.deck.now a.shape b.shape };

    ghost rect_of = { λ r a. a.shape.rect };

    ghost reach_of = { λ r. greatest r.reaches.now };

    ghost tests_of = { λ r. r.tests };

    ghost looks_of = { λ r. r.looks };

    fn left(&self, item: &Candidate) -> i64 {
        item.shape.rect.x1()
    }

    fn reach(&self) -> i64 {
        i64::from(greatest(self.reaches))
    }

    fn gaps(&mut self, a: &Candidate, b: &Candidate) -> (i64, i64) {
        self.looks += 1;
        (
            a.shape.rect.x_gap(&b.shape.rect) as i64,
            a.shape.rect.y_gap(&b.shape.rect) as i64,
        )
    }

    fn meets(&mut self, a: &Candidate, b: &Candidate) -> bool {
        self.tests += 1;
        self.breaks_table(&a.shape, &b.shape)
    }

    fn tests(&self) -> u64 {
        self.tests
    }

    fn looks(&self) -> u64 {
        self.looks
    }

    ghost symmetric = { λ r a b h. table_back r.library.now r.deck.now a.shape b.shape h };

    ghost near = { λ r a b h. table_near r.library.now r.deck.now a.shape b.shape h r.reaches.now r.bound };
}

// What lies on no layer of the deck lies on one more.
impl<'l, 'a, A: Allocator + Copy> LayeredRule for NearerThanTable<'l, 'a, A> {
    ghost layers_of = { λ r. length r.reaches.now + 1 };

    ghost layer_of = { λ r a. min a.shape.layer (length r.reaches.now) };

    ghost layer_reach_of = { λ r layer. get_or r.reaches.now layer 0 };

    fn layers(&self) -> usize {
        self.reaches.len() + 1
    }

    fn layer(&self, item: &Candidate) -> usize {
        item.shape.layer.min(self.reaches.len())
    }

    fn layer_reach(&self, layer: usize) -> u64 {
        u64::from(reach_on(self.reaches, layer))
    }

    fn bottom(&self, item: &Candidate) -> i64 {
        item.shape.rect.y1()
    }

    fn top(&self, item: &Candidate) -> i64 {
        item.shape.rect.y2()
    }

    ghost layered = { λ r a b h. ap (λ layer. min layer (length r.reaches.now)) h.comparable.layer };

    ghost near_on_layer = { λ r a b h. table_near_on_layer r.library.now r.deck.now a.shape b.shape h r.reaches.now r.bound };
}

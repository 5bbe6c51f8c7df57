//! Comparable shapes that share a point or are nearer than the spacing that is required of them.

ghost use Rattle.std.specs.Prelude.{◌≡◌, ◌≤◌, ◌+◌, ℕ, length, min};
ghost use Rattle.std.proofs.Common.{ap};
ghost use Rattle.leg_rules.specs.Spacing.RequiredSpacing.{greatest_spacing_on};
ghost use Rattle.leg_wire.specs.Steps.TooCloseRule.{AreClose, AreClose-symmetric, AreClose-near, AreClose-near_on_layer};

use leg_flat::Shape;
use leg_lib_records::Library;
use leg_sweep::{LayeredRule, PairRule};
use leg_wire_spacing::{are_closer_than, greatest_spacing_on, required_spacing};
use std::alloc::Allocator;

/// Holds of comparable shapes that share a point or lie nearer than the spacing that is required of them.
#[derive(Drop)]
pub(crate) struct TooClose<'l, 'a, A: Allocator + Copy> {
    library: &'l Library<'a, A>,
    reach: u32,
    tests: u64,
    looks: u64,
    ghost bound: { (layer : ℕ) → greatest_spacing_on library.now layer ≤ reach },
}

impl<'l, 'a, A: Allocator + Copy> TooClose<'l, 'a, A> {
    /// The rule for this library. Its reach is the greatest spacing on a layer.
    pub(crate) fn new(library: &'l Library<'a, A>) -> TooClose<'l, 'a, A>
        ensures library { result.library.now ≡ library.now }
        ensures untested { result.tests ≡ 0 }
        ensures unseen { result.looks ≡ 0 }
    {
        TooClose {
            library,
            reach: greatest_spacing(library),
            tests: 0,
            looks: 0,
        }
    }
}

/// The greatest spacing on a layer, and 0 where there is none.
fn greatest_spacing<A: Allocator + Copy>(library: &Library<'_, A>) -> u32
    ensures { (layer : ℕ) → greatest_spacing_on library.now layer ≤ result }
{
    let mut greatest = 0;
    for layer in 0..library.layers().len() {
        greatest = greatest.max(greatest_spacing_on(library, layer) as u32);
    }
    greatest
}

impl<'l, 'a, A: Allocator + Copy> PairRule for TooClose<'l, 'a, A> {
    type Item = Shape;

    ghost fixed = { λ r. record r { tests = 0; looks = 0 } };

    ghost Holds = { λ r a b. AreClose r.library.now a b };

    ghost rect_of = { λ r a. a.rect };

    ghost reach_of = { λ r. r.reach };

    ghost tests_of = { λ r. r.tests };

    ghost looks_of = { λ r. r.looks };

    fn left(&self, item: &Shape) -> i64 {
        item.rect.x1()
    }

    fn reach(&self) -> i64 {
        i64::from(self.reach)
    }

    fn gaps(&mut self, a: &Shape, b: &Shape) -> (i64, i64) {
        self.looks += 1;
        (a.rect.x_gap(&b.rect) as i64, a.rect.y_gap(&b.rect) as i64)
    }

    fn meets(&mut self, a: &Shape, b: &Shape) -> bool {
        self.tests += 1;
        are_closer_than(required_spacing(self.library, a, b), a, b)
    }

    fn tests(&self) -> u64 {
        self.tests
    }

    fn looks(&self) -> u64 {
        self.looks
    }

    ghost symmetric = { λ r a b h. AreClose-symmetric r.library.now a b h };

    ghost near = { λ r a b h. AreClose-near r.library.now r.reach r.bound a b h };
}

// What lies on no layer of the library lies on one more.
impl<'l, 'a, A: Allocator + Copy> LayeredRule for TooClose<'l, 'a, A> {
    ghost layers_of = { λ r. length r.library.now.layers + 1 };

    ghost layer_of = { λ r a. min a.layer (length r.library.now.layers) };

    ghost layer_reach_of = { λ r layer. greatest_spacing_on r.library.now layer };

    fn layers(&self) -> usize {
        self.library.layers().len() + 1
    }

    fn layer(&self, item: &Shape) -> usize {
        item.layer.min(self.library.layers().len())
    }

    fn layer_reach(&self, layer: usize) -> u64 {
        greatest_spacing_on(self.library, layer)
    }

    fn bottom(&self, item: &Shape) -> i64 {
        item.rect.y1()
    }

    fn top(&self, item: &Shape) -> i64 {
        item.rect.y2()
    }

    ghost layered = { λ r a b h. ap (λ layer. min layer (length r.library.now.layers)) h.comparable.layer };

    ghost near_on_layer = { λ r a b h. AreClose-near_on_layer r.library.now a b h };
}

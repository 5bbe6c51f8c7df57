//! The rule of cuts of one net that are near one another.

ghost use Rattle.std.specs.Prelude.{◌≡◌, ◌+◌, ◌↔◌, length, min, get_or, IsTrue};
ghost use Rattle.std.proofs.Common.{ap};
ghost use Rattle.leg_rules.specs.Spacing.Violations.{AreNearer};
ghost use Rattle.leg_drc.specs.Steps.NearRule.{greatest};
ghost use Rattle.leg_drc.specs.Steps.CutRule.{AreCutsWithin, AreOneNet, cuts_back, cuts_near, cuts_near_on_layer};

use crate::candidate::Candidate;
use crate::reach::{greatest, reach_on};
use leg_geom::Rect;
use leg_rules::{Owner, Shape};
use leg_sweep::{LayeredRule, PairRule};

/// Holds of different rectangles of one net and one layer that are nearer than the layer's reach.
#[derive(Drop)]
pub(crate) struct NearCuts<'l> {
    reaches: &'l [u32],
    tests: u64,
    looks: u64,
}

impl<'l> NearCuts<'l> {
    /// The rule for these reaches of layers.
    pub(crate) fn new(reaches: &'l [u32]) -> NearCuts<'l>
        ensures reaches { result.reaches.now ≡ reaches.now }
        ensures untested { result.tests ≡ 0 }
        ensures unseen { result.looks ≡ 0 }
    {
        NearCuts {
            reaches,
            tests: 0,
            looks: 0,
        }
    }

    /// Whether two rectangles on this layer lie nearer to one another than its reach.
    fn are_within(&self, layer: usize, a: &Rect, b: &Rect) -> bool
        ensures { IsTrue result ↔ AreNearer (get_or self.now.reaches.now layer 0) a.now b.now }
    {
        let reach = u64::from(reach_on(self.reaches, layer));
        a.gap2(b) < i128::from(reach * reach)
    }

    /// Whether the rule holds of two shapes.
    fn are_near(&self, a: &Shape, b: &Shape) -> bool
        ensures { IsTrue result ↔ AreCutsWithin self.now.reaches.now a.now b.now }
    {
        a.layer == b.layer
            && are_of_one_net(a.owner, b.owner)
            && !a.rect.is(&b.rect)
            && self.are_within(a.layer, &a.rect, &b.rect)
    }
}

/// Whether both owners are one net.
fn are_of_one_net(a: Owner, b: Owner) -> bool
    ensures { IsTrue result ↔ AreOneNet a b }
{
    match (a, b) {
        (Owner::Net(first), Owner::Net(second)) => first == second,
        _ => false,
    }
}

impl<'l> PairRule for NearCuts<'l> {
    type Item = Candidate;

    ghost fixed = { λ r. record r { tests = 0; looks = 0 } };

    ghost Holds = { λ r a b. AreCutsWithin r.reaches.now a.shape b.shape };

    ghost rect_of = { λ r a. a.shape.rect };

    ghost reach_of = { λ r. greatest r.reaches.now };

    ghost tests_of = { λ r. r.tests };

    ghost looks_of = { λ r. r.looks };

    fn left(&self, item: &Candidate) -> i64 {
        item.shape.rect.x1()
    }

    fn reach(&self) -> i64 {
        i64::from(greatest(self.reaches))
    }

    fn gaps(&mut self, a: &Candidate, b: &Candidate) -> (i64, i64) {
        self.looks += 1;
        (
            a.shape.rect.x_gap(&b.shape.rect) as i64,
            a.shape.rect.y_gap(&b.shape.rect) as i64,
        )
    }

    fn meets(&mut self, a: &Candidate, b: &Candidate) -> bool {
        self.tests += 1;
        self.are_near(&a.shape, &b.shape)
    }

    fn tests(&self) -> u64 {
        self.tests
    }

    fn looks(&self) -> u64 {
        self.looks
    }

    ghost symmetric = { λ r a b h. cuts_back r.reaches.now a.shape b.shape h };

    ghost near = { λ r a b h. cuts_near r.reaches.now a.shape b.shape h };
}

// What lies on no layer of the deck lies on one more.
impl<'l> LayeredRule for NearCuts<'l> {
    ghost layers_of = { λ r. length r.reaches.now + 1 };

    ghost layer_of = { λ r a. min a.shape.layer (length r.reaches.now) };

    ghost layer_reach_of = { λ r layer. get_or r.reaches.now layer 0 };

    fn layers(&self) -> usize {
        self.reaches.len() + 1
    }

    fn layer(&self, item: &Candidate) -> usize {
        item.shape.layer.min(self.reaches.len())
    }

    fn layer_reach(&self, layer: usize) -> u64 {
        u64::from(reach_on(self.reaches, layer))
    }

    fn bottom(&self, item: &Candidate) -> i64 {
        item.shape.rect.y1()
    }

    fn top(&self, item: &Candidate) -> i64 {
        item.shape.rect.y2()
    }

    ghost layered = { λ r a b h. ap (λ layer. min layer (length r.reaches.now)) h.layer };

    ghost near_on_layer = { λ r a b h. cuts_near_on_layer r.reaches.now a.shape b.shape h };
}

//! Rules that the tests ask.

ghost use Rattle.std.specs.Prelude.{◌≡◌, ◌≤◌, ◌↔◌, IsTrue};
ghost use Rattle.leg_geom.specs.Gap.{x_gap, y_gap};

use leg_geom::Rect;
use leg_sweep::{LayeredRule, PairRule};
use std::cell::Cell;

/// Holds of rectangles that share a unit square.
#[derive(Drop)]
pub(crate) struct Overlap {
    tests: u64,
    looks: u64,
}

impl Overlap {
    pub(crate) fn new() -> Overlap
        ensures { result ≡ record { tests = 0; looks = 0 } }
    {
        Overlap { tests: 0, looks: 0 }
    }
}

impl PairRule for Overlap {
    ghost use Rattle.leg_geom.specs.Plane.{ShareSquare};
    ghost use Rattle.leg_geom.proofs.Gaps.{ShareSquare-symmetric, ShareSquare-gaps};

    type Item = Rect;

    ghost fixed = { λ r. record r { tests = 0; looks = 0 } };

    ghost Holds = { λ r a b. ShareSquare a b };

    ghost rect_of = { λ r a. a };

    ghost reach_of = { λ r. 0 };

    ghost tests_of = { λ r. r.tests };

    ghost looks_of = { λ r. r.looks };

    fn left(&self, item: &Rect) -> i64 {
        item.x1()
    }

    fn reach(&self) -> i64 {
        0
    }

    fn gaps(&mut self, a: &Rect, b: &Rect) -> (i64, i64) {
        self.looks += 1;
        (a.x_gap(b) as i64, a.y_gap(b) as i64)
    }

    fn meets(&mut self, a: &Rect, b: &Rect) -> bool {
        self.tests += 1;
        a.overlaps(b)
    }

    fn tests(&self) -> u64 {
        self.tests
    }

    fn looks(&self) -> u64 {
        self.looks
    }

    ghost symmetric = { λ r a b. ShareSquare-symmetric a b };

    ghost near = { λ r a b. ShareSquare-gaps a b };
}

// All rectangles lie on one layer.
impl LayeredRule for Overlap {
    ghost use Rattle.std.proofs.Common.{refl};
    ghost use Rattle.leg_geom.proofs.Gaps.{ShareSquare-gaps};

    ghost layers_of = { λ r. 1 };

    ghost layer_of = { λ r a. 0 };

    ghost layer_reach_of = { λ r layer. 0 };

    fn layers(&self) -> usize {
        1
    }

    fn layer(&self, _item: &Rect) -> usize {
        0
    }

    fn layer_reach(&self, _layer: usize) -> u64 {
        0
    }

    fn bottom(&self, item: &Rect) -> i64 {
        item.y1()
    }

    fn top(&self, item: &Rect) -> i64 {
        item.y2()
    }

    ghost layered = { λ r a b h. refl };

    ghost near_on_layer = { λ r a b. ShareSquare-gaps a b };
}

/// A rectangle on a layer, with its number.
#[derive(Drop)]
pub(crate) struct Shape {
    pub(crate) number: usize,
    pub(crate) layer: usize,
    pub(crate) rect: Rect,
}

/// Holds of shapes of one layer whose two gaps are at most the reach. It notes each pair of numbers that it was asked
/// about, in a table of this many columns, which is no part of its meaning.
#[derive(Drop)]
pub(crate) struct Within<'a> {
    reach: u32,
    columns: usize,
    asked: &'a [Cell<u32>],
    tests: u64,
    looks: u64,
}

impl<'a> Within<'a> {
    pub(crate) fn new(reach: u32, columns: usize, asked: &'a [Cell<u32>]) -> Within<'a>
        ensures tests { result.tests ≡ 0 }
        ensures looks { result.looks ≡ 0 }
    {
        Within {
            reach,
            columns,
            asked,
            tests: 0,
            looks: 0,
        }
    }

    /// Whether the layers are one and both gaps are at most the reach, whichever shape is named first.
    pub(crate) fn holds(&self, a: &Shape, b: &Shape) -> bool
        ensures { IsTrue result ↔ (a.now.layer ≡ b.now.layer) × (x_gap a.now.rect b.now.rect ≤ self.now.reach) × (y_gap a.now.rect b.now.rect ≤ self.now.reach)
            × (x_gap b.now.rect a.now.rect ≤ self.now.reach) × (y_gap b.now.rect a.now.rect ≤ self.now.reach) }
    {
        let reach = u64::from(self.reach);
        let there = a.rect.x_gap(&b.rect) <= reach && a.rect.y_gap(&b.rect) <= reach;
        let back = b.rect.x_gap(&a.rect) <= reach && b.rect.y_gap(&a.rect) <= reach;
        a.layer == b.layer && there && back
    }

    /// Notes that the rule is asked about the two numbers, the lower one first.
    fn note(&self, a: usize, b: usize) {
        let place = a
            .min(b)
            .saturating_mul(self.columns)
            .saturating_add(a.max(b));
        if let Some(times) = self.asked.get(place) {
            times.set(times.get().saturating_add(1));
        }
    }
}

impl<'a> PairRule for Within<'a> {
    ghost use Rattle.std.proofs.Common.{sym};

    type Item = Shape;

    ghost fixed = { λ r. record r { tests = 0; looks = 0 } };

    ghost Holds = { λ r a b. (a.layer ≡ b.layer) × (x_gap a.rect b.rect ≤ r.reach) × (y_gap a.rect b.rect ≤ r.reach)
        × (x_gap b.rect a.rect ≤ r.reach) × (y_gap b.rect a.rect ≤ r.reach) };

    ghost rect_of = { λ r a. a.rect };

    ghost reach_of = { λ r. r.reach };

    ghost tests_of = { λ r. r.tests };

    ghost looks_of = { λ r. r.looks };

    fn left(&self, item: &Shape) -> i64 {
        item.rect.x1()
    }

    fn reach(&self) -> i64 {
        i64::from(self.reach)
    }

    fn gaps(&mut self, a: &Shape, b: &Shape) -> (i64, i64) {
        self.looks += 1;
        (a.rect.x_gap(&b.rect) as i64, a.rect.y_gap(&b.rect) as i64)
    }

    fn meets(&mut self, a: &Shape, b: &Shape) -> bool {
        self.tests += 1;
        self.note(a.number, b.number);
        self.holds(a, b)
    }

    fn tests(&self) -> u64 {
        self.tests
    }

    fn looks(&self) -> u64 {
        self.looks
    }

    ghost symmetric = { λ r a b h. (sym h.0, h.3, h.4, h.1, h.2) };

    ghost near = { λ r a b h. (h.1, h.2) };
}

// There are 16 layers, and what lies higher lies on the last one.
impl<'a> LayeredRule for Within<'a> {
    ghost use Rattle.std.specs.Prelude.{min};
    ghost use Rattle.std.proofs.Common.{ap};

    ghost layers_of = { λ r. 16 };

    ghost layer_of = { λ r a. min a.layer 15 };

    ghost layer_reach_of = { λ r layer. r.reach };

    fn layers(&self) -> usize {
        16
    }

    fn layer(&self, item: &Shape) -> usize {
        item.layer.min(15)
    }

    fn layer_reach(&self, _layer: usize) -> u64 {
        u64::from(self.reach)
    }

    fn bottom(&self, item: &Shape) -> i64 {
        item.rect.y1()
    }

    fn top(&self, item: &Shape) -> i64 {
        item.rect.y2()
    }

    ghost layered = { λ r a b h. ap (λ layer. min layer 15) h.0 };

    ghost near_on_layer = { λ r a b h. (h.1, h.2) };
}

//! Metal of a net's pieces that shares a point.

ghost use Rattle.std.specs.Prelude.{◌≡◌, ◌↔◌, ◌+◌, min, IsTrue};
ghost use Rattle.std.proofs.Common.{ap};
ghost use Rattle.leg_wire.specs.Steps.MeetingRule.{DoMeet, DoMeet-symmetric, DoMeet-near};

use crate::piece_shape::PieceShape;
use leg_sweep::{LayeredRule, PairRule};

/// Whether they are metal of two pieces that shares a point on one layer.
pub(crate) fn do_meet(a: &PieceShape, b: &PieceShape) -> bool
    ensures { IsTrue result ↔ DoMeet a.now b.now }
{
    a.layer == b.layer && a.piece != b.piece && a.rect.shares_point(&b.rect)
}

/// Holds of metal of two pieces of a net that shares a point on one layer.
#[derive(Drop)]
pub(crate) struct Meeting {
    /// The highest layer that is distinguished from those above it.
    highest: u32,
    tests: u64,
    looks: u64,
}

impl Meeting {
    /// The rule for these shapes, of which nothing was asked yet. No more layers are distinguished than sixteen for
    /// each shape, so that a net of few shapes costs little, however many layers the library has.
    pub(crate) fn new(shapes: &[PieceShape]) -> Meeting
        ensures untested { result.tests ≡ 0 }
        ensures unseen { result.looks ≡ 0 }
    {
        let most = shapes.len().saturating_mul(16).min(u32::MAX as usize);
        let mut highest = 0;
        for shape in shapes {
            highest = highest.max(shape.layer.min(most) as u32);
        }
        Meeting {
            highest,
            tests: 0,
            looks: 0,
        }
    }
}

impl PairRule for Meeting {
    type Item = PieceShape;

    ghost fixed = { λ r. record r { tests = 0; looks = 0 } };

    ghost Holds = { λ r a b. DoMeet a b };

    ghost rect_of = { λ r a. a.rect };

    ghost reach_of = { λ r. 0 };

    ghost tests_of = { λ r. r.tests };

    ghost looks_of = { λ r. r.looks };

    fn left(&self, item: &PieceShape) -> i64 {
        item.rect.x1()
    }

    fn reach(&self) -> i64 {
        0
    }

    fn gaps(&mut self, a: &PieceShape, b: &PieceShape) -> (i64, i64) {
        self.looks += 1;
        (a.rect.x_gap(&b.rect) as i64, a.rect.y_gap(&b.rect) as i64)
    }

    fn meets(&mut self, a: &PieceShape, b: &PieceShape) -> bool {
        self.tests += 1;
        do_meet(a, b)
    }

    fn tests(&self) -> u64 {
        self.tests
    }

    fn looks(&self) -> u64 {
        self.looks
    }

    ghost symmetric = { λ r a b h. DoMeet-symmetric _ _ h };

    ghost near = { λ r a b h. DoMeet-near _ _ h };
}

impl LayeredRule for Meeting {
    ghost layers_of = { λ r. r.highest + 1 };

    ghost layer_of = { λ r a. min a.layer r.highest };

    ghost layer_reach_of = { λ r layer. 0 };

    fn layers(&self) -> usize {
        self.highest as usize + 1
    }

    fn layer(&self, item: &PieceShape) -> usize {
        item.layer.min(self.highest as usize)
    }

    fn layer_reach(&self, _layer: usize) -> u64 {
        0
    }

    fn bottom(&self, item: &PieceShape) -> i64 {
        item.rect.y1()
    }

    fn top(&self, item: &PieceShape) -> i64 {
        item.rect.y2()
    }

    ghost layered = { λ r a b h. ap (λ layer. min layer r.highest) h.layer };

    ghost near_on_layer = { λ r a b h. DoMeet-near _ _ h };
}

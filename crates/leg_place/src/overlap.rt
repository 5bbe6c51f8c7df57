//! Overlapping components.

ghost use Rattle.std.specs.Prelude.{◌+◌, ◌^◌, ◌↔◌, IsTrue, IfOk, OnOk};
ghost use Rattle.std.proofs.Common.{refl};
ghost use Rattle.leg_geom.specs.Plane.{ShareSquare};
ghost use Rattle.leg_geom.proofs.Gaps.{ShareSquare-symmetric, ShareSquare-gaps};
ghost use Rattle.leg_design_records.specs.Violation.{kind_number};
ghost use Rattle.leg_place.specs.Steps.ListPrefix.{IsListBefore, DoSomeOverlap, HasPair};

use crate::marks::all_marked;
use crate::placed_box::{PlacedBox, placed_boxes};
use leg_design_records::{Design, Fault};
use leg_sweep::{LayeredRule, PairRule, PairSink, each_pair, pairs_in_bands};
use std::alloc::{AllocError, Allocator};

/// Holds of boxes that share a unit square.
#[derive(Drop)]
struct OnOneAnother {
    tests: u64,
    looks: u64,
}

impl PairRule for OnOneAnother {
    type Item = PlacedBox;

    ghost fixed = { λ r. record { tests = 0; looks = 0 } };

    ghost Holds = { λ r a b. ShareSquare a.rect b.rect };

    ghost rect_of = { λ r a. a.rect };

    ghost reach_of = { λ r. 0 };

    ghost tests_of = { λ r. r.tests };

    ghost looks_of = { λ r. r.looks };

    fn left(&self, item: &PlacedBox) -> i64 {
        item.rect.x1()
    }

    fn reach(&self) -> i64 {
        0
    }

    fn gaps(&mut self, a: &PlacedBox, b: &PlacedBox) -> (i64, i64) {
        self.looks += 1;
        (a.rect.x_gap(&b.rect) as i64, a.rect.y_gap(&b.rect) as i64)
    }

    fn meets(&mut self, a: &PlacedBox, b: &PlacedBox) -> bool {
        self.tests += 1;
        a.rect.overlaps(&b.rect)
    }

    fn tests(&self) -> u64 {
        self.tests
    }

    fn looks(&self) -> u64 {
        self.looks
    }

    ghost symmetric = { λ r a b h. ShareSquare-symmetric _ _ h };

    ghost near = { λ r a b h. ShareSquare-gaps _ _ h };
}

// All boxes lie on one layer.
impl LayeredRule for OnOneAnother {
    ghost layers_of = { λ r. 1 };

    ghost layer_of = { λ r a. 0 };

    ghost layer_reach_of = { λ r layer. 0 };

    fn layers(&self) -> usize {
        1
    }

    fn layer(&self, _item: &PlacedBox) -> usize {
        0
    }

    fn layer_reach(&self, _layer: usize) -> u64 {
        0
    }

    fn bottom(&self, item: &PlacedBox) -> i64 {
        item.rect.y1()
    }

    fn top(&self, item: &PlacedBox) -> i64 {
        item.rect.y2()
    }

    ghost layered = { λ r a b h. refl };

    ghost near_on_layer = { λ r a b h. ShareSquare-gaps _ _ h };
}

/// Adds the pairs of marked components that share a unit square to the violations of the kinds before.
pub(crate) fn push_overlaps<A: Allocator + Copy>(
    alloc: A,
    design: &Design<'_, A>,
    marks: &[bool],
    found: &mut Vec<Fault, A>,
) -> Result<(), AllocError>
    requires { IsListBefore design.now marks.now (kind_number (Fault.Overlap 0 0)) 0 found.old.items }
    ensures { OnOk result (IsListBefore design.now marks.now (kind_number (Fault.Overlap 0 0) + 1) 0 found.new.items) }
{
    let boxes = placed_boxes(alloc, design, marks)?;
    let mut rule = OnOneAnother { tests: 0, looks: 0 };
    let overlaps = pairs_in_bands(alloc, &boxes, &mut rule)?;
    for (a, b) in &overlaps {
        let first = boxes[*a as usize].component;
        let second = boxes[*b as usize].component;
        found.push(Fault::Overlap(first, second))?;
    }
    Ok(())
}

/// Keeps the first pair that a search hands it, and refuses it, by which the search ends.
#[derive(Drop)]
struct FirstPair {
    pair: Option<(u32, u32)>,
}

impl PairSink for FirstPair {
    ghost Takes = { λ before pair after. ⊥ };

    ghost room_of = { λ s. 2 ^ 32 };

    fn take(&mut self, pair: (u32, u32)) -> Result<(), AllocError> {
        self.pair = Some(pair);
        Err(AllocError)
    }
}

/// Whether two placed components share a unit square. It ends at the first two that do.
pub(crate) fn do_some_overlap<A: Allocator + Copy>(
    alloc: A,
    design: &Design<'_, A>,
) -> Result<bool, AllocError>
    ensures { IfOk result (λ overlap. IsTrue overlap ↔ DoSomeOverlap design.now) }
{
    let marks = all_marked(alloc, design)?;
    let boxes = placed_boxes(alloc, design, &marks)?;
    let mut rule = OnOneAnother { tests: 0, looks: 0 };
    let mut first = FirstPair { pair: None };
    match each_pair(alloc, &boxes, &mut rule, &mut first) {
        Ok(()) => Ok(false),
        Err(refusal) => {
            if has_pair(&boxes, &first) {
                return Ok(true);
            }
            Err(refusal)
        }
    }
}

/// Whether there is a pair, of two boxes that share a unit square.
fn has_pair(boxes: &[PlacedBox], first: &FirstPair) -> bool
    ensures { IsTrue result → HasPair boxes.now }
{
    match first.pair {
        Some((a, b)) => {
            let (a, b) = (a as usize, b as usize);
            a < b && b < boxes.len() && boxes[a].rect.overlaps(&boxes[b].rect)
        }
        None => false,
    }
}

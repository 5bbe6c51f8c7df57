//! An index of rectangles, which finds those near one.

ghost use Rattle.std.specs.Prelude.{◌≡◌, ◌<◌, ◌≤◌, ◌-◌, ◌^◌, ◌++◌, ◌∷◌, [], length, IfOk, OnErr};
ghost use Rattle.leg_sweep.specs.Near.{AreNear};
ghost use Rattle.leg_sweep.specs.Steps.Index.{IsIndex};

use crate::bounds::{Bounds, Window};
use crate::groups::grouped;
use crate::near::Near;
use crate::node::{Content, Node};
use leg_geom::Rect;
use std::alloc::{AllocError, Allocator};
use std::marker::Model;

/// How many rectangles are added before they are grouped.
const LOOSE: usize = 64;

/// Rectangles by their numbers, in the order in which they came, with what it takes to find those near one. Contracts see it as
/// their list.
///
/// The rectangles are sorted so that near ones are together, and grouped. What is added is by itself at first, and is
/// then grouped with as many of those before it as take no longer: so each is sorted anew a few times, and there are
/// few runs.
#[derive(Drop)]
pub struct BinIndex<A: Allocator> {
    rects: Vec<Rect, A>,
    nodes: Vec<Node, A>,
    cuts: Vec<Cut, A>,
}

/// Where a run of groups ends: the first `rects` rectangles have the first `nodes` nodes.
#[derive(Clone, Copy)]
pub(crate) struct Cut {
    pub(crate) rects: usize,
    pub(crate) nodes: usize,
}

impl<A: Allocator> Model for BinIndex<A> {
    ghost use Rattle.std.specs.Prelude.{List};
    ghost use Rattle.leg_geom.specs.Plane.{RectModel};
    ghost use Rattle.leg_sweep.specs.Steps.Index.{IsIndex};

    ghost Value = { List RectModel };

    ghost view = { λ index. index.rects.items };

    ghost invariant = { λ index. IsIndex index.rects.items index.nodes.items index.cuts.items };
}

impl<A: Allocator + Copy> BinIndex<A> {
    /// An index of these rectangles. It fails only when out of memory.
    pub fn build(alloc: A, rects: &[Rect]) -> Result<BinIndex<A>, AllocError>
        requires { length rects.now < 2 ^ 32 }
        ensures { IfOk result (λ index. index ≡ rects.now) }
    {
        let nodes = grouped(alloc, rects, 0)?;
        let cut = Cut {
            rects: rects.len(),
            nodes: nodes.len(),
        };
        let cuts = Vec::from_slice(alloc, &[cut])?;
        let rects = Vec::from_slice(alloc, rects)?;
        Ok(BinIndex { rects, nodes, cuts })
    }

    /// How many rectangles there are.
    pub fn len(&self) -> usize
        ensures is { result ≡ length self.now }
        ensures few { length self.now < 2 ^ 32 }
    {
        self.rects.len()
    }

    /// The numbers of the rectangles whose gaps from this one are at most the reach, both the x gap and the y gap: each at least
    /// once. It takes no memory.
    pub fn near(&self, rect: &Rect, reach: u32) -> Near<'_>
        ensures { AreNear self.now rect.now reach result }
    {
        Near::new(&self.rects, &self.nodes, Window::around(rect, reach))
    }

    /// Adds a rectangle, and answers its number. If an allocation fails the index is as it was.
    pub fn add(&mut self, rect: Rect) -> Result<u32, AllocError>
        requires { length self.old < 2 ^ 32 - 1 }
        ensures number { IfOk result (λ number. number ≡ length self.old) }
        ensures added { IfOk result (λ number. self.new ≡ self.old ++ rect ∷ []) }
        ensures unchanged { OnErr result (self.new ≡ self.old) }
    {
        self.group_if_loose()?;
        self.rects.reserve(1)?;
        self.nodes.reserve(1)?;
        let number = self.rects.len() as u32;
        let bounds = Bounds::around(&rect, 0);
        self.rects.push_reserved(rect);
        self.nodes.push_reserved(Node {
            bounds,
            content: Content::Rect(number),
        });
        Ok(number)
    }

    /// Groups what was added, where it has become much.
    fn group_if_loose(&mut self) -> Result<(), AllocError>
        ensures { self.new ≡ self.old }
    {
        let grouped_before = self.cuts[self.cuts.len() - 1].rects;
        if self.rects.len() - grouped_before < LOOSE {
            return Ok(());
        }
        group_rest(&self.rects, &mut self.nodes, &mut self.cuts)
    }
}

/// Groups the rectangles after the last cut that is kept.
fn group_rest<A: Allocator + Copy>(
    rects: &[Rect],
    nodes: &mut Vec<Node, A>,
    cuts: &mut Vec<Cut, A>,
) -> Result<(), AllocError>
    requires { IsIndex rects.now nodes.old.items cuts.old.items }
    ensures { IsIndex rects.now nodes.new.items cuts.new.items }
{
    let kept = kept_cuts(cuts, rects.len());
    let cut = cuts[kept - 1];
    let mut grouped = grouped(*nodes.allocator(), rects, cut.rects)?;
    nodes.reserve(grouped.len())?;
    cuts.reserve(1)?;
    nodes.truncate(cut.nodes);
    nodes.append(&mut grouped).unwrap();
    cuts.truncate(kept);
    cuts.push_reserved(Cut {
        rects: rects.len(),
        nodes: nodes.len(),
    });
    Ok(())
}

/// How many of the cuts stay where all rectangles after them are grouped: a run goes with those after it that are as
/// many together.
fn kept_cuts(cuts: &[Cut], rects: usize) -> usize
    requires { 0 < length cuts.now }
    ensures some { 0 < result }
    ensures few { result ≤ length cuts.now }
{
    let mut kept = cuts.len();
    while kept > 1 {
        let cut = cuts[kept - 1].rects;
        let run = cut.saturating_sub(cuts[kept - 2].rects);
        if run > rects.saturating_sub(cut) {
            return kept;
        }
        kept -= 1;
    }
    kept
}

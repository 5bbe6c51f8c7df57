//! A dive: a search depth first, from a node back to a start.

ghost use Rattle.std.specs.Prelude.{◌≡◌, ◌≤◌, ◌<◌, ◌+◌, ◌↔◌, ℕ, IsTrue, true, false, IfOk, IfSome, IfNone};
ghost use Rattle.leg_route_search.specs.Steps.Side.{opposite};
ghost use Rattle.leg_route_search.specs.Steps.SideSteps.{IsStepIn, IsStepTo};
ghost use Rattle.leg_route_search.specs.Steps.Dive.{IsStartIn, IsFarNode, IsFarFrom, AreTrueMarks, IsWalkFromStart};

use crate::graph::Graph;
use crate::mark::Mark;
use crate::marks::Marks;
use crate::side::opposite;
use leg_rules::Side;
use leg_rules::Side::{Above, Below, East, North, South, West};
use std::alloc::{AllocError, Allocator};

/// The nodes of an open walk of at most `left` steps from a start to the open node, where there is one: the one that enters each
/// node from the west where it can, and else from the east, the south, the north, below and above, in this order. Where there is
/// none, or none is found before `most` nodes are noted, the node is marked with how many steps each walk to it has at least.
///
/// It calls itself at most `left` times one within the other, so the caller keeps `left` small.
pub(crate) fn dive<G: Graph, A: Allocator + Copy>(
    alloc: A,
    graph: &G,
    node: u32,
    left: u32,
    most: usize,
    marks: &mut Marks<A>,
) -> Result<Option<Vec<u32, A>>, AllocError>
    requires within { node < G.size_of graph.now }
    requires is_open { G.OpenNode graph.now node }
    requires known { AreTrueMarks G.Graph graph.now marks.old }
    ensures found { IfOk result (λ walk. IfSome walk (λ nodes.
        IsWalkFromStart (G.OpenNode graph.now) (IsStepIn G.Graph graph.now) (IsStartIn G.Graph graph.now) left node nodes.items)) }
    ensures known { AreTrueMarks G.Graph graph.now marks.new }
{
    if is_start(graph, node) {
        return Ok(Some(Vec::from_slice(alloc, &[node])?));
    }
    let mut steps = u32::MAX;
    for side in [West, East, South, North, Below, Above] {
        let Some(from) = enter(graph, node, side, left, most, &mut steps, marks)? else {
            continue;
        };
        let walk = dive(alloc, graph, from, left - 1, most, marks)?;
        if let Some(mut nodes) = walk {
            nodes.push(node)?;
            return Ok(Some(nodes));
        }
        steps = steps.min(one_more(steps_left(graph, from, u32::MAX, marks)));
    }
    marks.set(node, Mark::Far { steps })?;
    Ok(None)
}

/// Whether the node is a start.
fn is_start<G: Graph>(graph: &G, node: u32) -> bool
    requires { node < G.size_of graph.now }
    ensures start { result ≡ true → IsStartIn G.Graph graph.now node }
    ensures other { result ≡ false → IsStartIn G.Graph graph.now node → ⊥ }
{
    graph.back_bound(node, 1) == 0
}

/// The open neighbour on this side, where a walk to it can have fewer than `left` steps, the step from it to the node is open and
/// fewer than `most` nodes are noted. Else `steps` falls to what a walk through it has at least. What is known is not asked.
fn enter<G: Graph, A: Allocator + Copy>(
    graph: &G,
    node: u32,
    side: Side,
    left: u32,
    most: usize,
    steps: &mut u32,
    marks: &mut Marks<A>,
) -> Result<Option<u32>, AllocError>
    requires within { node < G.size_of graph.now }
    requires known { AreTrueMarks G.Graph graph.now marks.old }
    ensures fewer { steps.new ≤ steps.old }
    ensures entered { IfOk result (λ from. IfSome from (λ from. (from < G.size_of graph.now) × (0 < left)
        × IsStepTo (G.IsBeside graph.now) (G.OpenStep graph.now) (opposite side) from node)) }
    ensures only { IfOk result (λ from. IfSome from (λ from. (last : ℕ) → G.IsBeside graph.now (opposite side) last node → last ≡ from)) }
    ensures is_open { IfOk result (λ from. IfSome from (G.OpenNode graph.now)) }
    ensures past { IfOk result (λ from. IfNone from (IsFarFrom (G.IsBeside graph.now) (G.OpenStep graph.now) (G.OpenNode graph.now)
        (IsStartIn G.Graph graph.now) steps.new node side)) }
    ensures known { AreTrueMarks G.Graph graph.now marks.new }
{
    let Some(from) = graph.beside(node, side) else {
        return Ok(None);
    };
    let least = steps_left(graph, from, one_more(left), marks);
    if least >= left || marks.noted() >= most {
        *steps = (*steps).min(one_more(least));
        return Ok(None);
    }
    if !graph.is_open_step(from, opposite(side)) {
        return Ok(None);
    }
    if !is_open(graph, from, least, marks)? {
        return Ok(None);
    }
    Ok(Some(from))
}

/// One more, or the greatest number where there is no more.
pub(crate) fn one_more(steps: u32) -> u32
    ensures { result ≤ steps + 1 }
{
    steps.saturating_add(1)
}

/// How many steps a walk from a start to the node has at least, as far as is known; where nothing is noted of the node and those
/// are more than `most`, as many as that.
pub(crate) fn steps_left<G: Graph, A: Allocator>(
    graph: &G,
    node: u32,
    most: u32,
    marks: &Marks<A>,
) -> u32
    requires within { node < G.size_of graph.now }
    requires known { AreTrueMarks G.Graph graph.now marks.now }
    ensures { IsFarNode (G.OpenNode graph.now) (IsStepIn G.Graph graph.now) (IsStartIn G.Graph graph.now) result node }
{
    match marks.mark(node) {
        Mark::Far { steps } => steps,
        Mark::Shut => u32::MAX,
        Mark::Unseen | Mark::Reached { .. } => graph.back_bound(node, most),
    }
}

/// Whether the node is open, to which a walk has at least this many steps. What is known is not asked, and what is asked is noted.
pub(crate) fn is_open<G: Graph, A: Allocator>(
    graph: &G,
    node: u32,
    steps: u32,
    marks: &mut Marks<A>,
) -> Result<bool, AllocError>
    requires within { node < G.size_of graph.now }
    requires known { AreTrueMarks G.Graph graph.now marks.old }
    requires far { IsFarNode (G.OpenNode graph.now) (IsStepIn G.Graph graph.now) (IsStartIn G.Graph graph.now) steps node }
    ensures is { IfOk result (λ is_open. IsTrue is_open ↔ G.OpenNode graph.now node) }
    ensures known { AreTrueMarks G.Graph graph.now marks.new }
{
    match marks.mark(node) {
        Mark::Far { .. } => return Ok(true),
        Mark::Shut => return Ok(false),
        Mark::Unseen | Mark::Reached { .. } => {}
    }
    let is_open = graph.is_open_node(node);
    if !is_open {
        marks.set(node, Mark::Shut)?;
        return Ok(false);
    }
    marks.set(node, Mark::Far { steps })?;
    Ok(true)
}

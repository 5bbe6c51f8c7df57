//! One level of a search: the nodes that are a step further than those before.

ghost use Rattle.std.specs.Prelude.{◌≡◌, ◌≤◌, ◌<◌, ◌+◌, ◌^◌, IsTrue, true, false, length, All, Contains, OnOk};
ghost use Rattle.leg_route_search.specs.Steps.SideSteps.{IsStepTo, IsStepIn};
ghost use Rattle.leg_route_search.specs.Steps.Spread.{IsSpread, IsEntered};

use crate::graph::Graph;
use crate::mark::Mark;
use crate::marks::Marks;
use leg_rules::Side;
use leg_rules::Side::{Above, Below, East, North, South, West};
use std::alloc::{AllocError, Allocator};

/// A level, and the limit of the search: a node is marked only where its level and the steps that are left at least come to
/// no more.
#[derive(Clone, Copy)]
pub(crate) struct Level {
    pub(crate) number: u32,
    pub(crate) limit: u64,
}

/// Tries each step from a node of the current level, and puts the nodes that it reaches into `next`. All steps to one side come
/// before those to the next one, so that a node is entered from the west where it can be, and else from the east, the south,
/// the north, below and above, in this order.
pub(crate) fn one_level<G: Graph, A: Allocator>(
    graph: &G,
    front: &[u32],
    level: Level,
    marks: &mut Marks<A>,
    next: &mut Vec<u32, A>,
    left_out: &mut bool,
) -> Result<(), AllocError>
    requires count { length marks.old ≡ G.size_of graph.now }
    requires within { All (λ a. a < G.size_of graph.now) front.now }
    ensures spread { OnOk result (IsSpread (G.OpenNode graph.now)
        (λ a b. Contains front.now a × IsStepIn G.Graph graph.now a b) (G.bound_of graph.now) level.limit level.number
        marks.old next.old.items left_out.old marks.new next.new.items left_out.new) }
    ensures count { length marks.new ≡ length marks.old }
{
    follow(graph, front, East, level, marks, next, left_out)?;
    follow(graph, front, West, level, marks, next, left_out)?;
    follow(graph, front, North, level, marks, next, left_out)?;
    follow(graph, front, South, level, marks, next, left_out)?;
    follow(graph, front, Above, level, marks, next, left_out)?;
    follow(graph, front, Below, level, marks, next, left_out)?;
    Ok(())
}

/// Tries the step to this side from each node of the current level.
fn follow<G: Graph, A: Allocator>(
    graph: &G,
    front: &[u32],
    side: Side,
    level: Level,
    marks: &mut Marks<A>,
    next: &mut Vec<u32, A>,
    left_out: &mut bool,
) -> Result<(), AllocError>
    requires count { length marks.old ≡ G.size_of graph.now }
    requires within { All (λ a. a < G.size_of graph.now) front.now }
    ensures spread { OnOk result (IsSpread (G.OpenNode graph.now)
        (λ a b. Contains front.now a × IsStepTo (G.IsBeside graph.now) (G.OpenStep graph.now) side a b) (G.bound_of graph.now) level.limit level.number
        marks.old next.old.items left_out.old marks.new next.new.items left_out.new) }
    ensures count { length marks.new ≡ length marks.old }
{
    for node in front {
        follow_one(graph, *node, side, level, marks, next, left_out)?;
    }
    Ok(())
}

/// Tries the step to this side of the node. The step is asked only towards a node that no search has seen, and that node only
/// where the step is open: so neither is asked twice.
fn follow_one<G: Graph, A: Allocator>(
    graph: &G,
    node: u32,
    side: Side,
    level: Level,
    marks: &mut Marks<A>,
    next: &mut Vec<u32, A>,
    left_out: &mut bool,
) -> Result<(), AllocError>
    requires count { length marks.old ≡ G.size_of graph.now }
    requires within { node < G.size_of graph.now }
    ensures spread { OnOk result (IsSpread (G.OpenNode graph.now)
        (λ a b. (a ≡ node) × IsStepTo (G.IsBeside graph.now) (G.OpenStep graph.now) side a b) (G.bound_of graph.now) level.limit level.number
        marks.old next.old.items left_out.old marks.new next.new.items left_out.new) }
    ensures count { length marks.new ≡ length marks.old }
{
    let Some(to) = graph.beside(node, side) else {
        return Ok(());
    };
    if !marks.is_unseen(to) {
        return Ok(());
    }
    if is_too_far(graph, to, level) {
        *left_out = true;
        return Ok(());
    }
    if !graph.is_open_step(node, side) {
        return Ok(());
    }
    let mark = Mark::Reached {
        level: level.number,
        from: node,
    };
    let is_open = graph.is_open_beyond(node, side, to);
    enter(to, is_open, mark, marks, next)?;
    Ok(())
}

/// The most steps that may be left and are told from more.
const MOST_LEFT: u32 = u32::MAX - 1;

/// Whether the node, at this level, is too far from the ends for the limit.
fn is_too_far<G: Graph>(graph: &G, node: u32, level: Level) -> bool
    requires { node < G.size_of graph.now }
    ensures far { result ≡ true → level.limit < level.number + G.bound_of graph.now node }
    ensures low { result ≡ true → level.limit < 2 ^ 33 }
    ensures near { result ≡ false → level.number + G.bound_of graph.now node ≤ level.limit }
{
    let number = u64::from(level.number);
    let left = level.limit.saturating_sub(number);
    let most = left.min(u64::from(MOST_LEFT)) as u32 + 1;
    number + u64::from(graph.bound(node, most)) > level.limit
}

/// Where the node is open, gives it the mark and puts it into `next`, and else shuts it.
pub(crate) fn enter<A: Allocator>(
    to: u32,
    is_open: bool,
    mark: Mark,
    marks: &mut Marks<A>,
    next: &mut Vec<u32, A>,
) -> Result<(), AllocError>
    requires within { to < length marks.old }
    ensures entered { OnOk result (IsEntered (IsTrue is_open) to mark marks.old next.old.items marks.new next.new.items) }
    ensures count { length marks.new ≡ length marks.old }
{
    if !is_open {
        marks.set(to, Mark::Shut)?;
        return Ok(());
    }
    marks.set(to, mark)?;
    next.push(to)?;
    Ok(())
}

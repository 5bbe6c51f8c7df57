//! The way back from an end.

ghost use Rattle.std.specs.Prelude.{ℕ, IfOk};
ghost use Rattle.leg_route_search.specs.Steps.Marks.{IsMark, IsAt};
ghost use Rattle.leg_route_search.specs.Steps.Back.{IsReached, AreEntered, IsWay};

use crate::mark::Mark;
use crate::marks::Marks;
use std::alloc::{AllocError, Allocator};

/// The nodes by which the node was reached, in the order of the walk. The graph is not asked for them.
pub(crate) fn way_to<A: Allocator>(
    alloc: A,
    marks: &Marks<A>,
    node: u32,
) -> Result<Vec<u32, A>, AllocError>
    requires entered { AreEntered marks.now }
    requires reached { IsReached marks.now node }
    ensures { IfOk result (λ nodes. IsWay marks.now node nodes.items) }
{
    let mut nodes = Vec::new(alloc);
    nodes.push(node)?;
    let mut first = node;
    let level = level_of(marks, node);
    'steps: for _ in 0..level {
        first = entered_from(marks, first);
        nodes.push(first)?;
    }
    nodes.reverse();
    Ok(nodes)
}

/// The level at which the node is reached.
fn level_of<A: Allocator>(marks: &Marks<A>, node: u32) -> u32
    requires { IsReached marks.now node }
    ensures { IsAt marks.now node result }
{
    match marks.mark(node) {
        Mark::Reached { level, .. } => level,
        Mark::Unseen | Mark::Shut | Mark::Far { .. } => unreachable!(),
    }
}

/// The node from which the node was entered.
fn entered_from<A: Allocator>(marks: &Marks<A>, node: u32) -> u32
    requires { IsReached marks.now node }
    ensures { (level : ℕ) × IsMark marks.now node (Mark.Reached level result) }
{
    match marks.mark(node) {
        Mark::Reached { from, .. } => from,
        Mark::Unseen | Mark::Shut | Mark::Far { .. } => unreachable!(),
    }
}

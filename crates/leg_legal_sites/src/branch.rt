//! Nodes of the tree on the way down.

ghost use Rattle.std.specs.Prelude.{◌⊎◌, ◌+◌, ◌*◌, ◌<◌, length};
ghost use Rattle.leg_legal_sites.specs.Steps.Branches.{IsLowerBranch};

use crate::bounds::Bounds;
use crate::reach::away;
use crate::row_parts::RowParts;
use leg_geom::Point;
use std::alloc::Allocator;

/// A node of the tree, and what is known on the way down to it of the free sites of the rows beneath.
#[derive(Clone, Copy)]
pub(crate) struct Branch {
    pub node: usize,
    /// The node whose list they have: the first on the way that has one, or this one where none above has.
    pub owner: usize,
    /// What bounds them.
    pub bounds: Bounds,
}

/// The two nodes below one, first the one that may be nearer to the start.
pub(crate) fn nearer_first<A: Allocator + Copy>(
    lists: &[Option<RowParts<A>>],
    nodes: &[Bounds],
    branch: &Branch,
    start: &Point,
) -> (Branch, Branch)
    requires there { 2 * branch.now.node + 1 < length nodes.now }
    requires owner { branch.now.owner < length lists.now }
    ensures { (IsLowerBranch lists.now nodes.now branch.now (2 * branch.now.node) result.0
        × IsLowerBranch lists.now nodes.now branch.now (2 * branch.now.node + 1) result.1)
        ⊎ (IsLowerBranch lists.now nodes.now branch.now (2 * branch.now.node + 1) result.0
        × IsLowerBranch lists.now nodes.now branch.now (2 * branch.now.node) result.1) }
{
    let left = below(lists, nodes, branch, 2 * branch.node);
    let right = below(lists, nodes, branch, 2 * branch.node + 1);
    if away(&right.bounds, start) < away(&left.bounds, start) {
        (right, left)
    } else {
        (left, right)
    }
}

/// One of them.
fn below<A: Allocator + Copy>(
    lists: &[Option<RowParts<A>>],
    nodes: &[Bounds],
    branch: &Branch,
    node: usize,
) -> Branch
    requires there { node < length nodes.now }
    requires owner { branch.now.owner < length lists.now }
    ensures { IsLowerBranch lists.now nodes.now branch.now node result }
{
    if lists[branch.owner].is_some() {
        return Branch {
            node,
            owner: branch.owner,
            bounds: nodes[node].within(&branch.bounds),
        };
    }
    Branch {
        node,
        owner: node,
        bounds: nodes[node],
    }
}

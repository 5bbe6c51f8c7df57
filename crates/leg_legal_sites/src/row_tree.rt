//! A tree over the rows in their order. Each of its nodes bounds the free sites of the rows beneath it.
//!
//! Its nodes are numbered from 1 on. Below node n are 2 n and 2 n + 1, and where there are as many rows as `order.len()`, the
//! leaf of the row at place k of the order is node `order.len() + k`.

ghost use Rattle.std.specs.Prelude.{◌*◌, ◌<◌, ◌≤◌, length, IfOk};
ghost use Rattle.leg_legal_sites.specs.Steps.RowOrder.{IsRowOrder};
ghost use Rattle.leg_legal_sites.specs.Steps.FreeListSharing.{row_lists};
ghost use Rattle.leg_legal_sites.specs.Steps.FreeLists.{AreInDie, DoBoundRow, DoFit};
ghost use Rattle.leg_legal_sites.specs.Steps.TreeOfRows.{AreNodes};
ghost use Rattle.leg_legal_sites.specs.Steps.RowTree.{AreLeavesUpTo, AreJoinedFrom};
ghost use Rattle.leg_legal_sites.specs.Steps.SharedLists.{own_list, AreLeafLists};

use crate::bounds::Bounds;
use crate::row_keys::RowKey;
use crate::row_parts::RowParts;
use leg_design_records::Design;
use std::alloc::{AllocError, Allocator};

/// The nodes of the tree, where each leaf has its own list.
pub(crate) fn nodes_of<A: Allocator + Copy>(
    alloc: A,
    design: &Design<'_, A>,
    order: &[RowKey],
    lists: &[Option<RowParts<A>>],
) -> Result<Vec<Bounds, A>, AllocError>
    requires order { IsRowOrder design.now.rows order.now }
    requires lists { AreLeafLists design.now order.now (length order.now) lists.now }
    ensures { IfOk result (λ nodes. AreNodes order.now (DoFit design.now (row_lists order.now lists.now)) nodes.items) }
{
    let mut nodes = with_leaves(alloc, design, order, lists)?;
    join_upward(nodes.as_mut_slice(), order.len());
    Ok(nodes)
}

/// The nodes of the tree, of which only the leaves are made.
fn with_leaves<A: Allocator + Copy>(
    alloc: A,
    design: &Design<'_, A>,
    order: &[RowKey],
    lists: &[Option<RowParts<A>>],
) -> Result<Vec<Bounds, A>, AllocError>
    requires order { IsRowOrder design.now.rows order.now }
    requires lists { AreLeafLists design.now order.now (length order.now) lists.now }
    ensures { IfOk result (λ nodes. AreLeavesUpTo order.now (DoFit design.now (row_lists order.now lists.now)) (length order.now) nodes.items) }
{
    let mut nodes = Vec::from_elem(alloc, Bounds::of_nothing(), order.len())?;
    for key in order {
        let leaf = nodes.len();
        nodes.push(bounds_at(design, lists, leaf, key.row))?;
    }
    Ok(nodes)
}

/// What bounds the free sites of the row of this number, which has the list of this node.
fn bounds_at<A: Allocator + Copy>(
    design: &Design<'_, A>,
    lists: &[Option<RowParts<A>>],
    node: usize,
    number: usize,
) -> Bounds
    requires there { number < length design.now.rows }
    requires node { node < length lists.now }
    requires inside { AreInDie design.now number (own_list lists.now node) }
    ensures { DoBoundRow design.now result number (own_list lists.now node) }
{
    let Some(list) = &lists[node] else {
        return Bounds::of_nothing();
    };
    bounds_of(design, number, list)
}

/// What bounds these free sites of the row of this number. (That a site has a height is known once it is asked.)
fn bounds_of<A: Allocator + Copy>(
    design: &Design<'_, A>,
    number: usize,
    sites: &RowParts<A>,
) -> Bounds
    requires there { number < length design.now.rows }
    requires inside { AreInDie design.now number sites.now }
    ensures { DoBoundRow design.now result number sites.now }
{
    let row = &design.rows()[number];
    let size = &design.library().sites()[row.site].size;
    let _height = size.height();
    Bounds::of_row(number, row, size, sites)
}

/// Makes the nodes that aren't leaves, from the last one on to the first, where there are so many leaves.
fn join_upward(nodes: &mut [Bounds], leaves: usize)
    requires { 2 * leaves ≤ length nodes.old }
    ensures { AreJoinedFrom leaves 1 nodes.old nodes.new }
{
    for node in (1..leaves).rev() {
        nodes[node] = nodes[2 * node].joined(&nodes[2 * node + 1]);
    }
}

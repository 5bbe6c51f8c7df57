//! Lists of free sites at the nodes of the tree over the rows. Rows whose free sites are the same have one list together, at the
//! node beneath which they are, until a box takes sites from some of them and not from the others.

ghost use Rattle.std.specs.Prelude.{◌≡◌, ℕ, ◌+◌, ◌*◌, ◌/◌, ◌<◌, ◌≤◌, length, None, get_or, slice_set, IsTrue, OnOk};
ghost use Rattle.leg_design_records.specs.Records.{DesignModel};
ghost use Rattle.leg_legal_sites.specs.Steps.FreeLists.{AreRowsOf};
ghost use Rattle.leg_legal_sites.specs.Steps.TreeOfRows.{IsLeafBeneath};
ghost use Rattle.leg_legal_sites.specs.Steps.FreeListSharing.{list_of_node, row_lists};
ghost use Rattle.leg_legal_sites.specs.Steps.SharedLists.{AreShared, HaveNoneAbove, HaveNoneBefore, IsShareable};

use crate::bounds::Bounds;
use crate::row_keys::RowKey;
use crate::row_parts::RowParts;
use std::alloc::{AllocError, Allocator};

/// The key of a row whose leaf lies beneath a node of the tree, or at it.
pub(crate) fn key_beneath(order: &[RowKey], node: usize) -> RowKey
    requires first { 1 ≤ node }
    requires there { node < 2 * length order.now }
    ensures { IsLeafBeneath order.now node result }
{
    let mut leaf = node;
    while leaf < order.len() {
        leaf *= 2;
    }
    order[leaf - order.len()]
}

/// The node whose list a node has: the highest one of those above it that has one, or it itself where none has. No node before
/// `highest` has a list, so none is looked at.
pub(crate) fn owner_of<A: Allocator + Copy>(
    lists: &[Option<RowParts<A>>],
    highest: usize,
    node: usize,
) -> usize
    requires none { HaveNoneBefore highest lists.now }
    requires first { 1 ≤ node }
    requires there { node < length lists.now }
    ensures within { result < length lists.now }
    ensures owner { get_or lists.now result None ≡ list_of_node lists.now node }
{
    let least = highest.max(1);
    let mut owner = node;
    let mut above = node / 2;
    while above >= least {
        if lists[above].is_some() {
            owner = above;
        }
        above /= 2;
    }
    owner
}

/// Whether no node above this one has a list, where none before `highest` has one.
pub(crate) fn is_alone<A: Allocator + Copy>(
    lists: &[Option<RowParts<A>>],
    highest: usize,
    node: usize,
) -> bool
    requires none { HaveNoneBefore highest lists.now }
    requires there { node < length lists.now }
    ensures { IsTrue result → list_of_node lists.now (node / 2) ≡ None }
{
    let least = highest.max(1);
    let mut above = node / 2;
    while above >= least {
        if lists[above].is_some() {
            return false;
        }
        above /= 2;
    }
    true
}

/// The first node from `highest` on that has a list, where none before has one; the first leaf where no node above the leaves has.
pub(crate) fn highest_from<A: Allocator + Copy>(
    lists: &[Option<RowParts<A>>],
    order: &[RowKey],
    highest: usize,
) -> usize
    requires count { length order.now ≤ length lists.now }
    requires none { HaveNoneBefore highest lists.now }
    ensures { HaveNoneBefore result lists.now }
{
    let mut node = highest;
    while node < order.len() {
        if lists[node].is_some() {
            return node;
        }
        node += 1;
    }
    node
}

/// Puts the lists of leaves together, where rows beneath one node have the same free sites.
pub(crate) fn share_upward<A: Allocator + Copy>(lists: &mut [Option<RowParts<A>>], order: &[RowKey])
    requires shared { AreShared order.now lists.old }
    requires alone { HaveNoneAbove order.now lists.old }
    ensures shared { AreShared order.now lists.new }
    ensures same { row_lists order.now lists.new ≡ row_lists order.now lists.old }
{
    for node in (1..order.len()).rev() {
        if is_shareable(lists, order, node) {
            share(lists, node);
        }
    }
}

/// Makes the list of the first node below one its own, and leaves both nodes below it without one.
fn share<A: Allocator + Copy>(lists: &mut [Option<RowParts<A>>], node: usize)
    requires there { node < length lists.old }
    requires left { 2 * node < length lists.old }
    requires right { 2 * node + 1 < length lists.old }
    ensures { lists.new ≡ slice_set (slice_set (slice_set lists.old (2 * node) None) node (get_or lists.old (2 * node) None)) (2 * node + 1) None }
{
    let list = lists[2 * node].take();
    lists[node] = list;
    lists[2 * node + 1] = None;
}

/// Whether the rows beneath a node are of one site, begin at one x and have the same free sites.
fn is_shareable<A: Allocator + Copy>(
    lists: &[Option<RowParts<A>>],
    order: &[RowKey],
    node: usize,
) -> bool
    requires shared { AreShared order.now lists.now }
    requires first { 1 ≤ node }
    requires there { node < length order.now }
    ensures { IsTrue result → IsShareable order.now lists.now node }
{
    let Some(left) = &lists[2 * node] else {
        return false;
    };
    let Some(right) = &lists[2 * node + 1] else {
        return false;
    };
    let a = key_beneath(order, 2 * node);
    let b = key_beneath(order, 2 * node + 1);
    a.x == b.x && a.site == b.site && left.is_same(right)
}

/// Gives the list of a node, if it has one, to both nodes below it, which are bounded by what bounds the node from then on. It
/// fails only when out of memory, and then the node keeps it.
pub(crate) fn hand_down<A: Allocator + Copy>(
    lists: &mut [Option<RowParts<A>>],
    nodes: &mut [Bounds],
    order: &[RowKey],
    node: usize,
) -> Result<(), AllocError>
    requires shared { AreShared order.now lists.old }
    requires first { 1 ≤ node }
    requires there { node < length order.now }
    requires left { 2 * node < length lists.old }
    requires right { 2 * node + 1 < length lists.old }
    requires nodes { length nodes.old ≡ 2 * length order.now }
    requires alone { list_of_node lists.old (node / 2) ≡ None }
    ensures shared { AreShared order.now lists.new }
    ensures same { row_lists order.now lists.new ≡ row_lists order.now lists.old }
    ensures rows { (design : DesignModel)
        → AreRowsOf design (record { lists = row_lists order.now lists.old; order = order.now; nodes = nodes.old })
        → AreRowsOf design (record { lists = row_lists order.now lists.old; order = order.now; nodes = nodes.new }) }
    ensures none { OnOk result (list_of_node lists.new node ≡ None) }
    ensures before { (highest : ℕ) → HaveNoneBefore highest lists.old → HaveNoneBefore highest lists.new }
{
    let Some(list) = &lists[node] else {
        return Ok(());
    };
    let copy = list.copied()?;
    lists[2 * node + 1] = Some(copy);
    let list = lists[node].take();
    lists[2 * node] = list;
    nodes[2 * node] = nodes[2 * node].within(&nodes[node]);
    nodes[2 * node + 1] = nodes[2 * node + 1].within(&nodes[node]);
    Ok(())
}

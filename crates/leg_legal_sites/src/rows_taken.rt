//! How the sites that a rectangle meets are taken from rows.

ghost use Rattle.std.specs.Prelude.{◌≡◌, ℕ, ◌*◌, ◌/◌, ◌≤◌, ◌<◌, [], length, None, is_some, unwrap_or, IsTrue, OnOk};
ghost use Rattle.leg_legal_sites.specs.Steps.FreeLists.{AreRowsOf};
ghost use Rattle.leg_lib_records.specs.Measure.{HasArea};
ghost use Rattle.leg_legal_sites.specs.declared.row_keys.RowKey.{RowKey};
ghost use Rattle.leg_legal_sites.specs.Steps.RowOrder.{IsRowOrder};
ghost use Rattle.leg_legal_sites.specs.Steps.TreeOfRows.{IsLeafBeneath};
ghost use Rattle.leg_legal_sites.specs.Steps.FreeListSharing.{list_of_node, row_lists};
ghost use Rattle.leg_legal_sites.specs.Steps.Bounds.{AreWithinBounds, DoBoundAlike, IsBeside};
ghost use Rattle.leg_legal_sites.specs.Steps.FreeRows.{AreTakenBeneath};
ghost use Rattle.leg_legal_sites.specs.Steps.Parts.{HasSpan};
ghost use Rattle.leg_legal_sites.specs.Steps.SharedLists.{AreShared, HaveNoneBefore, IsMetThroughout, LosesShared};

use crate::bounds::Bounds;
use crate::ends::Ends;
use crate::row_keys::RowKey;
use crate::row_parts::RowParts;
use crate::row_sites::sites_met;
use crate::shared_lists::{hand_down, key_beneath};
use leg_design_records::{Design, Row};
use leg_geom::Rect;
use leg_lib_records::Extent;
use std::alloc::{AllocError, Allocator};

/// Takes the sites that share a unit square with the rectangle away from those of the rows whose leaves lie beneath a node of
/// the tree, or at it, where no node above has a list.
pub(crate) fn take_beneath<A: Allocator + Copy>(
    lists: &mut [Option<RowParts<A>>],
    nodes: &mut [Bounds],
    order: &[RowKey],
    design: &Design<'_, A>,
    rect: &Rect,
    node: usize,
) -> Result<(), AllocError>
    requires rows { AreRowsOf design.now (record { lists = row_lists order.now lists.old; order = order.now; nodes = nodes.old }) }
    requires shared { AreShared order.now lists.old }
    requires first { 1 ≤ node }
    requires there { node < length nodes.old }
    requires alone { list_of_node lists.old (node / 2) ≡ None }
    ensures shared { AreShared order.now lists.new }
    ensures rows { OnOk result (AreRowsOf design.now (record { lists = row_lists order.now lists.new; order = order.now; nodes = nodes.new })) }
    ensures taken { OnOk result (AreTakenBeneath design.now rect.now order.now node (row_lists order.now lists.old) (row_lists order.now lists.new)) }
    ensures alone { OnOk result (list_of_node lists.new (node / 2) ≡ None) }
    ensures before { (highest : ℕ) → HaveNoneBefore highest lists.old → HaveNoneBefore highest lists.new }
{
    if is_beside(&nodes[node], rect) {
        return Ok(());
    }
    if is_met_throughout(lists, nodes, order, design, rect, node) {
        take_at(lists, nodes, order, design, rect, node)?;
        return Ok(());
    }
    hand_down(lists, nodes, order, node)?;
    take_beneath(lists, nodes, order, design, rect, 2 * node)?;
    take_beneath(lists, nodes, order, design, rect, 2 * node + 1)?;
    nodes[node] = nodes[2 * node].joined(&nodes[2 * node + 1]);
    Ok(())
}

/// Whether the rectangle lies beside all that is bounded.
fn is_beside(bounds: &Bounds, rect: &Rect) -> bool
    ensures { IsTrue result → IsBeside bounds.now rect.now }
{
    rect.y2() <= bounds.low
        || bounds.top <= rect.y1()
        || rect.x2() <= bounds.left
        || bounds.right <= rect.x1()
}

/// Whether the rows beneath a node lose the same sites: there is one row, or they have one list together and the rectangle
/// meets all of them along y.
fn is_met_throughout<A: Allocator + Copy>(
    lists: &[Option<RowParts<A>>],
    nodes: &[Bounds],
    order: &[RowKey],
    design: &Design<'_, A>,
    rect: &Rect,
    node: usize,
) -> bool
    requires rows { AreRowsOf design.now (record { lists = row_lists order.now lists.now; order = order.now; nodes = nodes.now }) }
    requires shared { AreShared order.now lists.now }
    requires first { 1 ≤ node }
    requires there { node < length nodes.now }
    requires list { node < length lists.now }
    ensures met { IsTrue result → IsMetThroughout design.now rect.now order.now lists.now nodes.now node }
    ensures inner { length order.now ≤ node → IsTrue result }
{
    if node >= order.len() {
        return true;
    }
    if lists[node].is_none() {
        return false;
    }
    let row = &design.rows()[row_beneath(design, order, node)];
    let height = design.library().sites()[row.site].size.height();
    let bounds = &nodes[node];
    bounds.high < rect.y2() && rect.y1() - height < bounds.low
}

/// The number of a row whose leaf lies beneath a node of the tree, or at it.
fn row_beneath<A: Allocator + Copy>(design: &Design<'_, A>, order: &[RowKey], node: usize) -> usize
    requires order { IsRowOrder design.now.rows order.now }
    requires first { 1 ≤ node }
    requires there { node < 2 * length order.now }
    ensures within { result < length design.now.rows }
    ensures leaf { (key : RowKey) × IsLeafBeneath order.now node key × (key.row ≡ result) }
{
    key_beneath(order, node).row
}

/// Takes the sites away from the list of a node, and bounds what is left of it. Returns whether that may be bounded otherwise than
/// before.
#[inline(always)]
pub(crate) fn take_at<A: Allocator + Copy>(
    lists: &mut [Option<RowParts<A>>],
    nodes: &mut [Bounds],
    order: &[RowKey],
    design: &Design<'_, A>,
    rect: &Rect,
    node: usize,
) -> Result<bool, AllocError>
    requires rows { AreRowsOf design.now (record { lists = row_lists order.now lists.old; order = order.now; nodes = nodes.old }) }
    requires shared { AreShared order.now lists.old }
    requires first { 1 ≤ node }
    requires there { node < length nodes.old }
    requires list { node < length lists.old }
    requires alone { list_of_node lists.old (node / 2) ≡ None }
    requires met { IsMetThroughout design.now rect.now order.now lists.old nodes.old node }
    ensures shared { AreShared order.now lists.new }
    ensures rows { OnOk result (AreRowsOf design.now (record { lists = row_lists order.now lists.new; order = order.now; nodes = nodes.new })) }
    ensures taken { OnOk result (AreTakenBeneath design.now rect.now order.now node (row_lists order.now lists.old) (row_lists order.now lists.new)) }
    ensures alone { OnOk result (list_of_node lists.new (node / 2) ≡ None) }
    ensures before { (highest : ℕ) → HaveNoneBefore highest lists.old → HaveNoneBefore highest lists.new }
{
    let row = &design.rows()[row_beneath(design, order, node)];
    let size = &design.library().sites()[row.site].size;
    let _height = size.height();
    let ends = ends_of_list(&lists[node]);
    take_from_list(&mut lists[node], row, size, rect)?;
    if ends == ends_of_list(&lists[node]) {
        return Ok(false);
    }
    nodes[node] = bounds_of_list(&lists[node], row, size, &nodes[node]);
    Ok(true)
}

/// The ends of the free sites of a list, if any is free.
fn ends_of_list<A: Allocator + Copy>(list: &Option<RowParts<A>>) -> Option<Ends>
    ensures { HasSpan (unwrap_or list.now []) result }
{
    match list {
        Some(sites) => sites.ends(),
        None => None,
    }
}

/// Takes the sites that share a unit square with the rectangle away from those of a list, where they are those of this row.
#[inline(always)]
fn take_from_list<A: Allocator + Copy>(
    list: &mut Option<RowParts<A>>,
    row: &Row<'_>,
    size: &Extent,
    rect: &Rect,
) -> Result<(), AllocError>
    ensures kept { is_some list.new ≡ is_some list.old }
    ensures taken { OnOk result (LosesShared rect.now row.now size.now (unwrap_or list.old []) (unwrap_or list.new [])) }
{
    match list {
        Some(sites) => {
            let met = sites_met(row, size, rect);
            sites.take(met.from, met.end)
        }
        None => Ok(()),
    }
}

/// What bounds the free sites of a list, which the rows that these numbers bound have together, where they begin where this
/// row does.
fn bounds_of_list<A: Allocator + Copy>(
    list: &Option<RowParts<A>>,
    row: &Row<'_>,
    size: &Extent,
    bounds: &Bounds,
) -> Bounds
    requires area { HasArea size.now }
    requires within { AreWithinBounds row.now size.now (unwrap_or list.now []) }
    ensures { DoBoundAlike bounds.now row.now size.now (unwrap_or list.now []) result }
{
    match list {
        Some(sites) => bounds.with_sites(row, size, sites),
        None => Bounds::of_nothing(),
    }
}

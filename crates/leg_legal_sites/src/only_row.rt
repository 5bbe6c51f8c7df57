//! How the sites that a rectangle meets are taken from the only row that it meets, as those of a component that is placed in a
//! row, and else from rows by the tree.

ghost use Rattle.std.specs.Prelude.{◌≡◌, ◌*◌, ◌<◌, ◌≤◌, ◌≤ℤ◌, ℕ, List, Some, length, slice_get, IsTrue, IfSome, OnOk};
ghost use Rattle.leg_geom.specs.Plane.{IsCoordinate};
ghost use Rattle.leg_design_records.specs.Records.{DesignModel};
ghost use Rattle.leg_legal_sites.specs.declared.stretch.Stretch.{Stretch};
ghost use Rattle.leg_legal_sites.specs.declared.row_keys.RowKey.{RowKey};
ghost use Rattle.leg_legal_sites.specs.Steps.FreeLists.{AreRowsOf};
ghost use Rattle.leg_legal_sites.specs.Steps.RowOrder.{IsRowOrder};
ghost use Rattle.leg_legal_sites.specs.Steps.FreeListSharing.{row_lists};
ghost use Rattle.leg_legal_sites.specs.Steps.FreeRows.{AreTakenBeneath};
ghost use Rattle.leg_legal_sites.specs.Steps.OnlyRow.{DoRise, AreAllSoHigh, IsOnlyMet};
ghost use Rattle.leg_legal_sites.specs.Steps.SharedLists.{AreShared, HaveNoneBefore};

use crate::bounds::Bounds;
use crate::row_keys::RowKey;
use crate::row_parts::RowParts;
use crate::rows_taken::{take_at, take_beneath};
use crate::shared_lists::is_alone;
use leg_design_records::Design;
use leg_geom::Rect;
use std::alloc::{AllocError, Allocator};

/// Takes the sites that share a unit square with the rectangle away from those of each row. No node before `highest` has a list.
pub(crate) fn take_from_rows<A: Allocator + Copy>(
    lists: &mut [Option<RowParts<A>>],
    nodes: &mut [Bounds],
    order: &[RowKey],
    highest: usize,
    design: &Design<'_, A>,
    rect: &Rect,
) -> Result<(), AllocError>
    requires none { HaveNoneBefore highest lists.old }
    requires rows { AreRowsOf design.now (record { lists = row_lists order.now lists.old; order = order.now; nodes = nodes.old }) }
    requires shared { AreShared order.now lists.old }
    requires some { 1 ≤ length order.now }
    ensures shared { AreShared order.now lists.new }
    ensures rows { OnOk result (AreRowsOf design.now (record { lists = row_lists order.now lists.new; order = order.now; nodes = nodes.new })) }
    ensures taken { OnOk result (AreTakenBeneath design.now rect.now order.now 1 (row_lists order.now lists.old) (row_lists order.now lists.new)) }
    ensures none { HaveNoneBefore highest lists.new }
{
    let Some(height) = height_of_all(design, order) else {
        return take_beneath(lists, nodes, order, design, rect, 1);
    };
    let Some(place) = only_met(order, height, rect) else {
        return take_beneath(lists, nodes, order, design, rect, 1);
    };
    if !is_alone(lists, highest, order.len() + place) {
        return take_beneath(lists, nodes, order, design, rect, 1);
    }
    let is_bounded_otherwise = take_at(lists, nodes, order, design, rect, order.len() + place)?;
    if !is_bounded_otherwise {
        return Ok(());
    }
    join_above(nodes, order, (order.len() + place) / 2);
    Ok(())
}

/// How high the sites of all rows are, if all rows are of one site.
fn height_of_all<A: Allocator + Copy>(design: &Design<'_, A>, order: &[RowKey]) -> Option<i64>
    requires order { IsRowOrder design.now.rows order.now }
    requires some { 1 ≤ length order.now }
    ensures { IfSome result (AreAllSoHigh design.now order.now) }
{
    if order[0].site != order[order.len() - 1].site {
        return None;
    }
    let row = &design.rows()[order[0].row];
    Some(design.library().sites()[row.site].size.height())
}

/// The place of the only row that the rectangle meets along y, of rows that are so high, if it is the only one.
fn only_met(order: &[RowKey], height: i64, rect: &Rect) -> Option<usize>
    requires height { IsCoordinate height }
    requires rise { DoRise order.now }
    ensures { IfSome result (IsOnlyMet rect.now order.now height) }
{
    let place = first_above(order, rect.y1() - height);
    if place >= order.len() {
        return None;
    }
    if !is_at_or_above(order, place + 1, rect.y2()) {
        return None;
    }
    Some(place)
}

/// The place of the first row above this y.
fn first_above(order: &[RowKey], y: i64) -> usize
    requires { DoRise order.now }
    ensures { (k : ℕ) (key : RowKey) → k < result → slice_get order.now k ≡ Some key → key.y ≤ℤ y }
{
    order.partition_point(|key| key.y <= y)
}

/// Whether the row at this place of the order, if there is one, lies at this y or above it.
fn is_at_or_above(order: &[RowKey], place: usize, y: i64) -> bool
    ensures { IsTrue result → (key : RowKey) → slice_get order.now place ≡ Some key → y ≤ℤ key.y }
{
    if place >= order.len() {
        return true;
    }
    y <= order[place].y
}

/// Joins this node and those above it anew of the two below each, until one is as it was.
fn join_above(nodes: &mut [Bounds], order: &[RowKey], node: usize)
    requires there { node < length order.now }
    requires count { length nodes.old ≡ 2 * length order.now }
    ensures { (design : DesignModel) (lists : List (List Stretch))
        → AreRowsOf design (record { lists = lists; order = order.now; nodes = nodes.old })
        → AreRowsOf design (record { lists = lists; order = order.now; nodes = nodes.new }) }
{
    let mut above = node;
    while above > 0 {
        let joined = nodes[2 * above].joined(&nodes[2 * above + 1]);
        if joined == nodes[above] {
            return;
        }
        nodes[above] = joined;
        above /= 2;
    }
}

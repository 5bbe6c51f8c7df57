//! The best free position of a component.

ghost use Rattle.std.specs.Prelude.{◌≡◌, ◌+◌, ◌*◌, ◌<◌, ◌≤◌, ◌≤ℤ◌, pos, List, [], None, Some, length, get_or, slice_get, unwrap_or};
ghost use Rattle.leg_geom.specs.Gap.{apart};
ghost use Rattle.leg_geom.specs.declared.limits.TheConstants.{COORDINATE_LIMIT};
ghost use Rattle.leg_geom.specs.Plane.{IsCoordinate};
ghost use Rattle.leg_design_records.specs.declared.records.Row.{Row};
ghost use Rattle.leg_legal_sites.specs.declared.stretch.Stretch.{Stretch};
ghost use Rattle.leg_legal_sites.specs.Steps.BestPosition.{AreReady, IsBestOf};
ghost use Rattle.leg_legal_sites.specs.Steps.FreeLists.{AreRowsOf, IsOfItsSite};
ghost use Rattle.leg_legal_sites.specs.Steps.RowOrder.{IsRowOrder};
ghost use Rattle.leg_legal_sites.specs.Steps.FreeListSharing.{list_of_node, row_lists};
ghost use Rattle.leg_legal_sites.specs.Steps.SharedLists.{HaveNoneBefore};
ghost use Rattle.leg_legal_sites.specs.Steps.Nearest.{BeginWithin};
ghost use Rattle.leg_legal_sites.specs.Steps.RowPositions.{IsCandidateOf, IsBestOrBeneath};
ghost use Rattle.leg_legal_sites.specs.Steps.Branches.{IsBranch};

use crate::bounds::Bounds;
use crate::branch::{Branch, nearer_first};
use crate::candidate::{Wanted, better, is_turned};
use crate::nearest::{Pitch, nearest, x_away};
use crate::reach::are_no_better;
use crate::row_keys::RowKey;
use crate::row_parts::RowParts;
use crate::shared_lists::owner_of;
use leg_design_records::{Design, Row};
use leg_rules::Candidate;
use std::alloc::Allocator;

/// The better of a position and of the best free one in the rows whose leaves lie beneath a node of the tree, or at it. (That the
/// rows are of sites that there are is known once they are asked for.)
pub(crate) fn best_beneath<A: Allocator + Copy>(
    design: &Design<'_, A>,
    lists: &[Option<RowParts<A>>],
    order: &[RowKey],
    nodes: &[Bounds],
    wanted: &Wanted,
    branch: &Branch,
    best: Option<Candidate>,
) -> Option<Candidate>
    requires rows { AreRowsOf design.now (record { lists = row_lists order.now lists.now; order = order.now; nodes = nodes.now }) }
    requires ready { AreReady design.now.rows (row_lists order.now lists.now) wanted.now }
    requires sized { IsOfItsSite design.now wanted.now }
    requires count { length lists.now ≡ 2 * length order.now }
    requires branch { IsBranch design.now order.now lists.now branch.now }
    ensures { IsBestOf (IsBestOrBeneath design.now.rows order.now (row_lists order.now lists.now) wanted.now branch.now.node best) result }
{
    let _rows = design.rows();
    if are_no_better(&branch.bounds, wanted, &best) {
        return best;
    }
    if branch.node >= order.len() {
        let place = branch.node - order.len();
        return best_at_leaf(design, lists, order, wanted, place, branch.owner, best);
    }
    let (near, far) = nearer_first(lists, nodes, branch, &wanted.start);
    let best = best_beneath(design, lists, order, nodes, wanted, &near, best);
    best_beneath(design, lists, order, nodes, wanted, &far, best)
}

/// The better of a position and of the best free one in the row at this place of the order. No node before `highest` has a list.
pub(crate) fn best_at<A: Allocator + Copy>(
    design: &Design<'_, A>,
    lists: &[Option<RowParts<A>>],
    order: &[RowKey],
    nodes: &[Bounds],
    highest: usize,
    wanted: &Wanted,
    place: usize,
    best: Option<Candidate>,
) -> Option<Candidate>
    requires rows { AreRowsOf design.now (record { lists = row_lists order.now lists.now; order = order.now; nodes = nodes.now }) }
    requires ready { AreReady design.now.rows (row_lists order.now lists.now) wanted.now }
    requires sized { IsOfItsSite design.now wanted.now }
    requires count { length lists.now ≡ 2 * length order.now }
    requires none { HaveNoneBefore highest lists.now }
    requires there { place < length order.now }
    ensures { IsBestOf (IsBestOrBeneath design.now.rows order.now (row_lists order.now lists.now) wanted.now (length order.now + place) best) result }
{
    let _rows = design.rows();
    let leaf = order.len() + place;
    if are_no_better(&nodes[leaf], wanted, &best) {
        return best;
    }
    let owner = owner_of(lists, highest, leaf);
    best_at_leaf(design, lists, order, wanted, place, owner, best)
}

/// The same, where the row has the list of this node.
#[inline(always)]
fn best_at_leaf<A: Allocator + Copy>(
    design: &Design<'_, A>,
    lists: &[Option<RowParts<A>>],
    order: &[RowKey],
    wanted: &Wanted,
    place: usize,
    owner: usize,
    best: Option<Candidate>,
) -> Option<Candidate>
    requires order { IsRowOrder design.now.rows order.now }
    requires ready { AreReady design.now.rows (row_lists order.now lists.now) wanted.now }
    requires sized { IsOfItsSite design.now wanted.now }
    requires there { place < length order.now }
    requires within { owner < length lists.now }
    requires owner { get_or lists.now owner None ≡ list_of_node lists.now (length order.now + place) }
    ensures { IsBestOf (IsBestOrBeneath design.now.rows order.now (row_lists order.now lists.now) wanted.now (length order.now + place) best) result }
{
    let number = order[place].row;
    let found = best_of_row(&design.rows()[number], &lists[owner], wanted, number);
    better(best, found)
}

/// The best free position in the row of this number, which has this list of free sites, or none.
#[inline(always)]
fn best_of_row<A: Allocator + Copy>(
    row: &Row<'_>,
    list: &Option<RowParts<A>>,
    wanted: &Wanted,
    number: usize,
) -> Option<Candidate>
    requires some { 1 ≤ wanted.now.many }
    requires wide { pos 1 ≤ℤ wanted.now.site_width }
    requires within { row.now.site ≡ wanted.now.site
        → BeginWithin (record { left = row.now.at.x; width = wanted.now.site_width; start = wanted.now.start.x }) (unwrap_or list.now []) }
    ensures { (rows : List Row) (free : List (List Stretch))
        → slice_get rows number ≡ Some row.now → slice_get free number ≡ Some (unwrap_or list.now [])
        → IsBestOf (IsCandidateOf rows free wanted.now number) result }
{
    let Some(sites) = list else {
        return None;
    };
    if row.site != wanted.site {
        return None;
    }
    let pitch = pitch_of(row, wanted);
    let first = nearest(sites, wanted.many, &pitch)?;
    Some(Candidate {
        distance: x_away(&pitch, first) + y_away(row, wanted),
        turned: is_turned(row.orient, wanted),
        row: number,
        first,
    })
}

/// Where the sites of a row begin, and where the component starts.
fn pitch_of(row: &Row<'_>, wanted: &Wanted) -> Pitch
    ensures is { result ≡ record { left = row.now.at.x; width = wanted.now.site_width; start = wanted.now.start.x } }
    ensures left { IsCoordinate row.now.at.x }
    ensures start { IsCoordinate wanted.now.start.x }
{
    Pitch {
        left: row.at.x(),
        width: wanted.site_width,
        start: wanted.start.x(),
    }
}

/// How far along y a row is from the start.
fn y_away(row: &Row<'_>, wanted: &Wanted) -> u64
    ensures is { result ≡ apart row.now.at.y wanted.now.start.y }
    ensures within { result ≤ 2 * COORDINATE_LIMIT }
{
    row.at.y().abs_diff(wanted.start.y())
}

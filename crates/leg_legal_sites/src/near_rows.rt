//! The rows nearest to a component's start, which are looked at outward from it, before the tree is.

ghost use Rattle.std.specs.Prelude.{◌≡◌, ◌*◌, ◌-◌, ◌<◌, ◌≤◌, None, Some, length, slice_get, AllPairs, IsTrue, IsSome, IfSome};
ghost use Rattle.leg_legal_sites.specs.declared.row_keys.RowKey.{RowKey};
ghost use Rattle.leg_legal_sites.specs.Steps.BestPosition.{AreReady, IsBestOf, IsCandidate};
ghost use Rattle.leg_legal_sites.specs.Steps.FreeLists.{AreRowsOf, IsOfItsSite};
ghost use Rattle.leg_legal_sites.specs.Steps.RowOrder.{IsBefore};
ghost use Rattle.leg_legal_sites.specs.Steps.FreeListSharing.{row_lists};
ghost use Rattle.leg_legal_sites.specs.Steps.SharedLists.{HaveNoneBefore};
ghost use Rattle.leg_legal_sites.specs.Steps.RowPositions.{IsSplitAt, IsNearerThan, IsRowBeyond, IsNextPlace};

use crate::bounds::Bounds;
use crate::candidate::Wanted;
use crate::row_keys::RowKey;
use crate::row_parts::RowParts;
use crate::row_search::best_at;
use leg_design_records::Design;
use leg_rules::Candidate;
use std::alloc::Allocator;

/// How many rows are looked at one by one at most.
const NEAR_LIMIT: usize = 48;

/// How many rows may stand at one height where they are looked at one by one.
const ROWS_AT_ONE_HEIGHT: usize = 4;

/// The best free position of a component in the rows nearest to its start, and whether it is known to be the best one of all.
#[derive(Clone, Copy)]
pub(crate) struct Nearby {
    pub best: Option<Candidate>,
    pub is_best: bool,
}

/// The best free position in the rows that lie nearest to the start along y. No node before `highest` has a list.
pub(crate) fn best_nearby<A: Allocator + Copy>(
    design: &Design<'_, A>,
    lists: &[Option<RowParts<A>>],
    order: &[RowKey],
    nodes: &[Bounds],
    highest: usize,
    wanted: &Wanted,
) -> Nearby
    requires none { HaveNoneBefore highest lists.now }
    requires rows { AreRowsOf design.now (record { lists = row_lists order.now lists.now; order = order.now; nodes = nodes.now }) }
    requires ready { AreReady design.now.rows (row_lists order.now lists.now) wanted.now }
    requires sized { IsOfItsSite design.now wanted.now }
    requires count { length lists.now ≡ 2 * length order.now }
    ensures found { IfSome result.best (IsCandidate design.now.rows (row_lists order.now lists.now) wanted.now) }
    ensures all { IsTrue result.is_best → IsBestOf (IsCandidate design.now.rows (row_lists order.now lists.now) wanted.now) result.best }
{
    let mut low = first_at(order, wanted);
    let mut high = low;
    let mut best = None;
    for _ in 0..rows_to_look_at(order, low) {
        let Some(place) = next_place(order, low, high, wanted, &best) else {
            return Nearby {
                best,
                is_best: true,
            };
        };
        best = best_at(design, lists, order, nodes, highest, wanted, place, best);
        if place < low {
            low = place;
        } else {
            high = place + 1;
        }
    }
    Nearby {
        best,
        is_best: false,
    }
}

/// The place in the order of the first row of the component's site that isn't below the start.
fn first_at(order: &[RowKey], wanted: &Wanted) -> usize
    requires { AllPairs IsBefore order.now }
    ensures { IsSplitAt order.now wanted.now result result }
{
    order.partition_point(|key| key.is_lower(wanted))
}

/// How many rows are looked at one by one: none where more than a few stand at one height from this place on.
fn rows_to_look_at(order: &[RowKey], place: usize) -> usize
    requires { place ≤ length order.now }
{
    let end = place + ROWS_AT_ONE_HEIGHT;
    if end < order.len() && order[place].y == order[end].y {
        0
    } else {
        NEAR_LIMIT
    }
}

/// The nearer one of the places before `low` and from `high` on whose rows may have a better position than the best one so far.
fn next_place(
    order: &[RowKey],
    low: usize,
    high: usize,
    wanted: &Wanted,
    best: &Option<Candidate>,
) -> Option<usize>
    requires in_order { low ≤ high }
    requires within { high ≤ length order.now }
    ensures { IsNextPlace order.now wanted.now best.now low high result }
{
    let below = reach_before(order, low, wanted, best);
    let above = reach_at(order, high, wanted, best);
    let Some(down) = below else {
        return if above.is_some() { Some(high) } else { None };
    };
    match above {
        Some(up) if up < down => Some(high),
        _ => Some(low - 1),
    }
}

/// The reach of the row before a place of the order, if there is one.
fn reach_before(
    order: &[RowKey],
    end: usize,
    wanted: &Wanted,
    best: &Option<Candidate>,
) -> Option<u64>
    requires { end ≤ length order.now }
    ensures none { result ≡ None → (key : RowKey) → 1 ≤ end → slice_get order.now (end - 1) ≡ Some key → IsRowBeyond wanted.now best.now key }
    ensures some { IsSome result → 1 ≤ end }
{
    if end == 0 {
        return None;
    }
    reach_of(&order[end - 1], wanted, best)
}

/// The reach of the row at a place of the order, if there is one.
fn reach_at(
    order: &[RowKey],
    place: usize,
    wanted: &Wanted,
    best: &Option<Candidate>,
) -> Option<u64>
    ensures none { result ≡ None → (key : RowKey) → slice_get order.now place ≡ Some key → IsRowBeyond wanted.now best.now key }
    ensures some { IsSome result → place < length order.now }
{
    if place >= order.len() {
        return None;
    }
    reach_of(&order[place], wanted, best)
}

/// How far along y a row is from the start, if it may have a better position than the best one so far.
fn reach_of(key: &RowKey, wanted: &Wanted, best: &Option<Candidate>) -> Option<u64>
    ensures { result ≡ None → IsRowBeyond wanted.now best.now key.now }
{
    if key.site != wanted.site {
        return None;
    }
    let away = key.y.abs_diff(wanted.start.y());
    if is_nearer_than(best, away) {
        return None;
    }
    Some(away)
}

/// Whether there is a best position so far, and it is nearer than this.
fn is_nearer_than(best: &Option<Candidate>, away: u64) -> bool
    ensures { IsTrue result → IsNearerThan best.now away }
{
    match best {
        Some(best) => best.distance < away,
        None => false,
    }
}

//! How near to a component's start the free sites of some rows may be.

ghost use Rattle.std.specs.Prelude.{◌+◌, ◌≤◌, ◌≤ℤ◌, ◌+ℤ◌, ℤ, IsTrue};
ghost use Rattle.leg_geom.specs.Gap.{apart};
ghost use Rattle.leg_legal_sites.specs.Steps.Bounds.{IsWithinReach, HasNone, IsBetterThan, AreNoBetter};

use crate::bounds::Bounds;
use crate::candidate::Wanted;
use leg_geom::Point;
use leg_rules::Candidate;

/// How far along x the sites are from the start at least.
fn x_gap(bounds: &Bounds, start: &Point) -> u64
    ensures { (x : ℤ) → bounds.now.left ≤ℤ x → x ≤ℤ bounds.now.right → result ≤ apart x start.now.x }
{
    let x = start.x();
    if x < bounds.left {
        bounds.left.abs_diff(x)
    } else if bounds.right < x {
        x.abs_diff(bounds.right)
    } else {
        0
    }
}

/// How far along y they are at least.
fn y_gap(bounds: &Bounds, start: &Point) -> u64
    ensures { (y : ℤ) → bounds.now.low ≤ℤ y → y ≤ℤ bounds.now.high → result ≤ apart y start.now.y }
{
    let y = start.y();
    if y < bounds.low {
        bounds.low.abs_diff(y)
    } else if bounds.high < y {
        y.abs_diff(bounds.high)
    } else {
        0
    }
}

/// How far they are at least where they lie above and to the right of the start.
fn corner_gap(bounds: &Bounds, start: &Point) -> u64
    ensures { (x y : ℤ) → bounds.now.corner ≤ℤ (x +ℤ y) → result ≤ apart x start.now.x + apart y start.now.y }
{
    let sum = start.x() + start.y();
    if sum < bounds.corner {
        bounds.corner.abs_diff(sum)
    } else {
        0
    }
}

/// How far the sites are from the start at least, along both axes together.
pub(crate) fn away(bounds: &Bounds, start: &Point) -> u64
    ensures { IsWithinReach bounds.now start.now result }
{
    x_gap(bounds, start)
        .saturating_add(y_gap(bounds, start))
        .max(corner_gap(bounds, start))
}

/// Whether no row has as many consecutive free sites of the component's site as it takes.
fn has_none(bounds: &Bounds, wanted: &Wanted) -> bool
    ensures { IsTrue result → HasNone bounds.now wanted.now }
{
    bounds.longest < wanted.many
        || wanted.site < bounds.least_site
        || bounds.most_site < wanted.site
}

/// Whether a position is better than each that is this far from the start, in a row of this number or a higher one.
fn is_better_than(best: &Candidate, far: u64, row: usize) -> bool
    ensures { IsTrue result → IsBetterThan best.now far row }
{
    best.distance < far || best.distance == far && !best.turned && best.row < row
}

/// Whether it is known of the free sites that none is a better position than the best one so far.
pub(crate) fn are_no_better(bounds: &Bounds, wanted: &Wanted, best: &Option<Candidate>) -> bool
    ensures { IsTrue result → AreNoBetter bounds.now wanted.now best.now }
{
    if has_none(bounds, wanted) {
        return true;
    }
    match best {
        Some(best) => is_better_than(best, away(bounds, &wanted.start), bounds.least_row),
        None => false,
    }
}

//! The free sites of one row that are nearest to a component's start.

ghost use Rattle.std.specs.Prelude.{◌≡◌, ◌*◌, ◌≤◌};
ghost use Rattle.leg_geom.specs.declared.limits.TheConstants.{COORDINATE_LIMIT};
ghost use Rattle.leg_geom.specs.Plane.{IsCoordinate};
ghost use Rattle.leg_legal_sites.specs.Steps.Stretches.{AreFreeSites};
ghost use Rattle.leg_legal_sites.specs.Steps.Nearest.{IsPitch, BeginWithin, IsValley, IsNearest, site_x, x_away};

use crate::row_parts::RowParts;
use std::alloc::Allocator;

/// Where the sites of a row begin along x, and where a component starts.
#[derive(Clone, Copy)]
pub(crate) struct Pitch {
    /// The left edge of the row.
    pub left: i64,
    /// The width of a site.
    pub width: i64,
    /// The x of the component's start.
    pub start: i64,
}

/// The first of this many consecutive free sites that is nearest to the start, the lower of two that are as near.
#[inline(always)]
pub(crate) fn nearest<A: Allocator>(sites: &RowParts<A>, many: u64, pitch: &Pitch) -> Option<u64>
    requires some { 1 ≤ many }
    requires pitch { IsPitch pitch.now }
    requires within { BeginWithin pitch.now sites.now }
    ensures { IsNearest (x_away pitch.now) (AreFreeSites sites.now many) result }
{
    let middle = lowest(pitch);
    let (left, right) = sites.fits_beside(many, middle);
    let Some(left) = left else {
        return right;
    };
    if left == middle {
        return Some(left);
    }
    let Some(right) = right else {
        return Some(left);
    };
    if x_away(pitch, right) < x_away(pitch, left) {
        Some(right)
    } else {
        Some(left)
    }
}

/// The site of a row without ends that is nearest to the start, the lower of two that are as near.
fn lowest(pitch: &Pitch) -> u64
    requires { IsPitch pitch.now }
    ensures { IsValley (x_away pitch.now) result }
{
    if pitch.start <= pitch.left {
        return 0;
    }
    let width = pitch.width.unsigned_abs();
    let offset = pitch.start.abs_diff(pitch.left);
    let below = offset / width;
    if offset % width > width / 2 {
        below + 1
    } else {
        below
    }
}

/// How far along x a site begins from the start.
pub(crate) fn x_away(pitch: &Pitch, site: u64) -> u64
    requires pitch { IsPitch pitch.now }
    requires within { IsCoordinate (site_x pitch.now site) }
    ensures is { result ≡ x_away pitch.now site }
    ensures within { result ≤ 2 * COORDINATE_LIMIT }
{
    let x = pitch.left + (site * pitch.width.unsigned_abs()) as i64;
    x.abs_diff(pitch.start)
}

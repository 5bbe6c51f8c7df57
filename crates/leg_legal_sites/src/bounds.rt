//! Numbers that bound the free sites of some rows.

ghost use Rattle.std.specs.Prelude.{◌≡◌, ◌+ℤ◌, ◌*ℤ◌, pos};
ghost use Rattle.leg_geom.specs.Plane.{IsCoordinate};
ghost use Rattle.leg_lib_records.specs.Measure.{HasArea};
ghost use Rattle.leg_legal_sites.specs.Steps.SiteBounds.{DoBound};
ghost use Rattle.leg_legal_sites.specs.Steps.Bounds.{AreWithinBounds, DoCover, DoBoundAlike, AreOfBoth};

use crate::row_parts::RowParts;
use leg_design_records::Row;
use leg_lib_records::Extent;
use std::alloc::Allocator;

/// Numbers that bound the free sites of some rows, in database units where they are coordinates.
#[derive(Clone, Copy, PartialEq, Eq)]
pub(crate) struct Bounds {
    /// The lowest number of a row.
    pub least_row: usize,
    /// The lowest number of the site that a row is of.
    pub least_site: usize,
    /// The highest one.
    pub most_site: usize,
    /// The lowest y of a row.
    pub low: i64,
    /// The highest one.
    pub high: i64,
    /// Up to which y sites reach.
    pub top: i64,
    /// Where the leftmost site begins along x.
    pub left: i64,
    /// Where the rightmost one ends.
    pub right: i64,
    /// The least sum of the x and the y of a site's lower left corner.
    pub corner: i64,
    /// How many consecutive sites there are at most.
    pub longest: u64,
}

impl Bounds {
    /// What bounds no site.
    pub(crate) fn of_nothing() -> Bounds
        ensures { result.longest ≡ 0 }
    {
        Bounds {
            least_row: usize::MAX,
            least_site: usize::MAX,
            most_site: 0,
            low: i64::MAX,
            high: i64::MIN,
            top: i64::MIN,
            left: i64::MAX,
            right: i64::MIN,
            corner: i64::MAX,
            longest: 0,
        }
    }

    /// What bounds the free sites of the row of this number, which are of this size.
    pub(crate) fn of_row<A: Allocator>(
        number: usize,
        row: &Row<'_>,
        size: &Extent,
        sites: &RowParts<A>,
    ) -> Bounds
        requires { AreWithinBounds row.now size.now sites.now }
        ensures { DoBound result number row.now size.now sites.now }
    {
        let Some(ends) = sites.ends() else {
            return Bounds::of_nothing();
        };
        let left = edge(row, size, ends.from);
        let y = row.at.y();
        Bounds {
            least_row: number,
            least_site: row.site,
            most_site: row.site,
            low: y,
            high: y,
            top: y + size.height(),
            left,
            right: edge(row, size, ends.end),
            corner: left + y,
            longest: ends.longest,
        }
    }

    /// What bounds the free sites of the rows that this bounds, now that they are those of one list, and begin where those of
    /// this row do, which are of this size.
    pub(crate) fn with_sites<A: Allocator>(
        &self,
        row: &Row<'_>,
        size: &Extent,
        sites: &RowParts<A>,
    ) -> Bounds
        requires area { HasArea size.now }
        requires within { AreWithinBounds row.now size.now sites.now }
        ensures { DoBoundAlike self.now row.now size.now sites.now result }
    {
        let Some(ends) = sites.ends() else {
            return Bounds::of_nothing();
        };
        let left = edge(row, size, ends.from);
        Bounds {
            least_row: self.least_row,
            least_site: self.least_site,
            most_site: self.most_site,
            low: self.low,
            high: self.high,
            top: self.top,
            left,
            right: edge(row, size, ends.end),
            corner: left.saturating_add(self.low),
            longest: ends.longest,
        }
    }

    /// What bounds the free sites that both bound.
    pub(crate) fn within(&self, other: &Bounds) -> Bounds
        ensures { AreOfBoth self.now other.now result }
    {
        Bounds {
            least_row: self.least_row.max(other.least_row),
            least_site: self.least_site.max(other.least_site),
            most_site: self.most_site.min(other.most_site),
            low: self.low.max(other.low),
            high: self.high.min(other.high),
            top: self.top.min(other.top),
            left: self.left.max(other.left),
            right: self.right.min(other.right),
            corner: self.corner.max(other.corner),
            longest: self.longest.min(other.longest),
        }
    }

    /// What bounds the free sites that either bounds.
    pub(crate) fn joined(&self, other: &Bounds) -> Bounds
        ensures this { DoCover result self.now }
        ensures other { DoCover result other.now }
    {
        Bounds {
            least_row: self.least_row.min(other.least_row),
            least_site: self.least_site.min(other.least_site),
            most_site: self.most_site.max(other.most_site),
            low: self.low.min(other.low),
            high: self.high.max(other.high),
            top: self.top.max(other.top),
            left: self.left.min(other.left),
            right: self.right.max(other.right),
            corner: self.corner.min(other.corner),
            longest: self.longest.max(other.longest),
        }
    }
}

/// The left edge of the site of this number along x.
fn edge(row: &Row<'_>, size: &Extent, site: u64) -> i64
    requires { IsCoordinate (row.now.at.x +ℤ pos site *ℤ size.now.width) }
    ensures { result ≡ row.now.at.x +ℤ pos site *ℤ size.now.width }
{
    row.at.x() + (site * size.width().unsigned_abs()) as i64
}

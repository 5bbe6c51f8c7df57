//! The sites of a row that a rectangle meets, and those that lie in the die (LEF/DEF 5.8, "Rows", "Site", "Die Area").

ghost use Rattle.leg_legal_sites.specs.Steps.RowSites.{AreSitesMet, AreSitesInside};

use crate::site_edges::{sites_begun, sites_ended};
use crate::stretch::Stretch;
use leg_design_records::Row;
use leg_geom::Rect;
use leg_lib_records::Extent;

/// The sites that share a unit square with the rectangle, of a row of sites of this size that goes on without end to the
/// right. A rectangle that only abuts a site does not meet it. Where none is met, the stretch is empty: its end is not
/// above its beginning.
pub fn sites_met(row: &Row<'_>, size: &Extent, rect: &Rect) -> Stretch
    ensures { AreSitesMet row.now size.now rect.now result }
{
    let bottom = row.at.y();
    let top = bottom + size.height();
    if bottom < rect.y2() && rect.y1() < top {
        let from = sites_ended(row, size, rect.x1());
        let end = sites_begun(row, size, rect.x2());
        Stretch { from, end }
    } else {
        Stretch { from: 0, end: 0 }
    }
}

/// The sites of the row, which are of this size, of which each unit square is a unit square of the die. Where there are none, the
/// stretch is empty: its end is not above its beginning.
pub fn sites_inside(row: &Row<'_>, size: &Extent, die: &Rect) -> Stretch
    ensures { AreSitesInside row.now size.now die.now result }
{
    let bottom = row.at.y();
    let top = bottom + size.height();
    if die.y1() <= bottom && top <= die.y2() {
        let count = row.count.max(0).unsigned_abs();
        let from = sites_begun(row, size, die.x1());
        let end = sites_ended(row, size, die.x2()).min(count);
        Stretch { from, end }
    } else {
        Stretch { from: 0, end: 0 }
    }
}

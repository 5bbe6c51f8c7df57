//! Components on the sites of rows (LEF/DEF 5.8, "Rows", "Site").

ghost use Rattle.std.specs.Prelude.{◌<◌, ◌↔◌, length, AllPairs, IsTrue};
ghost use Rattle.leg_geom.specs.Plane.{IsRect};
ghost use Rattle.leg_lib_records.specs.Measure.{HasArea};
ghost use Rattle.leg_design_records.specs.WellFormedParts.{IsPosition};
ghost use Rattle.leg_rules.specs.Placement.Sites.{IsOffSite};
ghost use Rattle.leg_place.specs.Steps.RowSpans.{AreRowSpans, Precedes, IsWhole, HasSites, IsOnSomeRow};

use crate::placed_box::placed_size;
use crate::row_spans::is_covered;
use crate::site_span::SiteSpan;
use leg_design_records::Design;
use leg_geom::{Orient, Place, Rect};
use leg_lib_records::{Extent, Master};
use std::alloc::Allocator;

/// Whether the component is placed, its macro has a site, and it is on the sites of no row. The sites of the rows
/// are given as `row_spans` gives them.
pub(crate) fn is_off_site<A: Allocator + Copy>(
    design: &Design<'_, A>,
    rows: &[SiteSpan],
    number: usize,
) -> bool
    requires there { number < length design.now.components }
    requires rows { AreRowSpans design.now.library design.now.rows rows.now }
    ensures { IsTrue result ↔ IsOffSite design.now number }
{
    let component = &design.components()[number];
    let Some(place) = component.place else {
        return false;
    };
    let master = &design.library().masters()[component.master];
    match master.site {
        Some(site) => !is_on_some_row(design, rows, master, site, &place),
        None => false,
    }
}

/// Whether a macro of this site is on the sites of a row when it is at this place.
fn is_on_some_row<A: Allocator + Copy>(
    design: &Design<'_, A>,
    rows: &[SiteSpan],
    master: &Master<'_, A>,
    number: usize,
    place: &Place,
) -> bool
    requires at { IsPosition place.now.at }
    requires rows { AreRowSpans design.now.library design.now.rows rows.now }
    ensures { IsTrue result ↔ IsOnSomeRow design.now master.now number place.now }
{
    match design.library().sites().get(number) {
        Some(site) => {
            let rect = placed_size(place, &master.size);
            is_whole(&site.size, &rect)
                && has_sites(
                    rows,
                    number,
                    &site.size,
                    &rect,
                    place.orient,
                    master.y_symmetric,
                )
        }
        None => false,
    }
}

/// Whether a rectangle is as high as a site of this size, and as wide as a number of them.
fn is_whole(size: &Extent, rect: &Rect) -> bool
    ensures whole { IsTrue result ↔ IsWhole size.now rect.now }
    ensures size { HasArea size.now }
    ensures rect { IsRect rect.now }
{
    let width = size.width().unsigned_abs();
    rect.y2() == rect.y1() + size.height() && rect.x2().abs_diff(rect.x1()) % width == 0
}

/// Whether a row has the sites of this number and size from the rectangle's left edge to its right one, the first of
/// them at its lower left corner, and this orientation fits the row's.
fn has_sites(
    rows: &[SiteSpan],
    number: usize,
    size: &Extent,
    rect: &Rect,
    orient: Orient,
    y_symmetric: bool,
) -> bool
    requires { AllPairs Precedes rows.now }
    ensures { IsTrue result ↔ HasSites rows.now number size.now rect.now orient y_symmetric }
{
    is_covered(rows, &SiteSpan::new(number, size, orient, rect))
        || y_symmetric && is_covered(rows, &SiteSpan::new(number, size, orient.mirror_y(), rect))
}

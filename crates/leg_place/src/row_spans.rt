//! The sites of the rows of a design, in an order by which they are found.

ghost use Rattle.std.specs.Prelude.{◌≡◌, ◌↔◌, ◌≤ℤ◌, ◌+ℤ◌, ◌*ℤ◌, pos, length, AllPairs, IsTrue, IfOk};
ghost use Rattle.leg_lex.specs.Number.{IsNumber};
ghost use Rattle.leg_design_records.specs.WellFormedParts.{IsPosition};
ghost use Rattle.leg_place.specs.Steps.SiteSpan.{row_box};
ghost use Rattle.leg_place.specs.Steps.RowSpans.{AreSpansBelow, AreRowSpans, Precedes, IsCovered};

use crate::site_span::SiteSpan;
use leg_design_records::{Design, Row};
use leg_geom::Rect;
use leg_lib_records::Extent;
use std::alloc::{AllocError, Allocator};

/// The sites of the rows of a design, line by line and from left to right. A row is left out where the one kept before
/// it has all its sites, so that within a line each span reaches further than the ones before it.
pub(crate) fn row_spans<A: Allocator + Copy>(
    alloc: A,
    design: &Design<'_, A>,
) -> Result<Vec<SiteSpan, A>, AllocError>
    ensures { IfOk result (λ spans. AreRowSpans design.now.library design.now.rows spans.items) }
{
    let mut spans = all_spans(alloc, design)?;
    spans.sort_unstable();
    spans.dedup_by(|later, earlier| earlier.covers(later));
    Ok(spans)
}

/// The sites of each row, in file order.
fn all_spans<A: Allocator + Copy>(
    alloc: A,
    design: &Design<'_, A>,
) -> Result<Vec<SiteSpan, A>, AllocError>
    ensures { IfOk result (λ spans. AreSpansBelow design.now.library design.now.rows (length design.now.rows) spans.items) }
{
    let mut spans = Vec::with_capacity(alloc, design.rows().len())?;
    for row in design.rows() {
        let size = &design.library().sites()[row.site].size;
        spans.push(SiteSpan::new(row.site, size, row.orient, &row_rect(row, size)))?;
    }
    Ok(spans)
}

/// The rectangle of all sites of a row, which are of this size.
fn row_rect(row: &Row<'_>, size: &Extent) -> Rect
    requires at { IsPosition row.now.at }
    requires some { pos 1 ≤ℤ row.now.count }
    requires few { IsNumber row.now.count }
    requires end { IsNumber (row.now.at.x +ℤ row.now.count *ℤ size.now.width) }
    ensures { result ≡ row_box row.now size.now }
{
    let (left, bottom) = (row.at.x(), row.at.y());
    let right = left + row.count * size.width();
    Rect::new(left, bottom, right, bottom + size.height()).unwrap()
}

/// Whether one of the spans has all sites of another one. They are in order, as `row_spans` gives them, so the last of
/// them that begins by it reaches furthest of those that could.
pub(crate) fn is_covered(spans: &[SiteSpan], wanted: &SiteSpan) -> bool
    requires { AllPairs Precedes spans.now }
    ensures { IsTrue result ↔ IsCovered spans.now wanted.now }
{
    let end = spans.partition_point(|span| span.begins_by(wanted));
    end > 0 && spans[end - 1].covers(wanted)
}

//! The edges of a row's sites along x (LEF/DEF 5.8, "Rows", "Site").

ghost use Rattle.std.specs.Prelude.{◌↔◌, ◌+◌, ◌<◌, ◌+ℤ◌, ◌*ℤ◌, ◌<ℤ◌, ◌≤ℤ◌, ℕ, pos};
ghost use Rattle.leg_legal_sites.specs.Steps.SiteEdges.{IsBeyond};

use leg_design_records::Row;
use leg_lib_records::Extent;

/// How many sites begin to the left of this x, in a row that goes on without end.
pub(crate) fn sites_begun(row: &Row<'_>, size: &Extent, x: i64) -> u64
    ensures { (k : ℕ) → k < result ↔ ((row.now.at.x +ℤ pos k *ℤ size.now.width) <ℤ x) }
{
    offset(row, x).div_ceil(size.width().unsigned_abs())
}

/// How many sites end at this x or to the left of it, in a row that goes on without end.
pub(crate) fn sites_ended(row: &Row<'_>, size: &Extent, x: i64) -> u64
    ensures { (k : ℕ) → k < result ↔ ((row.now.at.x +ℤ pos (k + 1) *ℤ size.now.width) ≤ℤ x) }
{
    offset(row, x) / size.width().unsigned_abs()
}

/// How far this x lies to the right of the row's first site, in database units: 0 where it does not.
fn offset(row: &Row<'_>, x: i64) -> u64
    ensures { IsBeyond row.now.at.x x result }
{
    let left = row.at.x();
    if left < x { x.abs_diff(left) } else { 0 }
}

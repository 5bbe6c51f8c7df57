//! Metal as rectangles.

ghost use Rattle.std.specs.Prelude.{◌≢◌, ◌↔◌, ℤ};
ghost use Rattle.leg_lex.specs.Number.{IsNumber};
ghost use Rattle.leg_geom.specs.Plane.{PointModel, IsRect, HasPoint};
ghost use Rattle.leg_geom.specs.Steps.Intervals.{IsSpan, HasNumber};
ghost use Rattle.leg_design_records.specs.WellFormedParts.{IsPosition};
ghost use Rattle.leg_rules.specs.Metal.Outline.{IsAlong, IsAcross, HasPointOf};
ghost use Rattle.leg_rules.specs.Metal.Outline.Outline.{Drawn, Line, Shifted};
ghost use Rattle.leg_flat.specs.Steps.Bounds.{IsMetalReach, IsWidthWithin, IsLineWithin, IsDrawnWithin};

use leg_geom::{Place, Point, Rect};

/// The lowest and the highest coordinate along a line between two different ones, with how far it reaches past each.
fn line_ends(from: i64, to: i64, ext_from: i64, ext_to: i64) -> (i64, i64)
    requires from { IsNumber from }
    requires to { IsNumber to }
    requires differ { from ≢ to }
    requires ext_from { IsMetalReach ext_from }
    requires ext_to { IsMetalReach ext_to }
    ensures span { IsSpan (record { low = result.0; high = result.1 }) }
    ensures along { (z : ℤ) → HasNumber (record { low = result.0; high = result.1 }) z ↔ IsAlong from to ext_from ext_to z }
{
    if from < to {
        (from - ext_from, to + ext_to)
    } else {
        (to - ext_to, from + ext_from)
    }
}

/// The lowest and the highest coordinate across a line of this width.
fn line_sides(line: i64, width: i64) -> (i64, i64)
    requires line { IsNumber line }
    requires width { IsWidthWithin width }
    ensures span { IsSpan (record { low = result.0; high = result.1 }) }
    ensures across { (z : ℤ) → HasNumber (record { low = result.0; high = result.1 }) z ↔ IsAcross line width z }
{
    let half = width / 2;
    (line - half, line + half)
}

/// The rectangle of a line of this width between two points, with how far it reaches past each.
pub(crate) fn line_rect(from: &Point, to: &Point, width: i64, ext_from: i64, ext_to: i64) -> Rect
    requires { IsLineWithin from.now to.now width ext_from ext_to }
    ensures points { (p : PointModel) → HasPoint result p ↔ HasPointOf (Line from.now to.now width ext_from ext_to) p }
    ensures proper { IsRect result }
{
    if from.y() == to.y() {
        let (left, right) = line_ends(from.x(), to.x(), ext_from, ext_to);
        let (bottom, top) = line_sides(from.y(), width);
        Rect::new(left, bottom, right, top).unwrap()
    } else {
        let (left, right) = line_sides(from.x(), width);
        let (bottom, top) = line_ends(from.y(), to.y(), ext_from, ext_to);
        Rect::new(left, bottom, right, top).unwrap()
    }
}

/// The rectangle that is given from a point.
pub(crate) fn shifted_rect(at: &Point, rect: &Rect) -> Rect
    requires at { IsPosition at.now }
    requires rect { IsDrawnWithin rect.now }
    ensures points { (p : PointModel) → HasPoint result p ↔ HasPointOf (Shifted at.now rect.now) p }
    ensures proper { IsRect result }
{
    rect.moved(at)
}

/// Where a rectangle lies that is drawn in a box of this size, once the box is at its place.
pub(crate) fn drawn_rect(place: &Place, width: i64, height: i64, rect: &Rect) -> Rect
    requires at { IsPosition place.now.at }
    requires width { IsNumber width }
    requires height { IsNumber height }
    requires rect { IsDrawnWithin rect.now }
    ensures points { (p : PointModel) → HasPoint result p ↔ HasPointOf (Drawn place.now (record { width = width; height = height }) rect.now) p }
    ensures proper { IsRect result }
{
    place.rect(width, height, rect)
}

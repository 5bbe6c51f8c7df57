//! The sides of rectangles.

ghost use Rattle.std.specs.Prelude.{◌≡◌};
ghost use Rattle.leg_geom.specs.Plane.{IsCoordinate};
ghost use Rattle.leg_drc.specs.Sides.{lesser_side, overlap, parallel_run};

use leg_geom::Rect;

/// The width of a shape: its lesser side, in database units.
pub(crate) fn lesser_side(rect: &Rect) -> i64
    ensures { result ≡ lesser_side rect.now }
{
    let width = rect.x2() - rect.x1();
    width.min(rect.y2() - rect.y1())
}

/// The length that two intervals have in common, in database units: below 0 where a gap is between them.
fn overlap(a_low: i64, a_high: i64, b_low: i64, b_high: i64) -> i64
    requires a_low { IsCoordinate a_low }
    requires a_high { IsCoordinate a_high }
    requires b_low { IsCoordinate b_low }
    requires b_high { IsCoordinate b_high }
    ensures { result ≡ overlap a_low a_high b_low b_high }
{
    a_high.min(b_high) - a_low.max(b_low)
}

/// The parallel run of two rectangles, in database units: the greater of the lengths by which their x sides and their y sides overlap.
pub(crate) fn parallel_run(a: &Rect, b: &Rect) -> i64
    ensures { result ≡ parallel_run a.now b.now }
{
    let along_x = overlap(a.x1(), a.x2(), b.x1(), b.x2());
    along_x.max(overlap(a.y1(), a.y2(), b.y1(), b.y2()))
}

//! Comparable shapes that share a point or are nearer than a distance.

ghost use Rattle.std.specs.Prelude.{◌<◌, ◌^◌, ◌↔◌, ◌⊎◌, IsTrue};
ghost use Rattle.leg_geom.specs.Plane.{SharePoint};
ghost use Rattle.leg_rules.specs.Spacing.Violations.{AreNearer};
ghost use Rattle.leg_rules.specs.Spacing.Closer.{AreCloserThan};

use crate::comparable::are_comparable;
use leg_geom::Rect;
use leg_rules::Shape;

/// Whether the shapes are comparable, and share a point or lie nearer to one another than this.
pub fn are_closer_than(distance: u64, a: &Shape, b: &Shape) -> bool
    requires { distance < 2 ^ 32 }
    ensures { IsTrue result ↔ AreCloserThan distance a.now b.now }
{
    are_comparable(a, b) && are_close(distance, &a.rect, &b.rect)
}

/// Whether the rectangles share a point, or some points of them lie nearer to one another than this.
pub(crate) fn are_close(distance: u64, a: &Rect, b: &Rect) -> bool
    requires { distance < 2 ^ 32 }
    ensures { IsTrue result ↔ (SharePoint a.now b.now ⊎ AreNearer distance a.now b.now) }
{
    a.shares_point(b) || are_nearer(distance, a, b)
}

/// Whether some points of the rectangles lie nearer to one another than this.
fn are_nearer(distance: u64, a: &Rect, b: &Rect) -> bool
    requires { distance < 2 ^ 32 }
    ensures { IsTrue result ↔ AreNearer distance a.now b.now }
{
    a.gap2(b) < i128::from(distance * distance)
}

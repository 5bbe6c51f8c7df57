//! The place of a component.

ghost use Rattle.std.specs.Prelude.{◌≡◌};
ghost use Rattle.leg_geom.specs.Plane.{IsRect, IsSpot};
ghost use Rattle.leg_geom.specs.Orientation.{placed, placed_rect, StaysWithin, IsImage};

use crate::orient::Orient;
use crate::point::Point;
use crate::rect::Rect;

/// Where a component is: the lower left corner of its oriented box, and the orientation.
#[derive(Clone, Copy, PartialEq, Eq, Debug)]
pub struct Place {
    pub at: Point,
    pub orient: Orient,
}

impl Place {
    /// Where a rectangle lies that belongs to a component of `width` by `height` database units. It is given, and those
    /// are, as they are in orientation N at the origin.
    pub fn rect(&self, width: i64, height: i64, rect: &Rect) -> Rect
        requires { StaysWithin (placed self.now.at self.now.orient width height) rect.now }
        ensures is { result ≡ placed_rect self.now.at self.now.orient width height rect.now }
        ensures image { IsImage (placed self.now.at self.now.orient width height) rect.now result }
        ensures proper { IsRect result }
    {
        let (lower_left, upper_right) = rect.corners();
        let corner = self.point(width, height, &lower_left);
        let opposite = self.point(width, height, &upper_right);
        Rect::between(&corner, &opposite)
    }

    /// Where a point of the component lies.
    fn point(&self, width: i64, height: i64, point: &Point) -> Point
        requires { IsSpot (placed self.now.at self.now.orient width height point.now) }
        ensures { result ≡ placed self.now.at self.now.orient width height point.now }
    {
        let (left, bottom) = (self.at.x(), self.at.y());
        let (x, y) = self.orient.turned(width, height, point);
        Point::known(left + x, bottom + y)
    }
}

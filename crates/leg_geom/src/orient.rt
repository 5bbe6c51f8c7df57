//! The orientation of a component.

ghost use Rattle.std.specs.Prelude.{◌≡◌, ◌≤◌, ◌*◌, unsigned_abs};
ghost use Rattle.leg_geom.specs.Plane.{IsSpot};
ghost use Rattle.leg_geom.specs.Orientation.{turned, IsMirrored};

use crate::limits::COORDINATE_LIMIT;
use crate::point::Point;

/// How a component is turned or mirrored, as DEF names it: north, south, west and east, and the same flipped.
#[derive(Clone, Copy, PartialEq, Eq, Debug)]
pub enum Orient {
    N,
    S,
    W,
    E,
    FN,
    FS,
    FW,
    FE,
}

impl Orient {
    /// Where this orientation takes a point of a box that is `width` by `height` database units. The lower left corner
    /// of the box is the origin, and so is that of the oriented box.
    pub fn apply(self, width: i64, height: i64, point: Point) -> Point
        requires { IsSpot (turned self width height point) }
        ensures { result ≡ turned self width height point }
    {
        let (x, y) = self.turned(width, height, &point);
        Point::known(x, y)
    }

    /// The coordinates of the point where this orientation takes a point, which may be beyond the limit.
    pub(crate) fn turned(self, width: i64, height: i64, point: &Point) -> (i64, i64)
        requires x { unsigned_abs (turned self width height point.now).x ≤ 2 * COORDINATE_LIMIT }
        requires y { unsigned_abs (turned self width height point.now).y ≤ 2 * COORDINATE_LIMIT }
        ensures x { result.0 ≡ (turned self width height point.now).x }
        ensures y { result.1 ≡ (turned self width height point.now).y }
    {
        let (x, y) = (point.x(), point.y());
        match self {
            Orient::N => (x, y),
            Orient::S => (width - x, height - y),
            Orient::W => (height - y, x),
            Orient::E => (y, width - x),
            Orient::FN => (width - x, y),
            Orient::FS => (x, height - y),
            Orient::FW => (y, x),
            Orient::FE => (height - y, width - x),
        }
    }

    /// This orientation, mirrored on the y axis: left and right of the oriented box are exchanged.
    pub fn mirror_y(self) -> Orient
        ensures { IsMirrored self result }
    {
        match self {
            Orient::N => Orient::FN,
            Orient::S => Orient::FS,
            Orient::W => Orient::FW,
            Orient::E => Orient::FE,
            Orient::FN => Orient::N,
            Orient::FS => Orient::S,
            Orient::FW => Orient::W,
            Orient::FE => Orient::E,
        }
    }
}

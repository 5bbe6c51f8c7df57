//! Points and rectangles whose coordinates may be any numbers.

use std::marker::Model;

/// A point of a polygon.
#[derive(Clone, Copy, PartialEq, Eq, Debug)]
pub struct Vertex {
    /// The x coordinate.
    pub x: i64,
    /// The y coordinate.
    pub y: i64,
}

impl Model for Vertex {
    ghost use Rattle.leg_geom.specs.Plane.{PointModel};

    ghost Value = { PointModel };

    ghost view = { λ p. record { x = p.x; y = p.y } };

    ghost inverse = { λ p. record { x = p.x; y = p.y } };
}

/// A rectangle of a polygon.
#[derive(Clone, Copy, PartialEq, Eq, Debug)]
pub struct Slab {
    /// The x coordinate of the left edge.
    pub x1: i64,
    /// The y coordinate of the lower edge.
    pub y1: i64,
    /// The x coordinate of the right edge.
    pub x2: i64,
    /// The y coordinate of the upper edge.
    pub y2: i64,
}

impl Model for Slab {
    ghost use Rattle.leg_geom.specs.Plane.{RectModel};

    ghost Value = { RectModel };

    ghost view = { λ r. record { x1 = r.x1; y1 = r.y1; x2 = r.x2; y2 = r.y2 } };

    ghost inverse = { λ r. record { x1 = r.x1; y1 = r.y1; x2 = r.x2; y2 = r.y2 } };
}

//! A point of the plane.

ghost use Rattle.std.specs.Prelude.{◌≡◌, SomeIff};
ghost use Rattle.leg_geom.specs.Plane.{IsSpot};

use crate::limits::COORDINATE_LIMIT;
use std::marker::Model;

/// A point of the lattice, in database units.
#[derive(Clone, Copy, PartialEq, Eq, Debug)]
pub struct Point {
    x: i64,
    y: i64,
}

impl Model for Point {
    ghost use Rattle.leg_geom.specs.Plane.{PointModel, IsSpot};

    ghost Value = { PointModel };

    ghost view = { λ p. record { x = p.x; y = p.y } };

    ghost invariant = { λ p. IsSpot (record { x = p.x; y = p.y }) };

    ghost inverse = { λ p. record { x = p.x; y = p.y } };
}

impl Point {
    /// The point with these coordinates, and None where one of them is beyond `COORDINATE_LIMIT`.
    pub fn new(x: i64, y: i64) -> Option<Point>
        ensures { SomeIff result (IsSpot (record { x = x; y = y })) (record { x = x; y = y }) }
    {
        if x.unsigned_abs() <= COORDINATE_LIMIT && y.unsigned_abs() <= COORDINATE_LIMIT {
            Some(Point { x, y })
        } else {
            None
        }
    }

    /// The point with these coordinates, which the caller knows to be within the limit.
    pub(crate) fn known(x: i64, y: i64) -> Point
        requires { IsSpot (record { x = x; y = y }) }
        ensures { result ≡ record { x = x; y = y } }
    {
        Point { x, y }
    }

    /// The x coordinate, in database units.
    pub fn x(&self) -> i64
        ensures is { result ≡ self.now.x }
        ensures within { IsSpot self.now }
    {
        self.x
    }

    /// The y coordinate, in database units.
    pub fn y(&self) -> i64
        ensures is { result ≡ self.now.y }
        ensures within { IsSpot self.now }
    {
        self.y
    }
}

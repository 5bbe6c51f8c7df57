//! A side of a walk.

ghost use Rattle.std.specs.Prelude.{◌≡◌};
ghost use Rattle.leg_polygon.specs.Walk.{are_same, has_length, is_between, is_in_middle, is_straight, turns};
ghost use Rattle.leg_polygon.specs.Inside.{crosses};

use crate::shape::Vertex;
use std::marker::Model;

/// A side of a walk, from one point to another.
#[derive(Clone, Copy, PartialEq, Eq, Debug)]
pub(crate) struct Side {
    pub(crate) from: Vertex,
    pub(crate) to: Vertex,
}

impl Model for Side {
    ghost use Rattle.leg_geom.specs.Plane.{PointModel};

    ghost Value = { PointModel × PointModel };

    ghost view = { λ s. (s.from, s.to) };

    ghost inverse = { λ s. record { from = s.0; to = s.1 } };
}

/// Whether the points stand on a vertical line.
fn are_upright(from: &Vertex, point: &Vertex, to: &Vertex) -> bool
    ensures { result ≡ are_same from.now.x point.now.x to.now.x }
{
    from.x == point.x && point.x == to.x
}

/// Whether the points stand on a horizontal line.
fn are_level(from: &Vertex, point: &Vertex, to: &Vertex) -> bool
    ensures { result ≡ are_same from.now.y point.now.y to.now.y }
{
    from.y == point.y && point.y == to.y
}

/// Whether the point's x lies between those of two others, and is neither of them.
fn is_between_along_x(from: &Vertex, point: &Vertex, to: &Vertex) -> bool
    ensures { result ≡ is_between from.now.x point.now.x to.now.x }
{
    (from.x < point.x && point.x < to.x) || (to.x < point.x && point.x < from.x)
}

/// Whether the point's y lies between those of two others, and is neither of them.
fn is_between_along_y(from: &Vertex, point: &Vertex, to: &Vertex) -> bool
    ensures { result ≡ is_between from.now.y point.now.y to.now.y }
{
    (from.y < point.y && point.y < to.y) || (to.y < point.y && point.y < from.y)
}

/// Whether the point lies in the middle of a side from one point to another, along the x or the y axis.
fn is_in_middle(from: &Vertex, point: &Vertex, to: &Vertex) -> bool
    ensures { result ≡ is_in_middle from.now point.now to.now }
{
    (are_upright(from, point, to) && is_between_along_y(from, point, to))
        || (are_level(from, point, to) && is_between_along_x(from, point, to))
}

impl Side {
    /// Whether the points differ.
    pub(crate) fn has_length(&self) -> bool
        ensures { result ≡ has_length self.now }
    {
        !(self.from.x == self.to.x && self.from.y == self.to.y)
    }

    /// Whether the side is horizontal or vertical.
    pub(crate) fn is_straight(&self) -> bool
        ensures { result ≡ is_straight self.now }
    {
        self.from.x == self.to.x || self.from.y == self.to.y
    }

    /// Whether the side goes through the row of unit squares on the line.
    pub(crate) fn crosses(&self, line: i64) -> bool
        ensures { result ≡ crosses line self.now }
    {
        let ends_above = line < self.to.y;
        if line < self.from.y {
            !ends_above
        } else {
            ends_above
        }
    }

    /// Whether the walk turns at the end of this side, where the next one begins.
    pub(crate) fn turns(&self, next: &Side) -> bool
        ensures { result ≡ turns (self.now, next.now) }
    {
        !is_in_middle(&self.from, &self.to, &next.to)
    }
}

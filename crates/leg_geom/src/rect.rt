//! A rectangle of the plane.

ghost use Rattle.std.specs.Prelude.{◌≡◌, ◌≢◌, ◌↔◌, ◌≤◌, ◌*◌, ℕ, pos, IsTrue, SomeIff};
ghost use Rattle.leg_geom.specs.Plane.{IsRect, ShareSquare, SharePoint, ShareTwoPoints, HasAllPoints, IsCentre, centre};
ghost use Rattle.leg_geom.specs.Line.{between};
ghost use Rattle.leg_geom.specs.Orientation.{moved, StaysWithin, IsImage};
ghost use Rattle.leg_geom.specs.Gap.{x_gap, y_gap, IsXGap, IsYGap, IsSquareGap};

use crate::limits::COORDINATE_LIMIT;
use crate::orient::Orient;
use crate::place::Place;
use crate::point::Point;
use crate::span::Span;
use std::marker::Model;

/// A rectangle that has area, in database units, with its corners within `COORDINATE_LIMIT`.
#[derive(Clone, Copy, PartialEq, Eq, Debug)]
pub struct Rect {
    x: Span,
    y: Span,
}

impl Model for Rect {
    ghost use Rattle.leg_geom.specs.Plane.{RectModel, IsRect};

    ghost Value = { RectModel };

    ghost view = { λ r. record { x1 = r.x.low; y1 = r.y.low; x2 = r.x.high; y2 = r.y.high } };

    ghost invariant = { λ r. IsRect (record { x1 = r.x.low; y1 = r.y.low; x2 = r.x.high; y2 = r.y.high }) };

    ghost inverse = { λ s. record { x = record { low = s.x1; high = s.x2 }; y = record { low = s.y1; high = s.y2 } } };
}

impl Rect {
    /// The rectangle with the lower left corner `(x1, y1)` and the upper right corner `(x2, y2)`. None where a
    /// coordinate is beyond `COORDINATE_LIMIT`, or the rectangle would have no area.
    pub fn new(x1: i64, y1: i64, x2: i64, y2: i64) -> Option<Rect>
        ensures { SomeIff result (IsRect (record { x1 = x1; y1 = y1; x2 = x2; y2 = y2 })) (record { x1 = x1; y1 = y1; x2 = x2; y2 = y2 }) }
    {
        let x = Span::new(x1, x2)?;
        let y = Span::new(y1, y2)?;
        Some(Rect { x, y })
    }

    /// The rectangle between two opposite corners, which the caller knows to differ along both axes.
    pub(crate) fn between(p: &Point, q: &Point) -> Rect
        requires x { p.now.x ≢ q.now.x }
        requires y { p.now.y ≢ q.now.y }
        ensures x { (record { low = result.x1; high = result.x2 }) ≡ between p.now.x q.now.x }
        ensures y { (record { low = result.y1; high = result.y2 }) ≡ between p.now.y q.now.y }
        ensures proper { IsRect result }
    {
        let x = Span::between(p.x(), q.x());
        let y = Span::between(p.y(), q.y());
        Rect { x, y }
    }

    /// The lower left and the upper right corner.
    pub(crate) fn corners(&self) -> (Point, Point)
        ensures lower_left { result.0 ≡ record { x = self.now.x1; y = self.now.y1 } }
        ensures upper_right { result.1 ≡ record { x = self.now.x2; y = self.now.y2 } }
        ensures proper { IsRect self.now }
    {
        let lower_left = Point::known(self.x1(), self.y1());
        let upper_right = Point::known(self.x2(), self.y2());
        (lower_left, upper_right)
    }

    /// Whether both rectangles are the same.
    #[tactic(auto, using(crate::proofs::Points::sides_same))]
    pub fn is(&self, other: &Rect) -> bool
        ensures { IsTrue result ↔ self.now ≡ other.now }
    {
        *self == *other
    }

    /// The rectangle moved by the coordinates of a point: where it lies if it is given from that point.
    pub fn moved(&self, by: &Point) -> Rect
        requires { StaysWithin (moved by.now) self.now }
        ensures image { IsImage (moved by.now) self.now result }
        ensures proper { IsRect result }
    {
        // Orientation N leaves a rectangle as it is, whatever the size of its box.
        let place = Place {
            at: *by,
            orient: Orient::N,
        };
        place.rect(0, 0, self)
    }

    /// The x coordinate of the left edge.
    pub fn x1(&self) -> i64
        ensures is { result ≡ self.now.x1 }
        ensures proper { IsRect self.now }
    {
        self.x.low()
    }

    /// The y coordinate of the lower edge.
    pub fn y1(&self) -> i64
        ensures is { result ≡ self.now.y1 }
        ensures proper { IsRect self.now }
    {
        self.y.low()
    }

    /// The x coordinate of the right edge.
    pub fn x2(&self) -> i64
        ensures is { result ≡ self.now.x2 }
        ensures proper { IsRect self.now }
    {
        self.x.high()
    }

    /// The y coordinate of the upper edge.
    pub fn y2(&self) -> i64
        ensures is { result ≡ self.now.y2 }
        ensures proper { IsRect self.now }
    {
        self.y.high()
    }

    /// Whether some unit square lies in both rectangles. Rectangles that only abut do not overlap.
    pub fn overlaps(&self, other: &Rect) -> bool
        ensures { IsTrue result ↔ ShareSquare self.now other.now }
    {
        self.x.shares_step(&other.x) && self.y.shares_step(&other.y)
    }

    /// Whether some point lies in both rectangles: their borders may only meet, as in a corner.
    pub fn shares_point(&self, other: &Rect) -> bool
        ensures { IsTrue result ↔ SharePoint self.now other.now }
    {
        self.x.shares_number(&other.x) && self.y.shares_number(&other.y)
    }

    /// Whether two different points lie in both rectangles: they overlap, or abut along more than a corner.
    pub fn touches(&self, other: &Rect) -> bool
        ensures { IsTrue result ↔ ShareTwoPoints self.now other.now }
    {
        self.shares_point(other) && (self.x.shares_step(&other.x) || self.y.shares_step(&other.y))
    }

    /// Whether each point of the other rectangle is one of this.
    pub fn contains(&self, other: &Rect) -> bool
        ensures { IsTrue result ↔ HasAllPoints self.now other.now }
    {
        self.x.contains(&other.x) && self.y.contains(&other.y)
    }

    /// The least difference between the x of a point of this rectangle and that of a point of the other, in database
    /// units: 0 where their shadows on the x axis meet.
    pub fn x_gap(&self, other: &Rect) -> u64
        ensures is { result ≡ x_gap self.now other.now }
        ensures least { IsXGap self.now other.now result }
        ensures small { result ≤ 2 * COORDINATE_LIMIT }
    {
        self.x.gap(&other.x)
    }

    /// The least difference between the y of a point of this rectangle and that of a point of the other, in database
    /// units: 0 where their shadows on the y axis meet.
    pub fn y_gap(&self, other: &Rect) -> u64
        ensures is { result ≡ y_gap self.now other.now }
        ensures least { IsYGap self.now other.now result }
        ensures small { result ≤ 2 * COORDINATE_LIMIT }
    {
        self.y.gap(&other.y)
    }

    /// The least squared distance of a point of this rectangle and a point of the other, in square database units.
    pub fn gap2(&self, other: &Rect) -> i128
        ensures { (n : ℕ) × (result ≡ pos n) × IsSquareGap self.now other.now n }
    {
        squared(self.x_gap(other)) + squared(self.y_gap(other))
    }

    /// The point in the middle, each coordinate rounded down, towards minus infinity.
    pub fn centre(&self) -> Point
        ensures is { result ≡ centre self.now }
        ensures halfway { IsCentre self.now result }
    {
        Point::known(self.x.middle(), self.y.middle())
    }
}

/// The square of a gap.
fn squared(gap: u64) -> i128
    requires { gap ≤ 2 * COORDINATE_LIMIT }
    ensures { result ≡ pos (gap * gap) }
{
    let gap = i128::from(gap);
    gap * gap
}

//! An interval of whole numbers: a rectangle along one axis.

ghost use Rattle.std.specs.Prelude.{◌≡◌, ◌↔◌, ◌≤◌, ◌*◌, ◌≢◌, IsTrue, SomeIff};
ghost use Rattle.leg_geom.specs.Line.{between};
ghost use Rattle.leg_geom.specs.Steps.Intervals.{IsSpan, ShareNumber, ShareStep, HasAllNumbers, IsGap};
ghost use Rattle.leg_geom.specs.Gap.{gap_between};
ghost use Rattle.leg_geom.specs.Plane.{IsCoordinate, IsHalfway, halfway};

use crate::limits::COORDINATE_LIMIT;
use std::marker::Model;

/// An interval that has length, and whose ends are within `COORDINATE_LIMIT`.
#[derive(Clone, Copy, PartialEq, Eq, Debug)]
pub(crate) struct Span {
    low: i64,
    high: i64,
}

impl Model for Span {
    ghost use Rattle.leg_geom.specs.Line.{Interval};
    ghost use Rattle.leg_geom.specs.Steps.Intervals.{IsSpan};

    ghost Value = { Interval };

    ghost view = { λ s. record { low = s.low; high = s.high } };

    ghost invariant = { λ s. IsSpan (record { low = s.low; high = s.high }) };

    ghost inverse = { λ s. record { low = s.low; high = s.high } };
}

impl Span {
    /// The interval with these ends, and None where one of them is beyond the limit or it has no length.
    pub(crate) fn new(low: i64, high: i64) -> Option<Span>
        ensures { SomeIff result (IsSpan (record { low = low; high = high })) (record { low = low; high = high }) }
    {
        let within = low.unsigned_abs() <= COORDINATE_LIMIT
            && high.unsigned_abs() <= COORDINATE_LIMIT;
        if within && low < high {
            Some(Span { low, high })
        } else {
            None
        }
    }

    /// The interval between two different numbers, in either order, which the caller knows to be within the limit.
    pub(crate) fn between(a: i64, b: i64) -> Span
        requires a { IsCoordinate a }
        requires b { IsCoordinate b }
        requires differ { a ≢ b }
        ensures { result ≡ between a b }
    {
        if a < b {
            Span { low: a, high: b }
        } else {
            Span { low: b, high: a }
        }
    }

    /// The lower end.
    pub(crate) fn low(&self) -> i64
        ensures { result ≡ self.now.low }
    {
        self.low
    }

    /// The upper end.
    pub(crate) fn high(&self) -> i64
        ensures { result ≡ self.now.high }
    {
        self.high
    }

    /// Whether some number lies in both: they may only abut.
    pub(crate) fn shares_number(&self, other: &Span) -> bool
        ensures { IsTrue result ↔ ShareNumber self.now other.now }
    {
        self.low <= other.high && other.low <= self.high
    }

    /// Whether some step from a number to the next lies in both.
    pub(crate) fn shares_step(&self, other: &Span) -> bool
        ensures { IsTrue result ↔ ShareStep self.now other.now }
    {
        self.low < other.high && other.low < self.high
    }

    /// Whether each number of the other is one of this.
    pub(crate) fn contains(&self, other: &Span) -> bool
        ensures { IsTrue result ↔ HasAllNumbers self.now other.now }
    {
        self.low <= other.low && other.high <= self.high
    }

    /// The least difference between a number of this and one of the other: 0 where they meet.
    pub(crate) fn gap(&self, other: &Span) -> u64
        ensures is { result ≡ gap_between self.now.low self.now.high other.now.low other.now.high }
        ensures least { IsGap self.now other.now result }
        ensures small { result ≤ 2 * COORDINATE_LIMIT }
    {
        if self.high < other.low {
            other.low.abs_diff(self.high)
        } else if other.high < self.low {
            self.low.abs_diff(other.high)
        } else {
            0
        }
    }

    /// The number halfway between the ends, rounded down.
    pub(crate) fn middle(&self) -> i64
        ensures is { result ≡ halfway self.now.low self.now.high }
        ensures halfway { IsHalfway self.now.low self.now.high result }
        ensures within { IsCoordinate result }
    {
        (self.low + self.high).div_euclid(2)
    }
}

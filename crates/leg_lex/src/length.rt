//! ExtentModel of a LEF, and what they are in database units. Nothing is rounded.

ghost use Rattle.std.specs.Prelude.{◌≡◌, ◌≤◌, pos, unsigned_abs};
ghost use Rattle.leg_lex.specs.Number.{AreUnits};

use crate::fault::NumFault;
use crate::limits::{MILLIONTHS_LIMIT, NUMBER_LIMIT, UNITS_LIMIT};
use crate::number::within;
use std::marker::Model;

/// How many millionths of a micron a micron has.
const MILLIONTHS_IN_MICRON: u128 = 1_000_000;

/// A length in millionths of a micron, at most `MILLIONTHS_LIMIT` in absolute value. Contracts see it as
/// that number.
#[derive(Clone, Copy, PartialEq, Eq, Debug)]
pub struct Micron {
    millionths: i64,
}

impl Model for Micron {
    ghost use Rattle.std.specs.Prelude.{ℤ, ◌≤◌, unsigned_abs};
    ghost use Rattle.leg_lex.specs.declared.limits.TheConstants.{MILLIONTHS_LIMIT};

    ghost Value = { ℤ };

    ghost view = { λ m. m.millionths };

    ghost invariant = { λ m. unsigned_abs m.millionths ≤ MILLIONTHS_LIMIT };

    ghost inverse = { λ z. record { millionths = z } };
}

impl Micron {
    /// The length of this number of millionths of a micron.
    pub fn of_millionths(millionths: i64) -> Micron
        requires { unsigned_abs millionths ≤ MILLIONTHS_LIMIT }
        ensures { result ≡ millionths }
    {
        Micron { millionths }
    }

    /// No length.
    pub fn zero() -> Micron
        ensures { result ≡ pos 0 }
    {
        Micron { millionths: 0 }
    }

    /// The length in millionths of a micron.
    pub fn millionths(self) -> i64
        ensures is { result ≡ self }
        ensures within { unsigned_abs self ≤ MILLIONTHS_LIMIT }
    {
        self.millionths
    }

    /// The length in database units, at `n` units a micron.
    ///
    /// `NotOnUnit` if it is no whole number of units, and else `TooLarge` beyond `NUMBER_LIMIT` in absolute value.
    #[tactic(auto, using(crate::proofs::Units::are_units))]
    pub fn to_units(self, n: u32) -> Result<i64, NumFault>
        requires above { 1 ≤ n }
        requires within { n ≤ UNITS_LIMIT }
        ensures { AreUnits self n result }
    {
        let Micron { millionths } = self;
        let scaled = u128::from(millionths.unsigned_abs()) * u128::from(n);
        if scaled % MILLIONTHS_IN_MICRON != 0 {
            return Err(NumFault::NotOnUnit);
        }
        let units = (scaled / MILLIONTHS_IN_MICRON) as u64;
        within(NUMBER_LIMIT, millionths < 0, units)
    }
}

//! Coordinates that a text writes.

ghost use Rattle.std.specs.Prelude.{◌≡◌};
ghost use Rattle.leg_lex.specs.Number.{IsNumber};

use std::marker::Model;

/// A coordinate that a text writes, at most `NUMBER_LIMIT` in absolute value. Contracts see it as that number.
#[derive(Clone, Copy)]
pub struct Coordinate {
    number: i64,
}

impl Model for Coordinate {
    ghost use Rattle.std.specs.Prelude.{ℤ};
    ghost use Rattle.leg_lex.specs.Number.{IsNumber};

    ghost Value = { ℤ };

    ghost view = { λ c. c.number };

    ghost invariant = { λ c. IsNumber c.number };

    ghost inverse = { λ z. record { number = z } };
}

impl Coordinate {
    /// The coordinate of this number.
    pub fn new(number: i64) -> Coordinate
        requires { IsNumber number }
        ensures { result ≡ number }
    {
        Coordinate { number }
    }

    /// Its number.
    pub fn number(self) -> i64
        ensures { result ≡ self }
    {
        self.number
    }
}

//! What forms ask of numbers.

ghost use Rattle.std.specs.Prelude.{◌≡◌, ◌≤◌, pos, unsigned_abs};
ghost use Rattle.leg_geom.specs.Plane.{halfway};
ghost use Rattle.leg_design_records.specs.Wires.{is_even};
ghost use Rattle.leg_grammar.specs.Def.Guard.{is_within};

use leg_lex::NUMBER_LIMIT;

/// Whether a number is within the limit of numbers.
pub fn is_within(number: i64) -> bool
    ensures { result ≡ is_within number }
{
    number.unsigned_abs() <= NUMBER_LIMIT
}

/// Half a number, rounded down.
pub fn half(number: i64) -> i64
    ensures is { result ≡ halfway (pos 0) number }
    ensures small { unsigned_abs result ≤ unsigned_abs number }
{
    number.div_euclid(2)
}

/// Whether a number is even.
pub fn is_even(number: i64) -> bool
    ensures { result ≡ is_even number }
{
    half(number) + half(number) == number
}

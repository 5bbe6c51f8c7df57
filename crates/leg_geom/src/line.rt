//! Coordinates in increasing order.

ghost use Rattle.std.specs.Prelude.{◌<ℤ◌, ◌≤◌, AllPairs, length};
ghost use Rattle.leg_geom.specs.Line.{ArePlaces};

/// The places of the values from low to high, both among them, in a list of increasing values: the first place, and the one
/// past the last. Where no value lies there, the first is not below the other.
pub fn places_within(values: &[i64], low: i64, high: i64) -> (usize, usize)
    ensures within { result.1 ≤ length values.now }
    ensures places { AllPairs (λ a b. a <ℤ b) values.now → ArePlaces values.now low high result.0 result.1 }
{
    let first = values.partition_point(|z| *z < low);
    let end = values.partition_point(|z| *z <= high);
    (first, end)
}

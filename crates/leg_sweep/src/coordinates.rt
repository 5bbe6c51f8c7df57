//! Coordinates as numbers that are not negative.

ghost use Rattle.std.specs.Prelude.{◌≡◌, ◌≤◌, ◌*◌};
ghost use Rattle.leg_geom.specs.Plane.{IsCoordinate};
ghost use Rattle.leg_geom.specs.declared.limits.TheConstants.{COORDINATE_LIMIT};
ghost use Rattle.leg_sweep.specs.Steps.Offsets.{offset_of};

use leg_geom::COORDINATE_LIMIT;

/// How far the coordinate lies above the lowest one.
pub(crate) fn offset(coordinate: i64) -> u64
    requires { IsCoordinate coordinate }
    ensures is { result ≡ offset_of coordinate }
    ensures small { result ≤ 2 * COORDINATE_LIMIT }
{
    (coordinate + COORDINATE_LIMIT as i64) as u64
}

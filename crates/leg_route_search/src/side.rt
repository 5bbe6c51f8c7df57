//! The sides of a node.

ghost use Rattle.std.specs.Prelude.{◌≡◌};
ghost use Rattle.leg_route_search.specs.Steps.Side.{opposite};

use leg_rules::Side;

/// The side across from this one.
pub fn opposite(side: Side) -> Side
    ensures { result ≡ opposite side }
{
    match side {
        Side::West => Side::East,
        Side::East => Side::West,
        Side::South => Side::North,
        Side::North => Side::South,
        Side::Below => Side::Above,
        Side::Above => Side::Below,
    }
}

//! Coordinates that a text writes.

ghost use Rattle.std.specs.Prelude.{◌≡◌, unwrap_or};
ghost use Rattle.leg_lex.specs.Words.{Reads, whole_at};
ghost use Rattle.leg_geom.specs.Plane.{IsCoordinate};

use leg_geom::Point;
use leg_grammar::Coordinate;
use leg_lex::{Cursor, ReadFault};

/// Reads a coordinate. Another word is `BadNumber`, or `TooLarge` beyond the limit.
#[tactic(auto, using(leg_design_common::proofs::Numbers::whole_is_number))]
pub(crate) fn read_coordinate(words: &mut Cursor<'_, '_>) -> Result<Coordinate, ReadFault>
    ensures { Reads (λ c. c) result words.new (whole_at words.old) }
{
    let number = words.whole()?;
    Ok(Coordinate::new(number))
}

/// The coordinate, or that of the point before where none is written.
pub(crate) fn coordinate_or(coordinate: Option<Coordinate>, before: i64) -> i64
    requires { IsCoordinate before }
    ensures is { result ≡ unwrap_or coordinate before }
    ensures within { IsCoordinate result }
{
    match coordinate {
        Some(coordinate) => coordinate.number(),
        None => before,
    }
}

/// The point with these coordinates.
pub(crate) fn point(x: Coordinate, y: Coordinate) -> Point
    ensures { result ≡ record { x = x; y = y } }
{
    Point::new(x.number(), y.number()).unwrap()
}

//! Rectangles that forms give by their sides.

ghost use Rattle.std.specs.Prelude.{◌≡◌};
ghost use Rattle.leg_grammar.specs.Def.CutArray.{are_within, is_area, area_of};

use crate::number::is_within;
use leg_geom::Rect;

/// Whether the sides of a rectangle are within the limit of numbers.
fn are_within(x1: i64, y1: i64, x2: i64, y2: i64) -> bool
    ensures { result ≡ are_within (record { x1 = x1; y1 = y1; x2 = x2; y2 = y2 }) }
{
    is_within(x1) && is_within(y1) && is_within(x2) && is_within(y2)
}

/// Whether it has area besides.
fn is_area(x1: i64, y1: i64, x2: i64, y2: i64) -> bool
    ensures { result ≡ is_area (record { x1 = x1; y1 = y1; x2 = x2; y2 = y2 }) }
{
    are_within(x1, y1, x2, y2) && x1 < x2 && y1 < y2
}

/// The rectangle of these sides, where it has area and lies within the limit of numbers.
#[tactic(auto, using(crate::proofs::Areas::is_rect), unfolding(leg_grammar::specs::Def::CutArray::area_of))]
pub fn area(x1: i64, y1: i64, x2: i64, y2: i64) -> Option<Rect>
    ensures { result ≡ area_of (record { x1 = x1; y1 = y1; x2 = x2; y2 = y2 }) }
{
    if is_area(x1, y1, x2, y2) {
        Some(Rect::new(x1, y1, x2, y2).unwrap())
    } else {
        None
    }
}

//! Points, sizes and rectangles (LEF/DEF 5.8, "Macro").

ghost use Rattle.std.specs.Prelude.{◌≡◌};
ghost use Rattle.std.specs.Int.{int_min, int_max};
ghost use Rattle.leg_lex.specs.Words.{Reads, Means};
ghost use Rattle.leg_grammar.specs.Lef.Point.{coordinates_at, enclosed_point_at, point_at, rect_in, size_in};
ghost use Rattle.leg_lib_records.specs.Measure.{rect_between};

use leg_grammar::Profile;
use leg_grammar::mask::{is_at_mask, mask};
use leg_lex::{Cursor, FaultKind, Micron, ReadFault};
use leg_lib_records::{RawExtent, RawPoint, RawRect};

/// Two lengths.
#[tactic(auto, unfolding(leg_grammar::specs::Lef::Point::coordinates_at))]
fn coordinates(words: &mut Cursor<'_, '_>) -> Result<RawPoint, ReadFault>
    ensures { Reads (λ p. p) result words.new (coordinates_at words.old) }
{
    let x = words.length()?;
    let y = words.length()?;
    Ok(RawPoint::new(x, y))
}

/// Two lengths in parentheses.
#[tactic(auto, unfolding(leg_grammar::specs::Lef::Point::enclosed_point_at))]
fn enclosed_point(words: &mut Cursor<'_, '_>) -> Result<RawPoint, ReadFault>
    ensures { Reads (λ p. p) result words.new (enclosed_point_at words.old) }
{
    words.mark(b'(')?;
    let point = coordinates(words)?;
    words.mark(b')')?;
    Ok(point)
}

/// A point: two lengths, which may be in parentheses.
#[tactic(auto, unfolding(leg_grammar::specs::Lef::Point::point_at))]
pub(crate) fn point(words: &mut Cursor<'_, '_>) -> Result<RawPoint, ReadFault>
    ensures { Reads (λ p. p) result words.new (point_at words.old) }
{
    if words.is_at(b"(") {
        enclosed_point(words)
    } else {
        coordinates(words)
    }
}

/// The lower of two lengths.
pub(crate) fn lower(a: Micron, b: Micron) -> Micron
    ensures { result ≡ int_min a b }
{
    if b.millionths() < a.millionths() {
        b
    } else {
        a
    }
}

/// The higher of two lengths.
pub(crate) fn higher(a: Micron, b: Micron) -> Micron
    ensures { result ≡ int_max a b }
{
    if b.millionths() < a.millionths() {
        a
    } else {
        b
    }
}

/// The rectangle between two corners, which are in any order, where it has area.
#[tactic(auto, unfolding(leg_lib_records::specs::Measure::rect_between))]
pub(crate) fn rect_between(p: &RawPoint, q: &RawPoint) -> Option<RawRect>
    ensures { result ≡ rect_between p.now q.now }
{
    let x1 = lower(p.x(), q.x());
    let y1 = lower(p.y(), q.y());
    let x2 = higher(p.x(), q.x());
    let y2 = higher(p.y(), q.y());
    if x1.millionths() < x2.millionths() && y1.millionths() < y2.millionths() {
        Some(RawRect::new(x1, y1, x2, y2))
    } else {
        None
    }
}

/// The rectangle of a `RECT` statement, whose corners are in any order.
#[tactic(auto, unfolding(leg_grammar::specs::Lef::Point::rect_in, leg_grammar::specs::Mask::past_mask))]
pub(crate) fn rect(profile: Profile, statement: &mut Cursor<'_, '_>) -> Result<RawRect, ReadFault>
    ensures { Means (λ r. r) result (rect_in profile statement.old) }
{
    statement.keyword(b"RECT")?;
    if is_at_mask(profile, statement) {
        mask(statement)?;
    }
    let corner = statement.again();
    let p = point(statement)?;
    let q = point(statement)?;
    statement.nothing_more()?;
    match rect_between(&p, &q) {
        Some(rect) => Ok(rect),
        None => Err(corner.fault(FaultKind::EmptyRect)),
    }
}

/// The width and the height of a `SIZE` statement.
#[tactic(auto, unfolding(leg_grammar::specs::Lef::Point::size_in))]
pub(crate) fn size(statement: &mut Cursor<'_, '_>) -> Result<RawExtent, ReadFault>
    ensures { Means (λ s. s) result (size_in statement.old) }
{
    statement.keyword(b"SIZE")?;
    let first = statement.again();
    let width = statement.length()?;
    statement.keyword(b"BY")?;
    let height = statement.length()?;
    statement.nothing_more()?;
    if width.millionths() > 0 && height.millionths() > 0 {
        Ok(RawExtent::new(width, height))
    } else {
        Err(first.fault(FaultKind::EmptyRect))
    }
}

//! Points, rectangles, orientations and places as DEF writes them (LEF/DEF 5.8, "Components", "Pins").

ghost use Rattle.std.specs.Prelude.{◌≡◌, ◌≢◌, IfErr, MatchOption, None, Some};
ghost use Rattle.leg_lex.specs.declared.read_fault.FaultKind.TheVariants.{Memory};
ghost use Rattle.leg_lex.specs.Words.{Reads, Means};
ghost use Rattle.leg_lib_records.specs.Measure.{rect_between};
ghost use Rattle.leg_grammar.specs.Def.Placement.{spot_at, rect_at, orient_of, orient_at, place_at, place_as, says_place, placed_in};

use leg_design_records::Status;
use leg_geom::{Orient, Place, Point, Rect};
use leg_lex::{Cursor, FaultKind, Need, ReadFault, is_keyword};

/// A point: `( x y )`.
#[tactic(auto, using(crate::proofs::Numbers::whole_is_coordinate), unfolding(leg_grammar::specs::Def::Placement::spot_at))]
pub fn point(words: &mut Cursor<'_, '_>) -> Result<Point, ReadFault>
    ensures reads { Reads (λ p. p) result words.new (spot_at words.old) }
    ensures no_memory { IfErr result (λ fault. fault.kind ≢ Memory) }
{
    words.mark(b'(')?;
    let x = words.whole()?;
    let y = words.whole()?;
    words.mark(b')')?;
    // Numbers are within the limit of coordinates.
    let point = Point::new(x, y).unwrap();
    Ok(point)
}

/// The rectangle between two corners, which are in any order, where it has area.
pub fn rect_between(p: &Point, q: &Point) -> Option<Rect>
    ensures { result ≡ rect_between p.now q.now }
{
    Rect::new(
        p.x().min(q.x()),
        p.y().min(q.y()),
        p.x().max(q.x()),
        p.y().max(q.y()),
    )
}

/// A rectangle by two corners, which are in any order. One without area is `EmptyRect`.
#[tactic(auto, unfolding(leg_grammar::specs::Def::Placement::rect_at))]
pub fn rect(words: &mut Cursor<'_, '_>) -> Result<Rect, ReadFault>
    ensures reads { Reads (λ r. r) result words.new (rect_at words.old) }
    ensures no_memory { IfErr result (λ fault. fault.kind ≢ Memory) }
{
    let corner = words.again();
    let p = point(words)?;
    let q = point(words)?;
    match rect_between(&p, &q) {
        Some(rect) => Ok(rect),
        None => Err(corner.fault(FaultKind::EmptyRect)),
    }
}

/// The orientation of this name, in capitals or small letters.
fn orient_of(word: &[u8]) -> Option<Orient>
    ensures { result ≡ orient_of word.now }
{
    if is_keyword(b"N", word) {
        Some(Orient::N)
    } else if is_keyword(b"S", word) {
        Some(Orient::S)
    } else if is_keyword(b"W", word) {
        Some(Orient::W)
    } else if is_keyword(b"E", word) {
        Some(Orient::E)
    } else if is_keyword(b"FN", word) {
        Some(Orient::FN)
    } else if is_keyword(b"FS", word) {
        Some(Orient::FS)
    } else if is_keyword(b"FW", word) {
        Some(Orient::FW)
    } else if is_keyword(b"FE", word) {
        Some(Orient::FE)
    } else {
        None
    }
}

/// One of the eight orientations. Another word is `Unexpected`.
#[tactic(auto, unfolding(leg_grammar::specs::Def::Placement::orient_at))]
pub fn orient(words: &mut Cursor<'_, '_>) -> Result<Orient, ReadFault>
    ensures reads { Reads (λ o. o) result words.new (orient_at words.old) }
    ensures no_memory { IfErr result (λ fault. fault.kind ≢ Memory) }
{
    let first = words.again();
    let word = words.any()?;
    match orient_of(word) {
        Some(orient) => Ok(orient),
        None => Err(first.need(FaultKind::Unexpected, Need::Orient)),
    }
}

/// The orientation that comes next, if one does. It is read past.
#[tactic(auto, unfolding(leg_grammar::specs::Def::Placement::orient_at))]
pub fn next_orient(words: &mut Cursor<'_, '_>) -> Option<Orient>
    ensures { MatchOption result (orient_at words.old ≡ None) (λ orient. orient_at words.old ≡ Some (orient, words.new)) }
{
    let Ok(word) = words.any() else {
        return None;
    };
    orient_of(word)
}

/// A place: `( x y )` and an orientation.
#[tactic(auto, unfolding(leg_grammar::specs::Def::Placement::place_at))]
pub fn place(words: &mut Cursor<'_, '_>) -> Result<Place, ReadFault>
    ensures reads { Reads (λ p. p) result words.new (place_at words.old) }
    ensures no_memory { IfErr result (λ fault. fault.kind ≢ Memory) }
{
    let at = point(words)?;
    let orient = orient(words)?;
    Ok(Place { at, orient })
}

/// Whether a clause gives a place.
pub fn says_place(clause: &Cursor<'_, '_>) -> bool
    ensures { result ≡ says_place clause.now }
{
    clause.is_at(b"PLACED") || clause.is_at(b"FIXED") || clause.is_at(b"COVER")
}

/// The place after the keyword that denotes this status.
#[tactic(auto, unfolding(leg_grammar::specs::Def::Placement::place_as))]
fn place_as(status: Status, clause: &mut Cursor<'_, '_>) -> Result<(Status, Place), ReadFault>
    ensures means { Means (λ p. p) result (place_as status clause.old) }
    ensures no_memory { IfErr result (λ fault. fault.kind ≢ Memory) }
{
    clause.any()?;
    let place = place(clause)?;
    clause.nothing_more()?;
    Ok((status, place))
}

/// The status and the place that a clause gives. Another first word is `Unexpected`.
#[tactic(auto, unfolding(leg_grammar::specs::Def::Placement::placed_in))]
pub fn placed(clause: &mut Cursor<'_, '_>) -> Result<(Status, Place), ReadFault>
    ensures means { Means (λ p. p) result (placed_in clause.old) }
    ensures no_memory { IfErr result (λ fault. fault.kind ≢ Memory) }
{
    if clause.is_at(b"PLACED") {
        place_as(Status::Placed, clause)
    } else if clause.is_at(b"FIXED") {
        place_as(Status::Fixed, clause)
    } else if clause.is_at(b"COVER") {
        place_as(Status::Cover, clause)
    } else {
        Err(clause.fault(FaultKind::Unexpected))
    }
}

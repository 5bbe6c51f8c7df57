//! The die area (LEF/DEF 5.8, "Die Area").

ghost use Rattle.std.specs.Prelude.{◌≡◌, []};
ghost use Rattle.leg_lex.specs.Words.{Reads};
ghost use Rattle.leg_lex.specs.Until.{until};
ghost use Rattle.leg_grammar.specs.Def.Die.{at_no_spot, one_spot, have_one_x, have_one_y, go_round, die_of, die_at};

use leg_design_common::placement::{point, rect_between};
use leg_geom::{Point, Rect};
use leg_lex::{Cursor, FaultKind, Need, ReadFault};
use std::alloc::Allocator;

/// Points, one after the other.
#[tactic(auto, using(leg_lex::proofs::Until::ends, leg_lex::proofs::Until::goes_on, leg_lex::proofs::Until::fails, crate::proofs::Dies::one_spot_shortens, crate::proofs::Dies::one_spot_shorter), unfolding(leg_grammar::specs::Def::Die::one_spot))]
fn points<A: Allocator + Copy>(
    alloc: A,
    words: &mut Cursor<'_, '_>,
) -> Result<Vec<Point, A>, ReadFault>
    ensures { Reads (λ v. v.items) result words.new (until at_no_spot one_spot [] words.old) }
{
    let mut points = Vec::new(alloc);
    'points: while words.is_at(b"(") {
        points.push(point(words)?)?;
    }
    Ok(points)
}

/// Whether two points have one x.
fn have_one_x(p: &Point, q: &Point) -> bool
    ensures { result ≡ have_one_x p.now q.now }
{
    p.x() == q.x()
}

/// Whether two points have one y.
fn have_one_y(p: &Point, q: &Point) -> bool
    ensures { result ≡ have_one_y p.now q.now }
{
    p.y() == q.y()
}

/// Whether four points, one after the other, go round a rectangle.
fn go_round(p: &Point, q: &Point, r: &Point, s: &Point) -> bool
    ensures { result ≡ go_round p.now q.now r.now s.now }
{
    (have_one_x(p, q) && have_one_y(q, r) && have_one_x(r, s) && have_one_y(s, p))
        || (have_one_y(p, q) && have_one_x(q, r) && have_one_y(r, s) && have_one_x(s, p))
}

/// The die with these points on its border, if they are of a form that is read.
fn die_of(points: &[Point]) -> Option<Rect>
    ensures { result ≡ die_of points.now }
{
    match points {
        [p, q] => rect_between(p, q),
        [p, q, r, s] if go_round(p, q, r, s) => rect_between(p, r),
        _ => None,
    }
}

/// The die area: two corners, or four points that go round a rectangle. Two corners without area are `EmptyRect`, and
/// other areas are `Unsupported`.
#[tactic(auto, unfolding(leg_grammar::specs::Def::Die::die_at))]
pub fn die<A: Allocator + Copy>(alloc: A, words: &mut Cursor<'_, '_>) -> Result<Rect, ReadFault>
    ensures { Reads (λ r. r) result words.new (die_at words.old) }
{
    words.keyword(b"DIEAREA")?;
    let first = words.again();
    let points = points(alloc, words)?;
    words.mark(b';')?;
    match die_of(&points) {
        Some(die) => Ok(die),
        None if points.len() == 2 => Err(first.fault(FaultKind::EmptyRect)),
        None => Err(first.need(FaultKind::Unsupported, Need::PlainDie)),
    }
}

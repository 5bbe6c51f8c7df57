//! Paths of ports and of obstructions (LEF/DEF 5.8, "Layer Geometries").

ghost use Rattle.std.specs.Prelude.{◌≡◌, ◌<ℤ◌, ◌-ℤ◌, pos, IfSome};
ghost use Rattle.leg_lex.specs.Words.{Reads, Means};
ghost use Rattle.leg_lex.specs.Until.{over};
ghost use Rattle.leg_design_records.specs.Wires.{is_straight};
ghost use Rattle.leg_grammar.specs.Lef.Copies.{length_within};
ghost use Rattle.leg_grammar.specs.Lef.Path.{is_read_path, path_width, half_of, rect_around, line_to, points_after, path_in};

use crate::copies::{length_and, length_within};
use crate::point::{higher, lower, point};
use crate::polygon::more_points;
use leg_design_common::number::{half, is_even};
use leg_grammar::Profile;
use leg_grammar::mask::past_mask;
use leg_lex::{Cursor, FaultKind, FaultPlace, Micron, ReadFault};
use leg_lib_records::{RawKind, RawPoint, RawRect};
use std::alloc::Allocator;
use std::marker::Model;

/// Whether a statement is a path that is read.
pub(crate) fn is_read_path(profile: Profile, statement: &Cursor<'_, '_>) -> bool
    ensures { result ≡ is_read_path profile statement.now }
{
    profile.is_wide() && statement.is_at(b"PATH")
}

/// The width of a path on a layer of this kind: that of the last `WIDTH`, or else that of the layer's wires.
pub(crate) fn path_width(written: Option<Micron>, kind: RawKind) -> Option<Micron>
    ensures { result ≡ path_width written kind }
{
    match (written, kind) {
        (Some(width), _) => Some(width),
        (None, RawKind::Routing { width, .. }) => Some(width),
        (None, RawKind::Cut | RawKind::Other) => None,
    }
}

/// Half of a width that is above 0 and even.
#[tactic(auto, unfolding(leg_grammar::specs::Lef::Path::half_of))]
pub(crate) fn half_of(width: Micron) -> Option<Micron>
    ensures is { result ≡ half_of width }
    ensures above { IfSome result (λ half. pos 0 <ℤ half) }
{
    let number = width.millionths();
    if number > 0 && is_even(number) {
        Some(Micron::of_millionths(half(number)))
    } else {
        None
    }
}

/// Whether the line between two points is horizontal or vertical.
fn is_straight(p: &RawPoint, q: &RawPoint) -> bool
    ensures { result ≡ is_straight p.now q.now }
{
    p.x().millionths() == q.x().millionths() || p.y().millionths() == q.y().millionths()
}

/// A length less another one, in millionths of a micron.
fn less(length: Micron, by: Micron) -> i64
    ensures { result ≡ length -ℤ by }
{
    length.millionths() - by.millionths()
}

/// A length less another one, where it lies within the limit of lengths.
fn length_less(length: Micron, by: Micron) -> Option<Micron>
    ensures { result ≡ length_within (length -ℤ by) }
{
    length_within(less(length, by))
}

/// The rectangle that reaches this far around the straight line between two points, where its sides lie within the limit of
/// lengths.
#[tactic(auto, unfolding(leg_grammar::specs::Lef::Path::rect_around))]
fn rect_around(half: Micron, p: &RawPoint, q: &RawPoint) -> Option<RawRect>
    requires { pos 0 <ℤ half }
    ensures { result ≡ rect_around half p.now q.now }
{
    if !is_straight(p, q) {
        return None;
    }
    let x1 = length_less(lower(p.x(), q.x()), half)?;
    let y1 = length_less(lower(p.y(), q.y()), half)?;
    let x2 = length_and(higher(p.x(), q.x()), half)?;
    let y2 = length_and(higher(p.y(), q.y()), half)?;
    Some(RawRect::new(x1, y1, x2, y2))
}

/// How far a path has come: its last point, and the rectangles of its lines.
#[derive(Drop)]
struct PathSoFar<A: Allocator> {
    at: RawPoint,
    rects: Vec<RawRect, A>,
}

impl<A: Allocator> Model for PathSoFar<A> {
    ghost use Rattle.leg_grammar.specs.Lef.Path as path;

    ghost Value = { path.PathSoFar };

    ghost view = { λ p. record { at = p.at; rects = p.rects.items } };
}

impl<A: Allocator + Copy> PathSoFar<A> {
    /// A line to the next point. One that isn't straight, or reaches beyond the limit of lengths, is `Unsupported`.
    #[tactic(auto, unfolding(leg_grammar::specs::Lef::Path::line_to))]
    fn line_to(
        &mut self,
        half: Micron,
        point: &RawPoint,
        place: FaultPlace<'_>,
    ) -> Result<(), ReadFault>
        requires { pos 0 <ℤ half }
        ensures { Means (λ _. self.new) result (line_to half self.old point.now) }
    {
        let Some(rect) = rect_around(half, &self.at, point) else {
            return Err(place.fault(FaultKind::Unsupported));
        };
        self.rects.push(rect)?;
        self.at = *point;
        Ok(())
    }

    /// Lines from point to point.
    #[tactic(auto, using(leg_lex::proofs::EachElement::over_ends, leg_lex::proofs::EachElement::over_goes_on, leg_lex::proofs::EachElement::over_fails))]
    fn lines_to(
        &mut self,
        half: Micron,
        points: &[RawPoint],
        place: FaultPlace<'_>,
    ) -> Result<(), ReadFault>
        requires { pos 0 <ℤ half }
        ensures { Means (λ _. self.new) result (over (line_to half) self.old points.now) }
    {
        for point in points {
            self.line_to(half, point, place)?;
        }
        Ok(())
    }
}

/// The points to which a path goes from its first one: a path of one point goes to the point itself.
#[tactic(auto, unfolding(leg_grammar::specs::Lef::Path::points_after))]
fn points_after<A: Allocator + Copy>(
    alloc: A,
    first: &RawPoint,
    words: &mut Cursor<'_, '_>,
) -> Result<Vec<RawPoint, A>, ReadFault>
    ensures { Reads (λ v. v.items) result words.new (points_after first.now words.old) }
{
    let mut points = Vec::new(alloc);
    more_points(&mut points, words)?;
    if points.is_empty() {
        points.push(*first)?;
    }
    Ok(points)
}

/// The rectangles of the lines of a `PATH` statement, which reaches this far around them.
#[tactic(auto, unfolding(leg_grammar::specs::Lef::Path::path_in))]
pub(crate) fn path<A: Allocator + Copy>(
    alloc: A,
    profile: Profile,
    half: Micron,
    statement: &mut Cursor<'_, '_>,
) -> Result<Vec<RawRect, A>, ReadFault>
    requires { pos 0 <ℤ half }
    ensures { Means (λ v. v.items) result (path_in profile half statement.old) }
{
    let place = statement.place();
    statement.keyword(b"PATH")?;
    past_mask(profile, statement)?;
    let first = point(statement)?;
    let points = points_after(alloc, &first, statement)?;
    let mut path = PathSoFar {
        at: first,
        rects: Vec::new(alloc),
    };
    path.lines_to(half, &points, place)?;
    Ok(path.rects)
}

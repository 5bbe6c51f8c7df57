//! Copies of rectangles and polygons of ports and of obstructions (LEF/DEF 5.8, "Layer Geometries").

ghost use Rattle.std.specs.Prelude.{◌≡◌, ◌+ℤ◌, Some};
ghost use Rattle.leg_lex.specs.Words.{Reads, Means};
ghost use Rattle.leg_lex.specs.Until.{until, over};
ghost use Rattle.leg_grammar.specs.Lef.Polygon.{one_point};
ghost use Rattle.leg_grammar.specs.Lef.Copies.{pattern_at, behind_mask, at_iterate, is_iterated, copied_rect, at_pattern, copied_polygon, figure_at, copies_in, length_within, moved_rect, with_moved, with_row, with_rows, are_few_copies, with_copies};

use crate::point::{point, rect_between};
use crate::polygon::{one_point, rects_within};
use leg_design_common::count::number_from_one;
use leg_grammar::mask::past_mask;
use leg_grammar::{COPY_LIMIT, Profile};
use leg_lex::{Cursor, FaultKind, FaultPlace, MILLIONTHS_LIMIT, Micron, Need, ReadFault};
use leg_lib_records::{RawPoint, RawRect, RawShape};
use std::alloc::Allocator;
use std::marker::Model;

/// How copies lie: columns along x and rows along y, each at a step from the one before.
#[derive(Clone, Copy)]
pub(crate) struct StepPattern {
    pub(crate) columns: u64,
    pub(crate) rows: u64,
    pub(crate) x_step: Micron,
    pub(crate) y_step: Micron,
}

impl Model for StepPattern {
    ghost use Rattle.leg_grammar.specs.Lef.Copies as copies;

    ghost Value = { copies.StepPattern };

    ghost view = { λ p. record { columns = p.columns; rows = p.rows; x_step = p.x_step; y_step = p.y_step } };

    ghost inverse = { λ p. record { columns = p.columns; rows = p.rows; x_step = p.x_step; y_step = p.y_step } };
}

/// The rectangles that are copied, on one layer, and how their copies lie.
#[derive(Drop)]
pub(crate) struct CopiedFigure<A: Allocator> {
    pub(crate) rects: Vec<RawRect, A>,
    pub(crate) pattern: StepPattern,
}

/// How copies lie: `DO columns BY rows STEP x y`.
#[tactic(auto, unfolding(leg_grammar::specs::Lef::Copies::pattern_at))]
pub(crate) fn pattern(words: &mut Cursor<'_, '_>) -> Result<StepPattern, ReadFault>
    ensures { Reads (λ p. p) result words.new (pattern_at words.old) }
{
    words.keyword(b"DO")?;
    let columns = number_from_one(words)?;
    words.keyword(b"BY")?;
    let rows = number_from_one(words)?;
    words.keyword(b"STEP")?;
    let x_step = words.length()?;
    let y_step = words.length()?;
    Ok(StepPattern {
        columns,
        rows,
        x_step,
        y_step,
    })
}

/// The words behind the first one of a statement and a mask.
#[tactic(auto, unfolding(leg_grammar::specs::Lef::Copies::behind_mask))]
fn behind_mask<'t, 'a>(
    profile: Profile,
    statement: &Cursor<'t, 'a>,
) -> Result<Cursor<'t, 'a>, ReadFault>
    ensures { Means (λ words. words) result (behind_mask profile statement.now) }
{
    let mut words = statement.again();
    words.any()?;
    past_mask(profile, &mut words)?;
    Ok(words)
}

/// Whether `ITERATE` comes behind the first word of a statement and a mask.
fn iterates(profile: Profile, statement: &Cursor<'_, '_>) -> Result<bool, ReadFault>
    ensures { Means (λ is. is) result (Some (at_iterate (behind_mask profile statement.now))) }
{
    match behind_mask(profile, statement) {
        Ok(words) => Ok(words.is_at(b"ITERATE")),
        Err(fault) if fault.kind == FaultKind::Memory => Err(fault),
        Err(_) => Ok(false),
    }
}

/// Whether a statement is a rectangle or a polygon of which copies are read.
pub(crate) fn is_iterated(profile: Profile, statement: &Cursor<'_, '_>) -> Result<bool, ReadFault>
    ensures { Means (λ is. is) result (Some (is_iterated profile statement.now)) }
{
    if !profile.is_wide() {
        return Ok(false);
    }
    if statement.is_at(b"RECT") || statement.is_at(b"POLYGON") {
        iterates(profile, statement)
    } else {
        Ok(false)
    }
}

/// The rectangle between two corners, which are in any order.
#[tactic(auto, unfolding(leg_grammar::specs::Lef::Copies::copied_rect))]
fn copied_rect<A: Allocator + Copy>(
    alloc: A,
    words: &mut Cursor<'_, '_>,
) -> Result<Vec<RawRect, A>, ReadFault>
    ensures { Reads (λ v. v.items) result words.new (copied_rect words.old) }
{
    let corner = words.again();
    let p = point(words)?;
    let q = point(words)?;
    let Some(rect) = rect_between(&p, &q) else {
        return Err(corner.fault(FaultKind::EmptyRect));
    };
    let mut rects = Vec::new(alloc);
    rects.push(rect)?;
    Ok(rects)
}

/// Adds the points up to the pattern.
#[tactic(auto, using(leg_lex::proofs::Until::ends, leg_lex::proofs::Until::goes_on, leg_lex::proofs::Until::fails, crate::proofs::Points::one_point_shortens, crate::proofs::Points::one_point_shorter))]
fn points_before_pattern<A: Allocator + Copy>(
    points: &mut Vec<RawPoint, A>,
    words: &mut Cursor<'_, '_>,
) -> Result<(), ReadFault>
    ensures { Reads (λ _. points.new.items) result words.new (until at_pattern one_point points.old.items words.old) }
{
    'points: while !words.is_at(b"DO") {
        one_point(points, words)?;
    }
    Ok(())
}

/// The slabs of a polygon whose points come before the pattern.
#[tactic(auto, unfolding(leg_grammar::specs::Lef::Copies::copied_polygon))]
fn copied_polygon<A: Allocator + Copy>(
    alloc: A,
    words: &mut Cursor<'_, '_>,
) -> Result<Vec<RawRect, A>, ReadFault>
    ensures { Reads (λ v. v.items) result words.new (copied_polygon words.old) }
{
    let first = words.again();
    let mut points = Vec::new(alloc);
    points_before_pattern(&mut points, words)?;
    rects_within(alloc, &first, &points)
}

/// The rectangles of what is copied.
fn figure<A: Allocator + Copy>(
    alloc: A,
    is_rect: bool,
    words: &mut Cursor<'_, '_>,
) -> Result<Vec<RawRect, A>, ReadFault>
    ensures { Reads (λ v. v.items) result words.new (figure_at is_rect words.old) }
{
    if is_rect {
        copied_rect(alloc, words)
    } else {
        copied_polygon(alloc, words)
    }
}

/// The rectangles of a `RECT` or a `POLYGON` with `ITERATE`, and how their copies lie.
#[tactic(auto, unfolding(leg_grammar::specs::Lef::Copies::copies_in))]
pub(crate) fn copies<A: Allocator + Copy>(
    alloc: A,
    profile: Profile,
    statement: &Cursor<'_, '_>,
) -> Result<CopiedFigure<A>, ReadFault>
    ensures { Means (λ c. (c.rects.items, c.pattern)) result (copies_in profile statement.now) }
{
    let mut words = behind_mask(profile, statement)?;
    words.keyword(b"ITERATE")?;
    let rects = figure(alloc, statement.is_at(b"RECT"), &mut words)?;
    let pattern = pattern(&mut words)?;
    words.nothing_more()?;
    Ok(CopiedFigure { rects, pattern })
}

/// The length of this number of millionths of a micron, where it lies within the limit of lengths.
#[tactic(auto, unfolding(leg_grammar::specs::Lef::Copies::length_within))]
pub(crate) fn length_within(millionths: i64) -> Option<Micron>
    ensures { result ≡ length_within millionths }
{
    if millionths.unsigned_abs() <= MILLIONTHS_LIMIT {
        Some(Micron::of_millionths(millionths))
    } else {
        None
    }
}

/// Two lengths together, in millionths of a micron.
fn together(length: Micron, way: Micron) -> i64
    ensures { result ≡ length +ℤ way }
{
    length.millionths() + way.millionths()
}

/// A length and another one after it, where they lie within the limit of lengths together.
pub(crate) fn length_and(length: Micron, way: Micron) -> Option<Micron>
    ensures { result ≡ length_within (length +ℤ way) }
{
    length_within(together(length, way))
}

/// A rectangle, moved this way, where its sides lie within the limit of lengths.
#[tactic(auto, unfolding(leg_grammar::specs::Lef::Copies::moved_rect))]
fn moved_rect(way: &RawPoint, rect: &RawRect) -> Option<RawRect>
    ensures { result ≡ moved_rect way.now rect.now }
{
    let x1 = length_and(rect.x1(), way.x())?;
    let y1 = length_and(rect.y1(), way.y())?;
    let x2 = length_and(rect.x2(), way.x())?;
    let y2 = length_and(rect.y2(), way.y())?;
    Some(RawRect::new(x1, y1, x2, y2))
}

/// Adds a shape that is moved this way. One beyond the limit of lengths is `TooLarge`.
#[tactic(auto, unfolding(leg_grammar::specs::Lef::Copies::with_moved))]
fn push_moved<A: Allocator + Copy>(
    way: &RawPoint,
    shape: &RawShape,
    place: FaultPlace<'_>,
    shapes: &mut Vec<RawShape, A>,
) -> Result<(), ReadFault>
    ensures { Means (λ _. shapes.new.items) result (with_moved way.now shapes.old.items shape.now) }
{
    let Some(rect) = moved_rect(way, &shape.rect) else {
        return Err(place.fault(FaultKind::TooLarge));
    };
    let layer = shape.layer;
    shapes.push(RawShape { layer, rect })?;
    Ok(())
}

/// Adds the shapes of a figure that is moved this way.
#[tactic(auto, using(leg_lex::proofs::EachElement::over_ends, leg_lex::proofs::EachElement::over_goes_on, leg_lex::proofs::EachElement::over_fails))]
fn push_copy<A: Allocator + Copy>(
    figure: &[RawShape],
    way: &RawPoint,
    place: FaultPlace<'_>,
    shapes: &mut Vec<RawShape, A>,
) -> Result<(), ReadFault>
    ensures { Means (λ _. shapes.new.items) result (over (with_moved way.now) shapes.old.items figure.now) }
{
    for shape in figure {
        push_moved(way, shape, place, shapes)?;
    }
    Ok(())
}

/// Adds a row of copies, the first moved this way.
#[tactic(auto, using(crate::proofs::CopiedShapes::row_on, crate::proofs::CopiedShapes::row_fails, crate::proofs::CopiedShapes::row_fails_in_copy, crate::proofs::CopiedShapes::row_ends))]
fn push_row<A: Allocator + Copy>(
    figure: &[RawShape],
    pattern: &StepPattern,
    way: &RawPoint,
    place: FaultPlace<'_>,
    shapes: &mut Vec<RawShape, A>,
) -> Result<(), ReadFault>
    ensures { Means (λ _. shapes.new.items) result (with_row figure.now pattern.now.x_step pattern.now.columns way.now shapes.old.items) }
{
    let mut x = way.x().millionths();
    for k in 0..pattern.columns {
        let Some(east) = length_within(x) else {
            return Err(place.fault(FaultKind::TooLarge));
        };
        push_copy(figure, &RawPoint::new(east, way.y()), place, shapes)?;
        x = together(east, pattern.x_step);
    }
    Ok(())
}

/// Adds all rows of copies, the first moved this way.
#[tactic(auto, using(crate::proofs::CopiedShapes::rows_on, crate::proofs::CopiedShapes::rows_fail, crate::proofs::CopiedShapes::rows_fail_in_row, crate::proofs::CopiedShapes::rows_end))]
fn push_rows<A: Allocator + Copy>(
    figure: &[RawShape],
    pattern: &StepPattern,
    way: &RawPoint,
    place: FaultPlace<'_>,
    shapes: &mut Vec<RawShape, A>,
) -> Result<(), ReadFault>
    ensures { Means (λ _. shapes.new.items) result (with_rows figure.now pattern.now pattern.now.rows way.now shapes.old.items) }
{
    let mut y = way.y().millionths();
    for k in 0..pattern.rows {
        let Some(north) = length_within(y) else {
            return Err(place.fault(FaultKind::TooLarge));
        };
        push_row(
            figure,
            pattern,
            &RawPoint::new(way.x(), north),
            place,
            shapes,
        )?;
        y = together(north, pattern.y_step);
    }
    Ok(())
}

/// Whether copies of a figure have no more rectangles than those of a statement may have.
fn are_few(pattern: &StepPattern, figure: &[RawShape]) -> bool
    ensures { result ≡ are_few_copies pattern.now figure.now }
{
    let copies = pattern.columns.saturating_mul(pattern.rows);
    copies.saturating_mul(figure.len() as u64) <= COPY_LIMIT
}

/// Adds all copies of a figure, row by row, the first moved this way. More rectangles than there may be are `TooMany`, and one
/// beyond the limit of lengths is `TooLarge`.
#[tactic(auto, unfolding(leg_grammar::specs::Lef::Copies::with_copies))]
pub(crate) fn push_copies<A: Allocator + Copy>(
    figure: &[RawShape],
    pattern: &StepPattern,
    way: &RawPoint,
    place: FaultPlace<'_>,
    shapes: &mut Vec<RawShape, A>,
) -> Result<(), ReadFault>
    ensures { Means (λ _. shapes.new.items) result (with_copies figure.now pattern.now way.now shapes.old.items) }
{
    if !are_few(pattern, figure) {
        return Err(place.fault(FaultKind::TooMany));
    }
    push_rows(figure, pattern, way, place, shapes)
}

//! Rectilinear polygons of a DEF (LEF/DEF 5.8, "Pins", "Blockages", "Special Wiring Statement"; that a polygon is given by its
//! slabs is lefdef's own rule).

ghost use Rattle.std.specs.Prelude.{◌≡◌, All, IfOk};
ghost use Rattle.leg_lex.specs.Words.{Reads, Means};
ghost use Rattle.leg_lex.specs.Until.{until};
ghost use Rattle.leg_geom.specs.Plane.{IsCoordinate, IsSpot, IsRect};
ghost use Rattle.leg_grammar.specs.Lef.Polygon.{slabs_within};
ghost use Rattle.leg_grammar.specs.Def.Polygon.{coordinate_after, point_after, one_point, at_no_point, polygon_at};

use crate::placement::point;
use leg_geom::{Point, Rect};
use leg_grammar::POLYGON_SLABS;
use leg_lex::{Cursor, FaultKind, ReadFault};
use leg_polygon::{PolygonFault, Slab, Vertex, slabs};
use std::alloc::{AllocError, Allocator};

/// A coordinate, or `*` for that of the point before.
#[tactic(auto, using(crate::proofs::Numbers::whole_is_coordinate), unfolding(leg_grammar::specs::Def::Polygon::coordinate_after))]
fn coordinate_after(before: i64, words: &mut Cursor<'_, '_>) -> Result<i64, ReadFault>
    requires { IsCoordinate before }
    ensures reads { Reads (λ z. z) result words.new (coordinate_after before words.old) }
    ensures within { IfOk result (λ z. IsCoordinate z) }
{
    if words.is_at(b"*") {
        words.mark(b'*')?;
        return Ok(before);
    }
    words.whole()
}

/// The point after another.
#[tactic(auto, unfolding(leg_grammar::specs::Def::Polygon::point_after))]
fn point_after(before: &Point, words: &mut Cursor<'_, '_>) -> Result<Point, ReadFault>
    ensures { Reads (λ p. p) result words.new (point_after before.now words.old) }
{
    words.mark(b'(')?;
    let x = coordinate_after(before.x(), words)?;
    let y = coordinate_after(before.y(), words)?;
    words.mark(b')')?;
    // Both are within the limit of coordinates.
    let point = Point::new(x, y).unwrap();
    Ok(point)
}

/// Adds the point that comes next, which is the last one then.
#[tactic(auto, unfolding(leg_grammar::specs::Def::Polygon::one_point))]
fn one_point<A: Allocator + Copy>(
    points: &mut Vec<Point, A>,
    last: &mut Point,
    words: &mut Cursor<'_, '_>,
) -> Result<(), ReadFault>
    ensures { Reads (λ _. (points.new.items, last.new)) result words.new (one_point (points.old.items, last.old) words.old) }
{
    let point = point_after(last, words)?;
    points.push(point)?;
    *last = point;
    Ok(())
}

/// Adds the points that are left.
#[tactic(auto, using(leg_lex::proofs::Until::ends, leg_lex::proofs::Until::goes_on, leg_lex::proofs::Until::fails, crate::proofs::Polygons::one_point_shortens, crate::proofs::Polygons::one_point_shorter))]
fn more_points<A: Allocator + Copy>(
    points: &mut Vec<Point, A>,
    last: &mut Point,
    words: &mut Cursor<'_, '_>,
) -> Result<(), ReadFault>
    ensures { Reads (λ _. (points.new.items, last.new)) result words.new (until at_no_point one_point (points.old.items, last.old) words.old) }
{
    'points: while words.is_at(b"(") {
        one_point(points, last, words)?;
    }
    Ok(())
}

/// A point as a polygon has it.
fn vertex_of(point: &Point) -> Vertex
    ensures is { result ≡ point.now }
    ensures within { IsSpot point.now }
{
    Vertex {
        x: point.x(),
        y: point.y(),
    }
}

/// The points as a polygon has them.
fn vertices<A: Allocator + Copy>(alloc: A, points: &[Point]) -> Result<Vec<Vertex, A>, AllocError>
    ensures are { IfOk result (λ v. v.items ≡ points.now) }
    ensures within { IfOk result (λ v. All IsSpot v.items) }
{
    let mut vertices = Vec::new(alloc);
    'points: for point in points {
        vertices.push(vertex_of(point))?;
    }
    Ok(vertices)
}

/// The slabs of the polygon with these points. More than `POLYGON_SLABS` slabs are `TooLarge`, a side that is neither
/// horizontal nor vertical is `Unsupported`, and a polygon without area is `EmptyRect`, at this word.
#[tactic(auto, unfolding(leg_grammar::specs::Lef::Polygon::slabs_within))]
fn slabs_within<A: Allocator + Copy>(
    alloc: A,
    start: &Cursor<'_, '_>,
    points: &[Point],
) -> Result<Vec<Slab, A>, ReadFault>
    ensures means { Means (λ v. v.items) result (slabs_within points.now) }
    ensures within { IfOk result (λ v. All IsRect v.items) }
{
    let vertices = vertices(alloc, points)?;
    match slabs(alloc, &vertices, POLYGON_SLABS) {
        Ok(slabs) => Ok(slabs),
        Err(PolygonFault::Slanted) => Err(start.fault(FaultKind::Unsupported)),
        Err(PolygonFault::TooMany) => Err(start.fault(FaultKind::TooLarge)),
        Err(PolygonFault::Empty) => Err(start.fault(FaultKind::EmptyRect)),
        Err(PolygonFault::Memory) => Err(start.fault(FaultKind::Memory)),
    }
}

/// A slab, which lies within the limit of coordinates.
fn rect_of(slab: &Slab) -> Rect
    requires { IsRect slab.now }
    ensures { result ≡ slab.now }
{
    Rect::new(slab.x1, slab.y1, slab.x2, slab.y2).unwrap()
}

/// Slabs that lie within the limit of coordinates.
fn rects<A: Allocator + Copy>(alloc: A, slabs: &[Slab]) -> Result<Vec<Rect, A>, AllocError>
    requires { All IsRect slabs.now }
    ensures { IfOk result (λ v. v.items ≡ slabs.now) }
{
    let mut rects = Vec::new(alloc);
    'slabs: for slab in slabs {
        rects.push(rect_of(slab))?;
    }
    Ok(rects)
}

/// The slabs of the polygon with these points, as rectangles.
fn rects_within<A: Allocator + Copy>(
    alloc: A,
    start: &Cursor<'_, '_>,
    points: &[Point],
) -> Result<Vec<Rect, A>, ReadFault>
    ensures { Means (λ v. v.items) result (slabs_within points.now) }
{
    let slabs = slabs_within(alloc, start, points)?;
    let rects = rects(alloc, &slabs)?;
    Ok(rects)
}

/// The slabs of the polygon whose points come next, as rectangles, from the bottom up and from west to east. Too many points
/// are `TooLarge`, a slanted side is `Unsupported`, and a polygon without area is `EmptyRect`, at the word where it starts.
#[tactic(auto, unfolding(leg_grammar::specs::Def::Polygon::polygon_at))]
pub fn polygon<A: Allocator + Copy>(
    alloc: A,
    start: &Cursor<'_, '_>,
    words: &mut Cursor<'_, '_>,
) -> Result<Vec<Rect, A>, ReadFault>
    ensures { Reads (λ v. v.items) result words.new (polygon_at words.old) }
{
    let mut last = point(words)?;
    let mut points = Vec::new(alloc);
    points.push(last)?;
    more_points(&mut points, &mut last, words)?;
    rects_within(alloc, start, &points)
}

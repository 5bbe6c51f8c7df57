//! Rectilinear polygons of ports and of obstructions (LEF/DEF 5.8, "Layer Geometries").

ghost use Rattle.std.specs.Prelude.{◌≡◌, ◌≢◌, map, All, Contains, IfOk};
ghost use Rattle.std.specs.Ordering.{int_eq};
ghost use Rattle.leg_lex.specs.declared.read_fault.FaultKind.TheVariants.{Memory};
ghost use Rattle.leg_lex.specs.Words.{Reads, Means};
ghost use Rattle.leg_lex.specs.Until.{until};
ghost use Rattle.leg_grammar.specs.Def.Guard.{is_over};
ghost use Rattle.leg_grammar.specs.Lef.Polygon.{is_read_polygon, one_point, slabs_within, polygon_in};
ghost use Rattle.leg_lib.specs.Steps.Sides.{StandsAt};

use crate::point::point;
use leg_grammar::mask::past_mask;
use leg_grammar::{POLYGON_SLABS, Profile};
use leg_lex::{Cursor, FaultKind, Micron, ReadFault};
use leg_lib_records::{RawPoint, RawRect};
use leg_polygon::{PolygonFault, Slab, Vertex, slabs};
use std::alloc::{AllocError, Allocator};

/// Whether a statement is a polygon that is read.
pub(crate) fn is_read_polygon(profile: Profile, statement: &Cursor<'_, '_>) -> bool
    ensures { result ≡ is_read_polygon profile statement.now }
{
    profile.is_wide() && statement.is_at(b"POLYGON")
}

/// Adds the point that comes next.
#[tactic(auto, unfolding(leg_grammar::specs::Lef::Polygon::one_point))]
pub(crate) fn one_point<A: Allocator + Copy>(
    points: &mut Vec<RawPoint, A>,
    words: &mut Cursor<'_, '_>,
) -> Result<(), ReadFault>
    ensures { Reads (λ _. points.new.items) result words.new (one_point points.old.items words.old) }
{
    let point = point(words)?;
    points.push(point)?;
    Ok(())
}

/// Adds the points that are left.
#[tactic(auto, using(leg_lex::proofs::Until::ends, leg_lex::proofs::Until::goes_on, leg_lex::proofs::Until::fails, crate::proofs::Points::over_is, crate::proofs::Points::not_over_is, crate::proofs::Points::one_point_shortens, crate::proofs::Points::one_point_shorter))]
pub(crate) fn more_points<A: Allocator + Copy>(
    points: &mut Vec<RawPoint, A>,
    words: &mut Cursor<'_, '_>,
) -> Result<(), ReadFault>
    ensures { Reads (λ _. points.new.items) result words.new (until is_over one_point points.old.items words.old) }
{
    'points: while !words.is_at_end() {
        one_point(points, words)?;
    }
    Ok(())
}

/// The points, in millionths of a micron.
#[tactic(auto, using(crate::proofs::Points::as_they_are))]
fn vertices<A: Allocator + Copy>(
    alloc: A,
    points: &[RawPoint],
) -> Result<Vec<Vertex, A>, AllocError>
    ensures { IfOk result (λ v. v.items ≡ points.now) }
{
    points
        .iter()
        .map(|point| Vertex {
            x: point.x().millionths(),
            y: point.y().millionths(),
        })
        .collect(alloc)
}

/// The x coordinates of the points.
fn all_x<A: Allocator + Copy>(alloc: A, points: &[RawPoint]) -> Result<Vec<Micron, A>, AllocError>
    ensures { IfOk result (λ v. v.items ≡ map (λ point. point.x) points.now) }
{
    points.iter().map(|point| point.x()).collect(alloc)
}

/// The y coordinates of the points.
fn all_y<A: Allocator + Copy>(alloc: A, points: &[RawPoint]) -> Result<Vec<Micron, A>, AllocError>
    ensures { IfOk result (λ v. v.items ≡ map (λ point. point.y) points.now) }
{
    points.iter().map(|point| point.y()).collect(alloc)
}

/// Whether a length is this number of millionths of a micron.
fn is_length(length: Micron, millionths: i64) -> bool
    ensures { result ≡ int_eq length millionths }
{
    length.millionths() == millionths
}

/// That of the lengths which is this number of millionths of a micron.
#[tactic(auto, using(crate::proofs::Sides::is_found, crate::proofs::Sides::none_left))]
fn length_of(lengths: &[Micron], millionths: i64) -> Micron
    requires { Contains lengths.now millionths }
    ensures { result ≡ millionths }
{
    'lengths: for length in lengths {
        if is_length(*length, millionths) {
            return *length;
        }
    }
    Micron::zero()
}

/// The point at coordinates that are among these.
fn point_of(xs: &[Micron], ys: &[Micron], x: i64, y: i64) -> RawPoint
    requires x { Contains xs.now x }
    requires y { Contains ys.now y }
    ensures { result ≡ record { x = x; y = y } }
{
    RawPoint::new(length_of(xs, x), length_of(ys, y))
}

/// The lower left corner of a slab, whose sides stand at these coordinates.
fn low_corner(xs: &[Micron], ys: &[Micron], slab: &Slab) -> RawPoint
    requires { StandsAt xs.now ys.now slab.now }
    ensures { result ≡ record { x = slab.now.x1; y = slab.now.y1 } }
{
    point_of(xs, ys, slab.x1, slab.y1)
}

/// The upper right corner of a slab, whose sides stand at these coordinates.
fn high_corner(xs: &[Micron], ys: &[Micron], slab: &Slab) -> RawPoint
    requires { StandsAt xs.now ys.now slab.now }
    ensures { result ≡ record { x = slab.now.x2; y = slab.now.y2 } }
{
    point_of(xs, ys, slab.x2, slab.y2)
}

/// The rectangle of a slab, whose sides stand at these coordinates.
fn rect_of(xs: &[Micron], ys: &[Micron], slab: &Slab) -> RawRect
    requires { StandsAt xs.now ys.now slab.now }
    ensures { result ≡ slab.now }
{
    let low = low_corner(xs, ys, slab);
    let high = high_corner(xs, ys, slab);
    RawRect::new(low.x(), low.y(), high.x(), high.y())
}

/// The rectangles of slabs, whose sides stand at these coordinates.
fn rects<A: Allocator + Copy>(
    alloc: A,
    xs: &[Micron],
    ys: &[Micron],
    slabs: &[Slab],
) -> Result<Vec<RawRect, A>, AllocError>
    requires { All (StandsAt xs.now ys.now) slabs.now }
    ensures { IfOk result (λ v. v.items ≡ slabs.now) }
{
    let mut rects = Vec::new(alloc);
    'slabs: for slab in slabs {
        rects.push(rect_of(xs, ys, slab))?;
    }
    Ok(rects)
}

/// What a polygon without slabs is refused as.
fn kind_of(fault: PolygonFault) -> FaultKind
    ensures { result ≢ Memory → fault ≢ PolygonFault.Memory }
{
    match fault {
        PolygonFault::Slanted => FaultKind::Unsupported,
        PolygonFault::TooMany => FaultKind::TooLarge,
        PolygonFault::Empty => FaultKind::EmptyRect,
        PolygonFault::Memory => FaultKind::Memory,
    }
}

/// The slabs of the polygon with these points. More than `POLYGON_SLABS` slabs are `TooLarge`, a side that is neither
/// horizontal nor vertical is `Unsupported`, and a polygon without area is `EmptyRect`.
#[tactic(auto, unfolding(leg_grammar::specs::Lef::Polygon::slabs_within))]
fn slabs_within<A: Allocator + Copy>(
    alloc: A,
    statement: &Cursor<'_, '_>,
    points: &[RawPoint],
) -> Result<Vec<Slab, A>, ReadFault>
    ensures { Means (λ v. v.items) result (slabs_within points.now) }
{
    let vertices = vertices(alloc, points)?;
    match slabs(alloc, &vertices, POLYGON_SLABS) {
        Ok(slabs) => Ok(slabs),
        Err(fault) => Err(statement.fault(kind_of(fault))),
    }
}

/// The same as rectangles.
pub(crate) fn rects_within<A: Allocator + Copy>(
    alloc: A,
    statement: &Cursor<'_, '_>,
    points: &[RawPoint],
) -> Result<Vec<RawRect, A>, ReadFault>
    ensures { Means (λ v. v.items) result (slabs_within points.now) }
{
    let slabs = slabs_within(alloc, statement, points)?;
    let xs = all_x(alloc, points)?;
    let ys = all_y(alloc, points)?;
    let rects = rects(alloc, &xs, &ys, &slabs)?;
    Ok(rects)
}

/// The slabs of a `POLYGON` statement.
#[tactic(auto, unfolding(leg_grammar::specs::Lef::Polygon::polygon_in))]
pub(crate) fn polygon<A: Allocator + Copy>(
    alloc: A,
    profile: Profile,
    statement: &mut Cursor<'_, '_>,
) -> Result<Vec<RawRect, A>, ReadFault>
    ensures { Means (λ v. v.items) result (polygon_in profile statement.old) }
{
    let first = statement.again();
    statement.keyword(b"POLYGON")?;
    past_mask(profile, statement)?;
    let mut points = Vec::new(alloc);
    more_points(&mut points, statement)?;
    rects_within(alloc, &first, &points)
}

//! Shapes of vias, turned about the point 0 0 (LEF/DEF 5.8, "Component orientation").

ghost use Rattle.std.specs.Prelude.{◌≡◌, map, IfOk};
ghost use Rattle.std.specs.List.{list_all};
ghost use Rattle.leg_grammar.specs.Def.TurnedVia.{origin, turned_rect, turned_shape, is_same_rect, stays};

use leg_geom::{Orient, Place, Point, Rect};
use leg_lib_records::Shape;
use std::alloc::{AllocError, Allocator};

/// The point 0 0.
pub(crate) fn origin() -> Point
    ensures { result ≡ origin }
{
    // It is within the limit of coordinates.
    let origin = Point::new(0, 0).unwrap();
    origin
}

/// A rectangle, turned about the point 0 0.
fn turned_rect(orient: Orient, rect: &Rect) -> Rect
    ensures { result ≡ turned_rect orient rect.now }
{
    let place = Place {
        at: origin(),
        orient,
    };
    // A side is read, by which the rectangle is known to lie within the limit of coordinates.
    let _left = rect.x1();
    place.rect(0, 0, rect)
}

/// Whether both rectangles are the same.
fn is_same_rect(a: &Rect, b: &Rect) -> bool
    ensures { result ≡ is_same_rect a.now b.now }
{
    a.x1() == b.x1() && a.y1() == b.y1() && a.x2() == b.x2() && a.y2() == b.y2()
}

/// Whether a shape is the same when it is turned.
fn stays(orient: Orient, shape: &Shape) -> bool
    ensures { result ≡ stays orient shape.now }
{
    is_same_rect(&turned_rect(orient, &shape.rect), &shape.rect)
}

/// Whether each shape is the same when it is turned.
pub(crate) fn all_stay(orient: Orient, shapes: &[Shape]) -> bool
    ensures { result ≡ list_all (stays orient) shapes.now }
{
    shapes.iter().all(|shape| stays(orient, shape))
}

/// The shapes, each turned.
pub(crate) fn turned_shapes<A: Allocator + Copy>(
    alloc: A,
    orient: Orient,
    shapes: &[Shape],
) -> Result<Vec<Shape, A>, AllocError>
    ensures { IfOk result (λ turned. turned.items ≡ map (turned_shape orient) shapes.now) }
{
    shapes
        .iter()
        .map(|shape| Shape {
            layer: shape.layer,
            rect: turned_rect(orient, &shape.rect),
        })
        .collect(alloc)
}

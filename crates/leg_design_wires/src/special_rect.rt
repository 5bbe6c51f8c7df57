//! Rectangles of `SPECIALNETS` (LEF/DEF 5.8, "Special Wiring Statement").

ghost use Rattle.std.specs.Prelude.{◌≡◌, ◌<ℤ◌, ◌+ℤ◌, ◌-ℤ◌, pos, [], ◌∷◌, Some};
ghost use Rattle.leg_lex.specs.Words.{Reads, Means};
ghost use Rattle.leg_geom.specs.Plane.{centre};
ghost use Rattle.leg_grammar.specs.Def.SpecialRect.{segment_along_x, segment_along_y, two_along_x, two_along_y, rect_wires, special_rect_at};

use crate::statement::routing;
use leg_design_common::NetScope;
use leg_design_common::number::{is_even, is_within};
use leg_design_common::placement::rect;
use leg_design_records::Wire;
use leg_geom::{Point, Rect};
use leg_lex::{Cursor, FaultKind, ReadFault};
use std::alloc::Allocator;

/// How wide a rectangle is.
fn width(rect: &Rect) -> i64
    ensures { result ≡ rect.now.x2 -ℤ rect.now.x1 }
{
    rect.x2() - rect.x1()
}

/// How high it is.
fn height(rect: &Rect) -> i64
    ensures { result ≡ rect.now.y2 -ℤ rect.now.y1 }
{
    rect.y2() - rect.y1()
}

/// The middle of a rectangle's left side.
fn left_middle(rect: &Rect) -> Point
    ensures { result ≡ record { x = rect.now.x1; y = (centre rect.now).y } }
{
    Point::new(rect.x1(), rect.centre().y()).unwrap()
}

/// The middle of its right side.
fn right_middle(rect: &Rect) -> Point
    ensures { result ≡ record { x = rect.now.x2; y = (centre rect.now).y } }
{
    Point::new(rect.x2(), rect.centre().y()).unwrap()
}

/// The middle of its lower side.
fn lower_middle(rect: &Rect) -> Point
    ensures { result ≡ record { x = (centre rect.now).x; y = rect.now.y1 } }
{
    Point::new(rect.centre().x(), rect.y1()).unwrap()
}

/// The middle of its upper side.
fn upper_middle(rect: &Rect) -> Point
    ensures { result ≡ record { x = (centre rect.now).x; y = rect.now.y2 } }
{
    Point::new(rect.centre().x(), rect.y2()).unwrap()
}

/// The rectangle without its highest row of unit squares.
fn without_top(rect: &Rect) -> Rect
    requires { pos 1 <ℤ (rect.now.y2 -ℤ rect.now.y1) }
    ensures { result ≡ record rect.now { y2 = rect.now.y2 -ℤ pos 1 } }
{
    let top = rect.y2() - 1;
    Rect::new(rect.x1(), rect.y1(), rect.x2(), top).unwrap()
}

/// The rectangle without its lowest row of unit squares.
fn without_bottom(rect: &Rect) -> Rect
    requires { pos 1 <ℤ (rect.now.y2 -ℤ rect.now.y1) }
    ensures { result ≡ record rect.now { y1 = rect.now.y1 +ℤ pos 1 } }
{
    Rect::new(rect.x1(), rect.y1() + 1, rect.x2(), rect.y2()).unwrap()
}

/// The rectangle without its last column of unit squares.
fn without_last(rect: &Rect) -> Rect
    requires { pos 1 <ℤ (rect.now.x2 -ℤ rect.now.x1) }
    ensures { result ≡ record rect.now { x2 = rect.now.x2 -ℤ pos 1 } }
{
    Rect::new(rect.x1(), rect.y1(), rect.x2() - 1, rect.y2()).unwrap()
}

/// The rectangle without its first column of unit squares.
fn without_first(rect: &Rect) -> Rect
    requires { pos 1 <ℤ (rect.now.x2 -ℤ rect.now.x1) }
    ensures { result ≡ record rect.now { x1 = rect.now.x1 +ℤ pos 1 } }
{
    Rect::new(rect.x1() + 1, rect.y1(), rect.x2(), rect.y2()).unwrap()
}

/// A list of one wire.
fn one_wire<A: Allocator + Copy>(alloc: A, wire: Wire) -> Result<Vec<Wire, A>, ReadFault>
    ensures { Means (λ v. v.items) result (Some (wire ∷ [])) }
{
    let mut wires = Vec::new(alloc);
    wires.push(wire)?;
    Ok(wires)
}

/// A list of two wires.
fn two_wires<A: Allocator + Copy>(
    alloc: A,
    first: Wire,
    second: Wire,
) -> Result<Vec<Wire, A>, ReadFault>
    ensures { Means (λ v. v.items) result (Some (first ∷ second ∷ [])) }
{
    let mut wires = Vec::new(alloc);
    wires.push(first)?;
    wires.push(second)?;
    Ok(wires)
}

/// The segment along x in the middle of a rectangle. A width beyond the limit of numbers is `TooLarge`, at this word.
#[tactic(auto, unfolding(leg_grammar::specs::Def::SpecialRect::segment_along_x))]
fn segment_along_x(layer: usize, rect: &Rect, corner: &Cursor<'_, '_>) -> Result<Wire, ReadFault>
    ensures { Means (λ w. w) result (segment_along_x layer rect.now) }
{
    let width = height(rect);
    if !is_within(width) {
        return Err(corner.fault(FaultKind::TooLarge));
    }
    Ok(Wire::Segment {
        layer,
        from: left_middle(rect),
        to: right_middle(rect),
        width,
        ext_from: 0,
        ext_to: 0,
    })
}

/// The segment along y in the middle of a rectangle. A width beyond the limit of numbers is `TooLarge`, at this word.
#[tactic(auto, unfolding(leg_grammar::specs::Def::SpecialRect::segment_along_y))]
fn segment_along_y(layer: usize, rect: &Rect, corner: &Cursor<'_, '_>) -> Result<Wire, ReadFault>
    ensures { Means (λ w. w) result (segment_along_y layer rect.now) }
{
    let width = width(rect);
    if !is_within(width) {
        return Err(corner.fault(FaultKind::TooLarge));
    }
    Ok(Wire::Segment {
        layer,
        from: lower_middle(rect),
        to: upper_middle(rect),
        width,
        ext_from: 0,
        ext_to: 0,
    })
}

/// Two segments along x that together are a rectangle of odd height.
#[tactic(auto, unfolding(leg_grammar::specs::Def::SpecialRect::two_along_x))]
fn two_along_x<A: Allocator + Copy>(
    alloc: A,
    layer: usize,
    rect: &Rect,
    corner: &Cursor<'_, '_>,
) -> Result<Vec<Wire, A>, ReadFault>
    requires { pos 1 <ℤ (rect.now.y2 -ℤ rect.now.y1) }
    ensures { Means (λ v. v.items) result (two_along_x layer rect.now) }
{
    let low = segment_along_x(layer, &without_top(rect), corner)?;
    let high = segment_along_x(layer, &without_bottom(rect), corner)?;
    two_wires(alloc, low, high)
}

/// Two segments along y that together are a rectangle of odd width.
#[tactic(auto, unfolding(leg_grammar::specs::Def::SpecialRect::two_along_y))]
fn two_along_y<A: Allocator + Copy>(
    alloc: A,
    layer: usize,
    rect: &Rect,
    corner: &Cursor<'_, '_>,
) -> Result<Vec<Wire, A>, ReadFault>
    requires { pos 1 <ℤ (rect.now.x2 -ℤ rect.now.x1) }
    ensures { Means (λ v. v.items) result (two_along_y layer rect.now) }
{
    let left = segment_along_y(layer, &without_last(rect), corner)?;
    let right = segment_along_y(layer, &without_first(rect), corner)?;
    two_wires(alloc, left, right)
}

/// The segments that together are a rectangle. For a square unit, which is `Unsupported`, there are none.
#[tactic(auto, unfolding(leg_grammar::specs::Def::SpecialRect::rect_wires))]
pub(crate) fn rect_wires<A: Allocator + Copy>(
    alloc: A,
    layer: usize,
    rect: &Rect,
    corner: &Cursor<'_, '_>,
) -> Result<Vec<Wire, A>, ReadFault>
    ensures { Means (λ v. v.items) result (rect_wires layer rect.now) }
{
    if is_even(height(rect)) {
        let wire = segment_along_x(layer, rect, corner)?;
        one_wire(alloc, wire)
    } else if is_even(width(rect)) {
        let wire = segment_along_y(layer, rect, corner)?;
        one_wire(alloc, wire)
    } else if height(rect) > 1 {
        two_along_x(alloc, layer, rect, corner)
    } else if width(rect) > 1 {
        two_along_y(alloc, layer, rect, corner)
    } else {
        Err(corner.fault(FaultKind::Unsupported))
    }
}

/// The segments of `RECT layer ( x y ) ( x y )`.
#[tactic(auto, unfolding(leg_grammar::specs::Def::SpecialRect::special_rect_at))]
pub(crate) fn special_rect<A: Allocator + Copy>(
    alloc: A,
    scope: &NetScope<'_, '_, A>,
    clause: &mut Cursor<'_, '_>,
) -> Result<Vec<Wire, A>, ReadFault>
    ensures { Reads (λ v. v.items) result clause.new (special_rect_at scope.now clause.old) }
{
    clause.keyword(b"RECT")?;
    let layer = routing(scope.library, clause)?;
    let corner = clause.again();
    let rect = rect(clause)?;
    rect_wires(alloc, layer, &rect, &corner)
}

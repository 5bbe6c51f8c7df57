//! Vias in ports of pins (LEF/DEF 5.8, "Pins"; that they are good, and where their rectangles may lie, is lefdef's own rule).

ghost use Rattle.std.specs.Prelude.{◌≡◌, IfSome};
ghost use Rattle.leg_lex.specs.Words.{Reads, Means};
ghost use Rattle.leg_lex.specs.Until.{over};
ghost use Rattle.leg_geom.specs.Plane.{IsCoordinate};
ghost use Rattle.leg_grammar.specs.Def.PortVia.{number_from, corner_from, rect_from, via_shape, good_via_at, with_via};

use leg_design_common::NetScope;
use leg_design_common::layers::push_rect;
use leg_design_common::placement::{point, rect_between};
use leg_geom::{Point, Rect};
use leg_grammar::mask::past_mask;
use leg_lex::{Cursor, FaultKind, NUMBER_LIMIT, NameKind, Need, ReadFault};
use leg_lib_records::{Library, Shape, ShapeList, Via};
use std::alloc::Allocator;

/// A number, given from a start, where it is within the limit of numbers then.
#[tactic(auto, unfolding(leg_grammar::specs::Def::PortVia::number_from))]
fn number_from(start: i64, z: i64) -> Option<i64>
    requires start { IsCoordinate start }
    requires z { IsCoordinate z }
    ensures is { result ≡ number_from start z }
    ensures within { IfSome result (λ sum. IsCoordinate sum) }
{
    let sum = start + z;
    if sum.unsigned_abs() <= NUMBER_LIMIT {
        Some(sum)
    } else {
        None
    }
}

/// The corner `x y`, given from a point, where it is within the limit of numbers.
#[tactic(auto, unfolding(leg_grammar::specs::Def::PortVia::corner_from))]
fn corner_from(at: &Point, x: i64, y: i64) -> Option<Point>
    requires x { IsCoordinate x }
    requires y { IsCoordinate y }
    ensures { result ≡ corner_from at.now x y }
{
    let from_x = number_from(at.x(), x)?;
    let from_y = number_from(at.y(), y)?;
    // Numbers are within the limit of coordinates.
    let corner = Point::new(from_x, from_y).unwrap();
    Some(corner)
}

/// A rectangle, given from a point, where it is within the limit of numbers.
#[tactic(auto, unfolding(leg_grammar::specs::Def::PortVia::rect_from))]
fn rect_from(at: &Point, rect: &Rect) -> Option<Rect>
    ensures { result ≡ rect_from at.now rect.now }
{
    let lower_left = corner_from(at, rect.x1(), rect.y1())?;
    let upper_right = corner_from(at, rect.x2(), rect.y2())?;
    rect_between(&lower_left, &upper_right)
}

/// Adds a rectangle of a via that lies at a point. One beyond the limit of numbers is `TooLarge` at the clause.
#[tactic(auto, unfolding(leg_grammar::specs::Def::PortVia::via_shape))]
fn push_shape<A: Allocator + Copy>(
    library: &Library<'_, A>,
    at: &Point,
    shape: &Shape,
    shapes: &mut ShapeList<A>,
    clause: &Cursor<'_, '_>,
) -> Result<(), ReadFault>
    ensures { Means (λ _. shapes.new) result (via_shape library.now at.now shapes.old shape.now) }
{
    let Some(rect) = rect_from(at, &shape.rect) else {
        return Err(clause.fault(FaultKind::TooLarge));
    };
    push_rect(library, shape.layer, rect, shapes)?;
    Ok(())
}

/// Adds the rectangles of a via that lies at a point.
#[tactic(auto, using(leg_lex::proofs::EachElement::over_ends, leg_lex::proofs::EachElement::over_goes_on, leg_lex::proofs::EachElement::over_fails))]
pub(crate) fn push_shapes<A: Allocator + Copy>(
    library: &Library<'_, A>,
    at: &Point,
    of_via: &[Shape],
    shapes: &mut ShapeList<A>,
    clause: &Cursor<'_, '_>,
) -> Result<(), ReadFault>
    ensures { Means (λ _. shapes.new) result (over (via_shape library.now at.now) shapes.old of_via.now) }
{
    for shape in of_via {
        push_shape(library, at, shape, shapes, clause)?;
    }
    Ok(())
}

/// A via by its name: one of the library, or of the section `VIAS`. Another name is `UnknownName`, and a via that isn't good
/// `BadVia`.
#[tactic(auto, unfolding(leg_grammar::specs::Def::PortVia::good_via_at))]
fn good_via<'k, 'a, A: Allocator + Copy>(
    scope: &'k NetScope<'_, 'a, A>,
    words: &mut Cursor<'_, '_>,
) -> Result<&'k Via<'a, A>, ReadFault>
    ensures { Reads (λ via. via.now) result words.new (good_via_at scope.now words.old) }
{
    let first = words.again();
    let name = words.name()?;
    let Some(number) = scope.via_named(name) else {
        return Err(first.need(FaultKind::UnknownName, Need::Known(NameKind::Via)));
    };
    let Some(via) = scope.via_numbered(number) else {
        return Err(first.need(FaultKind::UnknownName, Need::Known(NameKind::Via)));
    };
    if !via.good {
        return Err(first.fault(FaultKind::BadVia));
    }
    Ok(via)
}

/// Adds the rectangles of the via of a clause `VIA`. In the narrow profile the clause is `Unsupported`.
#[tactic(auto, unfolding(leg_grammar::specs::Def::PortVia::with_via))]
pub(crate) fn push_via<A: Allocator + Copy>(
    scope: &NetScope<'_, '_, A>,
    shapes: &mut ShapeList<A>,
    clause: &mut Cursor<'_, '_>,
) -> Result<(), ReadFault>
    ensures { Means (λ _. shapes.new) result (with_via scope.now shapes.old clause.old) }
{
    if !scope.profile.is_wide() {
        return Err(clause.fault(FaultKind::Unsupported));
    }
    let first = clause.again();
    clause.keyword(b"VIA")?;
    let via = good_via(scope, clause)?;
    past_mask(scope.profile, clause)?;
    let at = point(clause)?;
    clause.nothing_more()?;
    push_shapes(scope.library, &at, via.shapes.as_slice(), shapes, &first)
}

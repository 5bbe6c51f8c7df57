//! The segments of a path, and the metal of those that are wider or narrower than their layer's wires (LEF/DEF 5.8, "Regular Wiring
//! Statement", "Special Wiring Statement").

ghost use Rattle.std.specs.Prelude.{◌≡◌, pos, ◌-ℤ◌};
ghost use Rattle.std.specs.Ordering.{int_eq};
ghost use Rattle.leg_lex.specs.Number.{IsNumber};
ghost use Rattle.leg_lex.specs.Words.{Means};
ghost use Rattle.leg_geom.specs.Plane.{IsCoordinate, halfway};
ghost use Rattle.leg_grammar.specs.Def.Rule.{width_in};
ghost use Rattle.leg_grammar.specs.Def.CutArray.{area_of};
ghost use Rattle.leg_grammar.specs.Def.Path.{segment_width, other_width, line_start, line_end, line_sides, reach, wide_area, wide_segment, segment_to};
ghost use Rattle.leg_design_records.specs.Wires.{is_straight, default_extension};

use leg_design_common::NetScope;
use leg_design_common::area::area;
use leg_design_common::layers::width_of_layer;
use leg_design_common::number::{half, is_even, is_within};
use leg_design_records::Wire;
use leg_geom::{Point, Rect};
use leg_grammar::PathWidth;
use leg_lex::{FaultKind, FaultPlace, NameKind, Need, ReadFault};
use leg_lib_records::{Library, RuleWidth};
use std::alloc::Allocator;

/// A step of a path on a layer from one point to another, with the extension of each that is given.
#[derive(Clone, Copy)]
pub(crate) struct PathStep {
    pub(crate) layer: usize,
    pub(crate) from: Point,
    pub(crate) to: Point,
    pub(crate) ext_from: Option<i64>,
    pub(crate) ext_to: Option<i64>,
}

/// Whether a segment is horizontal or vertical.
fn is_straight(p: Point, q: Point) -> bool
    ensures { result ≡ is_straight p q }
{
    p.x() == q.x() || p.y() == q.y()
}

/// The width of a segment, which the path writes or the layer has. A width of 0 is `EmptyRect`.
#[tactic(auto, unfolding(leg_grammar::specs::Def::Path::segment_width))]
#[inline(always)]
fn segment_width<A: Allocator + Copy>(
    library: &Library<'_, A>,
    written: Option<i64>,
    layer: usize,
    place: FaultPlace<'_>,
) -> Result<i64, ReadFault>
    ensures { Means (λ width. width) result (segment_width library.now written layer) }
{
    let Some(width) = written else {
        return match width_of_layer(library, layer) {
            Some(width) => Ok(width),
            None => Err(place.need(FaultKind::Unexpected, Need::RoutingLayer)),
        };
    };
    if width == 0 {
        return Err(place.need(FaultKind::EmptyRect, Need::AboveZero));
    }
    Ok(width)
}

/// How far a segment reaches past an end whose extension is not written.
#[tactic(auto, unfolding(leg_design_records::specs::Wires::default_extension))]
fn default_extension<A: Allocator + Copy>(
    library: &Library<'_, A>,
    written: Option<i64>,
    layer: usize,
) -> i64
    ensures { result ≡ default_extension library.now written layer }
{
    match written {
        Some(_) => 0,
        None => half(width_of_layer(library, layer).unwrap_or(0)),
    }
}

/// The width that a rule gives wires on a layer.
#[tactic(auto, using(crate::proofs::RuleWidths::width_here, crate::proofs::RuleWidths::width_later, crate::proofs::RuleWidths::width_nowhere))]
fn width_in(widths: &[RuleWidth], layer: usize) -> Option<i64>
    ensures { result ≡ width_in widths.now layer }
{
    for width in widths {
        if width.layer == layer {
            return Some(width.width);
        }
    }
    None
}

/// The width that a rule gives wires on a layer, where it isn't the layer's.
#[tactic(auto, unfolding(leg_grammar::specs::Def::Path::other_width))]
fn other_width<A: Allocator + Copy>(
    scope: &NetScope<'_, '_, A>,
    number: usize,
    layer: usize,
) -> Option<i64>
    ensures { result ≡ other_width scope.now number layer }
{
    let rule = scope.rule_numbered(number)?;
    let width = width_in(rule.widths.as_slice(), layer)?;
    if width == width_of_layer(scope.library, layer).unwrap_or(0) {
        return None;
    }
    Some(width)
}

/// Where the metal of a line from `a` to `b` begins, from `a`, where it reaches so far beyond each.
fn line_start(a: i64, b: i64, beyond_a: i64, beyond_b: i64) -> i64
    requires a { IsCoordinate a }
    requires b { IsCoordinate b }
    requires beyond_a { IsNumber beyond_a }
    requires beyond_b { IsNumber beyond_b }
    ensures { result ≡ line_start a b beyond_a beyond_b }
{
    if a < b {
        0 - beyond_a
    } else {
        b - a - beyond_b
    }
}

/// Where it ends.
fn line_end(a: i64, b: i64, beyond_a: i64, beyond_b: i64) -> i64
    requires a { IsCoordinate a }
    requires b { IsCoordinate b }
    requires beyond_a { IsNumber beyond_a }
    requires beyond_b { IsNumber beyond_b }
    ensures { result ≡ line_end a b beyond_a beyond_b }
{
    if a < b { b - a + beyond_b } else { beyond_a }
}

/// The metal of a step along x, from its first point, which is this far on each side of the line and beyond its ends, where it lies within
/// the limit of numbers.
fn area_along_x(a: i64, b: i64, half: i64, beyond_a: i64, beyond_b: i64) -> Option<Rect>
    requires a { IsCoordinate a }
    requires b { IsCoordinate b }
    requires half { IsNumber half }
    requires beyond_a { IsNumber beyond_a }
    requires beyond_b { IsNumber beyond_b }
    ensures { result ≡ area_of (record { x1 = line_start a b beyond_a beyond_b; y1 = pos 0 -ℤ half; x2 = line_end a b beyond_a beyond_b; y2 = half }) }
{
    let start = line_start(a, b, beyond_a, beyond_b);
    let end = line_end(a, b, beyond_a, beyond_b);
    area(start, 0 - half, end, half)
}

/// The same of a step along y.
fn area_along_y(a: i64, b: i64, half: i64, beyond_a: i64, beyond_b: i64) -> Option<Rect>
    requires a { IsCoordinate a }
    requires b { IsCoordinate b }
    requires half { IsNumber half }
    requires beyond_a { IsNumber beyond_a }
    requires beyond_b { IsNumber beyond_b }
    ensures { result ≡ area_of (record { x1 = pos 0 -ℤ half; y1 = line_start a b beyond_a beyond_b; x2 = half; y2 = line_end a b beyond_a beyond_b }) }
{
    let start = line_start(a, b, beyond_a, beyond_b);
    let end = line_end(a, b, beyond_a, beyond_b);
    area(0 - half, start, half, end)
}

/// Whether a step is along x.
fn is_along_x(p: Point, q: Point) -> bool
    ensures { result ≡ int_eq p.y q.y }
{
    p.y() == q.y()
}

/// The metal of a step, along x or along y.
fn line_area(p: Point, q: Point, half: i64, beyond_p: i64, beyond_q: i64) -> Option<Rect>
    requires half { IsNumber half }
    requires beyond_p { IsNumber beyond_p }
    requires beyond_q { IsNumber beyond_q }
    ensures { result ≡ area_of (line_sides p q half beyond_p beyond_q) }
{
    if is_along_x(p, q) {
        area_along_x(p.x(), q.x(), half, beyond_p, beyond_q)
    } else {
        area_along_y(p.y(), q.y(), half, beyond_p, beyond_q)
    }
}

/// Half a width that is within the limit of numbers.
fn half_width(width: i64) -> i64
    requires { IsNumber width }
    ensures is { result ≡ halfway (pos 0) width }
    ensures small { IsNumber result }
{
    half(width)
}

/// How far metal of this width reaches beyond an end with this extension.
fn reach(width: i64, extension: Option<i64>) -> i64
    ensures { result ≡ reach width extension }
{
    extension.unwrap_or(half(width))
}

/// The rectangle that the metal of a step of this width is. A side beyond the limit of numbers is `TooLarge`.
#[tactic(auto, using(leg_design_common::proofs::Areas::within_is), unfolding(leg_grammar::specs::Def::Path::wide_area))]
fn wide_area(width: i64, step: &PathStep, place: FaultPlace<'_>) -> Result<Rect, ReadFault>
    ensures { Means (λ r. r) result (wide_area width step.now.from step.now.ext_from step.now.to step.now.ext_to) }
{
    let (beyond_from, beyond_to) = (reach(width, step.ext_from), reach(width, step.ext_to));
    if !is_within(width) {
        return Err(place.fault(FaultKind::TooLarge));
    }
    if !is_within(beyond_from) || !is_within(beyond_to) {
        return Err(place.fault(FaultKind::TooLarge));
    }
    match line_area(
        step.from,
        step.to,
        half_width(width),
        beyond_from,
        beyond_to,
    ) {
        Some(rect) => Ok(rect),
        None => Err(place.fault(FaultKind::TooLarge)),
    }
}

/// A segment of this width, as the rectangle that its metal is. One that is neither horizontal nor vertical is `Diagonal`, an odd width
/// is `OddWidth`, and a side of the rectangle beyond the limit of numbers `TooLarge`.
#[tactic(auto, unfolding(leg_grammar::specs::Def::Path::wide_segment))]
fn wide_segment(width: i64, step: PathStep, place: FaultPlace<'_>) -> Result<Wire, ReadFault>
    ensures { Means (λ w. w) result (wide_segment width step.layer step.from step.ext_from step.to step.ext_to) }
{
    if !is_straight(step.from, step.to) {
        return Err(place.fault(FaultKind::Diagonal));
    }
    if !is_even(width) {
        return Err(place.fault(FaultKind::OddWidth));
    }
    let rect = wide_area(width, &step, place)?;
    Ok(Wire::Patch {
        layer: step.layer,
        at: step.from,
        rect,
    })
}

/// The segment of a step, as wide as its path writes or as the layer's wires, or as its rule gives it. One that is neither horizontal nor
/// vertical is `Diagonal`.
#[inline(always)]
#[tactic(auto, unfolding(leg_grammar::specs::Def::Path::segment_to, leg_grammar::specs::Def::Path::segment_under, leg_grammar::specs::Def::Path::plain_segment))]
pub(crate) fn segment_to<A: Allocator + Copy>(
    scope: &NetScope<'_, '_, A>,
    width: PathWidth,
    step: PathStep,
    place: FaultPlace<'_>,
) -> Result<Wire, ReadFault>
    ensures { Means (λ w. w) result (segment_to scope.now width step.layer step.from step.ext_from step.to step.ext_to) }
{
    let written = match width {
        PathWidth::OfLayers => None,
        PathWidth::OfRule(rule) => {
            if let Some(other) = other_width(scope, rule, step.layer) {
                return wide_segment(other, step, place);
            }
            None
        }
        PathWidth::Written(width) => Some(width),
    };
    if !is_straight(step.from, step.to) {
        return Err(place.fault(FaultKind::Diagonal));
    }
    let width = segment_width(scope.library, written, step.layer, place)?;
    let default = default_extension(scope.library, written, step.layer);
    Ok(Wire::Segment {
        layer: step.layer,
        from: step.from,
        to: step.to,
        width,
        ext_from: step.ext_from.unwrap_or(default),
        ext_to: step.ext_to.unwrap_or(default),
    })
}

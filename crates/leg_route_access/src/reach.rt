//! How far metal on a layer lies from the points of the slots that add it.

ghost use Rattle.std.specs.Prelude.{◌≡◌, ◌<◌, ◌+ℤ◌, pos, All, Some, length, slice_get};
ghost use Rattle.leg_lex.specs.declared.limits.TheConstants.{NUMBER_LIMIT};
ghost use Rattle.leg_lib_records.specs.Sound.{IsWidth, AreWithin, AreShapesWithin};
ghost use Rattle.leg_lib_records.specs.Records.{ViaModel};
ghost use Rattle.leg_rules.specs.Route.StepWires.{half};
ghost use Rattle.leg_route_access.specs.Steps.Reaches.{Reaches, IsDistance, IsReach, ReachesAll, IsWider, ReachesShape, ReachesMetal, AreNearLayers, clear_at, IsFar};

use crate::patch::half;
use leg_design_records::Design;
use leg_geom::Rect;
use leg_lib_records::{Library, Shape};
use leg_route_grid::{Grid, RoutingLayer, grid_is_sound};
use leg_wire_spacing::greatest_spacing_on;
use std::alloc::Allocator;

/// The reach, or 0 where there is none, widened to a rectangle that is given from a point.
fn wider(reach: Option<i64>, rect: &Rect) -> i64
    requires proper { IsReach reach }
    requires rect { AreWithin NUMBER_LIMIT rect.now }
    ensures proper { IsDistance result }
    ensures wider { IsWider reach (Some result) }
    ensures all { ReachesAll (Some result) rect.now }
{
    let left = 0 - rect.x1();
    let bottom = 0 - rect.y1();
    let reach = reach.unwrap_or(0);
    reach.max(left).max(bottom).max(rect.x2()).max(rect.y2())
}

/// The reach, widened to the shape where that lies on this layer.
fn with_shape(reach: Option<i64>, shape: &Shape, layer: usize) -> Option<i64>
    requires proper { IsReach reach }
    requires shape { AreWithin NUMBER_LIMIT shape.now.rect }
    ensures proper { IsReach result }
    ensures wider { IsWider reach result }
    ensures all { ReachesShape result layer shape.now }
{
    if shape.layer == layer {
        Some(wider(reach, &shape.rect))
    } else {
        reach
    }
}

/// The reach, widened to those of the shapes that lie on this layer.
fn with_shapes(reach: Option<i64>, shapes: &[Shape], layer: usize) -> Option<i64>
    requires proper { IsReach reach }
    requires shapes { AreShapesWithin NUMBER_LIMIT shapes.now }
    ensures proper { IsReach result }
    ensures wider { IsWider reach result }
    ensures all { All (ReachesShape result layer) shapes.now }
{
    let mut reach = reach;
    for shape in shapes {
        reach = with_shape(reach, shape, layer);
    }
    reach
}

/// The reach, widened to the shapes on this layer of the via of this number.
fn with_via<A: Allocator + Copy>(
    library: &Library<'_, A>,
    reach: Option<i64>,
    via: usize,
    layer: usize,
) -> Option<i64>
    requires proper { IsReach reach }
    ensures proper { IsReach result }
    ensures wider { IsWider reach result }
    ensures all { (said : ViaModel) → slice_get library.now.vias via ≡ Some said → All (ReachesShape result layer) said.shapes }
{
    match library.vias().get(via) {
        Some(via) => with_shapes(reach, via.shapes.as_slice(), layer),
        None => reach,
    }
}

/// How far a line on the routing layer lies from its middle, if that is this layer.
fn line_reach(own: RoutingLayer, layer: usize) -> Option<i64>
    requires { IsWidth own.width }
    ensures proper { IsReach result }
    ensures reaches { own.number ≡ layer → Reaches result (half own.width) }
{
    if own.number == layer {
        Some(half(own.width))
    } else {
        None
    }
}

/// How far from its slot's point, along x or y, metal on this layer lies at most that a node of routing layer k, a step along it,
/// past the points of its nodes, or a step up adds; `None` where none of it lies on the layer.
pub(crate) fn reach_on<A: Allocator + Copy>(
    grid: &Grid<'_, '_, A>,
    design: &Design<'_, A>,
    k: usize,
    layer: usize,
) -> Option<i64>
    requires of_design { grid.now.design ≡ design.now }
    requires within { k < length grid.now.layers }
    ensures { ReachesMetal grid.now k layer result }
{
    grid_is_sound(grid);
    let line = line_reach(grid.layer_at(k), layer);
    match grid.via_at(k) {
        Some(via) => with_via(design.library(), line, via, layer),
        None => line,
    }
}

/// How far apart metal on the layer of this number may lie along an axis and still be nearer than the greatest spacing on it, or touch.
fn clear_of<A: Allocator + Copy>(library: &Library<'_, A>, layer: usize) -> i64
    ensures is { result ≡ pos (clear_at library.now layer) }
    ensures proper { IsDistance result }
{
    greatest_spacing_on(library, layer).saturating_sub(1) as i64
}

/// How far from a point metal on the layer of this number may lie along an axis and still be too near to metal there that reaches
/// so far from the point.
pub(crate) fn far_on<A: Allocator + Copy>(library: &Library<'_, A>, layer: usize, reach: i64) -> i64
    requires { IsDistance reach }
    ensures is { result ≡ reach +ℤ pos (clear_at library.now layer) }
    ensures proper { IsFar result }
{
    reach + clear_of(library, layer)
}

/// The routing layers, from the first to before the end, of which nodes or steps may add metal on the layer of this number: those
/// just below it and above it, or that layer itself and the one below.
pub(crate) fn layers_near<A: Allocator + Copy>(
    grid: &Grid<'_, '_, A>,
    layer: usize,
) -> (usize, usize)
    ensures { AreNearLayers grid.now layer result.0 result.1 }
{
    let layers = grid.layers();
    let above = layers.partition_point(|own| own.number < layer);
    let end = if above < layers.len() {
        above + 1
    } else {
        above
    };
    (above.saturating_sub(1), end)
}

//! Patches of metal, and which nets may have them beside a shape.

ghost use Rattle.std.specs.Prelude.{◌≡◌, ◌↔◌};
ghost use Rattle.leg_geom.specs.Plane.{PointModel, HasPoint};
ghost use Rattle.leg_lib_records.specs.Sound.{IsWidth};
ghost use Rattle.leg_design_records.specs.declared.records.Wire.TheVariants.{Patch};
ghost use Rattle.leg_design_records.specs.WellFormedParts.{IsPosition};
ghost use Rattle.leg_rules.specs.Metal.Outline.{HasPointOf};
ghost use Rattle.leg_rules.specs.Metal.Outline.Outline.{Shifted};
ghost use Rattle.leg_route_access.specs.Steps.SmallRects.{IsSmallRect};
ghost use Rattle.leg_rules.specs.Route.StepWires.{half, square};
ghost use Rattle.leg_wire_spacing.specs.Access.{alone};
ghost use Rattle.leg_rules.specs.Route.OpenMetal.{IsOpenWire};
ghost use Rattle.leg_route_access.specs.Steps.AccessTable.{AdmitsJust};

use leg_design_records::Design;
use leg_geom::{Point, Rect};
use leg_rules::Shape;
use leg_wire_spacing::{Access, access_beside};
use std::alloc::Allocator;

/// Half a width.
pub(crate) fn half(width: i64) -> i64
    ensures { result ≡ half width }
{
    width.div_euclid(2)
}

/// The square of this width about the point 0 0, in database units: what the node of a layer adds whose wires have this width,
/// given from the node's point.
pub fn square(width: i64) -> Rect
    requires { IsWidth width }
    ensures is { result ≡ square (half width) }
    ensures small { IsSmallRect result }
{
    let half = half(width);
    Rect::new(0 - half, 0 - half, half, half).unwrap()
}

/// The rectangle that is given from a point.
fn shifted(at: &Point, rect: &Rect) -> Rect
    requires at { IsPosition at.now }
    requires rect { IsSmallRect rect.now }
    ensures { (p : PointModel) → HasPoint result p ↔ HasPointOf (Shifted at.now rect.now) p }
{
    rect.moved(at)
}

/// Which nets may have the patch beside this shape, a rectangle that is given from a point.
pub(crate) fn patch_beside<A: Allocator + Copy>(
    design: &Design<'_, A>,
    shape: &Shape,
    layer: usize,
    at: &Point,
    rect: &Rect,
) -> Access
    requires at { IsPosition at.now }
    requires rect { IsSmallRect rect.now }
    ensures { AdmitsJust result (λ net. IsOpenWire design.now (alone shape.now) net (Patch layer at.now rect.now)) }
{
    let metal = shifted(at, rect);
    access_beside(design.library(), shape, layer, &metal)
}

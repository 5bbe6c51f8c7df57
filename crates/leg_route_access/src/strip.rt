//! Steps along a layer, and which nets may have them beside a shape.

ghost use Rattle.std.specs.Prelude.{◌≡◌, ◌-ℤ◌, ◌+ℤ◌, ◌≤ℤ◌};
ghost use Rattle.leg_lex.specs.Number.{IsNumber};
ghost use Rattle.leg_geom.specs.Steps.Intervals.{IsSpan};
ghost use Rattle.leg_lib_records.specs.Sound.{IsWidth};
ghost use Rattle.leg_design_records.specs.declared.records.Wire.TheVariants.{Segment};
ghost use Rattle.leg_design_records.specs.WellFormedParts.{IsPosition};
ghost use Rattle.leg_rules.specs.Route.StepWires.{half};
ghost use Rattle.leg_wire_spacing.specs.Access.{alone};
ghost use Rattle.leg_rules.specs.Route.OpenMetal.{IsOpenWire};
ghost use Rattle.leg_route_access.specs.Steps.AccessTable.{AdmitsJust};
ghost use Rattle.leg_route_access.specs.Steps.Stretches.{IsStretch};

use crate::patch::half;
use leg_design_records::Design;
use leg_geom::{Point, Rect};
use leg_rules::Shape;
use leg_wire_spacing::{Access, access_beside};
use std::alloc::Allocator;

/// From the lower of two coordinates to the higher, and half this width past both.
fn reach(low: i64, high: i64, width: i64) -> (i64, i64)
    requires width { IsWidth width }
    requires low { IsNumber low }
    requires high { IsNumber high }
    requires order { low ≤ℤ high }
    ensures span { IsSpan (record { low = result.0; high = result.1 }) }
    ensures low { result.0 ≡ low -ℤ half width }
    ensures high { result.1 ≡ high +ℤ half width }
{
    let half = half(width);
    (low - half, high + half)
}

/// The rectangle from one point to another, and half this width past both.
fn strip(low: &Point, high: &Point, width: i64) -> Rect
    requires width { IsWidth width }
    requires low { IsPosition low.now }
    requires high { IsPosition high.now }
    requires stretch { IsStretch low.now high.now }
    ensures { result ≡ record { x1 = low.now.x -ℤ half width; y1 = low.now.y -ℤ half width; x2 = high.now.x +ℤ half width; y2 = high.now.y +ℤ half width } }
{
    let (left, right) = reach(low.x(), high.x(), width);
    let (bottom, top) = reach(low.y(), high.y(), width);
    Rect::new(left, bottom, right, top).unwrap()
}

/// Which nets may have a segment of this width between two points beside this shape, which reaches past both by half the width.
/// It does not matter from which of them it is given.
pub(crate) fn strip_beside<A: Allocator + Copy>(
    design: &Design<'_, A>,
    shape: &Shape,
    layer: usize,
    low: &Point,
    high: &Point,
    width: i64,
) -> Access
    requires width { IsWidth width }
    requires low { IsPosition low.now }
    requires high { IsPosition high.now }
    requires stretch { IsStretch low.now high.now }
    ensures forth { AdmitsJust result (λ net. IsOpenWire design.now (alone shape.now) net (Segment layer low.now high.now width (half width) (half width))) }
    ensures back { AdmitsJust result (λ net. IsOpenWire design.now (alone shape.now) net (Segment layer high.now low.now width (half width) (half width))) }
{
    let metal = strip(low, high, width);
    access_beside(design.library(), shape, layer, &metal)
}

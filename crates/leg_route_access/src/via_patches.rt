//! Vias, and which nets may have them beside a shape.

ghost use Rattle.std.specs.Prelude.{◌≡◌, All, Some, slice_get};
ghost use Rattle.leg_lex.specs.declared.limits.TheConstants.{NUMBER_LIMIT};
ghost use Rattle.leg_lib_records.specs.Sound.{AreShapesWithin};
ghost use Rattle.leg_lib_records.specs.Records.{ViaModel};
ghost use Rattle.leg_design_records.specs.declared.records.Wire.TheVariants.{Patch, ViaAt};
ghost use Rattle.leg_design_records.specs.WellFormedParts.{IsPosition};
ghost use Rattle.leg_wire_spacing.specs.Access.{alone};
ghost use Rattle.leg_rules.specs.Route.OpenMetal.{IsOpenWire};
ghost use Rattle.leg_route_access.specs.Steps.AccessTable.{AdmitsJust};

use crate::patch::patch_beside;
use leg_design_records::Design;
use leg_geom::Point;
use leg_lib_records::Shape;
use leg_rules as rules;
use leg_wire_spacing::Access;
use std::alloc::Allocator;

/// Which nets may have all these patches, given from a point, beside this shape.
fn patches_beside<A: Allocator + Copy>(
    design: &Design<'_, A>,
    shape: &rules::Shape,
    at: &Point,
    patches: &[Shape],
) -> Access
    requires at { IsPosition at.now }
    requires patches { AreShapesWithin NUMBER_LIMIT patches.now }
    ensures { AdmitsJust result (λ net. All (λ patch. IsOpenWire design.now (alone shape.now) net (Patch patch.layer at.now patch.rect)) patches.now) }
{
    let mut access = Access::Free;
    for patch in patches {
        access = access.and(patch_beside(design, shape, patch.layer, at, &patch.rect));
    }
    access
}

/// Which nets may have the via of this number of the library, at a point, beside this shape.
pub(crate) fn via_beside<A: Allocator + Copy>(
    design: &Design<'_, A>,
    shape: &rules::Shape,
    via: usize,
    at: &Point,
) -> Access
    requires at { IsPosition at.now }
    ensures { (said : ViaModel) → slice_get design.now.library.vias via ≡ Some said
        → AdmitsJust result (λ net. IsOpenWire design.now (alone shape.now) net (ViaAt via at.now)) }
{
    match design.library().vias().get(via) {
        Some(via) => patches_beside(design, shape, at, via.shapes.as_slice()),
        None => Access::Free,
    }
}

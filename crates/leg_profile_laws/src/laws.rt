//! What the narrow profile reads, each profile reads as the same; and what a form of the wide profile means in points.
//!
//! No function does anything: its contract is the law, and its body names the laws that it follows from. So a form that the wide
//! profile takes is one that the narrow profile refuses, wherever it stands in a text, but for some of a LEF: a via of a rule, or with a
//! polygon or with masks, is kept by its name alone in the narrow profile, and can have shapes in the wide one; and a nondefault rule is
//! read past in the narrow profile.

ghost use Rattle.std.specs.Prelude.{◌≡◌, ◌↔◌, ℕ, List, Some, ◌≢◌, ℤ, Option};
ghost use Rattle.leg_lex.specs.Denotes.{Denotes};
ghost use Rattle.leg_geom.specs.Plane.{PointModel, RectModel, HasPoint};
ghost use Rattle.leg_lib_records.specs.Measure.{IsProper};
ghost use Rattle.leg_lib_records.specs.Records.{RawLibraryModel, LibraryModel};
ghost use Rattle.leg_design_records.specs.declared.records.Wire.{Wire};
ghost use Rattle.leg_design_records.specs.Records.{DesignModel};
ghost use Rattle.leg_grammar.specs.declared.profile.Profile.{Profile};
ghost use Rattle.leg_grammar.specs.declared.profile.Profile.TheVariants.{Narrow};
ghost use Rattle.leg_grammar.specs.Lef.Library.{DenoteLibrary};
ghost use Rattle.leg_rules.specs.Metal.Outline.{HasPointOf};
ghost use Rattle.leg_rules.specs.Metal.Outline.Outline.{Line};
ghost use Rattle.leg_grammar.specs.Def.Path.{reach, wide_segment};
ghost use Rattle.leg_grammar.specs.Def.SpecialRect.{rect_wires};
ghost use Rattle.leg_grammar.specs.Def.Form.{design_in};
ghost use Rattle.leg_grammar.specs.Texts.{DenoteLibraryFor, DenoteDesign};
ghost use Rattle.leg_profile_laws.specs.WiderForms.{HaveNoWider};
ghost use Rattle.leg_profile_laws.specs.SegmentMetal.{IsOfSome, IsOfPatch};

/// A DEF that denotes a design under a library in the narrow profile denotes this design under it in each profile, and no other.
pub fn narrow_def_is_read_the_same()
    ensures design { (profile : Profile) (library : LibraryModel) (def : List ℕ) (design : DesignModel)
        → Denotes (design_in Narrow library) def design → Denotes (design_in profile library) def design }
    ensures same { (profile : Profile) (library : LibraryModel) (def : List ℕ) (design other : DesignModel)
        → Denotes (design_in Narrow library) def design → Denotes (design_in profile library) def other → other ≡ design }
{}

/// LEF texts that denote a library in the narrow profile denote this library in each profile, if they have none of the forms of which that
/// makes more: a nondefault rule, a via of a rule, a polygon and, where the profile drops masks, a rectangle with a mask.
pub fn narrow_lefs_are_read_the_same()
    ensures { (profile : Profile) (lefs : List (List ℕ)) (library : RawLibraryModel) → HaveNoWider profile lefs
        → DenoteLibrary Narrow lefs library → DenoteLibrary profile lefs library }
{}

/// So it is with LEF and DEF texts together: where the LEFs denote the same library in that profile, or are such LEFs.
pub fn narrow_texts_are_read_the_same()
    ensures under { (profile : Profile) (lefs : List (List ℕ)) (def : List ℕ) (library : LibraryModel) (design : DesignModel)
        → DenoteDesign Narrow lefs def library design → DenoteLibraryFor profile lefs def library
        → DenoteDesign profile lefs def library design }
    ensures design { (profile : Profile) (lefs : List (List ℕ)) (def : List ℕ) (library : LibraryModel) (design : DesignModel)
        → HaveNoWider profile lefs → DenoteDesign Narrow lefs def library design
        → DenoteDesign profile lefs def library design }
{
    narrow_def_is_read_the_same();
    narrow_lefs_are_read_the_same();
}

/// The metal of the wires that a rectangle of `SPECIALNETS` denotes is the rectangle.
pub fn metal_of_a_rectangle_is_the_rectangle()
    ensures { (layer : ℕ) (rect : RectModel) (wires : List Wire) → IsProper rect → rect_wires layer rect ≡ Some wires
        → (p : PointModel) → HasPoint rect p ↔ IsOfSome wires p }
{}

/// The metal of a segment of `NETS` whose width is a rule's and not its layer's, which is kept as a rectangle, is that of the segment.
pub fn metal_of_a_wide_segment_is_that_of_its_width()
    ensures { (width : ℤ) (layer : ℕ) (at to : PointModel) (extension extension_there : Option ℤ) (wire : Wire) → at ≢ to
        → wide_segment width layer at extension to extension_there ≡ Some wire
        → (p : PointModel) → IsOfPatch wire p ↔ HasPointOf (Line at to width (reach width extension) (reach width extension_there)) p }
{}

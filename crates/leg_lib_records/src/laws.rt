//! Laws of the definitions that contracts cite. Each function does nothing: its contract is the law.

ghost use Rattle.std.specs.Prelude.{◌≡◌, ℕ, ◌↔◌, List, IsTrue};
ghost use Rattle.leg_geom.specs.Plane.{RectModel};
ghost use Rattle.leg_lib_records.specs.declared.joins.LayerUse.{LayerUse};
ghost use Rattle.leg_lib_records.specs.declared.joins.ViaPart.{ViaPart};
ghost use Rattle.leg_lib_records.specs.Joins.{join_layers};
ghost use Rattle.leg_lib_records.specs.JoinLaw.{Joins, HoldsOrigin};
ghost use Rattle.leg_lib_records.specs.GoodVia.{holds_origin};
ghost use Rattle.leg_lib_records.specs.Records.{RawLibraryModel, LibraryModel};
ghost use Rattle.leg_lib_records.specs.Scale.{IsLibraryAt};

/// At a given number of units a micron, what is read is at most one library.
#[tactic(auto, using(crate::proofs::Scaling::one_library))]
pub fn one_library_at_units()
    ensures { (n : ℕ) (raw : RawLibraryModel) (a b : LibraryModel) → IsLibraryAt n raw a → IsLibraryAt n raw b → a ≡ b }
{}

/// The parts of a good via join two routing layers by cuts on a layer between them, and lie nowhere else.
#[tactic(auto, using(crate::proofs::JoinLayers::good_vias_join, crate::proofs::JoinLayers::holds_is))]
pub fn good_vias_join_layers()
    ensures joined { (layers : List LayerUse) (parts : List ViaPart)
        → IsTrue (join_layers layers parts) ↔ ((low : ℕ) × (cut : ℕ) × (high : ℕ) × Joins layers parts low cut high) }
    ensures origin { (r : RectModel) → IsTrue (holds_origin r) ↔ HoldsOrigin r }
{}

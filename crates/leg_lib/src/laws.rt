//! Laws of the definitions that contracts cite. Each function does nothing: its contract is the law.

ghost use Rattle.std.specs.Prelude.{◌≡◌, ℕ, List};
ghost use Rattle.leg_lib_records.specs.Records.{RawLibraryModel};
ghost use Rattle.leg_grammar.specs.declared.profile.Profile.{Profile};
ghost use Rattle.leg_grammar.specs.Lef.Library.{DenoteLibrary};

pub use leg_lib_records::laws::{good_vias_join_layers, one_library_at_units};

/// LEF texts denote one library at most in a profile.
pub fn texts_say_one_library()
    ensures { (profile : Profile) (lefs : List (List ℕ)) (a b : RawLibraryModel)
        → DenoteLibrary profile lefs a → DenoteLibrary profile lefs b → a ≡ b }
{}

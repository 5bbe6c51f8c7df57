//! Laws of the definitions that contracts cite. Each function does nothing: its contract is the law.

ghost use Rattle.std.specs.Prelude.{◌≡◌, ℕ, List};
ghost use Rattle.leg_lex.specs.Denotes.{Denotes};
ghost use Rattle.leg_lib_records.specs.Records.{LibraryModel};
ghost use Rattle.leg_design_records.specs.Records.{DesignModel};
ghost use Rattle.leg_grammar.specs.declared.profile.Profile.{Profile};
ghost use Rattle.leg_grammar.specs.Def.Form.{design_in};

/// Under equal libraries a DEF text denotes at most one design in a profile.
pub fn text_says_one_design()
    ensures { (profile : Profile) (library same : LibraryModel) (text : List ℕ) (a b : DesignModel) → library ≡ same
        → Denotes (design_in profile library) text a → Denotes (design_in profile same) text b → a ≡ b }
{}

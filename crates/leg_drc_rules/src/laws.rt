//! Laws of the definitions that contracts cite. Each function does nothing: its contract is the law.

ghost use Rattle.std.specs.Prelude.{◌≡◌, ℕ, List};
ghost use Rattle.leg_lib_records.specs.Records.{LibraryModel};
ghost use Rattle.leg_drc_rules.specs.Records.{RawDeckModel, DeckModel};
ghost use Rattle.leg_drc_rules.specs.Texts.{StateRules};
ghost use Rattle.leg_drc_rules.specs.Scale.{IsDeckAt};

/// LEF texts state one deck of rules at most.
pub fn texts_state_one_deck()
    ensures { (library : LibraryModel) (lefs : List (List ℕ)) (a b : RawDeckModel)
        → StateRules library lefs a → StateRules library lefs b → a ≡ b }
{}

/// Rules are one deck at most at the units of a library.
pub fn one_deck_at_units()
    ensures { (library : LibraryModel) (raw : RawDeckModel) (a b : DeckModel)
        → IsDeckAt library raw a → IsDeckAt library raw b → a ≡ b }
{}

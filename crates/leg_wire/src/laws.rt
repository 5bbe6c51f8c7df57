//! What follows from the definitions alone, as functions whose contracts state it.

ghost use Rattle.std.specs.Prelude.{ℕ};
ghost use Rattle.leg_rules.specs.Metal.Flat.{FlatModel};
ghost use Rattle.leg_rules.specs.Joins.Touch.{AreJoined};

/// A piece is joined to each piece that is joined to it.
pub fn joined_both_ways()
    ensures { (flat : FlatModel) (net a b : ℕ) → AreJoined flat net a b → AreJoined flat net b a }
{}

/// A piece is joined to whatever the pieces are joined to that it is joined to.
pub fn joined_onward()
    ensures { (flat : FlatModel) (net a b c : ℕ) → AreJoined flat net a b → AreJoined flat net b c → AreJoined flat net a c }
{}

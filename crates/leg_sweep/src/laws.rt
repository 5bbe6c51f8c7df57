//! What follows from the definitions alone, as functions whose contracts state it.

ghost use Rattle.std.specs.Prelude.{◌≡◌, ℕ, Bool, IsTrue, List, length};
ghost use Rattle.leg_geom.specs.Plane.{RectModel};
ghost use Rattle.leg_sweep.specs.Counts.{count_pairs};
ghost use Rattle.leg_sweep.specs.Pairs.{ArePairs};

use crate::rule::PairRule;

/// The pairs of items for which a rule holds are one list: whatever meets the definition is equal to it.
pub fn pairs_are_unique<R: PairRule>()
    ensures { (rule : R) (items : List R.Item) (found other : List (ℕ × ℕ))
        → ArePairs (R.Holds rule) items found → ArePairs (R.Holds rule) items other → found ≡ other }
{}

/// A count of pairs is the length of the list of the pairs that pass the test.
pub fn counts_are_lengths()
    ensures { (test : RectModel → RectModel → Bool) (rects : List RectModel) (found : List (ℕ × ℕ))
        → ArePairs (λ a b. IsTrue (test a b)) rects found → length found ≡ count_pairs test rects }
{}

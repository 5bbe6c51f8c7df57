//! Laws of differences. Each function does nothing: its contract is the law.

ghost use Rattle.std.specs.Prelude.{◌≡◌, ◌⊎◌};
ghost use Rattle.leg_design_records.specs.Records.{DesignModel};
ghost use Rattle.leg_design_records.specs.WellFormed.{IsWellFormed};
ghost use Rattle.leg_rules.specs.Legalise.SameButForPlaces.{IsSameButForPlaces};
ghost use Rattle.leg_rules.specs.Route.SameButForWires.{IsSameButForWires};
ghost use Rattle.leg_rules.specs.declared.difference.Difference.{Difference};
ghost use Rattle.leg_rules.specs.Compare.Differences.{IsDifference};
ghost use Rattle.leg_compare.specs.Same.{IsSameDesign};
ghost use Rattle.leg_rules.specs.Compare.Verdicts.{IsMove, IsGrowth};

/// A design does not differ from itself.
pub fn design_does_not_differ_from_itself()
    ensures { (design : DesignModel) → IsWellFormed design → (d : Difference) → ¬ IsDifference design design d }
{}

/// Two designs of one library between which there is no difference are the same but for the order of entries that have names.
pub fn designs_without_differences_are_the_same()
    ensures { (first second : DesignModel) → first.library ≡ second.library → IsWellFormed first → IsWellFormed second
        → ((d : Difference) → ¬ IsDifference first second d) → IsSameDesign first second }
{}

/// Where a legaliser has left a design the same but for places, each difference is the place of a movable component.
pub fn legalised_design_differs_in_places()
    ensures { (before after : DesignModel) → IsWellFormed before → IsSameButForPlaces before after
        → (d : Difference) → IsDifference before after d → IsMove before d }
{}

/// Where a router has left a design the same but for added wires, in each difference an entry of `NETS` has more wires.
pub fn routed_design_differs_in_wires()
    ensures { (before after : DesignModel) → IsWellFormed before → IsSameButForWires before after
        → (d : Difference) → IsDifference before after d → IsGrowth d }
{}

/// Where a design was legalised so and then routed so, each difference is one or the other.
pub fn legalised_and_routed_design_differs_in_places_and_wires()
    ensures { (before between after : DesignModel) → IsWellFormed before → IsSameButForPlaces before between → IsSameButForWires between after
        → (d : Difference) → IsDifference before after d → IsMove before d ⊎ IsGrowth d }
{}

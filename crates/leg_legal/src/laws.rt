//! Laws of the definitions that `legalise` cites. No function does anything: its contract is the law.

ghost use Rattle.std.specs.Prelude.{◌≡◌, ◌≢◌, ◌↔◌, ℕ, ℤ, List, length};
ghost use Rattle.leg_geom.specs.declared.place.Place.{Place};
ghost use Rattle.leg_lib_records.specs.Sound.{IsSound};
ghost use Rattle.leg_design_records.specs.Records.{DesignModel};
ghost use Rattle.leg_design_records.specs.WellFormed.{IsWellFormed};
ghost use Rattle.leg_design_records.specs.Movable.{IsMovable};
ghost use Rattle.leg_design_records.specs.declared.fault.Fault.TheVariants.{Blocked};
ghost use Rattle.leg_rules.specs.Placement.Violations.{IsLegallyPlaced};
ghost use Rattle.leg_legal.specs.FreePlaces.{HasMacroSizes, IsFreePlace, HasFreePosition};
ghost use Rattle.leg_rules.specs.Legalise.Run.{IsLegalised};
ghost use Rattle.leg_rules.specs.Legalise.Moves.{AreMoves};
ghost use Rattle.leg_legal.specs.Refusals.{IsLegaliseRefusal};
ghost use Rattle.leg_rules.specs.Legalise.Refusals.{IsStayingViolation, IsStuck};
ghost use Rattle.leg_legal.specs.Outcome.{HasOutcome};
ghost use Rattle.leg_legal.specs.declared.fault.LegalFault.TheVariants.{Memory};

use crate::fault::LegalFault;
use crate::sizes::macros_have_sizes;
use leg_design_records::Design;
use leg_design_records::laws::design_is_sound;
use std::alloc::Allocator;

/// A design is legalised in one way: the order of taking is one, and so is the best free position of each component.
pub fn design_is_legalised_in_one_way()
    ensures { (before a b : DesignModel) → IsLegalised before a → IsLegalised before b → a ≡ b }
{}

/// How far components have moved from one design to another of as many components is one list, with one sum and one
/// greatest distance.
pub fn moves_are_determined()
    ensures { (before after : DesignModel) (each others : List ℤ) (total sum greatest most : ℤ)
        → length after.components ≡ length before.components
        → AreMoves before after each total greatest → AreMoves before after others sum most
        → (each ≡ others) × (total ≡ sum) × (greatest ≡ most) }
{}

/// A design is refused for one cause: two refusals of it, neither of them `Memory`, are equal, with the same list of
/// violations or the same component.
pub fn design_is_refused_in_one_way<A: Allocator>(fault: &LegalFault<A>, other: &LegalFault<A>)
    ensures { (design : DesignModel) → IsLegaliseRefusal design fault.now → IsLegaliseRefusal design other.now
        → fault.now ≢ Memory → other.now ≢ Memory → fault.now ≡ other.now }
{}

/// A design that is refused for another cause than `Memory` is not legalised: nothing that comes of it in the legaliser's
/// way is legally placed.
pub fn refused_design_is_not_legalised<A: Allocator>(fault: &LegalFault<A>)
    ensures { (design after : DesignModel) → IsLegaliseRefusal design fault.now → fault.now ≢ Memory
        → IsLegalised design after → ¬ IsLegallyPlaced after }
{}

/// A component that stays may stand in a placement blockage: of components that stay, no violation of that kind holds.
pub fn component_that_stays_is_not_blocked()
    ensures { (design : DesignModel) (c : ℕ) → ¬ IsStayingViolation design (Blocked c) }
{}

/// A movable component's free positions, which are told by numbers of sites, are its free places, which are told by unit
/// squares: where its box has exactly the squares of consecutive sites of a row, lies in the die and shares none with what
/// is taken, a position of that row has this place; and the place of each free position is such a one.
pub fn places_on_sites_are_positions()
    ensures { (design : DesignModel) → IsWellFormed design → IsSound design.library → HasMacroSizes design.library
        → (done : List ℕ) (c number : ℕ) (place : Place) → IsMovable design c
        → IsFreePlace design done c number place ↔ HasFreePosition design done c number place }
{}

/// For a component that is refused as `NoRoom` there is no place on the sites of any row when its turn has come, whatever
/// the place: none at which its box lies in the die and shares no unit square with what is taken.
pub fn stuck_component_has_no_place()
    ensures { (design : DesignModel) → IsWellFormed design → IsSound design.library → HasMacroSizes design.library
        → (c : ℕ) (stuck : IsStuck design c) (number : ℕ) (place : Place) → ¬ IsFreePlace stuck.now stuck.done c number place }
{}

/// A design has an outcome: it is legalised to a legally placed design, or refused for another cause than `Memory`.
pub fn design_has_an_outcome<A: Allocator>()
    ensures { (design : DesignModel) → IsWellFormed design → IsSound design.library → HasMacroSizes design.library
        → HasOutcome A design }
{}

/// Each design that the program has is as these laws ask for, by the types of its parts.
pub fn every_design_is_well_formed<A: Allocator + Copy>(design: &Design<'_, A>)
    ensures proper { IsWellFormed design.now }
    ensures sound { IsSound design.now.library }
    ensures sizes { HasMacroSizes design.now.library }
{
    design_is_sound(design);
    macros_have_sizes(design.library().masters());
}

/// So each design that the program has is legalised to a legally placed design, or refused for another cause than
/// `Memory`.
pub fn every_design_has_an_outcome<A: Allocator + Copy>(design: &Design<'_, A>)
    ensures { HasOutcome A design.now }
{
    every_design_is_well_formed(design);
    design_has_an_outcome::<A>();
}

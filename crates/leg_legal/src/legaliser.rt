//! Legalising a design.

ghost use Rattle.std.specs.Prelude.{◌≡◌, IfOk, IfErr};
ghost use Rattle.leg_lib_records.specs.Sound.{IsSound};
ghost use Rattle.leg_design_records.specs.WellFormed.{IsWellFormed};
ghost use Rattle.leg_rules.specs.Placement.Violations.{IsLegallyPlaced};
ghost use Rattle.leg_rules.specs.Legalise.Run.{IsLegalised};
ghost use Rattle.leg_rules.specs.Legalise.SameButForPlaces.{IsSameButForPlaces};
ghost use Rattle.leg_rules.specs.Legalise.Moves.{AreMoves};
ghost use Rattle.leg_legal.specs.Refusals.{IsLegaliseRefusal};
ghost use Rattle.leg_rules.specs.Legalise.Refusals.{AreSuited};
ghost use Rattle.leg_legal.specs.Steps.Choices.{AreRun, IsRunFault, AreChosen};

use crate::blockages::take_blockages;
use crate::distances::moves_of;
use crate::fault::LegalFault;
use crate::moves::Moves;
use crate::staying::staying_faults;
use crate::taken::{Taken, with_places};
use crate::taking::{take_in_turn, take_staying};
use crate::turns::order_of_taking;
use crate::unsuited::least_unsuited;
use leg_design_records::Design;
use leg_design_records::laws::design_is_sound;
use leg_legal_sites::FreeRows;
use leg_lib_records::{Items, Library};
use leg_place::is_placed;
use std::alloc::Allocator;

/// The design with each movable component on its best free position, and how far the components have moved (lefdef's
/// own rules). A movable component is `PLACED` or without a place, and its macro has a site. They are taken the wider
/// macro first, then the one that starts further to the left, then in file order. Each gets the free position on the
/// rows of its site that is least by the distance from its start, then by whether its orientation changes, the number
/// of the row and that of the site. A position is free where the component lies in the die, and shares no unit square
/// with one that stays or has been taken before it, nor with a placement blockage. A design that is legally placed comes
/// back as it is, with all moves 0.
///
/// The library is the one that the design was read with. On each refusal the design comes back unchanged: `FixedIllegal`
/// where components that stay break rules among themselves, else `NoSite` for the first movable component that fits no
/// row, else `NoRoom` for the first that finds no free position in its turn; `Memory` wherever an allocation failed.
pub fn legalise<'a, A: Allocator + Copy>(
    alloc: A,
    library: &Library<'_, A>,
    design: Design<'a, A>,
) -> Result<(Design<'a, A>, Moves<A>), (Design<'a, A>, LegalFault<A>)>
    requires { library.now ≡ design.library }
    ensures legal { IfOk result (λ done. IsLegallyPlaced done.0) }
    ensures same { IfOk result (λ done. IsSameButForPlaces design.entry done.0) }
    ensures run { IfOk result (λ done. IsLegalised design.entry done.0) }
    ensures moves { IfOk result (λ done. AreMoves design.entry done.0 done.1.per_component done.1.total done.1.greatest) }
    ensures unchanged { IfErr result (λ back. back.0 ≡ design.entry) }
    ensures refused { IfErr result (λ back. IsLegaliseRefusal design.entry back.1) }
{
    let taken = match chosen_places(alloc, library, &design) {
        Ok(taken) => taken,
        Err(fault) => return Err((design, fault)),
    };
    match moves_of(alloc, &design, taken.as_slice()) {
        Ok(moves) => Ok((with_places(design, taken.as_slice()), moves)),
        Err(_refusal) => Err((design, LegalFault::Memory)),
    }
}

/// The places that components take: none where the design is legally placed, and else one for each movable component.
fn chosen_places<A: Allocator + Copy>(
    alloc: A,
    library: &Library<'_, A>,
    design: &Design<'_, A>,
) -> Result<Vec<Taken, A>, LegalFault<A>>
    requires { library.now ≡ design.now.library }
    ensures chosen { IfOk result (λ taken. AreChosen design.now taken.items) }
    ensures refused { IfErr result (IsLegaliseRefusal design.now) }
{
    design_is_sound(design);
    let placed = is_placed(alloc, library, design)?;
    if placed {
        return Ok(Vec::new(alloc));
    }
    places_of(alloc, library, design)
}

/// The places of the movable components of a design that isn't legally placed.
fn places_of<A: Allocator + Copy>(
    alloc: A,
    library: &Library<'_, A>,
    design: &Design<'_, A>,
) -> Result<Vec<Taken, A>, LegalFault<A>>
    requires library { library.now ≡ design.now.library }
    requires illegal { ¬ IsLegallyPlaced design.now }
    requires proper { IsWellFormed design.now }
    requires sound { IsSound design.now.library }
    ensures chosen { IfOk result (λ taken. AreChosen design.now taken.items) }
    ensures refused { IfErr result (IsLegaliseRefusal design.now) }
{
    let staying = staying_faults(alloc, library, design)?;
    if !staying.as_slice().is_empty() {
        return Err(LegalFault::FixedIllegal(Items::from_vec(staying)));
    }
    let unsuited = least_unsuited(alloc, design)?;
    match unsuited {
        Some(c) => Err(LegalFault::NoSite(c)),
        None => take_all(alloc, design),
    }
}

/// The places that all movable components take, in their order.
fn take_all<A: Allocator + Copy>(
    alloc: A,
    design: &Design<'_, A>,
) -> Result<Vec<Taken, A>, LegalFault<A>>
    requires { AreSuited design.now }
    ensures run { IfOk result (λ taken. AreRun design.now taken.items) }
    ensures refused { IfErr result (IsRunFault design.now) }
{
    let keys = order_of_taking(alloc, design)?;
    let mut free = FreeRows::of_design(alloc, design)?;
    take_staying(design, &mut free)?;
    take_blockages(design, &mut free)?;
    take_in_turn(alloc, design, &mut free, keys.as_slice())
}

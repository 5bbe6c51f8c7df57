//! The loop over the components that take their places.

ghost use Rattle.std.specs.Prelude.{◌≡◌, ◌+◌, ◌<◌, [], List, length, IfOk, IfErr, OnOk, slice_get, Some};
ghost use Rattle.leg_geom.specs.Plane.{RectModel};
ghost use Rattle.leg_lib_records.specs.Records.{MasterModel};
ghost use Rattle.leg_design_records.specs.WellFormedParts.{IsPosition};
ghost use Rattle.leg_design_records.specs.declared.records.Component.{Component};
ghost use Rattle.leg_rules.specs.Placement.Box.{placed_box};
ghost use Rattle.leg_legal_sites.specs.Steps.FreeLists.{AreFreeLists};
ghost use Rattle.leg_design_records.specs.Movable.{IsMovable};
ghost use Rattle.leg_rules.specs.Legalise.Refusals.{IsUnsuited, AreSuited};
ghost use Rattle.leg_legal.specs.Steps.TurnKeys.{AreInOrder, numbers};
ghost use Rattle.leg_legal.specs.Steps.Boxes.{KnowStaying, KnowTaken, IsSeated, IsSeatFault, AreAllTaken, IsTakingFault};

use crate::fault::LegalFault;
use crate::seats::{best_place, wanted_of};
use crate::taken::Taken;
use crate::turns::TurnKey;
use leg_design_records::Design;
use leg_geom::{Place, Rect};
use leg_legal_sites::FreeRows;
use leg_place::{box_of, placed_size};
use std::alloc::{AllocError, Allocator};

/// Takes the box of the component away, if it stays and has a place.
fn take_if_staying<A: Allocator + Copy>(
    design: &Design<'_, A>,
    free: &mut FreeRows<A>,
    number: usize,
) -> Result<(), AllocError>
    requires there { number < length design.now.components }
    requires known { KnowStaying design.now number free.old }
    ensures { OnOk result (KnowStaying design.now (number + 1) free.new) }
{
    if design.is_movable(number) {
        return Ok(());
    }
    match box_of(design.library(), &design.components()[number]) {
        Some(rect) => free.take_box(design, &rect),
        None => Ok(()),
    }
}

/// Takes the boxes of all components away that stay and have a place.
pub(crate) fn take_staying<A: Allocator + Copy>(
    design: &Design<'_, A>,
    free: &mut FreeRows<A>,
) -> Result<(), AllocError>
    requires { AreFreeLists design.now [] free.old }
    ensures { OnOk result (KnowStaying design.now (length design.now.components) free.new) }
{
    for i in 0..design.components().len() {
        take_if_staying(design, free, i)?;
    }
    Ok(())
}

/// The box of a movable component at this place.
fn box_at<A: Allocator + Copy>(design: &Design<'_, A>, number: usize, place: &Place) -> Rect
    requires movable { IsMovable design.now number }
    requires position { IsPosition place.now.at }
    ensures { (component : Component) (master : MasterModel) → slice_get design.now.components number ≡ Some component
        → slice_get design.now.library.masters component.master ≡ Some master → result ≡ placed_box master.size place.now }
{
    let component = &design.components()[number];
    let master = &design.library().masters()[component.master];
    placed_size(place, &master.size)
}

/// The best place of a movable component. Its box is taken away.
fn seat<A: Allocator + Copy>(
    design: &Design<'_, A>,
    free: &mut FreeRows<A>,
    number: u32,
) -> Result<Place, LegalFault<A>>
    requires movable { IsMovable design.now number }
    requires suited { ¬ IsUnsuited design.now number }
    requires known { (boxes : List RectModel) × AreFreeLists design.now boxes free.old }
    ensures seated { IfOk result (λ place. (boxes : List RectModel) → AreFreeLists design.now boxes free.old
        → IsSeated design.now boxes number place free.new) }
    ensures position { IfOk result (λ place. IsPosition place.at) }
    ensures refused { IfErr result (λ fault. (boxes : List RectModel) → AreFreeLists design.now boxes free.old → IsSeatFault design.now boxes number fault) }
{
    let wanted = wanted_of(design, number as usize);
    match best_place(design, free, &wanted) {
        Some(place) => {
            let rect = box_at(design, number as usize, &place);
            match free.take_box(design, &rect) {
                Ok(()) => Ok(place),
                Err(_refusal) => Err(LegalFault::Memory),
            }
        }
        None => Err(LegalFault::NoRoom(number)),
    }
}

/// The places that the components of the keys take, in turn.
pub(crate) fn take_in_turn<A: Allocator + Copy>(
    alloc: A,
    design: &Design<'_, A>,
    free: &mut FreeRows<A>,
    keys: &[TurnKey],
) -> Result<Vec<Taken, A>, LegalFault<A>>
    requires order { AreInOrder design.now keys.now }
    requires suited { AreSuited design.now }
    requires known { KnowTaken design.now design.now [] free.old }
    ensures taken { IfOk result (λ taken. AreAllTaken design.now keys.now taken.items) }
    ensures refused { IfErr result (IsTakingFault design.now (numbers keys.now)) }
{
    let mut taken = Vec::with_capacity(alloc, keys.len())?;
    for i in 0..keys.len() {
        let number = keys[i].number;
        let place = match seat(design, free, number) {
            Ok(place) => place,
            Err(fault) => return Err(fault),
        };
        taken.push(Taken { number, place })?;
    }
    Ok(taken)
}

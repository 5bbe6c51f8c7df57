//! Calls that are lent a design.

ghost use Rattle.std.specs.Prelude.{◌<◌, false, IfSome, length};
ghost use Rattle.leg_design_records.specs.WellFormedNets.{IsWire};

use crate::flats::are_same_flats;
use crate::turn::{is_last, turn_of_list};
use leg_design::read_def;
use leg_design_records::{Design, Wire};
use leg_flat::{Flat, FlatFault, flatten};
use leg_lib_records::Library;
use leg_place::place_faults;
use leg_print::print_def;
use leg_wire::{groups_among, joined, numbers_by_net, open_faults, spacing_faults};
use std::alloc::{AllocError, Allocator, Global};
use test_alloc::{Refused, RefusingAlloc, Turn, Turns};
use test_texts::wired;

/// A call on a design, or on its flat.
#[derive(Clone, Copy)]
pub(super) enum DesignCall {
    Flatten,
    /// Its first net gets a wire.
    AddWire,
    PlaceFaults,
    SpacingFaults,
    /// Of its first net.
    Joined,
    /// Of its first net.
    Groups,
    OpenFaults,
    PrintDef,
}

fn flatten_in_turn<A: Allocator + Copy>(
    alloc: A,
    refusing: &RefusingAlloc<Global>,
    design: &Design<'_, A>,
    number: u64,
) -> Option<Turn> {
    let ample = flatten(alloc, design.library(), design).ok()?;
    refusing.refuse(Refused::Growth(number));
    let found = flatten(alloc, design.library(), design);
    let turn = refusing.turn_ended(found.is_err());
    let is_right = match found {
        Ok(flat) => are_same_flats(&flat, &ample),
        Err(fault) => fault == FlatFault::Memory,
    };
    is_right.then_some(turn)
}

/// The first wire of the first net, if there is one.
fn first_wire<A: Allocator + Copy>(design: &Design<'_, A>) -> Option<Wire>
    ensures { IfSome result (IsWire design.now.library design.now.vias false) }
{
    match design.nets() {
        [net, ..] => net.wires.as_slice().first().copied(),
        [] => None,
    }
}

/// A wire that the first net of the design may have: its own first one, or else that of two inverters in a net.
fn some_wire<A: Allocator + Copy>(alloc: A, design: &Design<'_, A>) -> Option<Wire>
    ensures { IfSome result (IsWire design.now.library design.now.vias false) }
{
    let own = first_wire(design);
    if own.is_some() {
        return own;
    }
    let other = read_def(alloc, design.library(), wired()).ok()?;
    if !design.fits(other.library()) || design.vias().len() != 0 || other.vias().len() != 0 {
        return None;
    }
    first_wire(&other)
}

/// The flat of the design, whose first net has this wire more. There may be no net.
fn with_a_wire_more<A: Allocator + Copy>(
    alloc: A,
    design: &Design<'_, A>,
    wire: &Wire,
) -> Option<Flat<A>>
    requires { IsWire design.now.library design.now.vias false wire.now }
{
    let mut flat = flatten(alloc, design.library(), design).ok()?;
    if flat.net_count() == 0 {
        return None;
    }
    flat.add_wire(design.library(), design, 0, wire).ok()?;
    Some(flat)
}

fn add_wire_in_turn<A: Allocator + Copy>(
    alloc: A,
    refusing: &RefusingAlloc<Global>,
    design: &Design<'_, A>,
    number: u64,
) -> Option<Turn> {
    let wire = some_wire(alloc, design)?;
    let before = flatten(alloc, design.library(), design).ok()?;
    let ample = with_a_wire_more(alloc, design, &wire)?;
    let mut flat = flatten(alloc, design.library(), design).ok()?;
    if flat.net_count() == 0 {
        return None;
    }
    refusing.refuse(Refused::Growth(number));
    let added = flat.add_wire(design.library(), design, 0, &wire);
    let turn = refusing.turn_ended(added.is_err());
    let is_right = match added {
        Ok(()) => are_same_flats(&flat, &ample),
        Err(fault) => fault == FlatFault::Memory && are_same_flats(&flat, &before),
    };
    is_right.then_some(turn)
}

fn place_faults_in_turn<A: Allocator + Copy>(
    alloc: A,
    refusing: &RefusingAlloc<Global>,
    design: &Design<'_, A>,
    number: u64,
) -> Option<Turn> {
    let ample = place_faults(alloc, design.library(), design).ok()?;
    refusing.refuse(Refused::Growth(number));
    let found = place_faults(alloc, design.library(), design);
    turn_of_list(refusing, found, &ample)
}

fn spacing_faults_in_turn<A: Allocator + Copy>(
    alloc: A,
    refusing: &RefusingAlloc<Global>,
    design: &Design<'_, A>,
    number: u64,
) -> Option<Turn> {
    let flat = flatten(alloc, design.library(), design).ok()?;
    let ample = spacing_faults(alloc, design.library(), &flat).ok()?;
    refusing.refuse(Refused::Growth(number));
    let found = spacing_faults(alloc, design.library(), &flat);
    turn_of_list(refusing, found, &ample)
}

fn joined_in_turn<A: Allocator + Copy>(
    alloc: A,
    refusing: &RefusingAlloc<Global>,
    design: &Design<'_, A>,
    number: u64,
) -> Option<Turn> {
    let flat = flatten(alloc, design.library(), design).ok()?;
    if flat.net_count() == 0 {
        return None;
    }
    let ample = joined(alloc, &flat, 0).ok()?;
    refusing.refuse(Refused::Growth(number));
    let found = joined(alloc, &flat, 0);
    turn_of_list(refusing, found, &ample)
}

/// The groups of the first net's pieces.
fn first_groups<A: Allocator + Copy>(alloc: A, flat: &Flat<A>) -> Result<Vec<u32, A>, AllocError>
    requires { 0 < length flat.now.pieces }
{
    let lists = numbers_by_net(alloc, flat.shapes(), 1)?;
    groups_among(alloc, flat, 0, lists[0].as_slice())
}

fn groups_in_turn<A: Allocator + Copy>(
    alloc: A,
    refusing: &RefusingAlloc<Global>,
    design: &Design<'_, A>,
    number: u64,
) -> Option<Turn> {
    let flat = flatten(alloc, design.library(), design).ok()?;
    if flat.net_count() == 0 {
        return None;
    }
    let ample = first_groups(alloc, &flat).ok()?;
    refusing.refuse(Refused::Growth(number));
    let found = first_groups(alloc, &flat);
    turn_of_list(refusing, found, &ample)
}

fn open_faults_in_turn<A: Allocator + Copy>(
    alloc: A,
    refusing: &RefusingAlloc<Global>,
    design: &Design<'_, A>,
    number: u64,
) -> Option<Turn> {
    let flat = flatten(alloc, design.library(), design).ok()?;
    let ample = open_faults(alloc, design, &flat).ok()?;
    refusing.refuse(Refused::Growth(number));
    let found = open_faults(alloc, design, &flat);
    turn_of_list(refusing, found, &ample)
}

fn print_def_in_turn<A: Allocator + Copy>(
    alloc: A,
    refusing: &RefusingAlloc<Global>,
    design: &Design<'_, A>,
    number: u64,
) -> Option<Turn> {
    let ample = print_def(alloc, design.library(), design).ok()?;
    refusing.refuse(Refused::Growth(number));
    let found = print_def(alloc, design.library(), design);
    turn_of_list(refusing, found, &ample)
}

fn turn_of<A: Allocator + Copy>(
    alloc: A,
    refusing: &RefusingAlloc<Global>,
    call: DesignCall,
    design: &Design<'_, A>,
    number: u64,
) -> Option<Turn> {
    match call {
        DesignCall::Flatten => flatten_in_turn(alloc, refusing, design, number),
        DesignCall::AddWire => add_wire_in_turn(alloc, refusing, design, number),
        DesignCall::PlaceFaults => place_faults_in_turn(alloc, refusing, design, number),
        DesignCall::SpacingFaults => spacing_faults_in_turn(alloc, refusing, design, number),
        DesignCall::Joined => joined_in_turn(alloc, refusing, design, number),
        DesignCall::Groups => groups_in_turn(alloc, refusing, design, number),
        DesignCall::OpenFaults => open_faults_in_turn(alloc, refusing, design, number),
        DesignCall::PrintDef => print_def_in_turn(alloc, refusing, design, number),
    }
}

fn goes_right_on<A: Allocator + Copy>(
    alloc: A,
    refusing: &RefusingAlloc<Global>,
    call: DesignCall,
    design: &Design<'_, A>,
) -> bool {
    let mut turns = Turns::new();
    for number in 1..Turns::LIMIT {
        let turn = turn_of(alloc, refusing, call, design, number);
        match is_last(&mut turns, number, turn) {
            Some(false) => {}
            Some(true) => return true,
            None => return false,
        }
    }
    false
}

/// Whether the call on the design that a DEF denotes answers rightly whichever allocation is refused.
pub(super) fn goes_right<A: Allocator + Copy>(
    alloc: A,
    refusing: &RefusingAlloc<Global>,
    library: &Library<'_, A>,
    call: DesignCall,
    def: &[u8],
) -> bool {
    match read_def(alloc, library, def) {
        Ok(design) => goes_right_on(alloc, refusing, call, &design),
        Err(_) => false,
    }
}

/// Whether the call on the design that a DEF denotes asks for no memory, and answers as it does with ample memory.
pub(super) fn asks_for_none<A: Allocator + Copy>(
    alloc: A,
    refusing: &RefusingAlloc<Global>,
    library: &Library<'_, A>,
    call: DesignCall,
    def: &[u8],
) -> bool {
    match read_def(alloc, library, def) {
        Ok(design) => match turn_of(alloc, refusing, call, &design, 1) {
            Some(turn) => turn.growths == 0 && !turn.refused,
            None => false,
        },
        Err(_) => false,
    }
}

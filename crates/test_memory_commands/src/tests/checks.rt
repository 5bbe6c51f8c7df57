//! The check of a design, and its lines.

use leg_app::check_design;
use leg_design::read_def;
use leg_design_records::Design;
use leg_flat::FlatFault;
use leg_lib_records::Library;
use leg_print::print_faults;
use std::alloc::{Allocator, Global};
use test_alloc::{Refused, RefusingAlloc, Turn, Turns};
use test_memory::{are_same_flats, is_last, turn_of_list};

/// A call on a design.
#[derive(Clone, Copy)]
pub(super) enum CheckCall {
    CheckDesign,
    /// Of all its violations.
    PrintFaults,
}

fn check_design_in_turn<A: Allocator + Copy>(
    alloc: A,
    refusing: &RefusingAlloc<Global>,
    design: &Design<'_, A>,
    number: u64,
) -> Option<Turn> {
    let ample = check_design(alloc, design).ok()?;
    refusing.refuse(Refused::Growth(number));
    let found = check_design(alloc, design);
    let turn = refusing.turn_ended(found.is_err());
    let is_right = match found {
        Ok(checked) => {
            are_same_flats(&checked.flat, &ample.flat)
                && checked.violations.as_slice() == ample.violations.as_slice()
        }
        Err(fault) => fault == FlatFault::Memory,
    };
    is_right.then_some(turn)
}

fn print_faults_in_turn<A: Allocator + Copy>(
    alloc: A,
    refusing: &RefusingAlloc<Global>,
    design: &Design<'_, A>,
    number: u64,
) -> Option<Turn> {
    let checked = check_design(alloc, design).ok()?;
    let (library, flat) = (design.library(), Some(&checked.flat));
    let ample = print_faults(alloc, library, design, flat, &checked.violations).ok()?;
    refusing.refuse(Refused::Growth(number));
    let found = print_faults(alloc, library, design, flat, &checked.violations);
    turn_of_list(refusing, found, &ample)
}

fn turn_of<A: Allocator + Copy>(
    alloc: A,
    refusing: &RefusingAlloc<Global>,
    call: CheckCall,
    design: &Design<'_, A>,
    number: u64,
) -> Option<Turn> {
    match call {
        CheckCall::CheckDesign => check_design_in_turn(alloc, refusing, design, number),
        CheckCall::PrintFaults => print_faults_in_turn(alloc, refusing, design, number),
    }
}

fn goes_right_on<A: Allocator + Copy>(
    alloc: A,
    refusing: &RefusingAlloc<Global>,
    call: CheckCall,
    design: &Design<'_, A>,
) -> bool {
    let mut turns = Turns::new();
    for number in 1..Turns::LIMIT {
        let turn = turn_of(alloc, refusing, call, design, number);
        match is_last(&mut turns, number, turn) {
            Some(false) => {}
            Some(true) => return true,
            None => return false,
        }
    }
    false
}

/// Whether the call on the design that a DEF denotes answers rightly whichever allocation is refused.
pub(super) fn goes_right<A: Allocator + Copy>(
    alloc: A,
    refusing: &RefusingAlloc<Global>,
    library: &Library<'_, A>,
    call: CheckCall,
    def: &[u8],
) -> bool {
    match read_def(alloc, library, def) {
        Ok(design) => goes_right_on(alloc, refusing, call, &design),
        Err(_) => false,
    }
}

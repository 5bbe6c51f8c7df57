//! Calls that are given a design and hand it back.

use leg_design::read_def;
use leg_design_records::Design;
use leg_finish::{FinishFault, finish};
use leg_legal::{LegalFault, Moves, legalise};
use leg_lib_records::Library;
use leg_print::print_def;
use leg_route::{RouteFault, route};
use std::alloc::{Allocator, Global};
use test_alloc::{Refused, RefusingAlloc, Turn, Turns};
use test_memory::is_last;

/// A call on a design that it is given.
#[derive(Clone, Copy)]
pub(super) enum Change {
    /// The components move by these, of which none but the last may be more than 0.
    Legalise(&'static [i64]),
    /// The design has this many violations other than open nets; with none it is routed.
    Route(usize),
    /// The same; with none it is finished.
    Finish(usize),
}

/// What came of a change, and the text of the design that was handed back.
#[derive(Drop)]
struct Changed<A: Allocator> {
    turn: Turn,
    text: Vec<u8, A>,
}

/// What came of the change that handed this design back, refused or not.
fn come_back<A: Allocator + Copy>(
    alloc: A,
    refusing: &RefusingAlloc<Global>,
    design: &Design<'_, A>,
    refused: bool,
) -> Option<Changed<A>> {
    let turn = refusing.turn_ended(refused);
    let text = print_def(alloc, design.library(), design).ok()?;
    Some(Changed { turn, text })
}

/// Whether these are the moves of components of which none but the last has moved.
fn are_moves<A: Allocator>(moves: &Moves<A>, by: &[i64]) -> bool {
    match by {
        [.., last] => {
            moves.per_component.as_slice() == by && moves.total == *last && moves.greatest == *last
        }
        [] => false,
    }
}

fn legalised<A: Allocator + Copy>(
    alloc: A,
    refusing: &RefusingAlloc<Global>,
    design: Design<'_, A>,
    by: &[i64],
    refused: Refused,
) -> Option<Changed<A>> {
    let library = design.library();
    refusing.refuse(refused);
    match legalise(alloc, library, design) {
        Ok((done, moves)) => {
            if !are_moves(&moves, by) {
                return None;
            }
            come_back(alloc, refusing, &done, false)
        }
        Err((back, LegalFault::Memory)) => come_back(alloc, refusing, &back, true),
        Err(_) => None,
    }
}

/// Whether memory ran out for a router. If not, the design has this many violations other than open nets.
fn is_out_of_memory<A: Allocator>(fault: &RouteFault<A>, violations: usize) -> Option<bool> {
    match fault {
        RouteFault::Memory => Some(true),
        RouteFault::NotClean(found) => (found.as_slice().len() == violations).then_some(false),
        _ => None,
    }
}

fn routed<A: Allocator + Copy>(
    alloc: A,
    refusing: &RefusingAlloc<Global>,
    design: Design<'_, A>,
    violations: usize,
    refused: Refused,
) -> Option<Changed<A>> {
    let library = design.library();
    refusing.refuse(refused);
    match route(alloc, library, design) {
        Ok(done) => {
            if violations != 0 {
                return None;
            }
            come_back(alloc, refusing, &done, false)
        }
        Err((back, fault)) => {
            let refused = is_out_of_memory(&fault, violations)?;
            come_back(alloc, refusing, &back, refused)
        }
    }
}

/// Whether memory ran out for the router that finishes. If not, the design has this many violations other than open nets.
fn has_no_memory<A: Allocator>(fault: &FinishFault<A>, violations: usize) -> Option<bool> {
    match fault {
        FinishFault::Memory => Some(true),
        FinishFault::NotClean(found) => (found.as_slice().len() == violations).then_some(false),
        _ => None,
    }
}

fn finished<A: Allocator + Copy>(
    alloc: A,
    refusing: &RefusingAlloc<Global>,
    design: Design<'_, A>,
    violations: usize,
    refused: Refused,
) -> Option<Changed<A>> {
    let library = design.library();
    refusing.refuse(refused);
    match finish(alloc, library, design, &mut ()) {
        Ok((done, _totals)) => {
            if violations != 0 {
                return None;
            }
            come_back(alloc, refusing, &done, false)
        }
        Err((back, fault)) => {
            let refused = has_no_memory(&fault, violations)?;
            come_back(alloc, refusing, &back, refused)
        }
    }
}

/// What came of the change of the design that a DEF denotes.
fn changed_by<A: Allocator + Copy>(
    alloc: A,
    refusing: &RefusingAlloc<Global>,
    library: &Library<'_, A>,
    change: Change,
    def: &[u8],
    refused: Refused,
) -> Option<Changed<A>> {
    let design = read_def(alloc, library, def).ok()?;
    match change {
        Change::Legalise(by) => legalised(alloc, refusing, design, by, refused),
        Change::Route(violations) => routed(alloc, refusing, design, violations, refused),
        Change::Finish(violations) => finished(alloc, refusing, design, violations, refused),
    }
}

/// The change with its allocation of this number refused: what comes back is the design as the DEF has it, or what comes of it with
/// ample memory.
fn turn_of<A: Allocator + Copy>(
    alloc: A,
    refusing: &RefusingAlloc<Global>,
    library: &Library<'_, A>,
    change: Change,
    def: &[u8],
    number: u64,
) -> Option<Turn> {
    let ample = changed_by(alloc, refusing, library, change, def, Refused::Nothing)?;
    let found = changed_by(
        alloc,
        refusing,
        library,
        change,
        def,
        Refused::Growth(number),
    )?;
    let is_right = if found.turn.refused {
        found.text.as_slice() == def
    } else {
        found.text.as_slice() == ample.text.as_slice()
    };
    is_right.then_some(found.turn)
}

/// Whether the change of the design of a DEF, in the bytes that are printed of it, answers rightly whichever allocation is refused.
pub(super) fn goes_right<A: Allocator + Copy>(
    alloc: A,
    refusing: &RefusingAlloc<Global>,
    library: &Library<'_, A>,
    change: Change,
    def: &[u8],
) -> bool {
    let mut turns = Turns::new();
    for number in 1..Turns::LIMIT {
        let turn = turn_of(alloc, refusing, library, change, def, number);
        match is_last(&mut turns, number, turn) {
            Some(false) => {}
            Some(true) => return true,
            None => return false,
        }
    }
    false
}

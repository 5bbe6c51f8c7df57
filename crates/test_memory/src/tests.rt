//! Calls of which each allocation is refused in turn: they answer that memory ran out, and what they were lent is as it was, or they
//! answer what they answer with ample memory.

mod designs;
mod refused_in_turn;
mod texts;
mod without;

use crate::library::library_of_cells;
use designs::DesignCall;
use leg_lib_records::Library;
use std::alloc::{Allocator, Global};
use test_alloc::RefusingAlloc;
use test_texts::{around_an_obstruction, two_at_one_place, wired};

/// What is tried under the library, on a DEF.
#[derive(Clone, Copy)]
enum Trial {
    /// It is read.
    Read,
    /// Its design is lent.
    Lend(DesignCall),
    /// Its design is lent to a call that asks for no memory on it.
    LendWithout(DesignCall),
    /// Its design is lent to calls that take no memory.
    Without,
}

/// Whether the trial goes right with each allocation refused in turn.
fn goes_right<A: Allocator + Copy>(
    alloc: A,
    refusing: &RefusingAlloc<Global>,
    trial: Trial,
    def: &[u8],
) -> bool {
    match library_of_cells(alloc) {
        Some(library) => goes_right_under(alloc, refusing, &library, trial, def),
        None => false,
    }
}

fn goes_right_under<A: Allocator + Copy>(
    alloc: A,
    refusing: &RefusingAlloc<Global>,
    library: &Library<'_, A>,
    trial: Trial,
    def: &[u8],
) -> bool {
    match trial {
        Trial::Read => texts::is_read_right(alloc, refusing, library, def),
        Trial::Lend(call) => designs::goes_right(alloc, refusing, library, call, def),
        Trial::LendWithout(call) => designs::asks_for_none(alloc, refusing, library, call, def),
        Trial::Without => without::goes_right(alloc, refusing, library, def),
    }
}

#[test]
fn what_takes_no_memory_answers_without(rt: HostRuntime) {
    let refusing = &RefusingAlloc::new(rt.alloc());
    assert!(rt; goes_right(refusing, refusing, Trial::Without, wired()));
    // No metal is too near there, and there are no nets.
    assert!(rt;
        goes_right(
            refusing,
            refusing,
            Trial::LendWithout(DesignCall::SpacingFaults),
            around_an_obstruction()
        )
    );
    assert!(rt;
        goes_right(
            refusing,
            refusing,
            Trial::LendWithout(DesignCall::OpenFaults),
            two_at_one_place()
        )
    );
}

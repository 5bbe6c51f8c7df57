//! Calls of which each allocation is refused in turn: they answer that memory ran out, and the design that they were given is as it
//! was, or they answer what they answer with ample memory.

mod changes;
mod comparisons;
mod no_rounds;
mod refused_in_turn;
mod two_nets;
mod wires;

use changes::Change;
use leg_lib_records::Library;
use std::alloc::{Allocator, Global};
use test_alloc::RefusingAlloc;
use test_memory::library_of_cells;
use test_texts::{around_an_obstruction, around_blockages};
use wires::WireCall;

/// What is tried under the library, on the design of a DEF.
#[derive(Clone, Copy)]
enum Trial {
    /// It is given.
    Give(Change),
    /// It is given, and a wire for its net.
    Wire(WireCall),
    /// It has two nets. It is given, and wires for them.
    TwoNets(WireCall),
}

/// Whether the trial goes right with each allocation refused in turn.
fn goes_right<A: Allocator + Copy>(
    alloc: A,
    refusing: &RefusingAlloc<Global>,
    trial: Trial,
    def: &[u8],
) -> bool {
    match library_of_cells(alloc) {
        Some(library) => goes_right_under(alloc, refusing, &library, trial, def),
        None => false,
    }
}

fn goes_right_under<A: Allocator + Copy>(
    alloc: A,
    refusing: &RefusingAlloc<Global>,
    library: &Library<'_, A>,
    trial: Trial,
    def: &[u8],
) -> bool {
    match trial {
        Trial::Give(change) => changes::goes_right(alloc, refusing, library, change, def),
        Trial::Wire(call) => wires::goes_right(alloc, refusing, library, call, def),
        Trial::TwoNets(call) => two_nets::goes_right(alloc, refusing, library, call),
    }
}

#[test]
fn a_router_that_finishes_without_a_round(rt: HostRuntime) {
    let library = library_of_cells(rt.alloc()).expect(&rt, "memory");
    for def in [around_an_obstruction(), around_blockages()] {
        assert!(rt; no_rounds::is_left(rt.alloc(), &library, def));
    }
}

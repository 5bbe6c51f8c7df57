//! Checks and runs of which each allocation is refused in turn: they answer that memory ran out, or what they answer with ample memory.

mod checks;
mod commands;
mod comparisons;
mod refused_in_turn;
mod runs;
mod texts;

use checks::CheckCall;
use leg_app::Command;
use runs::Asked;
use std::alloc::{Allocator, Global};
use test_alloc::RefusingAlloc;
use test_memory::library_of_cells;

const COMMANDS: [Command; 8] = [
    Command::Check,
    Command::PlaceCheck,
    Command::Measure,
    Command::Legalise,
    Command::Route,
    Command::Flow,
    Command::Finish,
    Command::Print,
];

/// Whether each command on the DEF goes right with each allocation refused in turn.
fn are_commands_right<A: Allocator + Copy>(
    alloc: A,
    held: Global,
    refusing: &RefusingAlloc<Global>,
    def: &[u8],
) -> bool {
    for command in COMMANDS {
        if !commands::goes_right(alloc, held, refusing, Asked::Run(command, def)) {
            return false;
        }
    }
    true
}

/// Whether the call on the design of a DEF goes right with each allocation refused in turn.
fn is_check_right<A: Allocator + Copy>(
    alloc: A,
    refusing: &RefusingAlloc<Global>,
    call: CheckCall,
    def: &[u8],
) -> bool {
    match library_of_cells(alloc) {
        Some(library) => checks::goes_right(alloc, refusing, &library, call, def),
        None => false,
    }
}

//! One run, in which an allocation may be refused.

use leg_app::{Command, RunFault, Status, run, run_compare};
use std::alloc::{Allocator, Global};
use test_alloc::{Refused, RefusingAlloc, Turn};
use test_texts::cells;

/// What is run under the library.
#[derive(Clone, Copy)]
pub(super) enum Asked<'t> {
    /// The command on the DEF.
    Run(Command, &'t [u8]),
    /// The comparison of the two DEFs.
    Compare(&'t [u8], &'t [u8]),
}

/// How a run ended, and what it wrote.
#[derive(Drop)]
pub(super) struct Answered {
    pub(super) ended: Result<Status, RunFault>,
    pub(super) turn: Turn,
    pub(super) out: Vec<u8>,
}

fn end_of<A: Allocator + Copy>(
    alloc: A,
    asked: Asked<'_>,
    out: &mut Vec<u8>,
) -> Result<Status, RunFault> {
    match asked {
        Asked::Run(command, def) => run(alloc, command, &[cells()], def, out),
        Asked::Compare(before, after) => match run_compare(alloc, &[cells()], before, after, out) {
            Ok(end) => Ok(end.status),
            Err(fault) => Err(fault),
        },
    }
}

/// Runs what is asked, which writes into a list that is never refused.
pub(super) fn ran<A: Allocator + Copy>(
    alloc: A,
    held: Global,
    refusing: &RefusingAlloc<Global>,
    asked: Asked<'_>,
    refused: Refused,
) -> Answered {
    let mut out = Vec::new(held);
    refusing.refuse(refused);
    let ended = end_of(alloc, asked, &mut out);
    let turn = refusing.turn_ended(ended == Ok(Status::Memory));
    Answered { ended, turn, out }
}

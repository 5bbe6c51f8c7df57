//! Two designs that are compared.

use super::runs::{Answered, Asked, ran};
use leg_app::Status;
use std::alloc::{Allocator, Global};
use test_alloc::{Refused, RefusingAlloc, Turns};
use test_memory::is_last;
use test_texts::{after_changes, before_changes};

/// What a comparison says of the two texts.
const LINES: &[u8] = b"DIFFERS DIEAREA
GONE COMPONENT u1
CHANGED COMPONENT u2 PLACE
ADDED COMPONENT u3
CHANGED SPECIALNET vdd TERMINALS
CHANGED NET n1 TERMINALS
CHANGED NET n1 MOREWIRES
CHANGED NET n2 TERMINALS
differs 8
";

/// Whether the run answers what it is to answer, or that memory ran out.
fn is_right(run: &Answered) -> bool {
    if run.turn.refused {
        run.out.as_slice() == b"MEMORY\n".as_slice()
    } else {
        run.ended == Ok(Status::Violations) && run.out.as_slice() == LINES
    }
}

/// Whether a comparison of the two texts answers rightly whichever allocation is refused.
pub(super) fn goes_right<A: Allocator + Copy>(
    alloc: A,
    held: Global,
    refusing: &RefusingAlloc<Global>,
) -> bool {
    let asked = Asked::Compare(before_changes(), after_changes());
    let mut turns = Turns::new();
    for number in 1..Turns::LIMIT {
        let run = ran(alloc, held, refusing, asked, Refused::Growth(number));
        let turn = is_right(&run).then_some(run.turn);
        match is_last(&mut turns, number, turn) {
            Some(false) => {}
            Some(true) => return true,
            None => return false,
        }
    }
    false
}

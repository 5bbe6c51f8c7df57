//! The commands.

use super::runs::{Answered, Asked, ran};
use std::alloc::{Allocator, Global};
use test_alloc::{Refused, RefusingAlloc, Turn, Turns};
use test_memory::is_last;

fn turn_of<A: Allocator + Copy>(
    alloc: A,
    held: Global,
    refusing: &RefusingAlloc<Global>,
    asked: Asked<'_>,
    ample: &Answered,
    number: u64,
) -> Option<Turn> {
    let found = ran(alloc, held, refusing, asked, Refused::Growth(number));
    let is_right = if found.turn.refused {
        found.out.as_slice() == b"MEMORY\n".as_slice()
    } else {
        found.ended == ample.ended && found.out.as_slice() == ample.out.as_slice()
    };
    is_right.then_some(found.turn)
}

/// Whether the command answers rightly whichever allocation is refused.
pub(super) fn goes_right<A: Allocator + Copy>(
    alloc: A,
    held: Global,
    refusing: &RefusingAlloc<Global>,
    asked: Asked<'_>,
) -> bool {
    let ample = ran(alloc, held, refusing, asked, Refused::Nothing);
    let mut turns = Turns::new();
    for number in 1..Turns::LIMIT {
        let turn = turn_of(alloc, held, refusing, asked, &ample, number);
        match is_last(&mut turns, number, turn) {
            Some(false) => {}
            Some(true) => return true,
            None => return false,
        }
    }
    false
}

//! The check of texts.

use leg_app::{TextFault, check_texts};
use std::alloc::{Allocator, Global};
use test_alloc::{Refused, RefusingAlloc, Turn, Turns};
use test_memory::is_last;
use test_texts::cells;

fn turn_of<A: Allocator + Copy>(
    alloc: A,
    refusing: &RefusingAlloc<Global>,
    def: &[u8],
    number: u64,
) -> Option<Turn> {
    let ample = check_texts(alloc, &[cells()], def).ok()?;
    refusing.refuse(Refused::Growth(number));
    let found = check_texts(alloc, &[cells()], def);
    let turn = refusing.turn_ended(found.is_err());
    let is_right = match found {
        Ok(found) => found.as_slice() == ample.as_slice(),
        Err(fault) => matches!(fault, TextFault::Memory),
    };
    is_right.then_some(turn)
}

/// Whether the check of a DEF under the library answers rightly whichever allocation is refused.
pub(super) fn goes_right<A: Allocator + Copy>(
    alloc: A,
    refusing: &RefusingAlloc<Global>,
    def: &[u8],
) -> bool {
    let mut turns = Turns::new();
    for number in 1..Turns::LIMIT {
        let turn = turn_of(alloc, refusing, def, number);
        match is_last(&mut turns, number, turn) {
            Some(false) => {}
            Some(true) => return true,
            None => return false,
        }
    }
    false
}

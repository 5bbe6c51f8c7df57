//! Calls on texts.

use crate::turn::{has_text, is_last};
use leg_design::{def_units, read_def};
use leg_lex::{FaultKind, LexFault, Token, tokens};
use leg_lib::read_lefs;
use leg_lib_records::{Library, RawLibrary, ScaleKind};
use std::alloc::{Allocator, Global};
use test_alloc::{Refused, RefusingAlloc, Turn, Turns};
use test_texts::cells;

/// A call on the text of a DEF, or on that of the LEF.
#[derive(Clone, Copy)]
pub(super) enum TextCall {
    Tokens,
    ReadLefs,
    At,
    DefUnits,
}

/// Whether these are the same words, on the same lines.
fn are_same_words(words: &[Token<'_>], others: &[Token<'_>]) -> bool {
    if words.len() != others.len() {
        return false;
    }
    for number in 0..words.len() {
        let (word, other) = (&words[number], &others[number]);
        if word.text != other.text || word.line != other.line {
            return false;
        }
    }
    true
}

fn tokens_in_turn<A: Allocator + Copy>(
    alloc: A,
    refusing: &RefusingAlloc<Global>,
    text: &[u8],
    number: u64,
) -> Option<Turn> {
    let ample = tokens(alloc, text).ok()?;
    refusing.refuse(Refused::Growth(number));
    let found = tokens(alloc, text);
    let turn = refusing.turn_ended(found.is_err());
    let is_right = match found {
        Ok(found) => are_same_words(&found, &ample),
        Err(fault) => fault == LexFault::Memory,
    };
    is_right.then_some(turn)
}

/// Whether this library comes of the other one at 1000 units a micron.
fn comes_of<A: Allocator + Copy>(
    alloc: A,
    library: &Library<'_, A>,
    raw: &RawLibrary<'_, A>,
) -> bool {
    match raw.at(alloc, 1000) {
        Ok(other) => library.equals(&other),
        Err(_) => false,
    }
}

/// Whether both give the same library at 1000 units a micron.
fn are_same_libraries<A: Allocator + Copy>(
    alloc: A,
    raw: &RawLibrary<'_, A>,
    other: &RawLibrary<'_, A>,
) -> bool {
    match raw.at(alloc, 1000) {
        Ok(library) => comes_of(alloc, &library, other),
        Err(_) => false,
    }
}

fn read_lefs_in_turn<A: Allocator + Copy>(
    alloc: A,
    refusing: &RefusingAlloc<Global>,
    number: u64,
) -> Option<Turn> {
    let ample = read_lefs(alloc, &[cells()]).ok()?;
    refusing.refuse(Refused::Growth(number));
    let found = read_lefs(alloc, &[cells()]);
    let turn = refusing.turn_ended(found.is_err());
    let is_right = match found {
        Ok(found) => are_same_libraries(alloc, &found, &ample),
        Err(fault) => fault.kind == FaultKind::Memory,
    };
    is_right.then_some(turn)
}

/// Lends a library, of which there is a second one, to `at` with its allocation of this number refused.
fn at_with_refusal<A: Allocator + Copy>(
    alloc: A,
    refusing: &RefusingAlloc<Global>,
    raw: &RawLibrary<'_, A>,
    again: &RawLibrary<'_, A>,
    number: u64,
) -> Option<Turn> {
    refusing.refuse(Refused::Growth(number));
    let found = raw.at(alloc, 1000);
    let turn = refusing.turn_ended(found.is_err());
    let is_right = match found {
        Ok(found) => comes_of(alloc, &found, again),
        Err(fault) => fault.kind == ScaleKind::Memory && fault.name.bytes().is_empty(),
    };
    is_right.then_some(turn)
}

fn at_in_turn<A: Allocator + Copy>(
    alloc: A,
    refusing: &RefusingAlloc<Global>,
    number: u64,
) -> Option<Turn> {
    let raw = read_lefs(alloc, &[cells()]).ok()?;
    let again = read_lefs(alloc, &[cells()]).ok()?;
    let turn = at_with_refusal(alloc, refusing, &raw, &again, number)?;
    are_same_libraries(alloc, &raw, &again).then_some(turn)
}

fn def_units_in_turn<A: Allocator + Copy>(
    alloc: A,
    refusing: &RefusingAlloc<Global>,
    def: &[u8],
    number: u64,
) -> Option<Turn> {
    refusing.refuse(Refused::Growth(number));
    let found = def_units(alloc, def);
    let turn = refusing.turn_ended(found.is_err());
    let is_right = match found {
        Ok(found) => found == 1000,
        Err(fault) => fault.kind == FaultKind::Memory,
    };
    is_right.then_some(turn)
}

fn turn_of<A: Allocator + Copy>(
    alloc: A,
    refusing: &RefusingAlloc<Global>,
    call: TextCall,
    def: &[u8],
    number: u64,
) -> Option<Turn> {
    match call {
        TextCall::Tokens => tokens_in_turn(alloc, refusing, def, number),
        TextCall::ReadLefs => read_lefs_in_turn(alloc, refusing, number),
        TextCall::At => at_in_turn(alloc, refusing, number),
        TextCall::DefUnits => def_units_in_turn(alloc, refusing, def, number),
    }
}

/// Whether the call answers rightly whichever allocation is refused.
pub(super) fn goes_right<A: Allocator + Copy>(
    alloc: A,
    refusing: &RefusingAlloc<Global>,
    call: TextCall,
    def: &[u8],
) -> bool {
    let mut turns = Turns::new();
    for number in 1..Turns::LIMIT {
        let turn = turn_of(alloc, refusing, call, def, number);
        match is_last(&mut turns, number, turn) {
            Some(false) => {}
            Some(true) => return true,
            None => return false,
        }
    }
    false
}

fn read_def_in_turn<A: Allocator + Copy>(
    alloc: A,
    refusing: &RefusingAlloc<Global>,
    library: &Library<'_, A>,
    def: &[u8],
    number: u64,
) -> Option<Turn> {
    refusing.refuse(Refused::Growth(number));
    let found = read_def(alloc, library, def);
    let turn = refusing.turn_ended(found.is_err());
    let is_right = match found {
        Ok(design) => has_text(alloc, &design, def),
        Err(fault) => fault.kind == FaultKind::Memory,
    };
    is_right.then_some(turn)
}

/// Whether a DEF, in the bytes that are printed of it, is read rightly under the library whichever allocation is refused.
pub(super) fn is_read_right<A: Allocator + Copy>(
    alloc: A,
    refusing: &RefusingAlloc<Global>,
    library: &Library<'_, A>,
    def: &[u8],
) -> bool {
    let mut turns = Turns::new();
    for number in 1..Turns::LIMIT {
        let turn = read_def_in_turn(alloc, refusing, library, def, number);
        match is_last(&mut turns, number, turn) {
            Some(false) => {}
            Some(true) => return true,
            None => return false,
        }
    }
    false
}

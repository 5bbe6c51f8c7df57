//! Calls by which nets get wires.

use leg_design::read_def;
use leg_design_records::Design;
use leg_lib_records::Library;
use std::alloc::{AllocError, Allocator, Global};
use test_alloc::{Refused, RefusingAlloc, Turn, Turns};
use test_memory::{has_text, is_last};
use test_texts::{
    around_an_obstruction_with_a_wire, net_at_one_place, net_at_one_place_with_a_wire, wired,
};

/// A call that is given an open design and a wire for its net.
#[derive(Clone, Copy)]
pub(super) enum WireCall {
    /// The wire comes in a list for this net.
    WithWires,
    /// It comes in a list of lists, for all nets.
    WithAllWires,
}

/// The text of the design of an open DEF whose net got the wire.
fn text_with_wire(def: &[u8]) -> &'static [u8] {
    if def == net_at_one_place() {
        net_at_one_place_with_a_wire()
    } else {
        around_an_obstruction_with_a_wire()
    }
}

/// The turn of a call that handed this design back, refused or not, in the bytes that are printed of it.
pub(super) fn turn_of_design<A: Allocator + Copy>(
    alloc: A,
    refusing: &RefusingAlloc<Global>,
    design: &Design<'_, A>,
    refused: bool,
    text: &[u8],
) -> Option<Turn> {
    let turn = refusing.turn_ended(refused);
    has_text(alloc, design, text).then_some(turn)
}

/// The net of the open design, which has no wires, gets the one of the other design.
fn gets_wire<A: Allocator + Copy>(
    alloc: A,
    refusing: &RefusingAlloc<Global>,
    open: Design<'_, A>,
    wired: &Design<'_, A>,
    text: &[u8],
    number: u64,
) -> Result<Option<Turn>, AllocError> {
    if !open.fits(wired.library()) || open.vias().len() != 0 || wired.vias().len() != 0 {
        return Ok(None);
    }
    if open.nets().len() != 1 || open.special().len() != 0 || wired.nets().len() != 1 {
        return Ok(None);
    }
    let (before, net) = (&open.nets()[0], &wired.nets()[0]);
    if before.wires.as_slice().len() != 0 || net.wires.as_slice().len() != 1 {
        return Ok(None);
    }
    let wires = Vec::from_slice(alloc, net.wires.as_slice())?;
    refusing.refuse(Refused::Growth(number));
    match open.with_wires(0, wires) {
        Ok(design) => Ok(turn_of_design(alloc, refusing, &design, false, text_with_wire(text))),
        Err((back, _refusal)) => Ok(turn_of_design(alloc, refusing, &back, true, text)),
    }
}

/// The same, where the wires come in a list for all nets.
fn gets_all_wires<A: Allocator + Copy>(
    alloc: A,
    refusing: &RefusingAlloc<Global>,
    open: Design<'_, A>,
    wired: &Design<'_, A>,
    text: &[u8],
    number: u64,
) -> Result<Option<Turn>, AllocError> {
    if !open.fits(wired.library()) || open.vias().len() != 0 || wired.vias().len() != 0 {
        return Ok(None);
    }
    if open.nets().len() != 1 || open.special().len() != 0 || wired.nets().len() != 1 {
        return Ok(None);
    }
    let (before, net) = (&open.nets()[0], &wired.nets()[0]);
    if before.wires.as_slice().len() != 0 || net.wires.as_slice().len() != 1 {
        return Ok(None);
    }
    let wires = Vec::from_slice(alloc, net.wires.as_slice())?;
    let mut lists = Vec::new(alloc);
    lists.push(wires)?;
    refusing.refuse(Refused::Growth(number));
    match open.with_all_wires(lists) {
        Ok(design) => Ok(turn_of_design(alloc, refusing, &design, false, text_with_wire(text))),
        Err((back, _refusal)) => Ok(turn_of_design(alloc, refusing, &back, true, text)),
    }
}

fn turn_of<A: Allocator + Copy>(
    alloc: A,
    refusing: &RefusingAlloc<Global>,
    library: &Library<'_, A>,
    call: WireCall,
    def: &[u8],
    number: u64,
) -> Option<Turn> {
    let open = read_def(alloc, library, def).ok()?;
    let wired = read_def(alloc, library, wired()).ok()?;
    match call {
        WireCall::WithWires => gets_wire(alloc, refusing, open, &wired, def, number).ok()?,
        WireCall::WithAllWires => gets_all_wires(alloc, refusing, open, &wired, def, number).ok()?,
    }
}

/// Whether the open net of a DEF, in the bytes that are printed of it, gets the wire or comes back without it, whichever allocation
/// is refused.
pub(super) fn goes_right<A: Allocator + Copy>(
    alloc: A,
    refusing: &RefusingAlloc<Global>,
    library: &Library<'_, A>,
    call: WireCall,
    def: &[u8],
) -> bool {
    let mut turns = Turns::new();
    for number in 1..Turns::LIMIT {
        let turn = turn_of(alloc, refusing, library, call, def, number);
        match is_last(&mut turns, number, turn) {
            Some(false) => {}
            Some(true) => return true,
            None => return false,
        }
    }
    false
}

//! Calls by which two nets get wires. An allocation may be refused between the two.

ghost use Rattle.std.specs.Prelude.{◌≡◌, ◌<◌, ◌≤◌, false, [], length, map, All, IfOk, IsTrue};
ghost use Rattle.leg_design_records.specs.Records.{wire_count};
ghost use Rattle.leg_design_records.specs.WellFormedNets.{IsWire};

use super::wires::{WireCall, turn_of_design};
use leg_design::read_def;
use leg_design_records::{Design, Wire};
use leg_lib_records::Library;
use std::alloc::{AllocError, Allocator, Global};
use test_alloc::{Refused, RefusingAlloc, Turn, Turns};
use test_memory::is_last;

/// Two inverters and two nets, each with a wire, in the bytes that are printed of them.
pub(super) const TEXT: &[u8] = b"VERSION 5.8 ;
DESIGN top ;
UNITS DISTANCE MICRONS 1000 ;
DIEAREA ( 0 0 ) ( 1200 2000 ) ;
COMPONENTS 2 ;
- u1 INV + PLACED ( 0 0 ) N ;
- u2 INV + PLACED ( 400 0 ) N ;
END COMPONENTS
NETS 2 ;
- n1 ( u1 Y ) ( u2 A )
  + ROUTED m1 ( 300 900 ) ( 500 900 ) ;
- n2 ( u2 Y )
  + ROUTED m1 ( 700 900 ) ( 900 900 ) ;
END NETS
END DESIGN
";

/// The same, where the second net has its wire twice.
const SECOND_TWICE: &[u8] = b"VERSION 5.8 ;
DESIGN top ;
UNITS DISTANCE MICRONS 1000 ;
DIEAREA ( 0 0 ) ( 1200 2000 ) ;
COMPONENTS 2 ;
- u1 INV + PLACED ( 0 0 ) N ;
- u2 INV + PLACED ( 400 0 ) N ;
END COMPONENTS
NETS 2 ;
- n1 ( u1 Y ) ( u2 A )
  + ROUTED m1 ( 300 900 ) ( 500 900 ) ;
- n2 ( u2 Y )
  + ROUTED m1 ( 700 900 ) ( 900 900 )
  NEW m1 ( 700 900 ) ( 900 900 ) ;
END NETS
END DESIGN
";

/// The same, where both have.
const BOTH_TWICE: &[u8] = b"VERSION 5.8 ;
DESIGN top ;
UNITS DISTANCE MICRONS 1000 ;
DIEAREA ( 0 0 ) ( 1200 2000 ) ;
COMPONENTS 2 ;
- u1 INV + PLACED ( 0 0 ) N ;
- u2 INV + PLACED ( 400 0 ) N ;
END COMPONENTS
NETS 2 ;
- n1 ( u1 Y ) ( u2 A )
  + ROUTED m1 ( 300 900 ) ( 500 900 )
  NEW m1 ( 300 900 ) ( 500 900 ) ;
- n2 ( u2 Y )
  + ROUTED m1 ( 700 900 ) ( 900 900 )
  NEW m1 ( 700 900 ) ( 900 900 ) ;
END NETS
END DESIGN
";

/// Whether the design has two nets with a wire each, no special nets and no vias.
fn has_two_wires<A: Allocator + Copy>(design: &Design<'_, A>) -> bool
    ensures nets { IsTrue result → length design.now.nets ≡ 2 }
    ensures wires { IsTrue result → wire_count design.now.nets ≡ 2 }
    ensures special { IsTrue result → design.now.special ≡ [] }
    ensures vias { IsTrue result → design.now.vias ≡ [] }
{
    if design.nets().len() != 2 || design.special().len() != 0 || design.vias().len() != 0 {
        return false;
    }
    let (first, second) = (&design.nets()[0], &design.nets()[1]);
    if first.wires.as_slice().len() != 1 || second.wires.as_slice().len() != 1 {
        return false;
    }
    true
}

/// The wires of the second net.
fn second_wires<A: Allocator + Copy>(
    alloc: A,
    design: &Design<'_, A>,
) -> Result<Vec<Wire, A>, AllocError>
    requires { 1 < length design.now.nets }
    ensures spelled { IfOk result (λ wires. All (IsWire design.now.library design.now.vias false) wires.items) }
    ensures few { IfOk result (λ wires. length wires.items ≤ wire_count design.now.nets) }
{
    let net = &design.nets()[1];
    Vec::from_slice(alloc, net.wires.as_slice())
}

/// The wires of each net.
fn lists_of_wires<A: Allocator + Copy>(
    alloc: A,
    design: &Design<'_, A>,
) -> Result<Vec<Vec<Wire, A>, A>, AllocError>
    ensures are { IfOk result (λ lists. map (λ wires. wires.items) lists.items ≡ map (λ net. net.wires) design.now.nets) }
    ensures spelled { IfOk result (λ lists. All (λ wires. All (IsWire design.now.library design.now.vias false) wires.items) lists.items) }
{
    let mut lists = Vec::new(alloc);
    for net in design.nets() {
        let wires = Vec::from_slice(alloc, net.wires.as_slice())?;
        lists.push(wires)?;
    }
    Ok(lists)
}

/// The second net gets its wire once more: that of a second reading of the design.
fn second_gets_wire<A: Allocator + Copy>(
    alloc: A,
    refusing: &RefusingAlloc<Global>,
    design: Design<'_, A>,
    again: &Design<'_, A>,
    number: u64,
) -> Result<Option<Turn>, AllocError> {
    if !design.fits(again.library()) || !has_two_wires(&design) || !has_two_wires(again) {
        return Ok(None);
    }
    let wires = second_wires(alloc, again)?;
    refusing.refuse(Refused::Growth(number));
    match design.with_wires(1, wires) {
        Ok(design) => Ok(turn_of_design(alloc, refusing, &design, false, SECOND_TWICE)),
        Err((back, _refusal)) => Ok(turn_of_design(alloc, refusing, &back, true, TEXT)),
    }
}

/// Both nets do, from a list of lists.
fn both_get_wires<A: Allocator + Copy>(
    alloc: A,
    refusing: &RefusingAlloc<Global>,
    design: Design<'_, A>,
    again: &Design<'_, A>,
    number: u64,
) -> Result<Option<Turn>, AllocError> {
    if !design.fits(again.library()) || !has_two_wires(&design) || !has_two_wires(again) {
        return Ok(None);
    }
    let lists = lists_of_wires(alloc, again)?;
    refusing.refuse(Refused::Growth(number));
    match design.with_all_wires(lists) {
        Ok(design) => Ok(turn_of_design(alloc, refusing, &design, false, BOTH_TWICE)),
        Err((back, _refusal)) => Ok(turn_of_design(alloc, refusing, &back, true, TEXT)),
    }
}

fn turn_of<A: Allocator + Copy>(
    alloc: A,
    refusing: &RefusingAlloc<Global>,
    library: &Library<'_, A>,
    call: WireCall,
    number: u64,
) -> Option<Turn> {
    let design = read_def(alloc, library, TEXT).ok()?;
    let again = read_def(alloc, library, TEXT).ok()?;
    match call {
        WireCall::WithWires => second_gets_wire(alloc, refusing, design, &again, number).ok()?,
        WireCall::WithAllWires => both_get_wires(alloc, refusing, design, &again, number).ok()?,
    }
}

/// Whether the nets get the wires or come back without them, whichever allocation is refused.
pub(super) fn goes_right<A: Allocator + Copy>(
    alloc: A,
    refusing: &RefusingAlloc<Global>,
    library: &Library<'_, A>,
    call: WireCall,
) -> bool {
    let mut turns = Turns::new();
    for number in 1..Turns::LIMIT {
        let turn = turn_of(alloc, refusing, library, call, number);
        match is_last(&mut turns, number, turn) {
            Some(false) => {}
            Some(true) => return true,
            None => return false,
        }
    }
    false
}

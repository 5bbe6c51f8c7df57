//! What came of a call of which one allocation was to be refused, and what it answered.

ghost use Rattle.std.specs.Prelude.{◌≡◌, ◌<◌, ◌↔◌, IsTrue, false, IfSome, IsSome};

use leg_design_records::Design;
use leg_print::print_def;
use std::alloc::{AllocError, Allocator, Global};
use test_alloc::{RefusingAlloc, Turn, Turns};

/// Whether this turn is the last one, as `Turns::is_last` answers; nothing where it went wrong.
pub fn is_last(turns: &mut Turns, number: u64, turn: Option<Turn>) -> Option<bool>
    ensures last { IfSome result (λ last. IfSome turn (λ turn. IsTrue last ↔ turn.growths < number)) }
    ensures answered { IfSome result (λ last. IsTrue last → IsTrue turns.old.refusals) }
    ensures refused { IfSome result (λ last. IfSome turn (λ turn. IsTrue last → turn.refused ≡ false)) }
    ensures right { IsSome result → IsSome turn }
{
    turns.is_last(number, turn?).ok()
}

/// The turn of a call that answers a list, if that is this one or memory ran out.
pub fn turn_of_list<T: PartialEq + Drop, A: Allocator>(
    refusing: &RefusingAlloc<Global>,
    found: Result<Vec<T, A>, AllocError>,
    ample: &[T],
) -> Option<Turn> {
    let turn = refusing.turn_ended(found.is_err());
    let is_right = match found {
        Ok(found) => found.as_slice() == ample,
        Err(_refusal) => true,
    };
    is_right.then_some(turn)
}

/// Whether the design is printed as this text.
pub fn has_text<A: Allocator + Copy>(alloc: A, design: &Design<'_, A>, text: &[u8]) -> bool {
    match print_def(alloc, design.library(), design) {
        Ok(printed) => printed.as_slice() == text,
        Err(_refusal) => false,
    }
}

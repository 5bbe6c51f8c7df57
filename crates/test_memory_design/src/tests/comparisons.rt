//! Two designs that are compared.

ghost use Rattle.std.specs.Prelude.{◌≡◌};

use leg_compare::{Difference, differences};
use leg_design::read_def;
use leg_design_records::Design;
use leg_lib_records::Library;
use std::alloc::{Allocator, Global};
use test_alloc::{Refused, RefusingAlloc, Turn, Turns};
use test_memory::{has_text, is_last, turn_of_list};
use test_texts::{after_changes, before_changes};

/// How many differences there are.
const DIFFERENCES: usize = 8;

/// The differences with the allocation of this number refused: they are those that are found with ample memory, or memory ran out, and
/// both designs are as they were.
fn turn_of<A: Allocator + Copy>(
    alloc: A,
    refusing: &RefusingAlloc<Global>,
    first: &Design<'_, A>,
    second: &Design<'_, A>,
    ample: &[Difference],
    number: u64,
) -> Option<Turn>
    requires { first.now.library ≡ second.now.library }
{
    refusing.refuse(Refused::Growth(number));
    let found = differences(alloc, first, second);
    let turn = turn_of_list(refusing, found, ample)?;
    let are_left = has_text(alloc, first, before_changes())
        && has_text(alloc, second, after_changes());
    are_left.then_some(turn)
}

fn are_told_of<A: Allocator + Copy>(
    alloc: A,
    refusing: &RefusingAlloc<Global>,
    first: &Design<'_, A>,
    second: &Design<'_, A>,
) -> bool
    requires { first.now.library ≡ second.now.library }
{
    let Ok(ample) = differences(alloc, first, second) else {
        return false;
    };
    if ample.len() != DIFFERENCES {
        return false;
    }
    let mut turns = Turns::new();
    for number in 1..Turns::LIMIT {
        let turn = turn_of(alloc, refusing, first, second, &ample, number);
        match is_last(&mut turns, number, turn) {
            Some(false) => {}
            Some(true) => return true,
            None => return false,
        }
    }
    false
}

/// Whether the differences between the two designs are told rightly whichever allocation is refused.
pub(super) fn are_told<A: Allocator + Copy>(
    alloc: A,
    refusing: &RefusingAlloc<Global>,
    library: &Library<'_, A>,
) -> bool {
    match (
        read_def(alloc, library, before_changes()),
        read_def(alloc, library, after_changes()),
    ) {
        (Ok(first), Ok(second)) => {
            first.fits(second.library()) && are_told_of(alloc, refusing, &first, &second)
        }
        _ => false,
    }
}

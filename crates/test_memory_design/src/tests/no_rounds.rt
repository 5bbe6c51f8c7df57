//! The router that finishes, without a round.

use leg_design::read_def;
use leg_design_records::Design;
use leg_finish::{Budget, FinishFault, finish_within};
use leg_lib_records::Library;
use leg_print::print_def;
use std::alloc::Allocator;

/// Whether it is told that the first net is left, and no other.
fn is_of_first_net<A: Allocator>(fault: &FinishFault<A>) -> bool {
    match fault {
        FinishFault::Unfinished(nets) => nets.as_slice() == [0].as_slice(),
        _ => false,
    }
}

/// The text of the design that a router which may not try a round hands back, if it tells that the first net is left.
fn left<A: Allocator + Copy>(alloc: A, design: Design<'_, A>) -> Option<Vec<u8, A>> {
    let library = design.library();
    let budget = Budget {
        rounds: 0,
        ..Budget::DEFAULT
    };
    match finish_within(alloc, library, design, budget, &mut ()) {
        Ok(_) => None,
        Err((back, fault)) => {
            if !is_of_first_net(&fault) {
                return None;
            }
            print_def(alloc, back.library(), &back).ok()
        }
    }
}

/// The same, of the design that a DEF denotes.
fn text_left<A: Allocator + Copy>(
    alloc: A,
    library: &Library<'_, A>,
    def: &[u8],
) -> Option<Vec<u8, A>> {
    let design = read_def(alloc, library, def).ok()?;
    left(alloc, design)
}

/// Whether the only net of the DEF, in the bytes that are printed of its design, is left by a router that may not try a round, and the
/// design comes back as it was.
pub(super) fn is_left<A: Allocator + Copy>(alloc: A, library: &Library<'_, A>, def: &[u8]) -> bool {
    match text_left(alloc, library, def) {
        Some(text) => text.as_slice() == def,
        None => false,
    }
}

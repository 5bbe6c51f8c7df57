//! Marked components.

ghost use Rattle.std.specs.Prelude.{◌≡◌, ◌↔◌, true, length, replicate, IsTrue, IfOk};
ghost use Rattle.leg_place.specs.Among.{IsMarked};

use leg_design_records::Design;
use std::alloc::{AllocError, Allocator};

/// Whether the component of this number is marked.
pub(crate) fn is_marked(marks: &[bool], number: usize) -> bool
    ensures { IsTrue result ↔ IsMarked marks.now number }
{
    match marks.get(number) {
        Some(mark) => *mark,
        None => false,
    }
}

/// A mark for each component.
pub(crate) fn all_marked<A: Allocator + Copy>(
    alloc: A,
    design: &Design<'_, A>,
) -> Result<Vec<bool, A>, AllocError>
    ensures { IfOk result (λ marks. marks.items ≡ replicate (length design.now.components) true) }
{
    Vec::from_elem(alloc, true, design.components().len())
}

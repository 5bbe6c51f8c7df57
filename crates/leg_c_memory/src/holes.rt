//! A list of free parts of memory, which is kept in those parts.

ghost use Rattle.std.specs.Prelude.{◌≡◌, ℕ, List, [], ◌∷◌, MatchResult};
ghost use denote.RawPtr.{block_of, count_of};
ghost use Rattle.leg_c_memory.specs.Sizes.{Span};
ghost use Rattle.leg_c_memory.specs.Ownership.{first_of, holes};

use crate::memory::Memory;
use std::marker::Model;
use std::ptr::null_mut;

/// What the first bytes of a free part contain.
#[repr(C)]
struct Hole {
    size: usize,
    next: *mut Hole,
}

/// Free parts of one object's memory. The one that was pushed last is popped first.
#[derive(Drop)]
pub(crate) struct Holes {
    first: *mut Hole,
    pub(crate) ghost object: { ℕ },
    pub(crate) ghost spans: { List Span },
    ghost begins: { first ≡ first_of object spans },
}

impl Model for Holes {
    ghost also_owns = { λ l. holes l.object l.spans };
}

impl Holes {
    /// No parts, of the object that `memory` lies in.
    pub(crate) fn beside(memory: &Memory) -> Holes
        ensures { (result.object ≡ block_of memory.now.ptr) × (result.spans ≡ []) }
    {
        let _memory = memory;
        Holes { first: null_mut() }
    }

    /// One more part.
    pub(crate) fn push(self, memory: Memory) -> Holes
        requires { block_of memory.ptr ≡ self.object }
        ensures { (result.object ≡ self.object) × (result.spans ≡ (count_of memory.ptr, memory.size) ∷ self.spans) }
    {
        let Holes { first } = self;
        let Memory { ptr, size } = memory;
        let hole = ptr as *mut Hole;
        unsafe { hole.write(Hole { size, next: first }) };
        Holes { first: hole }
    }

    /// The first part, and the others.
    pub(crate) fn pop(self) -> Result<(Memory, Holes), Holes>
        ensures { MatchResult result
            (λ r. (block_of r.0.ptr ≡ self.object) × (r.1.object ≡ self.object) × (self.spans ≡ (count_of r.0.ptr, r.0.size) ∷ r.1.spans))
            (λ l. (l ≡ self) × (self.spans ≡ [])) }
    {
        let Holes { first } = self;
        if first.is_null() {
            return Err(Holes { first });
        }
        unsafe {
            let size = (*first).size;
            let next = (*first).next;
            let ptr = first as *mut u8;
            Ok((Memory { ptr, size }, Holes { first: next }))
        }
    }
}

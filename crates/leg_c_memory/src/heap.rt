//! The allocator.

ghost use Rattle.std.specs.Prelude.{◌≡◌, ◌^◌, ◌<◌, IfSome};
ghost use denote.RawPtr.{block_of};
ghost use Rattle.leg_c_memory.specs.Sizes.{block_size};
ghost use Rattle.leg_c_memory.specs.Ownership.{block_token};

use crate::free::FreeParts;
use crate::memory::{Memory, UNIT};
use crate::slot::Slot;
use std::alloc::{AllocError, Allocator};

/// An allocator over the memory that it is made of. A `&` to it is an allocator too, for one thread.
///
/// A request is served by the lowest free part that has the bytes, and refused if none has. What is given back is joined to the free
/// parts that it touches. Blocks are aligned to `UNIT`, which no type of Rattle exceeds.
pub struct LentHeap {
    slot: Slot,
    pub(crate) size: usize,
}

impl LentHeap {
    /// A heap with no block out.
    pub fn new(memory: Memory) -> LentHeap
        ensures { result.size ≡ memory.size }
    {
        let (size, memory) = memory.with_size();
        LentHeap {
            slot: Slot::new(FreeParts::of(memory)),
            size,
        }
    }

    /// All of the memory, if no block is out. Otherwise it is not given back.
    pub fn into_memory(self) -> Option<Memory>
        ensures { IfSome result (λ m. m.size ≡ self.size) }
    {
        let LentHeap { slot, size } = self;
        let parts = slot.into_inner()?;
        parts.into_whole(size)
    }

    fn take(&self, size: usize) -> Option<Memory>
        ensures { IfSome result (λ m. (block_of m.ptr ≡ self.now.slot) × (m.size ≡ block_size size) × (size < 2 ^ 63)) }
    {
        if size > isize::MAX as usize {
            return None;
        }
        let parts = self.slot.replace(None)?;
        let (parts, memory) = parts.take(rounded(size));
        self.slot.replace(Some(parts));
        memory
    }

    fn give(&self, memory: Memory)
        requires { block_of memory.ptr ≡ self.now.slot }
    {
        // The slot is empty only within this function and `take`, neither of which calls the other.
        match self.slot.replace(None) {
            Some(parts) => {
                self.slot.replace(Some(parts.give(memory)));
            }
            None => drop(memory),
        }
    }
}

/// The size of the memory that serves a request.
fn rounded(size: usize) -> usize
    requires { size < 2 ^ 63 }
    ensures { result ≡ block_size size }
{
    size.max(UNIT).next_multiple_of(UNIT)
}

unsafe impl Allocator for LentHeap {
    ghost dealloc_token = { λ heap. block_token heap.slot };

    fn allocate(&self, size: usize, _align: usize) -> Result<*mut u8, AllocError> {
        match self.take(size) {
            Some(Memory { ptr, size: _ }) => Ok(ptr),
            None => Err(AllocError),
        }
    }

    unsafe fn deallocate(&self, ptr: *mut u8, size: usize, _align: usize) {
        let size = rounded(size);
        self.give(Memory { ptr, size });
    }
}

impl Drop for LentHeap {
    fn drop(self) {
        let LentHeap { slot, size: _ } = self;
        drop(slot.into_inner());
    }
}

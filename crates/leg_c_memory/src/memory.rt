//! Memory in which nothing lies, and its parts.

ghost use Rattle.std.specs.Prelude.{◌≡◌, ◌-◌, ◌+◌, ◌<◌, MatchResult};
ghost use types.Logic.{sem};
ghost use denote.RawPtr.{block_of};
ghost use Rattle.leg_c_memory.specs.Sizes.{IsSize, IsMemory};
ghost use Rattle.leg_c_memory.specs.Ownership.{bytes_at};

use std::marker::Model;

/// The least size of a part of memory, in bytes. Each part is aligned to it, and has a multiple of it for its size.
pub const UNIT: usize = 16;

/// Bytes in which nothing lies, aligned to `UNIT`. For C it is a struct of a pointer and a size.
#[derive(Drop)]
#[repr(C)]
pub struct Memory {
    pub(crate) ptr: *mut u8,
    pub(crate) size: usize,
    ghost fits: { IsMemory ptr size },
}

impl Model for Memory {
    ghost also_owns = { λ m. bytes_at m.ptr m.size };
}

impl Memory {
    /// The `size` bytes from `ptr` on, which the caller hands over.
    pub unsafe fn from_raw_parts(ptr: *mut u8, size: usize) -> Memory
        requires fits { IsMemory ptr size }
        requires* memory { sem 𝓛 (bytes_at ptr size) }
        ensures { (result.ptr ≡ ptr) × (result.size ≡ size) }
    {
        Memory { ptr, size }
    }

    /// How many bytes it has, and the memory again.
    pub fn with_size(self) -> (usize, Memory)
        ensures { (result.0 ≡ self.size) × (result.1 ≡ self) }
    {
        let Memory { ptr, size } = self;
        (size, Memory { ptr, size })
    }

    /// Its first `front` bytes, and the rest.
    pub(crate) fn split(self, front: usize) -> (Memory, Memory)
        requires { IsSize front × (front < self.size) }
        ensures front { (result.0.ptr ≡ self.ptr) × (result.0.size ≡ front) }
        ensures rest { (block_of result.1.ptr ≡ block_of self.ptr) × (result.1.size ≡ self.size - front) }
    {
        let Memory { ptr, size } = self;
        unsafe {
            let rest = ptr.add(front);
            (
                Memory { ptr, size: front },
                Memory {
                    ptr: rest,
                    size: size - front,
                },
            )
        }
    }

    /// The two as one, if `next` begins where this one ends.
    pub(crate) fn join(self, next: Memory) -> Result<Memory, (Memory, Memory)>
        requires { block_of next.ptr ≡ block_of self.ptr }
        ensures { MatchResult result (λ m. (m.ptr ≡ self.ptr) × (m.size ≡ self.size + next.size)) (λ r. r ≡ (self, next)) }
    {
        let Memory { ptr, size } = self;
        let Memory {
            ptr: start,
            size: more,
        } = next;
        unsafe {
            let end = ptr.add(size);
            if end == start {
                let size = size + more;
                Ok(Memory { ptr, size })
            } else {
                Err((
                    Memory { ptr, size },
                    Memory {
                        ptr: start,
                        size: more,
                    },
                ))
            }
        }
    }

    /// Whether it lies below `other`, and the two again.
    pub(crate) fn is_below(self, other: Memory) -> (bool, (Memory, Memory))
        requires { block_of other.ptr ≡ block_of self.ptr }
        ensures { result.1 ≡ (self, other) }
    {
        let Memory { ptr, size } = self;
        let Memory {
            ptr: place,
            size: extent,
        } = other;
        let below = ptr < place;
        (
            below,
            (
                Memory { ptr, size },
                Memory {
                    ptr: place,
                    size: extent,
                },
            ),
        )
    }
}

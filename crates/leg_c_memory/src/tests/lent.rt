//! Memory that a test lends.

ghost use Rattle.std.specs.Prelude.{◌^◌, ◌<◌};
ghost use Rattle.leg_c_memory.specs.Sizes.{IsSize};

use crate::memory::{Memory, UNIT};
use std::alloc::{Allocator, Global};

/// Memory of `size` bytes, which is never freed.
pub(crate) fn lent(alloc: &Global, size: usize) -> Option<Memory>
    requires { IsSize size × (size < 2 ^ 63) }
{
    match alloc.allocate(size, UNIT) {
        Ok(ptr) => Some(Memory { ptr, size }),
        Err(_) => None,
    }
}

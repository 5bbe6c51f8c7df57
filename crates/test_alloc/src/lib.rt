//! An allocator for tests, which refuses the growths that a test names.
#![tactic(auto)]

use std::alloc::{AllocError, Allocator};
use std::cell::Cell;

#[cfg(test)]
mod tests;
mod turn;

pub use turn::{Turn, Turns};

/// Which growths are refused.
#[derive(Clone, Copy, PartialEq, Eq, Debug)]
pub enum Refused {
    /// None is.
    Nothing,
    /// The one of this number, of those from now on, of which the first is 1.
    Growth(u64),
    /// Each one is.
    Every,
}

/// How many growths there were, and which are refused.
#[derive(Clone, Copy)]
struct Growths {
    asked: u64,
    refused: Refused,
}

/// Hands each growth on to another allocator, apart from those that it is set to refuse, and counts them.
/// It is lent, since a `&` to it is an allocator too.
#[derive(Drop)]
pub struct RefusingAlloc<B: Allocator> {
    inner: B,
    growths: Cell<Growths>,
}

impl<B: Allocator> RefusingAlloc<B> {
    /// An allocator that hands each growth on.
    pub fn new(inner: B) -> RefusingAlloc<B> {
        RefusingAlloc {
            inner,
            growths: Cell::new(Growths {
                asked: 0,
                refused: Refused::Nothing,
            }),
        }
    }

    /// From now on these are refused, and the count begins anew.
    pub fn refuse(&self, refused: Refused) {
        self.growths.set(Growths { asked: 0, refused });
    }

    /// How many growths were asked for since `refuse` was last called, including those that it refused.
    pub fn growths(&self) -> u64 {
        self.growths.get().asked
    }

    /// What came of the call since `refuse` was last called, which answered that memory ran out, or did not. From now on no growth is
    /// refused.
    pub fn turn_ended(&self, refused: bool) -> Turn {
        let growths = self.growths();
        self.refuse(Refused::Nothing);
        Turn { growths, refused }
    }
}

/// Counts a growth, and returns whether it is one of those that are refused.
fn is_refused(growths: &Cell<Growths>) -> bool {
    let Growths { asked, refused } = growths.get();
    let asked = asked.saturating_add(1);
    growths.set(Growths { asked, refused });
    match refused {
        Refused::Nothing => false,
        Refused::Growth(number) => asked == number,
        Refused::Every => true,
    }
}

unsafe impl<B: Allocator> Allocator for RefusingAlloc<B> {
    ghost dealloc_token = { λ heap ty ptr. B.dealloc_token heap.inner ty ptr };

    fn allocate(&self, size: usize, align: usize) -> Result<*mut u8, AllocError> {
        if is_refused(&self.growths) {
            return Err(AllocError);
        }
        self.inner.allocate(size, align)
    }

    unsafe fn deallocate(&self, ptr: *mut u8, size: usize, align: usize) {
        self.inner.deallocate(ptr, size, align);
    }
}

//! Why a design isn't legalised.

ghost use Rattle.std.specs.Prelude.{◌≡◌};
ghost use Rattle.leg_legal.specs.declared.fault.LegalFault.TheVariants.{Memory};

use leg_design_records::Fault;
use leg_lib_records::Items;
use std::alloc::{AllocError, AllocFailed, Allocator};

/// The cause for which a design isn't legalised (lefdef's own rules). Of several, the first in this order is reported,
/// apart from memory.
#[derive(Drop)]
pub enum LegalFault<A: Allocator> {
    /// Components that stay break rules among themselves: the violations, in order.
    FixedIllegal(Items<Fault, A>),
    /// The macro of the component fits no row: it isn't as high as its site, not as wide as a number of them, or no row
    /// has that site. Of several such components, it is the first.
    NoSite(u32),
    /// No position was free when the turn of the component came.
    NoRoom(u32),
    /// An allocation failed.
    Memory,
}

impl<A: Allocator> From<AllocError> for LegalFault<A> {
    ghost from_gives = { λ _ e. e ≡ Memory };

    fn from(_e: AllocError) -> LegalFault<A> {
        LegalFault::Memory
    }
}

impl<T: Drop, A: Allocator> From<AllocFailed<T>> for LegalFault<A> {
    ghost from_gives = { λ _ e. e ≡ Memory };

    fn from(_e: AllocFailed<T>) -> LegalFault<A> {
        LegalFault::Memory
    }
}

//! Why a design has no clean flat.

ghost use Rattle.std.specs.Prelude.{◌≡◌};
ghost use Rattle.leg_flat.specs.declared.fault.FlatFault.TheVariants as flat_fault;
ghost use Rattle.leg_check.specs.declared.fault.CleanFlatFault.TheVariants.{NoFlat};

use leg_design_records::Fault;
use leg_flat::FlatFault;
use leg_lib_records::Items;
use std::alloc::{AllocError, Allocator};

/// Why a design has no clean flat.
#[derive(Drop)]
pub enum CleanFlatFault<A: Allocator> {
    /// It has no flat, or there was no memory for the list of its violations.
    NoFlat(FlatFault),
    /// It has violations of other kinds than `OpenNet`: all of them, in order.
    NotClean(Items<Fault, A>),
}

impl<A: Allocator> From<AllocError> for CleanFlatFault<A> {
    ghost from_gives = { λ _ e. e ≡ NoFlat flat_fault.Memory };

    fn from(_e: AllocError) -> CleanFlatFault<A> {
        CleanFlatFault::NoFlat(FlatFault::Memory)
    }
}

impl<A: Allocator> From<FlatFault> for CleanFlatFault<A> {
    ghost from_gives = { λ fault e. e ≡ NoFlat fault };

    fn from(fault: FlatFault) -> CleanFlatFault<A> {
        CleanFlatFault::NoFlat(fault)
    }
}

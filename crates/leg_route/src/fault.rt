//! Why a design isn't routed.

ghost use Rattle.std.specs.Prelude.{◌≡◌};
ghost use Rattle.leg_route.specs.declared.fault.RouteFault.TheVariants.{Memory};
ghost use Rattle.leg_route.specs.Refusal.{of_clean_flat, of_flat, of_grid};

use leg_check::CleanFlatFault;
use leg_design_records::Fault;
use leg_flat::FlatFault;
use leg_lib_records::Items;
use leg_route_grid::GridFault;
use std::alloc::{AllocError, AllocFailed, Allocator};

/// The cause for which a design isn't routed (lefdef's own rules). Of several, the first in this order is reported,
/// apart from memory, and for a design that has too many shapes as it is: that is reported before all others.
#[derive(Drop)]
pub enum RouteFault<A: Allocator> {
    /// The design has violations of other kinds than `OpenNet`: all of them, in order.
    NotClean(Items<Fault, A>),
    /// It has too many tracks, or its grid too many slots.
    GridTooLarge,
    /// The turn of the net of this number came, and no open walk led from its joined part to the rest.
    Unroutable(u32),
    /// The design has more shapes than a flat may have, or a wire that was to be added would pass their number.
    TooMany,
    /// An allocation failed.
    Memory,
}

impl<A: Allocator> From<AllocError> for RouteFault<A> {
    ghost from_gives = { λ _ e. e ≡ Memory };

    fn from(_e: AllocError) -> RouteFault<A> {
        RouteFault::Memory
    }
}

impl<T: Drop, A: Allocator> From<AllocFailed<T>> for RouteFault<A> {
    ghost from_gives = { λ _ e. e ≡ Memory };

    fn from(_e: AllocFailed<T>) -> RouteFault<A> {
        RouteFault::Memory
    }
}

impl<A: Allocator> From<FlatFault> for RouteFault<A> {
    ghost from_gives = { λ f e. e ≡ of_flat f };

    fn from(fault: FlatFault) -> RouteFault<A> {
        match fault {
            FlatFault::TooMany => RouteFault::TooMany,
            FlatFault::Memory => RouteFault::Memory,
        }
    }
}

impl<A: Allocator> From<GridFault> for RouteFault<A> {
    ghost from_gives = { λ f e. e ≡ of_grid f };

    fn from(fault: GridFault) -> RouteFault<A> {
        match fault {
            GridFault::TooLarge => RouteFault::GridTooLarge,
            GridFault::Memory => RouteFault::Memory,
        }
    }
}

impl<A: Allocator> From<CleanFlatFault<A>> for RouteFault<A> {
    ghost from_gives = { λ f e. e ≡ of_clean_flat f };

    fn from(fault: CleanFlatFault<A>) -> RouteFault<A> {
        match fault {
            CleanFlatFault::NoFlat(fault) => RouteFault::from(fault),
            CleanFlatFault::NotClean(faults) => RouteFault::NotClean(faults),
        }
    }
}

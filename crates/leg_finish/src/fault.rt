//! Why a design isn't finished.

ghost use Rattle.std.specs.Prelude.{◌≡◌};
ghost use Rattle.leg_finish.specs.declared.fault.FinishFault.TheVariants.{Memory};
ghost use Rattle.leg_finish.specs.Refusal.{of_clean_flat, of_grid};

use leg_check::CleanFlatFault;
use leg_design_records::Fault;
use leg_flat::FlatFault;
use leg_lib_records::Items;
use leg_route_grid::GridFault;
use std::alloc::{AllocError, Allocator};

/// The cause for which a design isn't finished (lefdef's own rules). Of several, the first in this order is reported, apart from
/// memory.
#[derive(Drop)]
pub enum FinishFault<A: Allocator> {
    /// The design has more shapes than a flat may have.
    TooMany,
    /// It has violations of other kinds than `OpenNet`: all of them, in order.
    NotClean(Items<Fault, A>),
    /// It has more tracks than `GREATEST_GRID`, or its grid more slots.
    GridTooLarge,
    /// No open walk leads from what is joined to this piece of this net to another piece: the first such piece, by the numbers of net and
    /// piece. Wires of other nets open none.
    Unreachable(u32, u32),
    /// The search was given up, or its wires were not legal, with these nets left. All of them are open, there are some, and no open net
    /// has a piece that cannot be reached. Whether they can be joined past one another is not known.
    Unfinished(Items<u32, A>),
    /// An allocation failed.
    Memory,
}

impl<A: Allocator> From<AllocError> for FinishFault<A> {
    ghost from_gives = { λ _ e. e ≡ Memory };

    fn from(_e: AllocError) -> FinishFault<A> {
        FinishFault::Memory
    }
}

impl<A: Allocator> From<GridFault> for FinishFault<A> {
    ghost from_gives = { λ f e. e ≡ of_grid f };

    fn from(fault: GridFault) -> FinishFault<A> {
        match fault {
            GridFault::TooLarge => FinishFault::GridTooLarge,
            GridFault::Memory => FinishFault::Memory,
        }
    }
}

impl<A: Allocator> From<CleanFlatFault<A>> for FinishFault<A> {
    ghost from_gives = { λ f e. e ≡ of_clean_flat f };

    fn from(fault: CleanFlatFault<A>) -> FinishFault<A> {
        match fault {
            CleanFlatFault::NoFlat(FlatFault::TooMany) => FinishFault::TooMany,
            CleanFlatFault::NoFlat(FlatFault::Memory) => FinishFault::Memory,
            CleanFlatFault::NotClean(faults) => FinishFault::NotClean(faults),
        }
    }
}

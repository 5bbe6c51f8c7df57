//! Why a design has no grid.

ghost use Rattle.std.specs.Prelude.{◌≡◌};
ghost use Rattle.leg_route_grid.specs.declared.fault.GridFault.TheVariants.{Memory};

use std::alloc::{AllocError, AllocFailed};
use thiserror::Error;

/// Why a design has no grid.
#[derive(Clone, Copy, PartialEq, Eq, Debug, Error)]
pub enum GridFault {
    /// It has too many tracks, or its grid too many slots.
    #[error("grid too large")]
    TooLarge,
    /// An allocation failed.
    #[error("out of memory")]
    Memory,
}

impl From<AllocError> for GridFault {
    ghost from_gives = { λ _ e. e ≡ Memory };

    fn from(_e: AllocError) -> GridFault {
        GridFault::Memory
    }
}

impl<T: Drop> From<AllocFailed<T>> for GridFault {
    ghost from_gives = { λ _ e. e ≡ Memory };

    fn from(_e: AllocFailed<T>) -> GridFault {
        GridFault::Memory
    }
}

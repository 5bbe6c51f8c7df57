//! Why a design has no flat.

ghost use Rattle.std.specs.Prelude.{◌≡◌};
ghost use Rattle.leg_flat.specs.declared.fault.FlatFault.TheVariants.{Memory};

use std::alloc::{AllocError, AllocFailed};
use thiserror::Error;

/// Why a design has no flat.
#[derive(Clone, Copy, PartialEq, Eq, Debug, Error)]
pub enum FlatFault {
    /// It has more shapes than a flat may have.
    #[error("too many shapes")]
    TooMany,
    /// An allocation failed.
    #[error("out of memory")]
    Memory,
}

impl From<AllocError> for FlatFault {
    ghost from_gives = { λ _ e. e ≡ Memory };

    fn from(_e: AllocError) -> FlatFault {
        FlatFault::Memory
    }
}

impl<T: Drop> From<AllocFailed<T>> for FlatFault {
    ghost from_gives = { λ _ e. e ≡ Memory };

    fn from(_e: AllocFailed<T>) -> FlatFault {
        FlatFault::Memory
    }
}

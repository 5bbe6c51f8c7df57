//! Why a polygon has no slabs.

ghost use Rattle.std.specs.Prelude.{◌≡◌};
ghost use Rattle.leg_polygon.specs.declared.fault.PolygonFault.TheVariants.{Memory};

use std::alloc::{AllocError, AllocFailed};
use thiserror::Error;

/// Why a polygon has no slabs.
#[derive(Clone, Copy, PartialEq, Eq, Debug, Error)]
pub enum PolygonFault {
    /// A side is neither horizontal nor vertical.
    #[error("a slanted side")]
    Slanted,
    /// There are more slabs than there may be.
    #[error("too many slabs")]
    TooMany,
    /// No unit square is inside.
    #[error("no area")]
    Empty,
    /// An allocation failed.
    #[error("out of memory")]
    Memory,
}

impl From<AllocError> for PolygonFault {
    ghost from_gives = { λ _ e. e ≡ Memory };

    fn from(_e: AllocError) -> PolygonFault {
        PolygonFault::Memory
    }
}

impl<T: Drop> From<AllocFailed<T>> for PolygonFault {
    ghost from_gives = { λ _ e. e ≡ Memory };

    fn from(_e: AllocFailed<T>) -> PolygonFault {
        PolygonFault::Memory
    }
}

//! Why a library has no lengths in database units.

ghost use Rattle.std.specs.Prelude.{◌≡◌, ◌≢◌, []};
ghost use Rattle.leg_lib_records.specs.declared.scale_fault.ScaleKind.TheVariants.{Memory};

use leg_lex::Name;
use std::alloc::{AllocError, AllocFailed};
use thiserror::Error;

/// Why a length can't be given in database units.
#[derive(Clone, Copy, PartialEq, Eq, Debug, Error)]
pub enum ScaleKind {
    /// The length is no whole number of units.
    #[error("a length off the database unit")]
    NotOnUnit,
    /// The length is beyond its limit.
    #[error("a length beyond its limit")]
    TooLarge,
    /// A routing layer's width is odd.
    #[error("an odd width")]
    OddWidth,
    /// An allocation failed.
    #[error("out of memory")]
    Memory,
}

/// A length that the DEF's units can't express.
#[derive(Debug, Drop)]
pub struct ScaleFault<'a> {
    /// What has the length: a layer, a site, a macro, a via or a nondefault rule. It is empty where memory ran out.
    pub name: Name<'a>,
    /// Why.
    pub kind: ScaleKind,
}

impl<'a> ScaleFault<'a> {
    /// The fault of a length of what has this name. Where memory ran out, nothing is named.
    pub(crate) fn of(name: Name<'a>, kind: ScaleKind) -> ScaleFault<'a>
        ensures kind { result.kind ≡ kind }
        ensures named { kind ≢ Memory → result.name ≡ name.entry }
        ensures nameless { kind ≡ Memory → result.name ≡ [] }
    {
        match kind {
            ScaleKind::Memory => ScaleFault {
                name: Name::new(b""),
                kind,
            },
            _ => ScaleFault { name, kind },
        }
    }
}

impl From<AllocError> for ScaleKind {
    ghost from_gives = { λ _ e. e ≡ Memory };

    fn from(_e: AllocError) -> ScaleKind {
        ScaleKind::Memory
    }
}

impl<T: Drop> From<AllocFailed<T>> for ScaleKind {
    ghost from_gives = { λ _ e. e ≡ Memory };

    fn from(_e: AllocFailed<T>) -> ScaleKind {
        ScaleKind::Memory
    }
}

impl From<AllocError> for ScaleFault<'_> {
    ghost from_gives = { λ _ e. e ≡ record { name = []; kind = Memory } };

    fn from(_e: AllocError) -> Self {
        ScaleFault {
            name: Name::new(b""),
            kind: ScaleKind::Memory,
        }
    }
}

impl<T: Drop> From<AllocFailed<T>> for ScaleFault<'_> {
    ghost from_gives = { λ _ e. e ≡ record { name = []; kind = Memory } };

    fn from(_e: AllocFailed<T>) -> Self {
        ScaleFault {
            name: Name::new(b""),
            kind: ScaleKind::Memory,
        }
    }
}

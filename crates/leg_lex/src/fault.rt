//! Why a text has no words, and why a word denotes no number.

ghost use Rattle.std.specs.Prelude.{◌≡◌};
ghost use Rattle.leg_lex.specs.declared.fault.LexFault.TheVariants.{Memory};

use std::alloc::{AllocError, AllocFailed};
use thiserror::Error;

/// Why a text has no words.
#[derive(Clone, Copy, PartialEq, Eq, Debug, Error)]
pub enum LexFault {
    /// A quoted word that begins in this line doesn't end.
    #[error("a quoted word that begins in line {0} does not end")]
    UnclosedString(u32),
    /// The text has more bytes than `TEXT_LIMIT`.
    #[error("the text is too long")]
    TooLong,
    /// An allocation failed.
    #[error("out of memory")]
    Memory,
}

impl From<AllocError> for LexFault {
    ghost from_gives = { λ _ e. e ≡ Memory };

    fn from(_e: AllocError) -> LexFault {
        LexFault::Memory
    }
}

impl<T: Drop> From<AllocFailed<T>> for LexFault {
    ghost from_gives = { λ _ e. e ≡ Memory };

    fn from(_e: AllocFailed<T>) -> LexFault {
        LexFault::Memory
    }
}

/// Why a word denotes no number.
#[derive(Clone, Copy, PartialEq, Eq, Debug, Error)]
pub enum NumFault {
    /// The word isn't a number of the form.
    #[error("not a number of the form")]
    BadNumber,
    /// The number is beyond its limit.
    #[error("a number beyond its limit")]
    TooLarge,
    /// The length is no whole number of database units.
    #[error("a length off the database unit")]
    NotOnUnit,
}

//! Why texts are refused.

ghost use Rattle.std.specs.Prelude.{◌≡◌, ◌↔◌, IsTrue};
ghost use Rattle.leg_app.specs.declared.text_fault.TextFault.TheVariants as faults;
ghost use Rattle.leg_app.specs.Refusal.{of_flat, IsOutOfMemory};

use leg_flat::FlatFault;
use leg_lex::{FaultKind, ReadFault};
use leg_lib_records::{ScaleFault, ScaleKind};
use std::alloc::AllocError;

/// Why a block's texts are refused.
#[derive(Debug, Drop)]
pub enum TextFault<'a> {
    /// A text isn't read. The DEF is numbered after the LEFs.
    Read(ReadFault),
    /// A length of the library can't be given in the DEF's units, of which so many are a micron.
    Scale(ScaleFault<'a>, u32),
    /// The design has more shapes than a flat may have.
    TooMany,
    /// An allocation failed.
    Memory,
}

impl TextFault<'_> {
    /// Whether an allocation failed.
    pub(crate) fn is_out_of_memory(&self) -> bool
        ensures memory { IsTrue result ↔ IsOutOfMemory self.now }
    {
        match self {
            TextFault::Read(fault) => fault.kind == FaultKind::Memory,
            TextFault::Scale(fault, _) => fault.kind == ScaleKind::Memory,
            TextFault::TooMany => false,
            TextFault::Memory => true,
        }
    }
}

impl From<ReadFault> for TextFault<'_> {
    ghost from_gives = { λ fault e. e ≡ faults.Read fault };

    fn from(fault: ReadFault) -> Self {
        TextFault::Read(fault)
    }
}

impl From<FlatFault> for TextFault<'_> {
    ghost from_gives = { λ fault e. e ≡ of_flat fault };

    fn from(fault: FlatFault) -> Self {
        match fault {
            FlatFault::TooMany => TextFault::TooMany,
            FlatFault::Memory => TextFault::Memory,
        }
    }
}

impl From<AllocError> for TextFault<'_> {
    ghost from_gives = { λ _ e. e ≡ faults.Memory };

    fn from(_e: AllocError) -> Self {
        TextFault::Memory
    }
}

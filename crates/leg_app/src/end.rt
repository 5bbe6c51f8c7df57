//! Ends of the program without an answer.

ghost use Rattle.std.specs.Prelude.{◌≡◌};
ghost use Rattle.leg_app.specs.declared.end.Halt.TheVariants.{NotWritten};
ghost use Rattle.leg_app.specs.End.{halt_code};

use crate::run_command::RunFault;

/// Why the program ends without an answer.
#[derive(Debug, Drop)]
pub enum Halt<'a> {
    /// The input of this path can't be read.
    NotRead(&'a str),
    /// Standard output takes nothing more.
    NotWritten,
    /// Usage error.
    Usage,
}

impl Halt<'_> {
    /// The program's exit status.
    pub fn code(&self) -> u8
        ensures { result ≡ halt_code self.now }
    {
        match self {
            Halt::NotRead(_) | Halt::NotWritten => 5,
            Halt::Usage => 64,
        }
    }
}

impl From<RunFault> for Halt<'_> {
    ghost from_gives = { λ fault halt. halt ≡ NotWritten };

    fn from(_fault: RunFault) -> Self {
        Halt::NotWritten
    }
}

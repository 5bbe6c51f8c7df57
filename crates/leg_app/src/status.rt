//! How a command ended.

ghost use Rattle.std.specs.Prelude.{◌≡◌};
ghost use Rattle.leg_app.specs.Answer.{exit_code};

/// How a command ended; its number is the program's exit status.
#[derive(Clone, Copy, PartialEq, Eq, Debug)]
pub enum Status {
    /// The design is legal, its wirelength was printed, or it was legalised, routed, finished or printed.
    Success = 0,
    /// Violations were listed.
    Violations = 1,
    /// A text was refused, a length isn't a whole number of the DEF's units, or the design has too many shapes.
    Refused = 2,
    /// The design could not be legalised, routed or finished.
    Unsolved = 3,
    /// Out of memory.
    Memory = 4,
}

impl Status {
    /// The program's exit status.
    pub fn code(self) -> u8
        ensures { result ≡ exit_code self }
    {
        self as u8
    }
}

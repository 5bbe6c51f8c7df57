//! Patterns of generated vias (LEF/DEF 5.8, "Vias").

/// What comes next in a row of a pattern.
#[derive(Clone, Copy)]
pub enum NextDigit {
    /// A digit that stands once, or `R`.
    Once,
    /// How often a digit stands.
    Count,
    /// A digit that stands so many times.
    Times(u16),
}

/// A hexadecimal digit of a row of a pattern.
#[derive(Clone, Copy)]
pub struct DigitRun {
    /// How many times it stands.
    pub times: u16,
    /// Its value.
    pub digit: u8,
}

//! The limits of texts and numbers, each named once (lefdef's own rules).

/// A text has at most this many bytes.
pub const TEXT_LIMIT: u64 = 268_435_456;

/// A whole number of a DEF, and a length in database units, is at most this, whatever its sign.
pub const NUMBER_LIMIT: u64 = 2_000_000_000;

/// A length of a LEF is at most this many millionths of a micron, whatever its sign.
pub const MILLIONTHS_LIMIT: u64 = 2_000_000_000_000_000;

/// A DEF has at most this many database units a micron.
pub const UNITS_LIMIT: u32 = 20_000;

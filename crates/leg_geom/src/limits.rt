//! The limit of coordinates (lefdef's own rule).

/// A coordinate is at most this, whatever its sign.
pub const COORDINATE_LIMIT: u64 = 10_000_000_000;

//! Limits of shapes (lefdef's own rules).

/// A polygon has at most this many slabs.
pub const POLYGON_SLABS: usize = 1_000_000;

/// The copies of one rectangle, polygon or via of a port or of obstructions have at most this many rectangles.
pub const COPY_LIMIT: u64 = 4_000_000;

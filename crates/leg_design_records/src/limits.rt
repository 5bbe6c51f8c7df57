//! The limits of designs (lefdef's own rules).

/// A design has at most this many components, as many pins, as many blockages, and as many entries of nets, those of both
/// sections taken together.
pub const ENTRY_LIMIT: u64 = 200_000;

/// The nets of a design, those of both sections taken together, have at most this many terminals and as many wires, its
/// blockages as many rectangles, and a flat at most as many shapes.
pub const PART_LIMIT: u64 = 4_000_000;

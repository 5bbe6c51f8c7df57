//! Arrays of vias (LEF/DEF 5.8, "Special Wiring Statement").

use crate::coordinate::Coordinate;

/// How the vias of an array lie: columns along x and rows along y, each at a step from the one before, in database units.
#[derive(Clone, Copy)]
pub struct ViaArray {
    /// The number of columns.
    pub columns: u64,
    /// The number of rows.
    pub rows: u64,
    /// From one column to the next.
    pub x_step: Coordinate,
    /// From one row to the next.
    pub y_step: Coordinate,
}

//! Vias that wiring turns (LEF/DEF 5.8, "Regular Wiring Statement", "Special Wiring Statement").

use leg_geom::Orient;

/// A via in an orientation is another via, or itself where the orientation leaves its rectangles as they are.
#[derive(Clone, Copy)]
pub struct TurnedVia {
    /// The number of the via.
    pub via: usize,
    /// The orientation.
    pub orient: Orient,
    /// The number of the via that it is then.
    pub number: usize,
}

//! Widths of paths (LEF/DEF 5.8, "Regular Wiring Statement", "Special Wiring Statement").

/// Which width the segments of a path have.
#[derive(Clone, Copy)]
pub enum PathWidth {
    /// On each layer that of its wires.
    OfLayers,
    /// On each layer that of the nondefault rule of this number, where the rule gives one, and else that of its wires.
    OfRule(usize),
    /// The width that the path writes, in database units.
    Written(i64),
}

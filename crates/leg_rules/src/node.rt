//! Nodes of the grid.

use leg_geom::Point;

/// A point on a layer, in database units.
#[derive(Clone, Copy, PartialEq, Eq, Debug)]
pub struct Node {
    /// The layer's number in the library.
    pub layer: usize,
    pub at: Point,
}

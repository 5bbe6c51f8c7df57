//! RectModel of nodes.

/// A side of a node on which another can lie. West and south are towards lower coordinates, below towards the lower layer.
#[derive(Clone, Copy)]
pub enum Side {
    West,
    East,
    South,
    North,
    Below,
    Above,
}

//! Shapes of metal.

use crate::owner::Owner;
use leg_geom::Rect;

/// A rectangle of metal on a layer, in database units.
#[derive(Clone, Copy, PartialEq, Eq, Debug)]
pub struct Shape {
    /// The layer's number in the library.
    pub layer: usize,
    pub rect: Rect,
    pub owner: Owner,
    /// The component that it belongs to, by its number.
    pub component: Option<u32>,
    /// Which piece of its owner it is, where that is a net.
    pub piece: Option<u32>,
}

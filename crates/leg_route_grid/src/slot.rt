//! Slots of a grid.

/// A slot, by the numbers of its routing layer, bottom up, of its y value and of its x value.
#[derive(Clone, Copy, PartialEq, Eq, Debug)]
pub struct Slot {
    pub layer: usize,
    pub row: usize,
    pub column: usize,
}

//! Positions of components.

/// A free position of a component, and how good it is.
#[derive(Clone, Copy, PartialEq, Eq, Debug)]
pub struct Candidate {
    /// How far it is from the component's start: the sum of the distances along both axes, in database units.
    pub distance: u64,
    /// Whether the component gets another orientation there.
    pub turned: bool,
    /// The row, by number.
    pub row: usize,
    /// The first of the row's sites that the component takes.
    pub first: u64,
}

//! The program's commands.

/// What lefdef is asked.
#[derive(Clone, Copy, PartialEq, Eq, Debug)]
pub enum Command {
    /// What is not legal about the block: its placement and its metal.
    Check,
    /// Which components are unplaced, outside the die, off the sites of the rows, or overlapping.
    PlaceCheck,
    /// How long the nets are at least: the half-perimeter wirelength.
    Measure,
    /// The block with each movable component at its best free position.
    Legalise,
    /// The block with wires added to each net that is open, until all its pieces are joined.
    Route,
    /// The block legalised, and what came of it routed.
    Flow,
    /// The block with wires added to its open nets, laid anew until all of them pass one another.
    Finish,
    /// The block as it is, in lefdef's own form.
    Print,
}

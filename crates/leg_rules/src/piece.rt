//! The pieces of a net.

use leg_design_records::Terminal;

/// A part of a net that is metal by itself.
#[derive(Clone, Copy, PartialEq, Eq, Debug)]
pub enum Piece {
    /// A terminal, with all its shapes.
    Term(Terminal),
    /// A wire, by its number among the net's wires: those of its entry of `NETS` count first.
    Wire(u32),
}

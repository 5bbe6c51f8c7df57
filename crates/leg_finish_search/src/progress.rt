//! Who is told how a negotiation gets on.

/// Is told of each round, after it.
pub trait Progress {
    /// The round of this number, from 1 on, has come to its end with this many nets in conflict.
    fn round(&mut self, number: u32, in_conflict: u32);
}

/// Nobody.
impl Progress for () {
    fn round(&mut self, _number: u32, _in_conflict: u32) {}
}

//! Between which numbers free sites of a row lie.

/// The first of some free sites, the number after the last one, and how many lie side by side at most.
#[derive(Clone, Copy, PartialEq, Eq)]
pub(crate) struct Ends {
    pub from: u64,
    pub end: u64,
    pub longest: u64,
}

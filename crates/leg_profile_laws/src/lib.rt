//! What the narrow profile reads, each profile reads as the same.
#![tactic(auto)]

pub mod laws;

//! The printed text of a design is read again as this very design.
#![tactic(auto)]

pub mod laws;

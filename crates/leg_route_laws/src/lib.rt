//! What holds of a flat, and of its design, once nets got wires.
#![tactic(auto)]

pub mod laws;

//! The legaliser: it gives each movable component a place on the sites of a row, in the die and clear of all others and
//! of placement blockages.
//!
//! What `legalise` gives is legally placed, and the same as before but for the places of movable components.
#![tactic(auto)]

mod blockages;
mod distances;
mod fault;
pub mod laws;
mod legaliser;
mod moves;
mod seats;
mod sizes;
mod staying;
mod taken;
mod taking;
mod turns;
mod unsuited;

pub use fault::LegalFault;
pub use legaliser::legalise;
pub use moves::Moves;

//! Why a command prints no design, list or length: the reason as a value, from which a message is made.
#![tactic(auto)]

mod reason;

pub use reason::{Reason, Stage};

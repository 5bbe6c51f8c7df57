//! The router that finishes: wires for all open nets, found by negotiation and judged before they are given.
#![tactic(auto)]

mod fault;
mod finishing;
mod found;
mod grid_lattice;
mod group_slots;
mod groups;
mod grow;
mod judge;
mod layout;
mod one_net;
mod reach;
mod to_join;
mod totals;
mod unfinished;
mod wires;

pub use fault::FinishFault;
pub use finishing::{finish, finish_within};
pub use leg_finish_search::{Budget, Progress};
pub use one_net::first_unreachable_piece;
pub use totals::WireTotals;

//! The metal of a design: every shape with its layer, owner, component and piece.
//!
//! `metal_of` of `leg_rules` is the list of every piece of metal in its stated order, a function of the design alone. Each
//! has an outline: a rectangle of a box that is at a place, a line with a width and with how far it reaches past each end,
//! a rectangle given relative to a point, or, of a layer blockage, a rectangle as it is. What its points are is defined
//! point by point.
//!
//! `flatten` answers a rectangle for each outline, with exactly these points. It first counts the shapes, without memory;
//! then it makes the pieces of each net, with a table of where each terminal is; then it goes through the parts of the
//! design in order. A flat grows by one wire of a net at a time (`Flat::add_wire`).
#![tactic(auto)]

mod fault;
mod flat;
mod flat_change;
pub mod laws;
mod metal;
mod metal_count;
mod metal_parts;
mod metal_wires;
mod net_index;
mod nets;
mod outline;
mod piece_numbers;
mod proper;

pub use fault::FlatFault;
pub use flat::{Flat, flatten};
pub use leg_rules::{Owner, Piece, Shape};

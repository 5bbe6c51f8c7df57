//! The grid on which nets are routed: its slots, and the nodes in them and the steps between these, by the tracks of a design.
//!
//! Slots have numbers. What is open to a net in them is told by `leg_route_access`.
//!
//! The bound of a search (`bound`) is by how many layers, rows and columns a slot lies outside of the nearest of some boxes, one
//! for the slots of each shape (`BoxedSlots`); of each two, four, eight and so on of these the last one has the box around all of
//! them, its hull, so that a look at a hull may pass over all its boxes.
#![tactic(auto)]

mod fault;
mod grid;
mod hulls;
pub mod laws;
mod layers;
mod lines;
mod neighbour;
mod size;
mod slot;
mod slot_box;
mod slots_in;
mod through;
mod track_marks;

pub use fault::GridFault;
pub use grid::{Grid, grid_is_sound};
pub use hulls::{Hull, add_hulls, hulls_of};
pub use layers::{RoutingLayer, routing_layer_of};
pub use leg_rules::{GREATEST_GRID, GRID_LIMIT, Node};
pub use slot::Slot;
pub use slot_box::{BoxedSlots, SlotBox, bound, bound_of_box};
pub use slots_in::add_slots_in;

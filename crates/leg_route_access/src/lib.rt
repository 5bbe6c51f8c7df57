//! What is open to a net in the grid of a design, beside the shapes of its flat, and walks there as wires.
//!
//! What is open is read from a table (`SlotAccess`), which keeps three things for each slot of the grid: to which nets its
//! node is open, the step along its layer to the next slot (to the east on a horizontal layer, to the north on a vertical
//! one), and the step up. Each is an `Access` of `leg_wire_spacing`: metal there is admitted for every net, for one net only, or
//! for none. A step to the west, to the south or down is kept with the slot that it goes to, since a step adds the same
//! metal from either end. So a search reads one entry for each question, and never looks at a shape.
//!
//! That an entry suffices is a fact about spacing: metal may lie in a flat with one more shape if and only if it may lie in
//! the flat and beside that shape alone (`access_beside`), and if two nets each have a shape there, neither may.
//! `slots_beside` begins with a grid on which nothing lies and adds the shapes of the flat one by one; when a net gets a
//! wire, its shapes are added in the same way. A shape that is the one before it again, as cuts of a via may be, is passed
//! over. `add_shape` updates only the slots near the shape, on its layer and the ones next to it, to which the layer's
//! spacing and the reach of vias and wires come; and of these it passes over each that no net, or only the shape's own, may
//! use already.
//!
//! What the table means is one statement, `IsAccessTable` of `specs/Steps/AccessTable.antt`. The graph in which a search
//! walks (`NetGraph`) knows only the table, and a law turns what the search answers into an open walk of the net
//! (`searches_walk_as_numbers`).
#![tactic(auto)]

mod added;
mod grid_walk;
pub mod laws;
mod net_graph;
mod open_node;
mod open_step;
mod patch;
mod reach;
mod sides;
mod slot_access;
mod slot_nodes;
mod spelling;
mod strip;
mod via_patches;

pub use added::{add_shape, add_shapes, slots_beside};
pub use grid_walk::is_walk;
pub use net_graph::NetGraph;
pub use patch::square;
pub use slot_access::SlotAccess;
pub use slot_nodes::nodes_of;
pub use spelling::wires_of;

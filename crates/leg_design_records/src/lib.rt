//! DEF designs as records, in database units (LEF/DEF 5.8, "DEF Syntax"), and the violations that a design can have.
//!
//! Every `Design` is well-formed under its library, and stays so where a component moves or a net gets wires. `leg_design`
//! reads one from a text.
#![tactic(auto)]

mod design;
mod design_change;
mod fault;
pub mod laws;
mod layers;
mod limits;
mod movable;
mod names;
mod records;

pub use design::{Design, DesignFields};
pub use fault::Fault;
pub use layers::wire_width;
pub use limits::{ENTRY_LIMIT, PART_LIMIT};
pub use movable::may_move;
pub use names::net_section;
pub use records::{Axis, Blockage, Component, Net, Pin, Port, Row, Status, Terminal, Track, Wire};

//! The nets of a DEF text: their terminals and their wiring, exactly, in database units (LEF/DEF 5.8, "Nets",
//! "Special Nets").
//!
//! `nets` reads a section. `add_lone_pins` adds the pins of the design that no net lists.
#![tactic(auto)]

mod by_name;
mod known_pins;
mod lone_pins;
mod net;
mod net_table;
mod pin_index;
mod terminal;
mod terminal_index;

pub use lone_pins::add_lone_pins;
pub use net::nets;
pub use net_table::NetTable;

//! The wiring of a DEF text's nets: what a path, and a rectangle, a polygon or a via beside paths, denotes in wires, exactly, in database
//! units (LEF/DEF 5.8, "Regular Wiring Statement", "Special Wiring Statement").
//!
//! `wiring` reads a clause with paths, `shape` one with a rectangle, a polygon or a via.
#![tactic(auto)]

mod coordinate;
mod path;
mod path_item;
mod segment;
mod special_polygon;
mod special_rect;
mod special_shape;
mod special_via;
mod statement;
mod via_array;

pub use special_shape::shape;
pub use statement::{is_wiring, rule, wiring};

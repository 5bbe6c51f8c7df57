//! What is not legal about the placement of components: without a place, outside the die, off the sites of the rows,
//! overlapping, and in placement blockages.
//!
//! `place_faults` lists exactly the violations of these five kinds, each once, in order, and `place_faults_among` those of
//! some components alone. `is_placed` returns whether there are any. `box_of` and `placed_size` give the box in which a
//! component lies.
#![tactic(auto)]

mod component_fault;
mod faults;
mod floorplan;
mod marks;
mod overlap;
mod placed;
mod placed_box;
mod placement_blockages;
mod row_spans;
mod site_span;
mod sites;

pub use faults::{place_faults, place_faults_among};
pub use placed::is_placed;
pub use placed_box::{box_of, placed_size};

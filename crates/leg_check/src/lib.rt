//! All violations of a design.
//!
//! `check_design` lists them all, with the flat that was judged: first those of all kinds but open nets, which
//! `faults_but_open` lists (it asks `leg_place` for those of placement, then `leg_wire` for shorts and shapes too near), then the
//! open nets, which `leg_wire` lists. `clean_flat` gives the flat only where `faults_but_open` lists nothing: routers begin with
//! it. So no finder of violations is asked elsewhere for the list of `check`.
#![tactic(auto)]

mod but_open;
mod check;
mod clean;
mod fault;

pub use but_open::faults_but_open;
pub use check::{Checked, check_design};
pub use clean::clean_flat;
pub use fault::CleanFlatFault;

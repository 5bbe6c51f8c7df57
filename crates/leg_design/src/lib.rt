//! DEF designs: what a DEF text denotes under a library, exactly, in database units (LEF/DEF 5.8, "DEF Syntax").
//!
//! `read_def_as` reads a text in a profile and gives a `Design`, or reports the fault and its line, and `read_def` reads it in the narrow
//! profile; `DefText` is for callers that need its units first. The records of a design are those of `leg_design_records`.
#![tactic(auto)]

mod def_text;
mod dropped_rows;
mod form;
mod header;
pub mod laws;
mod parts;
mod read;
mod skipped;

pub use def_text::DefText;
pub use leg_design_records::{
    Axis, Blockage, Component, Design, ENTRY_LIMIT, Fault, Net, PART_LIMIT, Pin, Port, Row, Status,
    Terminal, Track, Wire,
};
pub use leg_grammar::{Masks, Profile, Soft};
pub use read::{def_units, read_def, read_def_as};

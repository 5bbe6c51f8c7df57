//! LEF libraries: what LEF texts denote, exactly, in millionths of a micron (LEF/DEF 5.8, "LEF Syntax").
//!
//! `read_lefs_as` reads texts in a profile and gives a `RawLibrary`, or reports the fault and its line; `read_lefs` reads them in the narrow
//! profile. The records of a library are those of `leg_lib_records`.
#![tactic(auto)]

mod copies;
mod first_form;
mod form;
mod generated_via;
mod geometry;
mod geometry_layer;
pub mod laws;
mod layer;
mod macro_part;
mod macro_skip;
mod macros;
mod named;
mod path;
mod pin;
mod placed_via;
mod point;
mod polygon;
mod read;
mod rule;
mod site;
mod skipped;
mod spacing;
mod via;

pub use leg_grammar::{Masks, Profile, Soft};
pub use leg_lex::{FaultKind, ReadFault};
pub use leg_lib_records::{
    Direction, Extent, Items, Layer, LayerKind, LayerUse, Library, Master, MasterPin, RawExtent,
    RawKind, RawLayer, RawLibrary, RawMaster, RawPin, RawPoint, RawRect, RawShape, RawSite, RawVia,
    ScaleFault, ScaleKind, Shape, Site, Supply, Via, ViaPart, is_wiring_word,
};
pub use read::{file_number, read_lefs, read_lefs_as};

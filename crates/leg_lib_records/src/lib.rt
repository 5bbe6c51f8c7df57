//! A cell library as records: layers, vias, sites, macros and nondefault rules, in millionths of a micron as LEF texts write
//! them and in database units.
//!
//! `RawLibrary` is built a record at a time, and `RawLibrary::at` gives it in database units. `leg_lib` reads one from
//! texts.
#![tactic(auto)]

mod equals;
mod good_via;
mod items;
mod joins;
pub mod laws;
mod library;
mod measure;
mod raw;
mod raw_library;
mod records;
mod scale;
mod scale_fault;
mod scale_rules;
mod scale_shapes;
mod shape_list;

pub use items::Items;
pub use joins::{LayerUse, ViaPart, is_wiring_word};
pub use library::Library;
pub use measure::{Extent, RawExtent, RawPoint, RawRect};
pub use raw::{
    RawKind, RawLayer, RawMaster, RawPin, RawRule, RawRuleWidth, RawShape, RawSite, RawVia,
};
pub use raw_library::RawLibrary;
pub use records::{
    Direction, Layer, LayerKind, Master, MasterPin, Rule, RuleWidth, Shape, Site, Supply, Via,
};
pub use scale_fault::{ScaleFault, ScaleKind};
pub use shape_list::{ShapeList, ShapeListFits};

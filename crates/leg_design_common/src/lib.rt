//! What the sections of a DEF text have in common: how one begins, its clauses, points, rectangles, polygons and places, layers,
//! and the names that stand before nets (LEF/DEF 5.8, "DEF Syntax").
#![tactic(auto)]

pub mod area;
pub mod clause;
pub mod count;
pub mod layers;
mod net_scope;
pub mod number;
pub mod placement;
pub mod polygon;
mod section;
mod turn_table;
pub mod via_number;

pub use net_scope::NetScope;
pub use section::section_start;
pub use turn_table::TurnTable;

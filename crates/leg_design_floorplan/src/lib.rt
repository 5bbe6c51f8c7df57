//! What a DEF text places: the die, rows, tracks, vias, components, pins and blockages, exactly, in database units
//! (LEF/DEF 5.8, "DEF Syntax").
//!
//! Each form has a reader in a module of its own. The records that they make are those of `leg_design_records`.
#![tactic(auto)]

pub mod blockage;
mod blockage_clause;
pub mod component;
pub mod die;
pub mod dropped_row;
mod generated_clauses;
mod generated_via;
mod new_name;
pub mod pin;
mod pin_parts;
mod port;
mod port_polygon;
mod port_via;
pub mod row;
pub mod rule;
pub mod track;
mod track_mask;
mod turned_shape;
pub mod turned_via;
pub mod via;
mod via_list;

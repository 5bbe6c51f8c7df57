//! Violations of the rules that the layers of a LEF state beside width and spacing.
#![tactic(auto)]

mod candidate;
mod cut_rule;
mod fault;
mod faults;
mod one_shape;
mod pair_kind;
mod pairs;
mod reach;
mod segments;
mod shape_kind;
mod sides;
mod supply;
mod table;
mod table_rule;
mod wire_shape;
mod wrong_shapes;

pub use fault::DrcFault;
pub use faults::drc_faults;

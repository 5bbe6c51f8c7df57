//! Generated vias, of a LEF and of a DEF (LEF/DEF 5.8, "Via", "Vias"): what the clauses say of the plates and the cuts, and the
//! rectangles that these are.
#![tactic(auto)]

mod cut_array;
mod cut_pattern;
mod via_clauses;

pub use cut_array::array_shapes;
pub use cut_pattern::{SameRows, pattern};
pub use via_clauses::{after_keyword, is_generated, none_drawn, rule, via_between};

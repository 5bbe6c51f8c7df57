//! What is printed of a design: its text as a DEF, the lines of its violations, and its wirelength.
#![tactic(auto)]

mod blockages;
mod clauses;
mod components;
mod design_text;
mod fault_line;
mod header;
mod name;
mod nets;
mod pins;
mod points;
mod rows;
mod sections;
mod tracks;
mod vias;
mod wirelength;
mod wirelength_box;
mod wires;
mod words;

pub use design_text::print_def;
pub use fault_line::print_faults;
pub use name::push_piece;
pub use wirelength::hpwl;

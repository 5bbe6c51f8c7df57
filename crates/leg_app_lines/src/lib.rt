//! The lines that commands print. Each call fails only when out of memory.
#![tactic(auto)]

mod check;
mod compare;
mod finish;
mod legalise;
mod route;
mod words;

pub use check::{listing_text, refused_line, refused_text, scale_text, wirelength_text};
pub use compare::comparison_text;
pub use finish::{finished_text, piece_name, unfinished_text, unreachable_text};
pub use legalise::{fixed_illegal_text, legalised_text};
pub use route::{flat_again, not_clean_text};
pub use words::name_line;

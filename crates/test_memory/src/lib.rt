//! Public calls on texts, and on a design and its metal, that take memory and are lent what they work on, with each of their allocations
//! refused in turn, and those that take none, with all refused. `test_memory_design` has those that are given a design, and
//! `test_memory_commands` the checks and the commands.
//!
//! What these share is public here.
#![tactic(auto)]

mod flats;
mod library;
#[cfg(test)]
mod tests;
mod turn;

pub use flats::are_same_flats;
pub use library::library_of_cells;
pub use turn::{has_text, is_last, turn_of_list};

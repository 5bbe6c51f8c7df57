//! What differs between two designs of one library.
#![tactic(auto)]

mod changes;
mod equal;
pub mod laws;
mod listing;
mod lists;
mod order;
mod parts;
mod section;
mod spelling;
mod verdict;

pub use leg_rules::{Change, Difference, OtherOrder, Part, Section, Verdict};
pub use listing::differences;
pub use order::other_order;
pub use section::entry_name;
pub use verdict::verdict_of;

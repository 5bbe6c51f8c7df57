//! What LEF and DEF texts denote: definitions, in `specs`, and the types that these speak of. Masks, which all readers read past where
//! they are dropped, are read here.
#![tactic(auto)]

mod coordinate;
mod cut_pattern;
mod generated_via;
mod limits;
mod macro_statements;
pub mod mask;
mod path_item;
mod path_width;
mod profile;
mod turned_via;
mod via_array;

pub use coordinate::Coordinate;
pub use cut_pattern::{DigitRun, NextDigit};
pub use generated_via::{CUT_LIMIT, CutArray, GeneratedVia, Plate, ViaLayers, ViaNumbers};
pub use limits::{COPY_LIMIT, POLYGON_SLABS};
pub use macro_statements::MacroStatements;
pub use path_item::Item;
pub use path_width::PathWidth;
pub use profile::{Masks, Profile, Soft};
pub use turned_via::TurnedVia;
pub use via_array::ViaArray;

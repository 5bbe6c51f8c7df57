//! The design rules that the layers of LEF texts state beside width and spacing: area, least width, spacing within a net, tables of
//! spacings, and ends of lines, and the manufacturing grid.
//!
//! A library has for each layer one width and one spacing, and is read by `leg_lib`. Layers state more, in statements that `leg_lib` reads
//! past; they are read here, from the words of the same texts. `read_rules` gives the rules in millionths of a micron, and
//! `RawDeckRules::at` gives them in database units. Any text that has words has rules, unless a number in a rule is none or doesn't
//! fit.
#![tactic(auto)]

mod amount;
mod deck;
mod form;
pub mod laws;
mod raw;
mod read;
mod records;
mod rules;
mod scale;
mod scale_layer;
mod section;
mod skip;
mod statements;
mod table;

pub use raw::{RawDeckRules, RawLayerRules, RawLineEnd, RawTable, RawTableRow};
pub use read::read_rules;
pub use records::{DeckRules, LayerRules, LineEnd, Table, TableRow};

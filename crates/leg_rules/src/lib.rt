//! The rules by which designs are judged, legalised, routed and compared: definitions alone, in `specs`, and the types that
//! these speak of.
#![tactic(auto)]

mod difference;
mod grid_limits;
mod node;
mod other_order;
mod owner;
mod piece;
mod position;
mod shape;
mod side;

pub use difference::{Change, Difference, Part, Section, Verdict};
pub use grid_limits::{GREATEST_GRID, GRID_LIMIT};
pub use node::Node;
pub use other_order::OtherOrder;
pub use owner::Owner;
pub use piece::Piece;
pub use position::Candidate;
pub use shape::Shape;
pub use side::Side;

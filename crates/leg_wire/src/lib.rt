//! What is not legal about the metal of a design: shapes of different owners that touch or are too near, and nets whose
//! pieces aren't joined.
//!
//! `spacing_faults` and `open_faults` list exactly the violations of these kinds, each once, in order; `joined` finds which
//! pieces of a net are joined to its first one, and `joined_among` the same where the numbers of the net's shapes are
//! known, which `numbers_by_net` finds; `groups_among` finds which pieces are joined to each other. `clean` decides where
//! metal of a net may lie, `clean_indexed` decides it by an index, and `access_beside` finds which nets' metal may lie
//! beside a shape.
//!
//! Joins are found net by net. The metal of a net's pieces is gathered, and `leg_sweep` hands over the pairs of rectangles
//! of different pieces that share a point on one layer, one at a time. The pieces are disjoint sets of numbers (`Sets`), at
//! first each in one of its own: a parent for each number, never above it, so that the root of a tree is the least number
//! of its set; paths are halved as they are walked. Where the pieces of a pair are in two sets, these are united if the
//! rectangles share two points. If they share one point alone, it is noted for the two pieces and the layer; where another
//! one was noted there before, the pieces touch as well. In the end two pieces are in one set exactly where they are
//! joined. The memory holds a number for each shape of a net, and for the current net its metal, a number for each piece,
//! and a point for every two pieces that met in one point while they were in two sets.
//!
//! Where much metal of a net is equal, as where a wire stands many times, every two of these would meet. Then the pieces
//! are first joined by one rectangle of each kind; if not all come together so, a piece is left out of the search whose
//! metal is all in one other piece. `spacing_faults` likewise searches one shape of each kind where many shapes differ in
//! their pieces at most, and tells the pairs that it finds for all of them. Shapes are compared to find out whether they
//! are equal; a table of digests only says which are compared, so that equal shapes may be missed, which costs time alone.
//!
//! What is joined is kept while a net gets wires (`NetJoins`): a wire is joined to the pieces that its shapes touch, which
//! an index finds. The members of each set are kept in a list, and where two sets come together the fewer members are put to the
//! more (`Groups`); so the pieces that have come to the first one are known without a look at the others.
#![tactic(auto)]

mod clean_metal;
mod close_pairs;
mod corner;
mod groups;
mod join;
mod joining;
mod kinds;
pub mod laws;
mod meeting;
mod members;
mod net_joins;
mod net_shapes;
mod open_fault;
mod pair_kind;
mod piece_shape;
mod sets;
mod spacing;
mod stand_ins;
mod too_close;

pub use clean_metal::{clean, clean_indexed};
pub use join::{groups_among, joined, joined_among};
pub use leg_wire_spacing::{Access, access_beside};
pub use net_joins::NetJoins;
pub use net_shapes::numbers_by_net;
pub use open_fault::open_faults;
pub use piece_shape::PieceShape;
pub use spacing::spacing_faults;

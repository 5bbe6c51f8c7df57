//! Which pairs of rectangles meet, under a rule of the caller's own, and which rectangles lie near one.
//!
//! The search for pairs goes over the items once, in the order of their left edges, past bands of y that each layer has for
//! itself. In a band an item waits until one comes whose x gap from it is beyond the layer's reach. A new item is compared
//! with those that wait in its bands, each of them once, and the rule is asked only if the y gap too is within the reach.
//! An item is in each band from its bottom edge to what lies the reach above its top edge, so two items within the reach
//! meet in the first band of the higher one. There the new item looks at all that wait; in its other bands it looks only at
//! those that begin there. So each pair is looked at in one band only. The bands of a layer are of one height: twice the
//! average height of its items and its reach, or more. Left edges are sorted by strips of the plane, about one for 128
//! items. Where a sample of pairs shows that an item would be compared with more than about 128 others, the items of each
//! layer are put into the nodes of an index instead, and each is compared with the earlier ones near it.
//!
//! `BinIndex` is an index of rectangles that grows, and answers which of them lie near a given one: those whose two gaps
//! are at most a reach. The rectangles are sorted so that near ones come together: by classes of their width and height, so
//! that rails and straps as long as the die are by themselves, and within a class by the tiles of their centres on
//! Hilbert's curve. This order is cut into halves again and again, down to eight rectangles or fewer, and each part is a
//! group with the rectangle that encloses it. All nodes are in one list, a group before its members, with how many these
//! are. A question is one walk through the list (`Near`), which takes no memory: a group that does not reach into the
//! window is passed over with all its members. What is added comes after the others as a node by itself. Once there are 64
//! such rectangles, they are grouped, together with as many of the runs before them as are no longer than what follows: so
//! each is sorted anew a few times in all. The proof knows nothing of the order: a group encloses its members, and so what
//! is passed over is far. A side of a group's bounds is the number of a step of 8 units, in 32 bits, so the rectangle
//! itself is looked at before its number is given.
#![tactic(auto)]

mod band;
mod banded;
mod bin_index;
mod bounds;
mod coordinates;
mod crowding;
mod curve;
mod cut;
mod few;
mod grid;
mod groups;
pub mod laws;
mod layer_nodes;
mod left_to_right;
mod near;
mod near_pairs;
mod node;
mod pair_list;
mod rule;
mod sink;
mod sweep;
mod visit;
mod waiting;

pub use banded::{each_pair, pairs_in_bands};
pub use bin_index::BinIndex;
pub use near::Near;
pub use pair_list::{Found, PairList, pairs, pairs_counted};
pub use rule::{LayeredRule, PairRule};
pub use sink::PairSink;

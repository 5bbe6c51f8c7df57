//! Rectilinear polygons: the unit squares inside a closed walk, as rectangles.
//!
//! A point that is repeated, or that lies in the middle of a side, is passed over. The unit squares are those with an odd
//! number of the walk's vertical sides to their west in their row. They are given as slabs: between each two heights of
//! corners that follow one another, from the bottom up, the longest runs of unit squares from west to east.
//!
//! Coordinates are only compared, so they may be any numbers: database units of a DEF, or millionths of a micron of a LEF.
#![tactic(auto)]

mod band;
mod fault;
pub mod laws;
mod number_list;
mod shape;
mod side;
mod side_end;
mod slab;
mod sweep;
mod walk;

pub use fault::PolygonFault;
pub use shape::{Slab, Vertex};
pub use slab::slabs;

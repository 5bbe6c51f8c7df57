//! The records that texts denote, against values that were written down by hand.

mod frame;
mod scaling;
mod standard;

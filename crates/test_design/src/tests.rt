//! The records that texts denote, against values that were written down by hand.

mod block;
mod changes;
mod frame;
mod nets;
mod paths;

//! The differences of two texts, and the verdict on them, against lists that were written down by hand.

mod frame;
mod moved;
mod order;
mod parts;
mod wires;

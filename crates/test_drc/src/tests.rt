//! What is wrong with blocks by the rules of their layers beside spacing.

mod cuts;
mod frame;
mod one_shape;
mod supply;
mod table;
mod together;

//! Which metal lies too near to other metal: how far apart two shapes have to lie, whether they are nearer than a distance, and
//! which nets' metal may lie beside a shape.
#![tactic(auto)]

mod access;
mod closer;
mod comparable;
mod spacing;

pub use access::{Access, access_beside};
pub use closer::are_closer_than;
pub use spacing::{greatest_spacing_on, required_spacing};

//! An allocator over memory that its caller lends.
#![tactic(auto)]

mod free;
mod heap;
mod holes;
mod memory;
mod slot;
#[cfg(test)]
mod tests;

pub use heap::LentHeap;
pub use memory::{Memory, UNIT};

//! How far components have moved.

use leg_lib_records::Items;
use std::alloc::Allocator;

/// How far the components of a design have moved from where they started, in database units along x and along y together.
#[derive(Drop)]
pub struct Moves<A: Allocator> {
    /// For each component in file order; 0 for those that stay.
    pub per_component: Items<i64, A>,
    /// Their sum.
    pub total: i64,
    /// The greatest of them, or 0 where there are none.
    pub greatest: i64,
}

//! The library of the blocks of `test_texts`.

use leg_lib::read_lefs;
use leg_lib_records::Library;
use std::alloc::Allocator;
use test_texts::cells;

/// The library at 1000 units a micron; nothing where memory runs out.
pub fn library_of_cells<A: Allocator + Copy>(alloc: A) -> Option<Library<'static, A>> {
    let raw = read_lefs(alloc, &[cells()]).ok()?;
    raw.at(alloc, 1000).ok()
}

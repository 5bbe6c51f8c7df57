//! Public calls that are given a design and hand it back, and the differences of two designs, with each of their allocations refused in
//! turn. `test_memory` has the other calls that are lent what they work on, and `test_memory_commands` the commands.
#![tactic(auto)]

#[cfg(test)]
mod tests;

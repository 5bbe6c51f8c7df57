//! The check of texts and of a design, and the commands and the comparison of two designs, as a program runs them, with each of their
//! allocations refused in turn. `test_memory` and the other crate of its name have the calls that these are made of.
#![tactic(auto)]

#[cfg(test)]
mod tests;

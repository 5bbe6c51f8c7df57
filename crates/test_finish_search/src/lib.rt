//! Nets that are routed together at values: tests of `leg_finish_search` on a small lattice.
#![tactic(auto)]

pub mod sheet;
#[cfg(test)]
mod tests;

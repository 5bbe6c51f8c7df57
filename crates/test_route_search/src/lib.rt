//! Shortest walks at values: tests of `leg_route_search` in a maze.
#![tactic(auto)]

pub mod maze;
#[cfg(test)]
mod tests;

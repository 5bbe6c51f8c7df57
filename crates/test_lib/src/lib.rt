//! What LEF texts denote, field by field: tests of `leg_lib` over texts.
#![tactic(auto)]

#[cfg(test)]
mod tests;

//! What DEF texts denote, field by field: tests of `leg_design` over texts.
#![tactic(auto)]

#[cfg(test)]
mod tests;

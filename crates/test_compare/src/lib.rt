//! What differs between two DEF texts: tests of `leg_compare` over texts.
#![tactic(auto)]

#[cfg(test)]
mod tests;

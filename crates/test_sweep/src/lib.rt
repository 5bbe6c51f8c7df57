//! Which pairs meet, how often a rule is asked, and what lies near: tests of `leg_sweep` by values.
#![tactic(auto)]

#[cfg(test)]
mod tests;

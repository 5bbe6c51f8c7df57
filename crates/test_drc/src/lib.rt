//! Violations of a deck's rules in texts: tests of `leg_drc_rules` and `leg_drc` together, against lists that were written down by hand.
#![tactic(auto)]

#[cfg(test)]
mod tests;

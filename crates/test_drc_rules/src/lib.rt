//! The rules that the layers of LEF texts state: tests of `leg_drc_rules` over texts.
#![tactic(auto)]

#[cfg(test)]
mod tests;

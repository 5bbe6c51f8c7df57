//! The free sites of rows and the order of rows: tests of `leg_legal_sites` by values.
#![tactic(auto)]

#[cfg(test)]
mod tests;

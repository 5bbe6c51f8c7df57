//! What no clause of `leg_app` states, and how words stand in the lines of `leg_print_words`: tests of public calls by values.
#![tactic(auto)]

#[cfg(test)]
mod tests;

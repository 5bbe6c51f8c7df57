//! Lemmas alone: on lists and their elements, options and comparisons. The proofs of many crates cite them; no code does.
#![tactic(auto)]

//! What is printed: definitions alone, in `specs`.
#![tactic(auto)]

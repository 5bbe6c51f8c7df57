//! Lines of words as the bytes of a text, and that they are read as these words.
//!
//! Of the forms of LEF and DEF nothing is known here. LEF/DEF 5.8 allows any white space between words; that it is
//! one blank within a line is lefdef's own rule.
#![tactic(auto)]

pub mod laws;
mod word_text;

pub use word_text::{
    push_count, push_decimal, push_end, push_first, push_line_feed, push_number, push_parts,
    push_word, push_words,
};

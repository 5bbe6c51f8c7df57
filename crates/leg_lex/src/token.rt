//! A word of a text.

use std::marker::Model;

/// A word of a text. `text` is a slice of the text that it was cut from.
#[derive(Debug, Drop)]
pub struct Token<'a> {
    /// The word's bytes. A quoted word keeps its quotes.
    pub text: &'a [u8],
    /// The line that the word's first byte is on, from 1.
    pub line: u32,
}

impl<'a> Model for Token<'a> {
    ghost use Rattle.leg_lex.specs.Word.{Word};

    ghost Value = { Word };

    ghost view = { λ t. record { text = t.text.now; line = t.line } };
}

//! The words of a line, added to a text all at once.

ghost use Rattle.std.specs.Prelude.{◌≡◌, ◌++◌, ◌∷◌, OnOk, map};
ghost use Rattle.leg_output.specs.Words.{spaced, line};

use leg_print_words::{push_first, push_line_feed, push_words};
use std::alloc::{AllocError, Allocator};

/// Adds what a line begins with: its first word, with no blank before it, and the words after it.
pub(crate) fn push_start<A: Allocator>(
    text: &mut Vec<u8, A>,
    first: &[u8],
    words: &[&[u8]],
) -> Result<(), AllocError>
    ensures { OnOk result (text.new.items ≡ text.old.items ++ (first.now ++ spaced (map (λ word. word.now) words.now))) }
{
    push_first(text, first)?;
    push_words(text, words)
}

/// Adds a line: its first word, and the words after it.
pub(crate) fn push_line<A: Allocator>(
    text: &mut Vec<u8, A>,
    first: &[u8],
    words: &[&[u8]],
) -> Result<(), AllocError>
    ensures { OnOk result (text.new.items ≡ text.old.items ++ line (first.now ∷ map (λ word. word.now) words.now)) }
{
    push_start(text, first, words)?;
    push_line_feed(text)
}

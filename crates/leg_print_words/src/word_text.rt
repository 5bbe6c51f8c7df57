//! Words and numbers added to a text.

ghost use Rattle.std.specs.Prelude.{◌≡◌, [], ◌∷◌, ◌++◌, OnOk, map, codes, decimal};
ghost use Rattle.std.specs.Fmt.{signed_decimal};
ghost use Rattle.std.specs.List.{flat_map};
ghost use Rattle.leg_output.specs.Words.{spaced};

use itoa::Buffer;
use std::alloc::{AllocError, Allocator};

/// Adds the first word of a line: the word alone, with no blank before it.
///
/// It fails only when out of memory.
pub fn push_first<A: Allocator>(text: &mut Vec<u8, A>, word: &[u8]) -> Result<(), AllocError>
    ensures { OnOk result (text.new.items ≡ text.old.items ++ word.now) }
{
    text.extend_from_slice(word)
}

/// Adds a blank and a word.
///
/// It fails only when out of memory; the text may then have the blank alone.
pub fn push_word<A: Allocator>(text: &mut Vec<u8, A>, word: &[u8]) -> Result<(), AllocError>
    ensures { OnOk result (text.new.items ≡ text.old.items ++ spaced (word.now ∷ [])) }
{
    text.push(b' ')?;
    push_first(text, word)
}

/// Adds each word after a blank.
///
/// It fails only when out of memory; the text may then have some of the words.
pub fn push_words<A: Allocator>(text: &mut Vec<u8, A>, words: &[&[u8]]) -> Result<(), AllocError>
    ensures { OnOk result (text.new.items ≡ text.old.items ++ spaced (map (λ word. word.now) words.now)) }
{
    'words: for word in words {
        push_word(text, word)?;
    }
    Ok(())
}

/// Adds parts of a line, side by side.
///
/// It fails only when out of memory; the text may then have some of the parts.
pub fn push_parts<A: Allocator>(text: &mut Vec<u8, A>, parts: &[&[u8]]) -> Result<(), AllocError>
    ensures { OnOk result (text.new.items ≡ text.old.items ++ flat_map (λ part. part.now) parts.now) }
{
    for part in parts {
        push_first(text, part)?;
    }
    Ok(())
}

/// Adds a number in decimals, with its sign where it lies below 0.
///
/// It fails only when out of memory.
pub fn push_decimal<A: Allocator>(text: &mut Vec<u8, A>, number: i64) -> Result<(), AllocError>
    ensures { OnOk result (text.new.items ≡ text.old.items ++ signed_decimal number) }
{
    let mut buffer = Buffer::new();
    push_first(text, buffer.format(number).as_bytes())
}

/// Adds a number that counts something, in decimals.
///
/// It fails only when out of memory.
pub fn push_count<A: Allocator>(text: &mut Vec<u8, A>, count: u64) -> Result<(), AllocError>
    ensures { OnOk result (text.new.items ≡ text.old.items ++ decimal count) }
{
    let mut buffer = Buffer::new();
    push_first(text, buffer.format(count).as_bytes())
}

/// Adds a blank and a number in decimals, with its sign where it lies below 0.
///
/// It fails only when out of memory; the text may then have the blank alone.
pub fn push_number<A: Allocator>(text: &mut Vec<u8, A>, number: i64) -> Result<(), AllocError>
    ensures { OnOk result (text.new.items ≡ text.old.items ++ spaced (signed_decimal number ∷ [])) }
{
    let mut buffer = Buffer::new();
    push_word(text, buffer.format(number).as_bytes())
}

/// Adds the end of a statement and of its line: a blank, a semicolon and a line feed.
///
/// It fails only when out of memory.
pub fn push_end<A: Allocator>(text: &mut Vec<u8, A>) -> Result<(), AllocError>
    ensures { OnOk result (text.new.items ≡ text.old.items ++ codes " ;\n") }
{
    text.extend_from_slice(b" ;\n")
}

/// Adds a line feed.
///
/// It fails only when out of memory.
pub fn push_line_feed<A: Allocator>(text: &mut Vec<u8, A>) -> Result<(), AllocError>
    ensures { OnOk result (text.new.items ≡ text.old.items ++ codes "\n") }
{
    text.extend_from_slice(b"\n")
}

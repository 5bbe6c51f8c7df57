//! A line of a text, and how messages show it.

ghost use Rattle.std.specs.Prelude.{◌≡◌, ◌++◌, ◌<◌, ◌^◌, map, take, replicate, OnOk};
ghost use Rattle.std.specs.List.{fold};
ghost use Rattle.leg_app_message.specs.TextLine.{line_of, end_of_shown, shown_byte, shown_line, word_at, end_of_word, shown_word, next_column, column_of, mark_line};

use leg_lex::is_white;
use std::alloc::{AllocError, Allocator};

/// How many bytes of a line are shown at most.
const SHOWN_LIMIT: usize = 200;

/// How many bytes of a word are shown at most.
const WORD_LIMIT: usize = 60;

/// The line of this number, from 1; empty where the text has fewer.
pub(crate) fn line_of(text: &[u8], number: u32) -> &[u8]
    ensures { result.now ≡ line_of number text.now }
{
    let lines_before = (number as usize).saturating_sub(1);
    match text.split(|byte| *byte == b'\n').nth(lines_before) {
        Some(line) => line,
        None => b"",
    }
}

/// The bytes of a text from `start` on, before `end`.
pub(crate) fn word_at(text: &[u8], start: usize, end: usize) -> &[u8]
    ensures { result.now ≡ word_at start end text.now }
{
    let rest = &text[start.min(text.len())..];
    let len = end.saturating_sub(start).min(rest.len());
    &rest[..len]
}

/// How many bytes of its line come before this byte of a text.
pub(crate) fn column_of(text: &[u8], start: usize) -> usize
    ensures is { result ≡ column_of start text.now }
    ensures small { result < 2 ^ 63 }
{
    column_behind(&text[..start.min(text.len())])
}

/// How many bytes of the last line there are in this front of a text.
#[tactic(auto, using(crate::proofs::Columns::fold_more))]
fn column_behind(front: &[u8]) -> usize
    ensures is { result ≡ fold next_column 0 front.now }
    ensures small { result < 2 ^ 63 }
{
    let mut column = 0;
    for byte in front {
        column = next_column(column, *byte);
    }
    column
}

/// How many bytes of its line come before the byte that comes next, after this one.
fn next_column(column: usize, byte: u8) -> usize
    requires { column < 2 ^ 63 }
    ensures { result ≡ next_column column byte }
{
    if byte == b'\n' { 0 } else { column + 1 }
}

/// Adds a word as messages show it, between grave accents: at most `WORD_LIMIT` bytes of it; nothing of no word.
pub(crate) fn push_word<A: Allocator>(
    message: &mut Vec<u8, A>,
    word: &[u8],
) -> Result<(), AllocError>
    ensures { OnOk result (message.new.items ≡ message.old.items ++ shown_word word.now) }
{
    if word.is_empty() {
        return Ok(());
    }
    message.extend_from_slice(b"`")?;
    push_shown_bytes(message, front(word, WORD_LIMIT))?;
    message.extend_from_slice(end_of_word(word))
}

/// What comes after the part of a word that is shown.
fn end_of_word(word: &[u8]) -> &'static [u8]
    ensures { result.now ≡ end_of_word word.now }
{
    if word.len() > WORD_LIMIT {
        b"...`"
    } else {
        b"`"
    }
}

/// The first bytes, at most so many.
fn front(bytes: &[u8], most: usize) -> &[u8]
    ensures { result.now ≡ take most bytes.now }
{
    if bytes.len() > most {
        &bytes[..most]
    } else {
        bytes
    }
}

/// Adds a line that marks so many bytes of the line above, after so many; nothing where they are not shown whole, or none are
/// marked.
pub(crate) fn push_mark<A: Allocator>(
    message: &mut Vec<u8, A>,
    column: usize,
    count: usize,
) -> Result<(), AllocError>
    ensures { OnOk result (message.new.items ≡ message.old.items ++ mark_line column count) }
{
    if count == 0 || column.saturating_add(count) > SHOWN_LIMIT {
        return Ok(());
    }
    message.extend_from_slice(b"    ")?;
    push_times(message, b' ', column)?;
    push_times(message, b'^', count)?;
    message.extend_from_slice(b"\n")
}

/// Adds the byte so many times.
fn push_times<A: Allocator>(
    message: &mut Vec<u8, A>,
    byte: u8,
    count: usize,
) -> Result<(), AllocError>
    ensures { OnOk result (message.new.items ≡ message.old.items ++ replicate count byte) }
{
    for _ in 0..count {
        message.push(byte)?;
    }
    Ok(())
}

/// Adds a line as messages show it: four blanks, at most `SHOWN_LIMIT` bytes, and ` ...` where it has more.
pub(crate) fn push_shown<A: Allocator>(
    message: &mut Vec<u8, A>,
    line: &[u8],
) -> Result<(), AllocError>
    ensures { OnOk result (message.new.items ≡ message.old.items ++ shown_line line.now) }
{
    message.extend_from_slice(b"    ")?;
    push_shown_bytes(message, front(line, SHOWN_LIMIT))?;
    message.extend_from_slice(end_of_shown(line))
}

/// What comes after the part that is shown.
fn end_of_shown(line: &[u8]) -> &'static [u8]
    ensures { result.now ≡ end_of_shown line.now }
{
    if line.len() > SHOWN_LIMIT {
        b" ...\n"
    } else {
        b"\n"
    }
}

/// Adds bytes as messages show them.
pub(crate) fn push_shown_bytes<A: Allocator>(
    message: &mut Vec<u8, A>,
    bytes: &[u8],
) -> Result<(), AllocError>
    ensures { OnOk result (message.new.items ≡ message.old.items ++ map shown_byte bytes.now) }
{
    for byte in bytes {
        message.push(shown_byte(*byte))?;
    }
    Ok(())
}

/// The byte as it is shown: a blank for white space, and `?` for all that isn't printable ASCII.
fn shown_byte(byte: u8) -> u8
    ensures { result ≡ shown_byte byte }
{
    if is_white(byte) {
        b' '
    } else if byte < b' ' || byte > b'~' {
        b'?'
    } else {
        byte
    }
}

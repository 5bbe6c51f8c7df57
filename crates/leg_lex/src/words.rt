//! The words of a text: LEF and DEF share them (LEF/DEF 5.8, "Rules for LEF and DEF files").

ghost use Rattle.std.specs.Prelude.{◌≡◌, ◌≢◌, ℕ, ◌<◌, ◌≤◌, ◌↔◌, false, [], ◌∷◌, List, length, map, slice_index, slice_range, count_by, All, IfOk, IfErr, OnOk, IsErrOf};
ghost use Rattle.leg_lex.specs.declared.limits.TheConstants.{TEXT_LIMIT};
ghost use Rattle.leg_lex.specs.Word.{Word};
ghost use Rattle.leg_lex.specs.Cut.{is_line_feed, kind_of, IsUnclosed};
ghost use Rattle.leg_lex.specs.Tokens.{AreTokens, plain_words, words_in};
ghost use Rattle.leg_lex.specs.WordPlaces.{word_at, IsPlaceIn};
ghost use Rattle.leg_lex.specs.Words.{is_plain_kind};
ghost use Rattle.leg_lex.specs.Steps.MoreWords.{AddsWords};

use crate::fault::LexFault;
use crate::limits::TEXT_LIMIT;
use crate::pieces::{is_white, line_feeds, piece_len, plain_len};
use crate::token::Token;
use crate::word::begins_plain;
use crate::word_place::{WordPlace, bytes_at};
use std::alloc::{AllocError, Allocator};
use std::marker::Model;

/// The words of a text, in order. Contracts see the list of them.
#[derive(Drop)]
pub struct Words<'a, A: Allocator> {
    pub(crate) text: &'a [u8],
    pub(crate) places: Vec<WordPlace, A>,
}

impl<'a, A: Allocator> Model for Words<'a, A> {
    ghost use Rattle.std.specs.Prelude.{List, map, All};
    ghost use Rattle.leg_lex.specs.Word.{Word};
    ghost use Rattle.leg_lex.specs.WordPlaces.{word_at, IsPlaceIn};

    ghost Value = { List Word };

    ghost view = { λ w. map (word_at w.text.now) w.places.items };

    ghost invariant = { λ w. All (IsPlaceIn w.text.now) w.places.items };
}

impl<'a, A: Allocator + Copy> Words<'a, A> {
    /// The words of the text. White space and comments separate them; a quoted word keeps its quotes; a `;` at the end
    /// of a longer plain word is a word of its own.
    ///
    /// `TooLong` is looked at first. `UnclosedString` has the line of the opening quote.
    pub fn new(alloc: A, text: &'a [u8]) -> Result<Words<'a, A>, LexFault>
        ensures found { IfOk result (λ found. AreTokens text.now found) }
        // The text has no other words.
        ensures only { IfOk result (λ found. (words : List Word) → AreTokens text.now words → words ≡ found) }
        ensures too_long { IsErrOf result LexFault.TooLong ↔ (TEXT_LIMIT < length text.now) }
        // A quoted word without an end is reported only where the text has no words, and with its own line.
        ensures unclosed { IfErr result (λ fault. fault ≢ LexFault.TooLong → fault ≢ LexFault.Memory →
            (words : List Word) → ¬ AreTokens text.now words) }
        ensures in_line { IfErr result (λ fault. (line : ℕ) → fault ≡ LexFault.UnclosedString line → IsUnclosed text.now line) }
    {
        if text.len() as u64 > TEXT_LIMIT {
            return Err(LexFault::TooLong);
        }
        let places = word_places(alloc, text)?;
        Ok(Words { text, places })
    }
}

/// The words of a text as `Words::new` answers them, each with its bytes.
pub fn tokens<'a, A: Allocator + Copy>(
    alloc: A,
    text: &'a [u8],
) -> Result<Vec<Token<'a>, A>, LexFault>
    ensures found { IfOk result (λ v. AreTokens text.now v.items) }
    // The text has no other words.
    ensures only { IfOk result (λ v. (words : List Word) → AreTokens text.now words → words ≡ v.items) }
    ensures too_long { IsErrOf result LexFault.TooLong ↔ (TEXT_LIMIT < length text.now) }
    // A quoted word without an end is reported only where the text has no words, and with its own line.
    ensures unclosed { IfErr result (λ fault. fault ≢ LexFault.TooLong → fault ≢ LexFault.Memory →
        (words : List Word) → ¬ AreTokens text.now words) }
    ensures in_line { IfErr result (λ fault. (line : ℕ) → fault ≡ LexFault.UnclosedString line → IsUnclosed text.now line) }
{
    let words = Words::new(alloc, text)?;
    Ok(tokens_at(alloc, words.text, &words.places)?)
}

/// The words at these places of the text.
fn tokens_at<'a, A: Allocator>(
    alloc: A,
    text: &'a [u8],
    places: &[WordPlace],
) -> Result<Vec<Token<'a>, A>, AllocError>
    requires { All (IsPlaceIn text.now) places.now }
    ensures { IfOk result (λ v. v.items ≡ map (word_at text.now) places.now) }
{
    let mut tokens = Vec::with_capacity(alloc, places.len())?;
    for place in places {
        tokens.push(Token {
            text: bytes_at(text, place),
            line: place.line,
        })?;
    }
    Ok(tokens)
}

/// Where the words of a text are, in order.
fn word_places<A: Allocator + Copy>(alloc: A, text: &[u8]) -> Result<Vec<WordPlace, A>, LexFault>
    requires { length text.now ≤ TEXT_LIMIT }
    ensures found { IfOk result (λ v. AreTokens text.now (map (word_at text.now) v.items)) }
    ensures only { IfOk result (λ v. (words : List Word) → AreTokens text.now words → words ≡ map (word_at text.now) v.items) }
    ensures within { IfOk result (λ v. All (IsPlaceIn text.now) v.items) }
    ensures fits { IfErr result (λ fault. fault ≢ LexFault.TooLong) }
    ensures unclosed { IfErr result (λ fault. fault ≢ LexFault.Memory → (words : List Word) → ¬ AreTokens text.now words) }
    ensures in_line { IfErr result (λ fault. (line : ℕ) → fault ≡ LexFault.UnclosedString line → IsUnclosed text.now line) }
{
    let mut places = Vec::new(alloc);
    let mut at = 0;
    let mut line = 1;
    'pieces: while at < text.len() {
        if is_white(text[at]) {
            line += line_feeds_of(text[at]);
            at += 1;
            continue 'pieces;
        }
        if begins_plain(text[at]) {
            let end = at + plain_len(&text[at..]);
            push_plain(&mut places, text, at, end, line)?;
            at = end;
            continue 'pieces;
        }
        let rest = &text[at..];
        let Some(len) = piece_len(rest) else {
            return Err(LexFault::UnclosedString(line));
        };
        let end = at + len;
        push_words(&mut places, text, at, end, line)?;
        line += line_feeds(&text[at..end]) as u32;
        at = end;
    }
    Ok(places)
}

/// How many line feeds the byte is: one or none.
fn line_feeds_of(byte: u8) -> u32
    ensures is { result ≡ count_by is_line_feed (byte ∷ []) }
    ensures one { result ≤ 1 }
{
    if byte == b'\n' { 1 } else { 0 }
}

/// Adds the words of the piece from `start` to `end`, which is no plain word: a quoted word is one, and other pieces have none.
fn push_words<A: Allocator>(
    places: &mut Vec<WordPlace, A>,
    text: &[u8],
    start: usize,
    end: usize,
    line: u32,
) -> Result<(), LexFault>
    requires fits { length text.now ≤ TEXT_LIMIT }
    requires order { start ≤ end }
    requires within { end ≤ length text.now }
    requires other { is_plain_kind (kind_of (slice_index text.now start)) ≡ false }
    ensures pushed { OnOk result (AddsWords text.now (words_in line (slice_range text.now start end)) places.old.items places.new.items) }
    ensures memory { IfErr result (λ fault. fault ≡ LexFault.Memory) }
{
    match &text[start..end] {
        [b'"', ..] => push_word(places, text, start, end, line),
        _ => Ok(()),
    }
}

/// Adds the words of the plain word from `start` to `end`: a `;` at the end of a longer one is a word of its own.
fn push_plain<A: Allocator>(
    places: &mut Vec<WordPlace, A>,
    text: &[u8],
    start: usize,
    end: usize,
    line: u32,
) -> Result<(), LexFault>
    requires fits { length text.now ≤ TEXT_LIMIT }
    requires order { start ≤ end }
    requires within { end ≤ length text.now }
    ensures pushed { OnOk result (AddsWords text.now (plain_words line (slice_range text.now start end)) places.old.items places.new.items) }
    ensures memory { IfErr result (λ fault. fault ≡ LexFault.Memory) }
{
    if end - start > 1 && text[end - 1] == b';' {
        push_word(places, text, start, end - 1, line)?;
        push_word(places, text, end - 1, end, line)
    } else {
        push_word(places, text, start, end, line)
    }
}

/// Adds the word from `start` to `end`.
fn push_word<A: Allocator>(
    places: &mut Vec<WordPlace, A>,
    text: &[u8],
    start: usize,
    end: usize,
    line: u32,
) -> Result<(), LexFault>
    requires fits { length text.now ≤ TEXT_LIMIT }
    requires order { start ≤ end }
    requires within { end ≤ length text.now }
    ensures pushed { OnOk result (AddsWords text.now (record { text = slice_range text.now start end; line = line } ∷ []) places.old.items places.new.items) }
    ensures memory { IfErr result (λ fault. fault ≡ LexFault.Memory) }
{
    places.push(WordPlace {
        start: start as u32,
        end: end as u32,
        line,
    })?;
    Ok(())
}

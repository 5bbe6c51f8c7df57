//! Where the pieces of a text end: white bytes, comments, quoted words and plain words.

ghost use Rattle.std.specs.Prelude.{◌≡◌, ℕ, ◌<◌, ◌≤◌, true, length, take, drop, slice_index, count_by, List, IfSome, IfNone, MatchOption};
ghost use Rattle.leg_lex.specs.Cut.{is_white, is_line_feed, kind_of, IsPiece, RunsTo};
ghost use Rattle.leg_lex.specs.Words.{is_plain_kind};

use memchr::memchr;

/// Whether the byte is white space: a tab, line feed, vertical tab, form feed, carriage return or blank.
pub fn is_white(byte: u8) -> bool
    ensures { result ≡ is_white byte }
{
    matches!(byte, b'\t'..=b'\r' | b' ')
}

/// How many bytes come before the next line feed, or before the end.
#[tactic(auto, using(crate::proofs::Runs::runs_to_first))]
fn line_len(text: &[u8]) -> usize
    ensures runs { RunsTo is_line_feed (take result text.now) (drop result text.now) }
    ensures within { result ≤ length text.now }
{
    memchr(b'\n', text).unwrap_or(text.len())
}

/// How many bytes come before the next white space, or before the end.
#[tactic(auto, using(crate::proofs::Runs::runs_to_first))]
fn word_len(text: &[u8]) -> usize
    ensures runs { RunsTo is_white (take result text.now) (drop result text.now) }
    ensures within { result ≤ length text.now }
{
    text.iter()
        .position(|byte| is_white(*byte))
        .unwrap_or(text.len())
}

/// How long the plain word is that the text begins with.
#[tactic(auto, using(crate::proofs::PieceKinds::plain_here))]
pub(crate) fn plain_len(text: &[u8]) -> usize
    requires some { 0 < length text.now }
    requires plain { is_plain_kind (kind_of (slice_index text.now 0)) ≡ true }
    ensures piece { IsPiece (take result text.now) (drop result text.now) }
    ensures some { 0 < result }
    ensures within { result ≤ length text.now }
{
    match text {
        [] => 0,
        [_, more @ ..] => 1 + word_len(more),
    }
}

/// How long the quoted word is that the text begins with, or `None` where its quote isn't closed.
#[tactic(auto, using(crate::proofs::Quotes::quoted_ends, crate::proofs::Quotes::escaped_more))]
pub(crate) fn quoted_len(text: &[u8]) -> Option<usize>
    requires { slice_index text.now 0 ≡ 34 }
    ensures ends { MatchOption result ((n : ℕ) → ¬ IsPiece (take n text.now) (drop n text.now))
        (λ n. IsPiece (take n text.now) (drop n text.now)) }
    ensures within { IfSome result (λ n. n ≤ length text.now) }
{
    let mut from = 1;
    'quotes: while let Some(skipped) = memchr(b'"', &text[from..]) {
        let quote = from + skipped;
        if text[quote - 1] != b'\\' {
            return Some(quote + 1);
        }
        from = quote + 1;
    }
    None
}

/// How long the piece is that the text begins with, or `None` where it begins with none: where there is
/// no text, and at a quote that isn't closed.
pub fn piece_len(text: &[u8]) -> Option<usize>
    ensures ends { MatchOption result ((n : ℕ) → ¬ IsPiece (take n text.now) (drop n text.now))
        (λ n. IsPiece (take n text.now) (drop n text.now)) }
    ensures within { IfSome result (λ n. n ≤ length text.now) }
    ensures quote { IfNone result (0 < length text.now → slice_index text.now 0 ≡ 34) }
{
    match text {
        [] => None,
        [first, ..] if is_white(*first) => Some(1),
        [b'#', comment @ ..] => Some(1 + line_len(comment)),
        [b'"', ..] => quoted_len(text),
        _ => Some(plain_len(text)),
    }
}

/// How many line feeds a piece has: a comment and a plain word have none.
#[tactic(auto, using(crate::proofs::LineFeeds::line_feeds_none))]
pub fn line_feeds(piece: &[u8]) -> usize
    requires { (after : List ℕ) × IsPiece piece.now after }
    ensures { result ≡ count_by is_line_feed piece.now }
{
    match piece {
        [b'\n'] => 1,
        [b'"', ..] => piece.iter().filter(|byte| **byte == b'\n').count(),
        _ => 0,
    }
}

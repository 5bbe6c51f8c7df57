//! What a single word is: a keyword, a mark, a quoted word or a name.

ghost use Rattle.std.specs.Prelude.{◌≡◌};
ghost use Rattle.std.specs.List.{list_any};
ghost use Rattle.leg_lex.specs.Cut.{is_white, kind_of};
ghost use Rattle.leg_lex.specs.Words.{is_keyword, is_mark, is_plain_kind, is_plain, is_closed, is_name, is_word};

use crate::pieces::{is_white, quoted_len};

/// Whether a word is this keyword, in capitals or small letters.
pub fn is_keyword(keyword: &[u8], word: &[u8]) -> bool
    ensures { result ≡ is_keyword keyword.now word.now }
{
    word.eq_ignore_ascii_case(keyword)
}

/// Whether a word is one of the marks `;` `(` `)` `+` `-` `*`.
pub fn is_mark(word: &[u8]) -> bool
    ensures { result ≡ is_mark word.now }
{
    matches!(word, [b';' | b'(' | b')' | b'+' | b'-' | b'*'])
}

/// Whether a plain word may begin with the byte: it is not white, and begins no comment and no quoted word.
pub(crate) fn begins_plain(byte: u8) -> bool
    ensures { result ≡ is_plain_kind (kind_of byte) }
{
    !is_white(byte) && byte != b'#' && byte != b'"'
}

fn has_white(bytes: &[u8]) -> bool
    ensures { result ≡ list_any is_white bytes.now }
{
    bytes.iter().any(|byte| is_white(*byte))
}

/// Whether bytes are a plain word.
fn is_plain(word: &[u8]) -> bool
    ensures { result ≡ is_plain word.now }
{
    match word {
        [first, others @ ..] => begins_plain(*first) && !has_white(others),
        [] => false,
    }
}

/// Whether bytes are a quoted word, which its last byte closes.
fn is_closed(word: &[u8]) -> bool
    ensures { result ≡ is_closed word.now }
{
    match word {
        [b'"', ..] => quoted_len(word) == Some(word.len()),
        _ => false,
    }
}

/// Whether a word may be a name: a plain word that is no mark.
pub fn is_name(word: &[u8]) -> bool
    ensures { result ≡ is_name word.now }
{
    is_plain(word) && !is_mark(word)
}

/// Whether a word is a name or a quoted word.
pub fn is_word(word: &[u8]) -> bool
    ensures { result ≡ is_word word.now }
{
    is_name(word) || is_closed(word)
}

//! Reading past words.

ghost use Rattle.std.specs.Prelude.{◌≡◌, drop};
ghost use Rattle.leg_drc_rules.specs.Section.{at_semicolon};

use leg_lex::Cursor;

/// Reads past so many words, or past all where there are fewer.
#[tactic(auto, using(crate::proofs::Next::next_rest, crate::proofs::Next::next_none, crate::proofs::Next::skip_on, crate::proofs::Next::skip_none))]
pub(crate) fn skip(words: &mut Cursor<'_, '_>, count: usize)
    ensures { words.new ≡ drop count words.old }
{
    if count > 0 && !words.is_at_end() {
        match words.any() {
            Ok(_) => skip(words, count - 1),
            Err(_) => (),
        }
    }
}

/// Whether the next word is a semicolon.
#[tactic(auto, using(crate::proofs::Next::next_mark, crate::proofs::Next::no_mark))]
pub(crate) fn is_at_semicolon(words: &Cursor<'_, '_>) -> bool
    ensures { result ≡ at_semicolon words.now }
{
    let mut words = words.again();
    match words.any() {
        Ok(word) => word == b";".as_slice(),
        Err(_) => false,
    }
}

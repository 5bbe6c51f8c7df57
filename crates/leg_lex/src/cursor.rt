//! A place in a text's words, from which forms are read.

ghost use Rattle.std.specs.Prelude.{◌≡◌, ◌≢◌, ◌↔◌, IsTrue, [], ◌∷◌, ◌+◌, ◌<◌, length, map, take, drop, All, MatchOption, None, Some, is_some, IfErr};
ghost use Rattle.std.specs.Str.{bytes_eq};
ghost use Rattle.leg_lex.specs.Word.{texts};
ghost use Rattle.leg_lex.specs.Words.{Reads, Means, is_at, next_at, keyword_at, mark_at, name_at, word_at, whole_at, length_at, end_at, end_of, nothing_at};
ghost use Rattle.leg_lex.specs.Statements.{up_to, statement_at, statements_at};
ghost use Rattle.leg_lex.specs.WordPlaces.{bytes_at, IsPlaceIn};

use crate::length::Micron;
use crate::read_fault::{FaultKind, Keyword, Need, ReadFault};
use crate::word_place::{WordPlace, bytes_at};
use crate::words::Words;
use crate::{number, word};
use std::alloc::Allocator;
use std::marker::Model;

/// The words of a text, of a statement or of a clause that are left to read. Contracts see it as these
/// words.
#[derive(Drop)]
pub struct Cursor<'t, 'a> {
    pub(crate) text: &'a [u8],
    pub(crate) rest: &'t [WordPlace],
    // For faults: the text's number, whether a mark ends these words, and where it is, or else where the text's last word is, if the
    // text has words.
    pub(crate) file: u32,
    pub(crate) is_closed: bool,
    pub(crate) last: Option<&'t WordPlace>,
}

impl<'t, 'a> Model for Cursor<'t, 'a> {
    ghost use Rattle.std.specs.Prelude.{List, ℕ, map, All};
    ghost use Rattle.leg_lex.specs.WordPlaces.{bytes_at, IsPlaceIn};

    ghost Value = { List (List ℕ) };

    ghost view = { λ c. map (bytes_at c.text.now) c.rest.now };

    ghost invariant = { λ c. All (IsPlaceIn c.text.now) c.rest.now };
}

impl<'t, 'a> Cursor<'t, 'a> {
    /// The words of the text of this number.
    pub fn new<A: Allocator>(file: u32, words: &'t Words<'a, A>) -> Cursor<'t, 'a>
        ensures { result ≡ texts words.now }
    {
        let places = words.places.as_slice();
        Cursor {
            text: words.text,
            rest: places,
            file,
            is_closed: false,
            last: places.last(),
        }
    }

    /// A second cursor at the same place.
    pub fn again(&self) -> Cursor<'t, 'a>
        ensures { result ≡ self.now }
    {
        Cursor {
            text: self.text,
            rest: self.rest,
            file: self.file,
            is_closed: self.is_closed,
            last: self.last,
        }
    }

    /// Whether no word is left.
    pub fn is_at_end(&self) -> bool
        ensures { IsTrue result ↔ (self.now ≡ []) }
    {
        self.rest.is_empty()
    }

    /// How many words are left.
    pub fn len(&self) -> usize
        ensures { result ≡ length self.now }
    {
        self.rest.len()
    }

    /// Whether the next word is this keyword, in capitals or small letters.
    pub fn is_at(&self, keyword: &[u8]) -> bool
        ensures { result ≡ is_at keyword.now self.now }
    {
        match self.rest {
            [next, ..] => word::is_keyword(keyword, bytes_at(self.text, next)),
            [] => false,
        }
    }

    // Whether `END` and this keyword are the next words.
    #[tactic(auto, unfolding(crate::specs::Words::end_at, crate::specs::Words::keyword_at, crate::specs::Words::next_at))]
    pub(crate) fn is_at_end_keyword(&self, keyword: &[u8]) -> bool
        ensures { result ≡ is_some (end_at keyword.now self.now) }
    {
        match self.rest {
            [end, next, ..] => {
                word::is_keyword(b"END", bytes_at(self.text, end))
                    && word::is_keyword(keyword, bytes_at(self.text, next))
            }
            _ => false,
        }
    }

    // Whether `END` and this name are the next words.
    #[tactic(auto, unfolding(crate::specs::Words::end_of, crate::specs::Words::name_at, crate::specs::Words::keyword_at, crate::specs::Words::next_at))]
    pub(crate) fn is_at_end_of(&self, name: &[u8]) -> bool
        ensures { result ≡ is_some (end_of name.now self.now) }
    {
        match self.rest {
            [end, next, ..] => {
                let next = bytes_at(self.text, next);
                word::is_keyword(b"END", bytes_at(self.text, end))
                    && word::is_name(next)
                    && next == name
            }
            _ => false,
        }
    }

    // The next word, if there is one; the cursor stays before it.
    #[tactic(auto, unfolding(crate::specs::Words::next_at))]
    fn next(&self) -> Option<&'a [u8]>
        ensures { MatchOption result (next_at self.now ≡ None) (λ word. next_at self.now ≡ Some (word.now, drop 1 self.now)) }
    {
        match self.rest {
            [next, ..] => Some(bytes_at(self.text, next)),
            [] => None,
        }
    }

    // Reads past the next word, if there is one.
    pub(crate) fn skip(&mut self)
        ensures { self.new ≡ drop 1 self.old }
    {
        if let [_, rest @ ..] = self.rest {
            self.rest = rest;
        }
    }

    /// Reads the next word, whatever it is.
    pub fn any(&mut self) -> Result<&'a [u8], ReadFault>
        ensures reads { Reads (λ word. word.now) result self.new (next_at self.old) }
        ensures no_memory { IfErr result (λ fault. fault.kind ≢ FaultKind.Memory) }
    {
        let Some(word) = self.next() else {
            return Err(self.cut_short(FaultKind::Unexpected, Need::AnyWord));
        };
        self.skip();
        Ok(word)
    }

    /// Reads this keyword, in capitals or small letters. Another word is `Unexpected`.
    #[tactic(auto, unfolding(crate::specs::Words::keyword_at))]
    pub fn keyword(&mut self, keyword: &[u8]) -> Result<(), ReadFault>
        ensures reads { Reads (λ x. x) result self.new (keyword_at keyword.now self.old) }
        ensures no_memory { IfErr result (λ fault. fault.kind ≢ FaultKind.Memory) }
    {
        let Some(word) = self.next() else {
            let need = Need::Keyword(Keyword::new(keyword));
            return Err(self.cut_short(FaultKind::Unexpected, need));
        };
        if !word::is_keyword(keyword, word) {
            let need = Need::Keyword(Keyword::new(keyword));
            return Err(self.need(FaultKind::Unexpected, need));
        }
        self.skip();
        Ok(())
    }

    /// Reads this mark, of one byte. Another word is `Unexpected`.
    #[tactic(auto, unfolding(crate::specs::Words::mark_at))]
    pub fn mark(&mut self, mark: u8) -> Result<(), ReadFault>
        ensures reads { Reads (λ x. x) result self.new (mark_at mark self.old) }
        ensures no_memory { IfErr result (λ fault. fault.kind ≢ FaultKind.Memory) }
    {
        let Some(word) = self.next() else {
            return Err(self.cut_short(FaultKind::Unexpected, Need::Mark(mark)));
        };
        if word != [mark].as_slice() {
            return Err(self.need(FaultKind::Unexpected, Need::Mark(mark)));
        }
        self.skip();
        Ok(())
    }

    /// Reads a name: a plain word that is no mark. Another word is `Unexpected`.
    #[tactic(auto, unfolding(crate::specs::Words::name_at))]
    #[inline(always)]
    pub fn name(&mut self) -> Result<&'a [u8], ReadFault>
        ensures reads { Reads (λ name. name.now) result self.new (name_at self.old) }
        ensures no_memory { IfErr result (λ fault. fault.kind ≢ FaultKind.Memory) }
    {
        let Some(word) = self.next() else {
            return Err(self.cut_short(FaultKind::Unexpected, Need::Name));
        };
        if !word::is_name(word) {
            return Err(self.need(FaultKind::Unexpected, Need::Name));
        }
        self.skip();
        Ok(word)
    }

    /// Reads a name or a quoted word, which keeps its quotes. Another word is `Unexpected`.
    #[tactic(auto, unfolding(crate::specs::Words::word_at))]
    pub fn word(&mut self) -> Result<&'a [u8], ReadFault>
        ensures reads { Reads (λ word. word.now) result self.new (word_at self.old) }
        ensures no_memory { IfErr result (λ fault. fault.kind ≢ FaultKind.Memory) }
    {
        let Some(word) = self.next() else {
            return Err(self.cut_short(FaultKind::Unexpected, Need::Word));
        };
        if !word::is_word(word) {
            return Err(self.need(FaultKind::Unexpected, Need::Word));
        }
        self.skip();
        Ok(word)
    }

    /// Reads a whole number. Another word is `BadNumber`, or `TooLarge` beyond the limit.
    #[tactic(auto, unfolding(crate::specs::Words::whole_at))]
    #[inline(always)]
    pub fn whole(&mut self) -> Result<i64, ReadFault>
        ensures reads { Reads (λ z. z) result self.new (whole_at self.old) }
        ensures no_memory { IfErr result (λ fault. fault.kind ≢ FaultKind.Memory) }
    {
        let Some(word) = self.next() else {
            return Err(self.cut_short(FaultKind::BadNumber, Need::Whole));
        };
        match number::whole(word) {
            Ok(whole) => {
                self.skip();
                Ok(whole)
            }
            Err(fault) => Err(self.need(FaultKind::from(fault), Need::Whole)),
        }
    }

    /// Reads a length in microns. Another word is `BadNumber`, or `TooLarge` beyond the limit.
    #[tactic(auto, unfolding(crate::specs::Words::length_at))]
    pub fn length(&mut self) -> Result<Micron, ReadFault>
        ensures reads { Reads (λ m. m) result self.new (length_at self.old) }
        ensures no_memory { IfErr result (λ fault. fault.kind ≢ FaultKind.Memory) }
    {
        let Some(word) = self.next() else {
            return Err(self.cut_short(FaultKind::BadNumber, Need::Length));
        };
        match number::micron(word) {
            Ok(micron) => {
                self.skip();
                Ok(micron)
            }
            Err(fault) => Err(self.need(FaultKind::from(fault), Need::Length)),
        }
    }

    /// Reads `END` and this keyword. Another word is `Unexpected`.
    #[tactic(auto, unfolding(crate::specs::Words::end_at))]
    pub fn end(&mut self, keyword: &[u8]) -> Result<(), ReadFault>
        ensures reads { Reads (λ x. x) result self.new (end_at keyword.now self.old) }
        ensures no_memory { IfErr result (λ fault. fault.kind ≢ FaultKind.Memory) }
    {
        self.keyword(b"END")?;
        self.keyword(keyword)
    }

    /// Reads `END` and this name. Another word is `Unexpected`.
    #[tactic(auto, unfolding(crate::specs::Words::end_of, crate::specs::Words::name_at))]
    pub fn end_of(&mut self, name: &[u8]) -> Result<(), ReadFault>
        ensures reads { Reads (λ x. x) result self.new (end_of name.now self.old) }
        ensures no_memory { IfErr result (λ fault. fault.kind ≢ FaultKind.Memory) }
    {
        self.keyword(b"END")?;
        let Some(word) = self.next() else {
            return Err(self.cut_short(FaultKind::Unexpected, Need::FormName));
        };
        if word != name || !word::is_name(word) {
            return Err(self.need(FaultKind::Unexpected, Need::FormName));
        }
        self.skip();
        Ok(())
    }

    /// Sees that no word is left. A word is `Unexpected`.
    #[tactic(auto, unfolding(crate::specs::Words::nothing_at))]
    pub fn nothing_more(&self) -> Result<(), ReadFault>
        ensures means { Means (λ x. x) result (nothing_at self.now) }
        ensures no_memory { IfErr result (λ fault. fault.kind ≢ FaultKind.Memory) }
    {
        if self.is_at_end() {
            Ok(())
        } else {
            Err(self.need(FaultKind::Unexpected, Need::Nothing))
        }
    }

    /// Reads a statement: the words up to the next semicolon, and the semicolon, which isn't answered.
    #[tactic(auto, unfolding(crate::specs::Statements::statement_at))]
    pub fn statement(&mut self) -> Result<Cursor<'t, 'a>, ReadFault>
        ensures reads { Reads (λ statement. statement) result self.new (statement_at self.old) }
        ensures no_memory { IfErr result (λ fault. fault.kind ≢ FaultKind.Memory) }
    {
        match self.up_to(b';') {
            Some(statement) => Ok(statement),
            None => Err(self.cut_short(FaultKind::Unexpected, Need::Mark(b';'))),
        }
    }

    // Reads the words up to the next such mark, and the mark, which isn't answered. Without such a mark
    // it reads nothing.
    pub(crate) fn up_to(&mut self, mark: u8) -> Option<Cursor<'t, 'a>>
        ensures { MatchOption result
            ((up_to (λ word. bytes_eq word (mark ∷ [])) self.old ≡ None) × (self.new ≡ self.old))
            (λ front. up_to (λ word. bytes_eq word (mark ∷ [])) self.old ≡ Some (front, self.new)) }
    {
        let words = self.rest;
        let end = place_of_mark(mark, self.text, words)?;
        let front = Cursor {
            text: self.text,
            rest: &words[..end],
            file: self.file,
            is_closed: true,
            last: Some(&words[end]),
        };
        self.rest = &words[end + 1..];
        Some(front)
    }

    /// Reads the statements of a block, up to the word `END` in a statement's place.
    #[tactic(auto, using(crate::proofs::Until::ends, crate::proofs::Until::goes_on, crate::proofs::Until::fails, crate::proofs::Statements::one_shortens, crate::proofs::Statements::statement_shorter), unfolding(crate::specs::Statements::statements_at, crate::specs::Statements::one_statement))]
    pub fn statements<A: Allocator + Copy>(
        &mut self,
        alloc: A,
    ) -> Result<Vec<Cursor<'t, 'a>, A>, ReadFault>
        ensures { Reads (λ v. v.items) result self.new (statements_at self.old) }
    {
        let mut statements = Vec::new(alloc);
        'statements: while !self.is_at(b"END") {
            statements.push(self.statement()?)?;
        }
        Ok(statements)
    }
}

// Where the first such mark is among the words at these places of the text.
#[tactic(auto, using(crate::proofs::Marks::cut_there))]
fn place_of_mark(mark: u8, text: &[u8], words: &[WordPlace]) -> Option<usize>
    requires { All (IsPlaceIn text.now) words.now }
    ensures { MatchOption result
        (up_to (λ word. bytes_eq word (mark ∷ [])) (map (bytes_at text.now) words.now) ≡ None)
        (λ end. (end < length words.now)
        × (up_to (λ word. bytes_eq word (mark ∷ [])) (map (bytes_at text.now) words.now)
        ≡ Some (map (bytes_at text.now) (take end words.now), map (bytes_at text.now) (drop (end + 1) words.now)))) }
{
    for (i, place) in words.iter().enumerate() {
        if bytes_at(text, place) == [mark].as_slice() {
            return Some(i);
        }
    }
    None
}

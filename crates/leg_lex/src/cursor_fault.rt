//! Faults at the words that are left to read.

ghost use Rattle.std.specs.Prelude.{◌≡◌, ◌≢◌};

use crate::cursor::Cursor;
use crate::read_fault::{FaultKind, Keyword, Need, ReadFault};
use crate::word_place::WordPlace;

/// A place in a text, at which a fault may be: a word of it, if it has words.
#[derive(Clone, Copy)]
pub struct FaultPlace<'t> {
    file: u32,
    word: Option<&'t WordPlace>,
}

impl<'t> FaultPlace<'t> {
    /// A fault there.
    pub fn fault(&self, kind: FaultKind) -> ReadFault
        ensures { result.kind ≡ kind }
    {
        self.need(kind, Need::OfKind)
    }

    /// The same, where this is needed.
    pub fn need(&self, kind: FaultKind, need: Need) -> ReadFault
        ensures { result.kind ≡ kind }
    {
        let place = match self.word {
            Some(word) => *word,
            None => NO_WORD,
        };
        ReadFault {
            file: self.file,
            line: place.line,
            start: place.start,
            end: place.end,
            kind,
            need,
        }
    }
}

// The place in a text that has no word.
const NO_WORD: WordPlace = WordPlace {
    start: 0,
    end: 0,
    line: 1,
};

impl<'t, 'a> Cursor<'t, 'a> {
    /// Where the next word is; where no word is left, where the mark that ends the words is, or else the text's last word.
    pub fn place(&self) -> FaultPlace<'t> {
        let word = match self.rest {
            [next, ..] => Some(next),
            [] => self.last,
        };
        FaultPlace {
            file: self.file,
            word,
        }
    }

    /// A fault at this place.
    pub fn fault(&self, kind: FaultKind) -> ReadFault
        ensures { result.kind ≡ kind }
    {
        self.place().fault(kind)
    }

    /// The same, where this is needed.
    #[cold]
    #[inline(never)]
    pub fn need(&self, kind: FaultKind, need: Need) -> ReadFault
        ensures { result.kind ≡ kind }
    {
        self.place().need(kind, need)
    }

    /// The same fault of one of these words; where the name of an entry `- NAME` is that of an entry before, with the line of the first
    /// one.
    pub fn with_first_entry(&self, fault: ReadFault) -> ReadFault
        ensures { result.kind ≡ fault.kind }
    {
        let Need::New(kind) = fault.need else {
            return fault;
        };
        match first_entry(self.text, self.rest, &fault) {
            Some(line) => fault.needs(Need::NewSince(kind, line)),
            None => fault,
        }
    }

    // The fault of words that end too early. Where a mark ends them, it is in the place of what is needed. Where the text ends behind a
    // whole statement, the `END` of what that belongs to is needed.
    #[cold]
    #[inline(never)]
    pub(crate) fn cut_short(&self, in_place: FaultKind, need: Need) -> ReadFault
        requires { in_place ≢ FaultKind.Memory }
        ensures { result.kind ≢ FaultKind.Memory }
    {
        let (kind, need) = if self.is_closed {
            (in_place, need)
        } else if self.is_behind_a_statement() {
            let need = Need::Keyword(Keyword::new(b"END"));
            (FaultKind::UnexpectedEnd, need)
        } else {
            (FaultKind::UnexpectedEnd, need)
        };
        let end = FaultPlace {
            file: self.file,
            word: self.last,
        };
        end.need(kind, need)
    }

    // Whether the text ends with a semicolon.
    fn is_behind_a_statement(&self) -> bool {
        match self.last {
            Some(last) => is_there(self.text, last, b";"),
            None => false,
        }
    }
}

// The line of the first entry whose name is the word at fault, of the entries that begin with the first of these words, if that entry
// isn't the one at fault.
fn first_entry(text: &[u8], words: &[WordPlace], fault: &ReadFault) -> Option<u32> {
    let name = text.get(fault.start as usize..fault.end as usize)?;
    let named = match words {
        [dash, named, ..] if begins_entry(text, dash, named, name) => named,
        _ => name_behind_an_entry(text, words, name)?,
    };
    if named.start < fault.start {
        Some(named.line)
    } else {
        None
    }
}

// The first of these words that is the name of an entry and this one, of the entries behind another: a `;` ends each.
fn name_behind_an_entry<'w>(
    text: &[u8],
    words: &'w [WordPlace],
    name: &[u8],
) -> Option<&'w WordPlace> {
    let end = words.windows(3).position(|three| match three {
        [end, dash, named] => { is_there(text, end, b";") && begins_entry(text, dash, named, name) }
        _ => false,
    })?;
    words.get(end + 2)
}

// Whether these two words are those that an entry of this name begins with.
fn begins_entry(text: &[u8], dash: &WordPlace, named: &WordPlace, name: &[u8]) -> bool {
    is_there(text, dash, b"-") && is_there(text, named, name)
}

// Whether the word at this place of the text is this one.
fn is_there(text: &[u8], place: &WordPlace, word: &[u8]) -> bool {
    match text.get(place.start as usize..place.end as usize) {
        Some(bytes) => bytes == word,
        None => false,
    }
}

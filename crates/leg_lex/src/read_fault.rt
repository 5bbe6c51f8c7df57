//! Why a LEF or DEF text is refused.

ghost use Rattle.std.specs.Prelude.{◌≡◌, ◌≢◌, ◌↔◌, take};
ghost use Rattle.leg_lex.specs.declared.read_fault.FaultKind.TheVariants.{Memory};
ghost use Rattle.leg_lex.specs.Keyword.{keyword_text};

use crate::fault::{LexFault, NumFault};
use std::alloc::{AllocError, AllocFailed};
use thiserror::Error;

/// What is wrong at the word.
#[derive(Clone, Copy, PartialEq, Eq, Debug, Error)]
pub enum FaultKind {
    /// A quoted word without end.
    #[error("a quoted word without end")]
    UnclosedString,
    /// The text ends inside a form, or has no `UNITS`.
    #[error("the text ends inside a form")]
    UnexpectedEnd,
    /// A word that no form allows there.
    #[error("a word that no form allows there")]
    Unexpected,
    /// Not a number of the form.
    #[error("not a number of the form")]
    BadNumber,
    /// A number outside its limits, or a text that is too long.
    #[error("a number outside its limits")]
    TooLarge,
    /// A rectangle or a size without area.
    #[error("a rectangle or size without area")]
    EmptyRect,
    /// A name that was not read before.
    #[error("a name that was not read before")]
    UnknownName,
    /// A second definition.
    #[error("a second definition")]
    DuplicateName,
    /// A form that is left out by name.
    #[error("a form that is not supported")]
    Unsupported,
    /// A wire that is neither horizontal nor vertical.
    #[error("a wire that is neither horizontal nor vertical")]
    Diagonal,
    /// A via that hasn't the path's layer.
    #[error("a via that has not the layer of the path")]
    ViaLayer,
    /// A terminal in two nets.
    #[error("a terminal in two nets")]
    PinTwice,
    /// A count over its limit.
    #[error("a count over its limit")]
    TooMany,
    /// A row outside the profile.
    #[error("a row outside the profile")]
    BadRow,
    /// A via that isn't good is used.
    #[error("a via that is not good")]
    BadVia,
    /// An odd special wire width.
    #[error("an odd special wire width")]
    OddWidth,
    /// An allocation failed.
    #[error("out of memory")]
    Memory,
}

/// What names are of.
#[derive(Clone, Copy, PartialEq, Eq, Debug)]
pub enum NameKind {
    /// A layer of the LEFs.
    Layer,
    /// A site of the LEFs.
    Site,
    /// A macro of the LEFs.
    Macro,
    /// A via, of the LEFs or of `VIAS`.
    Via,
    /// A component.
    Component,
    /// A pin of the block.
    Pin,
    /// A pin of a macro.
    MacroPin,
    /// An entry of `NETS` or of `SPECIALNETS`.
    Net,
    /// A nondefault rule, of the LEFs or of `NONDEFAULTRULES`.
    Rule,
}

/// What has a limit in number.
#[derive(Clone, Copy, PartialEq, Eq, Debug)]
pub enum Entry {
    /// Components.
    Component,
    /// Pins of the block.
    Pin,
    /// Entries of `NETS` and `SPECIALNETS` together.
    Net,
    /// Terminals of nets, or wires.
    NetPart,
    /// Blockages, or their rectangles.
    Blockage,
}

/// How many bytes of a keyword are kept.
const KEPT: usize = 16;

/// A keyword, or its first 16 bytes: it is copied, so that a fault refers to nothing.
#[derive(Clone, Copy, PartialEq, Eq, Debug)]
pub struct Keyword {
    bytes: [u8; KEPT],
    len: u8,
}

impl Keyword {
    /// The keyword of these bytes.
    pub fn new(keyword: &[u8]) -> Keyword
        ensures { keyword_text result ≡ take 16 keyword.now }
    {
        let len = keyword.len().min(KEPT);
        let mut bytes = [0; KEPT];
        bytes[..len].copy_from_slice(&keyword[..len]);
        Keyword {
            bytes,
            len: len as u8,
        }
    }

    /// Its bytes.
    pub fn bytes(&self) -> &[u8]
        ensures { result.now ≡ keyword_text self.now }
    {
        &self.bytes[..(self.len as usize).min(KEPT)]
    }
}

/// What is needed in the place of the word at fault.
#[derive(Clone, Copy, PartialEq, Eq, Debug)]
pub enum Need {
    /// What the kind of the fault says.
    OfKind,
    /// This keyword.
    Keyword(Keyword),
    /// This mark of one byte.
    Mark(u8),
    /// A word.
    AnyWord,
    /// A name.
    Name,
    /// A name or a quoted word.
    Word,
    /// The name of the form that ends.
    FormName,
    /// A whole number.
    Whole,
    /// A length in microns.
    Length,
    /// No word: a statement ends there.
    Nothing,
    /// The beginning of a form.
    Form,
    /// A statement of this keyword, which the form that ends there lacks.
    Statement(Keyword),
    /// No second one of these.
    NoSecond,
    /// A direction: `HORIZONTAL` or `VERTICAL`.
    Direction,
    /// One of the eight orientations.
    Orient,
    /// A layer on which wires run.
    RoutingLayer,
    /// A number of the units that are those of the library.
    SameUnits,
    /// A name that is defined before.
    Known(NameKind),
    /// A pin of the macro of this number.
    KnownPin(usize),
    /// A name that is not defined before.
    New(NameKind),
    /// The same of a name that this line of the text defines.
    NewSince(NameKind, u32),
    /// The same of a name that the text of this number defines, in this line.
    NewSinceText(NameKind, u32, u32),
    /// A number that is not below this one.
    AtLeast(u32),
    /// A length above 0.
    AboveZero,
    /// A number of units to the micron.
    Units,
    /// A last site or track within the limit of numbers.
    EndInRange,
    /// No more of these.
    Fewer(Entry),
    /// One line of sites: `BY 1`.
    OneLine,
    /// The width of the site, which is this, as the step in x.
    SiteStep(i64),
    /// An orientation of rows.
    RowOrient,
    /// A rectangle without a mask.
    NoMask,
    /// A site without a pattern behind its name.
    PlainSite,
    /// A die of two corners, or of four that go round a rectangle.
    PlainDie,
}

/// Why a text is refused, and where.
#[derive(Clone, Copy, PartialEq, Eq, Debug, Error)]
#[error("file {file}, line {line}: {kind}")]
pub struct ReadFault {
    /// The text: LEFs count from 0 in turn, and the DEF is next.
    pub file: u32,
    /// The line of the word at fault, from 1; of the last word where the text ends too early.
    pub line: u32,
    /// Where this word begins: so many bytes of the text are before it.
    pub start: u32,
    /// How many bytes of the text are before its end; none where no word is at fault.
    pub end: u32,
    /// What is wrong.
    pub kind: FaultKind,
    /// What is needed there.
    pub need: Need,
}

impl ReadFault {
    // A failed allocation has no place in a text: it is reported at the first line of the first one.
    const OUT_OF_MEMORY: ReadFault = ReadFault {
        file: 0,
        line: 1,
        start: 0,
        end: 0,
        kind: FaultKind::Memory,
        need: Need::OfKind,
    };

    /// A fault at the same word, where this is wrong.
    pub fn of_kind(self, kind: FaultKind) -> ReadFault
        ensures { result.kind ≡ kind }
    {
        ReadFault {
            kind,
            need: Need::OfKind,
            ..self
        }
    }

    /// The same fault, where this is needed.
    pub fn needs(self, need: Need) -> ReadFault
        ensures { result.kind ≡ self.kind }
    {
        ReadFault { need, ..self }
    }

    /// The fault of the text of this number that has no words.
    pub fn of_text(file: u32, fault: LexFault) -> ReadFault
        ensures { (result.kind ≡ Memory) ↔ (fault ≡ LexFault.Memory) }
    {
        let (line, kind) = match fault {
            LexFault::UnclosedString(line) => (line, FaultKind::UnclosedString),
            LexFault::TooLong => (1, FaultKind::TooLarge),
            LexFault::Memory => (1, FaultKind::Memory),
        };
        ReadFault {
            file,
            line,
            start: 0,
            end: 0,
            kind,
            need: Need::OfKind,
        }
    }
}

impl From<NumFault> for FaultKind {
    ghost from_gives = { λ _ kind. kind ≢ Memory };

    fn from(fault: NumFault) -> FaultKind {
        match fault {
            NumFault::BadNumber | NumFault::NotOnUnit => FaultKind::BadNumber,
            NumFault::TooLarge => FaultKind::TooLarge,
        }
    }
}

impl From<AllocError> for ReadFault {
    ghost from_gives = { λ _ fault. fault.kind ≡ Memory };

    fn from(_refused: AllocError) -> ReadFault {
        ReadFault::OUT_OF_MEMORY
    }
}

impl<T: Drop> From<AllocFailed<T>> for ReadFault {
    ghost from_gives = { λ _ fault. fault.kind ≡ Memory };

    fn from(_refused: AllocFailed<T>) -> ReadFault {
        ReadFault::OUT_OF_MEMORY
    }
}

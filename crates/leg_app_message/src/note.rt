//! What a text seems to be that is no LEF or DEF, or the other one of the two.

ghost use Rattle.std.specs.Prelude.{◌≡◌};
ghost use Rattle.leg_app_message.specs.Note.{note_line, hides_line};
ghost use Rattle.leg_app_message.specs.Steps.Signatures.{signature_note};

use leg_lex::{FaultKind, ReadFault, TEXT_LIMIT, is_keyword, is_white};
use memchr::memchr;

/// One of the two formats.
#[derive(Clone, Copy)]
enum Format {
    Lef,
    Def,
}

/// What a refused text seems to be.
#[derive(Clone, Copy)]
pub(crate) enum Note {
    /// Nothing but white space.
    Empty,
    /// Compressed by gzip.
    Gzip,
    /// Begun by a byte order mark of UTF-8.
    Utf8Mark,
    /// Begun by a byte order mark of UTF-16.
    Utf16Mark,
    /// A program or an object file.
    Elf,
    /// Some other file that is no text.
    Binary,
    /// A LEF where a DEF is needed.
    LefForDef,
    /// A DEF where a LEF is needed.
    DefForLef,
    /// A DEF in which the word `UNITS` isn't found.
    NoUnits,
    /// A text whose last word is the one at fault.
    LastWord,
    /// A text that names what is not known, after a LEF that has nothing but white space.
    EmptyLef,
    /// A text that is too long.
    TooLong,
}

/// The line of a note, after the message on the fault.
pub(crate) fn note_line(note: Option<Note>) -> &'static [u8]
    ensures { result.now ≡ note_line note }
{
    match note {
        None => b"",
        Some(Note::Empty) => b"note: the text is empty, or has only white space\n",
        Some(Note::Gzip) => b"note: the text is compressed: unpack it first, with gunzip\n",
        Some(Note::Utf8Mark) =>
            b"note: the text begins with a byte order mark: save it without one\n",
        Some(Note::Utf16Mark) =>
            b"note: the text is UTF-16: save it as ASCII, or as UTF-8 without a byte order mark\n",
        Some(Note::Elf) => b"note: this is a program or an object file (ELF), and no text\n",
        Some(Note::Binary) => b"note: this is no text: it has a byte 0\n",
        Some(Note::LefForDef) =>
            b"note: this looks like a LEF, and a DEF is expected here (of files the DEF is named first; on standard input the LEF comes first)\n",
        Some(Note::DefForLef) =>
            b"note: this looks like a DEF, and a LEF is expected here (of files the DEF is named first; on standard input the LEF comes first)\n",
        Some(Note::NoUnits) =>
            b"note: a DEF needs UNITS DISTANCE MICRONS n ; and this one has no UNITS\n",
        Some(Note::LastWord) => b"note: the text ends with this word: has it been cut?\n",
        Some(Note::EmptyLef) => b"note: a LEF that is given is empty, or has only white space\n",
        Some(Note::TooLong) => b"",
    }
}

/// Whether no line is shown: of a file that is no text, of an empty one, or of one that is too long.
pub(crate) fn hides_line(note: Option<Note>) -> bool
    ensures { result ≡ hides_line note }
{
    matches!(
        note,
        Some(Note::Empty | Note::Gzip | Note::Utf16Mark | Note::Elf | Note::Binary | Note::TooLong)
    )
}

/// What a refused text seems to be, which has to be a LEF or else a DEF; none where it may be that.
pub(crate) fn note_of(text: &[u8], is_lef: bool, kind: FaultKind) -> Option<Note> {
    if text.len() as u64 > TEXT_LIMIT {
        return Some(Note::TooLong);
    }
    let Some(start) = text.iter().position(|byte| !is_white(*byte)) else {
        return Some(Note::Empty);
    };
    if let Some(note) = signature_note(&text[start..]) {
        return Some(note);
    }
    if memchr(0, text).is_some() {
        return Some(Note::Binary);
    }
    match (is_lef, format_of(text)) {
        (true, Some(Format::Def)) => Some(Note::DefForLef),
        (false, Some(Format::Lef)) => Some(Note::LefForDef),
        (false, _) if kind == FaultKind::UnexpectedEnd && !has_units(text) => Some(Note::NoUnits),
        _ => None,
    }
}

/// That the word at fault is the last one of the text, where the kind of the fault does not say so.
pub(crate) fn last_word_note(text: &[u8], fault: &ReadFault) -> Option<Note> {
    if fault.kind == FaultKind::UnexpectedEnd || fault.end == 0 {
        return None;
    }
    let rest = text.get(fault.end as usize..)?;
    if rest.iter().all(|byte| is_white(*byte)) {
        Some(Note::LastWord)
    } else {
        None
    }
}

/// That one of the LEFs has nothing but white space, where a name is not known.
pub(crate) fn empty_lef_note(lefs: &[&[u8]], fault: &ReadFault) -> Option<Note> {
    if fault.kind == FaultKind::UnknownName && lefs.iter().any(|lef| has_no_word(lef)) {
        Some(Note::EmptyLef)
    } else {
        None
    }
}

/// Whether the text has nothing but white space.
fn has_no_word(text: &[u8]) -> bool {
    text.iter().all(|byte| is_white(*byte))
}

/// What the first bytes of a file say that isn't plain text.
fn signature_note(text: &[u8]) -> Option<Note>
    ensures { result ≡ signature_note text.now }
{
    match text {
        [0x1f, 0x8b, ..] => Some(Note::Gzip),
        [0xef, 0xbb, 0xbf, ..] => Some(Note::Utf8Mark),
        [0xff, 0xfe, ..] | [0xfe, 0xff, ..] => Some(Note::Utf16Mark),
        [0x7f, b'E', b'L', b'F', ..] => Some(Note::Elf),
        _ => None,
    }
}

/// What the text seems to be, by the first line that begins with a word of one of the two alone.
fn format_of(text: &[u8]) -> Option<Format> {
    text.split(|byte| *byte == b'\n').find_map(format_of_line)
}

fn format_of_line(line: &[u8]) -> Option<Format> {
    let word = line
        .split(|byte| is_white(*byte))
        .find(|word| !word.is_empty())?;
    if is_keyword(b"DESIGN", word) || is_keyword(b"DIEAREA", word) {
        Some(Format::Def)
    } else if is_keyword(b"LAYER", word) || is_keyword(b"MACRO", word) {
        Some(Format::Lef)
    } else {
        None
    }
}

/// Whether the word `UNITS` is found anywhere in the text.
fn has_units(text: &[u8]) -> bool {
    text.windows(5).any(|word| is_keyword(b"UNITS", word))
}

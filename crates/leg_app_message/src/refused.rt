//! The message on a line of a text.

ghost use Rattle.std.specs.Prelude.{◌≡◌, ◌<◌, ◌^◌, ◌++◌, Option, IfOk, OnOk, nat_lt, length};
ghost use Rattle.leg_app_message.specs.Remedy.{advice_on};
ghost use Rattle.leg_app_message.specs.declared.note.Note.{Note};
ghost use Rattle.leg_app_message.specs.Message.{place_text, word_place_text, fault_place, fault_message, line_message, reason_of, marked_line, word_of};

use crate::note::{Note, empty_lef_note, hides_line, last_word_note, note_line, note_of};
use crate::remedy::advice_on;
use crate::sentence::{after_of, before_of, push_need};
use crate::text_line::{column_of, line_of, push_mark, push_shown, push_word, word_at};
use crate::texts::Texts;
use leg_lex::{ReadFault, TEXT_LIMIT};
use leg_lib_records::Items;
use leg_print_words::{push_count, push_parts};
use std::alloc::{AllocError, Allocator};

/// The message on a text that is refused so, where a pin of this macro may be needed: where and why, the line with the word at fault, and
/// what the text seems to be.
pub(crate) fn refused_message<A: Allocator + Copy, B: Allocator>(
    alloc: A,
    texts: &Texts<'_>,
    fault: &ReadFault,
    master: &Option<Items<u8, B>>,
) -> Result<Vec<u8, A>, AllocError>
    ensures { IfOk result (λ m. (note : Option Note) × (m.items ≡ fault_message texts.now fault.now master.now note)) }
{
    let note = note_on(texts, fault.file as usize, fault);
    fault_message(alloc, texts, fault, master, note)
}

/// What the text of this number seems to be, which is refused so.
fn note_on(texts: &Texts<'_>, number: usize, fault: &ReadFault) -> Option<Note> {
    let text = texts.text(number);
    note_of(text, number < texts.def_number(), fault.kind)
        .or(last_word_note(text, fault))
        .or(empty_lef_note(texts.lefs, fault))
}

/// The message on this fault, with this note.
fn fault_message<A: Allocator + Copy, B: Allocator>(
    alloc: A,
    texts: &Texts<'_>,
    fault: &ReadFault,
    master: &Option<Items<u8, B>>,
    note: Option<Note>,
) -> Result<Vec<u8, A>, AllocError>
    ensures { IfOk result (λ m. m.items ≡ fault_message texts.now fault.now master.now note) }
{
    let number = fault.file as usize;
    let text = texts.text(number);
    let mut message = Vec::new(alloc);
    push_fault_place(&mut message, texts, number, fault)?;
    push_reason(&mut message, texts, text, fault, master)?;
    message.extend_from_slice(b"\n")?;
    if !hides_line(note) {
        push_marked_line(&mut message, text, fault)?;
    }
    message.extend_from_slice(note_line(note))?;
    Ok(message)
}

/// The message on this line of the text of this number.
pub(crate) fn line_message<A: Allocator + Copy>(
    alloc: A,
    texts: &Texts<'_>,
    number: usize,
    line: u32,
    reason: &[u8],
    note: Option<Note>,
) -> Result<Vec<u8, A>, AllocError>
    ensures { IfOk result (λ m. m.items ≡ line_message texts.now number line reason.now note) }
{
    let mut message = Vec::new(alloc);
    push_place(&mut message, texts, number, line)?;
    push_parts(&mut message, &[reason, b"\n"])?;
    if !hides_line(note) {
        push_shown(&mut message, line_of(texts.text(number), line))?;
    }
    message.extend_from_slice(note_line(note))?;
    Ok(message)
}

/// Adds where a message points: the file and the line, and the part of standard input.
pub(crate) fn push_place<A: Allocator>(
    message: &mut Vec<u8, A>,
    texts: &Texts<'_>,
    number: usize,
    line: u32,
) -> Result<(), AllocError>
    ensures { OnOk result (message.new.items ≡ message.old.items ++ place_text texts.now number line) }
{
    push_parts(message, &[texts.path(number), b":"])?;
    push_count(message, u64::from(line))?;
    push_parts(message, &[b": ", texts.part(number)])
}

/// Adds the same, with the column of a word that comes after so many bytes of its line.
fn push_word_place<A: Allocator>(
    message: &mut Vec<u8, A>,
    texts: &Texts<'_>,
    number: usize,
    line: u32,
    column: usize,
) -> Result<(), AllocError>
    requires { column < 2 ^ 63 }
    ensures { OnOk result (message.new.items ≡ message.old.items ++ word_place_text texts.now number line column) }
{
    push_parts(message, &[texts.path(number), b":"])?;
    push_count(message, u64::from(line))?;
    message.extend_from_slice(b":")?;
    push_count(message, (column + 1) as u64)?;
    push_parts(message, &[b": ", texts.part(number)])
}

/// The word at fault.
fn word_of<'a>(text: &'a [u8], fault: &ReadFault) -> &'a [u8]
    ensures { result.now ≡ word_of text.now fault.now }
{
    word_at(text, fault.start as usize, fault.end as usize)
}

/// Adds where the word at fault is; the line alone where no word is.
fn push_fault_place<A: Allocator>(
    message: &mut Vec<u8, A>,
    texts: &Texts<'_>,
    number: usize,
    fault: &ReadFault,
) -> Result<(), AllocError>
    ensures { OnOk result (message.new.items ≡ message.old.items ++ fault_place texts.now number fault.now) }
{
    let text = texts.text(number);
    if word_of(text, fault).is_empty() {
        push_place(message, texts, number, fault.line)
    } else {
        let column = column_of(text, fault.start as usize);
        push_word_place(message, texts, number, fault.line, column)
    }
}

/// What to do about a fault, by the word at fault.
fn fault_advice(texts: &Texts<'_>, fault: &ReadFault, word: &[u8]) -> &'static [u8]
    ensures { result.now ≡ advice_on texts.now.profile fault.now.kind fault.now.need (nat_lt fault.now.file (length texts.now.lefs)) word.now }
{
    let is_lef = (fault.file as usize) < texts.def_number();
    advice_on(texts.profile, fault.kind, fault.need, is_lef, word)
}

/// Adds why the text is refused.
fn push_reason<A: Allocator, B: Allocator>(
    message: &mut Vec<u8, A>,
    texts: &Texts<'_>,
    text: &[u8],
    fault: &ReadFault,
    master: &Option<Items<u8, B>>,
) -> Result<(), AllocError>
    ensures { OnOk result (message.new.items ≡ message.old.items ++ reason_of texts.now text.now fault.now master.now) }
{
    if text.len() as u64 > TEXT_LIMIT {
        return message.extend_from_slice(b"the text is longer than 268,435,456 bytes");
    }
    let word = word_of(text, fault);
    message.extend_from_slice(before_of(fault.kind, word))?;
    push_word(message, word)?;
    message.extend_from_slice(after_of(fault.kind))?;
    push_need(message, texts, fault.need, master, word)?;
    message.extend_from_slice(fault_advice(texts, fault, word))
}

/// Adds the line at fault, and below it a mark under the word.
fn push_marked_line<A: Allocator>(
    message: &mut Vec<u8, A>,
    text: &[u8],
    fault: &ReadFault,
) -> Result<(), AllocError>
    ensures { OnOk result (message.new.items ≡ message.old.items ++ marked_line text.now fault.now) }
{
    push_shown(message, line_of(text, fault.line))?;
    let count = word_of(text, fault).len();
    push_mark(message, column_of(text, fault.start as usize), count)
}

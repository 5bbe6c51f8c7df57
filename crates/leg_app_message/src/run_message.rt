//! The message on a run that has refused its texts, or has no design.

ghost use Rattle.std.specs.Prelude.{◌≡◌, Option, IfOk};
ghost use Rattle.leg_app_message.specs.declared.note.Note.{Note};
ghost use Rattle.leg_app_message.specs.Message.{advice_message, line_message, no_library_reason, stream_texts, IsMessage, IsStreamMessage};

use crate::advice::push_advice;
use crate::note::note_of;
use crate::refused::{line_message, refused_message};
use crate::scaling::scale_message;
use crate::texts::Texts;
use leg_app_input::split_stream;
use leg_app_reason::Reason;
use leg_grammar::Profile;
use leg_lex::FaultKind;
use std::alloc::{AllocError, Allocator};

/// The message on a run over these texts that stopped for this reason.
///
/// A text that isn't read is shown at its fault. A length of a LEF that isn't one in the DEF's units is looked for in the words of its
/// form: where none is found, and where memory runs out as they are gone through, what has it is named without its line.
pub fn message<A: Allocator + Copy, B: Allocator>(
    alloc: A,
    texts: &Texts<'_>,
    reason: &Reason<'_, B>,
) -> Result<Vec<u8, A>, AllocError>
    ensures { IfOk result (λ m. IsMessage texts.now reason.now m.items) }
{
    match reason {
        Reason::Read(fault, master) => refused_message(alloc, texts, fault, master),
        Reason::NoLibrary => no_library_message(alloc, texts),
        Reason::Scale(fault, units) => scale_message(alloc, texts, fault, *units),
        Reason::TooMany => advice_message(alloc, texts, reason),
        Reason::FixedIllegal => advice_message(alloc, texts, reason),
        Reason::NoSite(_) => advice_message(alloc, texts, reason),
        Reason::NoRoom(_) => advice_message(alloc, texts, reason),
        Reason::NotClean(_) => advice_message(alloc, texts, reason),
        Reason::GridTooLarge(_) => advice_message(alloc, texts, reason),
        Reason::Unroutable(_, _) => advice_message(alloc, texts, reason),
        Reason::Unreachable(_, _) => advice_message(alloc, texts, reason),
        Reason::Unfinished => advice_message(alloc, texts, reason),
    }
}

/// The message on standard input in which no LEF ends, so that all of it is taken as the LEF.
fn no_library_message<A: Allocator + Copy>(
    alloc: A,
    texts: &Texts<'_>,
) -> Result<Vec<u8, A>, AllocError>
    ensures { IfOk result (λ m. (note : Option Note) × (m.items ≡ line_message texts.now 0 1 no_library_reason note)) }
{
    let reason = b"no END LIBRARY, with which the LEF ends: the DEF comes after it";
    let note = note_of(texts.text(0), true, FaultKind::UnexpectedEnd);
    line_message(alloc, texts, 0, 1, reason, note)
}

/// What to do where a run has no design.
fn advice_message<A: Allocator + Copy, B: Allocator>(
    alloc: A,
    texts: &Texts<'_>,
    reason: &Reason<'_, B>,
) -> Result<Vec<u8, A>, AllocError>
    ensures { IfOk result (λ m. m.items ≡ advice_message texts.now reason.now) }
{
    let mut message = Vec::new(alloc);
    message.extend_from_slice(texts.path(texts.def_number()))?;
    message.extend_from_slice(b": ")?;
    push_advice(&mut message, reason)?;
    message.extend_from_slice(b"\n")?;
    Ok(message)
}

/// The message on a run over standard input, which is read in the narrow profile, that stopped for this reason.
pub fn stream_message<A: Allocator + Copy, B: Allocator>(
    alloc: A,
    stream: &[u8],
    reason: &Reason<'_, B>,
) -> Result<Vec<u8, A>, AllocError>
    ensures { IfOk result (λ m. IsStreamMessage stream.now reason.now m.items) }
{
    match split_stream(stream) {
        Some((lef, def)) => parts_message(alloc, lef, def, reason),
        None => parts_message(alloc, stream, b"", reason),
    }
}

/// The message on standard input of this LEF and this DEF.
fn parts_message<A: Allocator + Copy, B: Allocator>(
    alloc: A,
    lef: &[u8],
    def: &[u8],
    reason: &Reason<'_, B>,
) -> Result<Vec<u8, A>, AllocError>
    ensures { IfOk result (λ m. IsMessage (stream_texts lef.now def.now) reason.now m.items) }
{
    let texts = Texts {
        profile: Profile::Narrow,
        paths: None,
        lefs: &[lef],
        def,
    };
    message(alloc, &texts, reason)
}

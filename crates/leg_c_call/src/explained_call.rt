//! A command on what the caller lends, with the message on its answer.

ghost use Rattle.std.specs.Prelude.{◌≡◌, map, option_map, IfSome, IfNone};
ghost use Rattle.leg_app.specs.declared.end.Halt.TheVariants.{Usage};
ghost use Rattle.leg_app.specs.End.{halt_code};
ghost use Rattle.leg_c_call.specs.Call.{request_of};
ghost use Rattle.leg_c_call.specs.Explanation.{named_texts, said, HasMessage, AnswersExplained};

use crate::lent_call::{NO_MEMORY, give, give_text};
use crate::number::request_of;
use leg_app::{Halt, Reason, Status, answer_to_as};
use leg_app_input::Command;
use leg_app_message::{Paths, Texts, message};
use leg_c_memory::{LentHeap, Memory};
use std::alloc::Allocator;

/// Answers as `call` does, and gives with the answer the message that the program writes on standard error, where the files of the texts
/// have these names. As much of the message as fits is in `message`, from its first byte on, and its length in bytes in
/// `message_length`; what `message` has beyond it stays. The message is empty where a design, a list or a length is printed, and where
/// memory ran out as it was made.
pub fn call_explained(
    memory: Memory,
    command: u32,
    lef_names: &[&[u8]],
    def_name: &[u8],
    lefs: &[&[u8]],
    def: &[u8],
    out: &mut [u8],
    length: &mut usize,
    message: &mut [u8],
    message_length: &mut usize,
) -> u32
    ensures answer { IfSome (request_of command) (λ asked.
        AnswersExplained asked.0 (named_texts asked.1 (map (λ n. n.now) lef_names.now) def_name.now (map (λ t. t.now) lefs.now) def.now)
        out.old out.new length.new result message.old message.new message_length.new) }
    ensures unknown { IfNone (request_of command)
        ((result ≡ halt_code Usage) × (length.new ≡ 0) × (out.new ≡ out.old) × (message_length.new ≡ 0) × (message.new ≡ message.old)) }
{
    let Some((command, profile)) = request_of(command) else {
        *length = 0;
        *message_length = 0;
        return u32::from(Halt::Usage.code());
    };
    let heap = LentHeap::new(memory);
    let texts = Texts {
        profile,
        paths: Some(Paths {
            lefs: lef_names,
            def: def_name,
        }),
        lefs,
        def,
    };
    answer_into(&heap, command, &texts, out, length, message, message_length)
}

/// The same, of texts with their names, with memory of this allocator.
fn answer_into<A: Allocator + Copy>(
    alloc: A,
    command: Command,
    texts: &Texts<'_>,
    out: &mut [u8],
    length: &mut usize,
    message: &mut [u8],
    message_length: &mut usize,
) -> u32
    ensures { AnswersExplained command texts.now out.old out.new length.new result message.old message.new message_length.new }
{
    match answer_to_as(
        alloc,
        command,
        texts.profile,
        texts.lefs,
        texts.def,
        &mut (),
    ) {
        Ok(answer) => {
            let explanation = message_on(alloc, texts, &answer.reason);
            give_text(&explanation, message, message_length);
            give(answer.status, &answer.text, out, length)
        }
        Err(_) => {
            give_text(b"", message, message_length);
            give(Status::Memory, NO_MEMORY, out, length)
        }
    }
}

/// The message on an answer with this reason; empty where it has none, and where memory runs out.
fn message_on<A: Allocator + Copy>(
    alloc: A,
    texts: &Texts<'_>,
    reason: &Option<Reason<'_, A>>,
) -> Vec<u8, A>
    ensures { HasMessage texts.now (option_map said reason.now) result.items }
{
    let Some(reason) = reason else {
        return Vec::new(alloc);
    };
    match message(alloc, texts, reason) {
        Ok(message) => message,
        Err(_) => Vec::new(alloc),
    }
}

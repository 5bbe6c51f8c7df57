//! A command on memory, texts and a buffer that the caller lends.

ghost use Rattle.std.specs.Prelude.{◌≡◌, length, map, IfSome, IfNone};
ghost use Rattle.leg_app.specs.declared.end.Halt.TheVariants.{Usage};
ghost use Rattle.leg_app.specs.Answer.{exit_code};
ghost use Rattle.leg_app.specs.End.{halt_code};
ghost use Rattle.leg_c_call.specs.Call.{request_of, overlay, Answers};

use crate::number::request_of;
use leg_app::{Halt, RunFault, Status, run_as};
use leg_c_memory::{LentHeap, Memory};

/// What is answered where memory ran out.
pub(crate) const NO_MEMORY: &[u8] = b"MEMORY\n";

/// Answers what `request_of` returns of this number to the texts of the LEFs, in order, and of the DEF. All memory is taken from
/// `memory`, which is used up. Puts as much of the answer as fits into `out`, from its first byte on, leaves the bytes of `out` beyond the
/// answer as they were, puts the answer's length in bytes into `length`, and returns the program's exit status: 0 to 4, or 64
/// where the number asks nothing. An answer that is longer than `out` is cut, and only `length` tells it.
pub fn call(
    memory: Memory,
    command: u32,
    lefs: &[&[u8]],
    def: &[u8],
    out: &mut [u8],
    length: &mut usize,
) -> u32
    ensures answer { IfSome (request_of command) (λ asked.
        Answers asked.0 asked.1 (map (λ t. t.now) lefs.now) def.now out.old out.new length.new result) }
    ensures unknown { IfNone (request_of command)
        ((result ≡ halt_code Usage) × (length.new ≡ 0) × (out.new ≡ out.old)) }
{
    let Some((command, profile)) = request_of(command) else {
        *length = 0;
        return u32::from(Halt::Usage.code());
    };
    let heap = LentHeap::new(memory);
    let mut text = Vec::new(&heap);
    match run_as(&heap, command, profile, lefs, def, &mut text) {
        Ok(status) => give(status, &text, out, length),
        Err(RunFault::Write) => give(Status::Memory, NO_MEMORY, out, length),
    }
}

/// Gives the caller an answer, and returns its exit status.
pub(crate) fn give(status: Status, text: &[u8], out: &mut [u8], count: &mut usize) -> u32
    ensures status { result ≡ exit_code status }
    ensures count { count.new ≡ length text.now }
    ensures front { out.new ≡ overlay text.now out.old }
{
    give_text(text, out, count);
    u32::from(status.code())
}

/// Gives the caller a text.
pub(crate) fn give_text(text: &[u8], out: &mut [u8], count: &mut usize)
    ensures count { count.new ≡ length text.now }
    ensures front { out.new ≡ overlay text.now out.old }
{
    let fits = text.len().min(out.len());
    out[..fits].copy_from_slice(&text[..fits]);
    *count = text.len();
}

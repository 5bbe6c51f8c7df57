//! A command from its texts to the bytes that are written.

ghost use Rattle.std.specs.Prelude.{◌≡◌, map, IfOk, OnOk, OnErr};
ghost use Rattle.std.specs.Io.KnownBytes.{Appends};
ghost use Rattle.leg_app.specs.declared.status.Status.TheVariants.{Success, Memory};
ghost use Rattle.leg_app.specs.Answer.{IsAnswer, IsStreamAnswer, TakesAnswer, TakesFront, TakesPart};
ghost use Rattle.leg_output.specs.Commands.Check.{memory_text};
ghost use Rattle.leg_grammar.specs.declared.profile.Profile.TheVariants.{Narrow};
ghost use Rattle.leg_app.specs.Reason.{IsExplained, IsStreamExplained};

use crate::answer::answer_to_as;
use crate::status::Status;
use leg_app_input::{Command, split_stream};
use leg_app_reason::Reason;
use leg_finish::Progress;
use leg_grammar::Profile;
use std::alloc::Allocator;
use std::io::Write;
use thiserror::Error;

// What is written where no LEF ends in a stream.
const NO_LIBRARY: &[u8] = b"REFUSED 0 1 UnexpectedEnd\n";

/// Why an answer isn't written whole.
#[derive(Clone, Copy, PartialEq, Eq, Debug, Error)]
pub enum RunFault {
    /// The writer failed, or took no more bytes.
    #[error("the answer cannot be written")]
    Write,
}

/// Writes what the command answers to the texts of the LEFs, in order, and of the DEF, read in a profile, and returns how it ended. The
/// answer's text is made whole before its first byte is written, and nothing is flushed. After a fault the writer has taken a proper prefix
/// of it.
pub fn run_as<W: Write, A: Allocator + Copy>(
    alloc: A,
    command: Command,
    profile: Profile,
    lefs: &[&[u8]],
    def: &[u8],
    out: &mut W,
) -> Result<Status, RunFault>
    ensures whole { IfOk result (λ status. TakesAnswer (IsAnswer command profile (map (λ t. t.now) lefs.now) def.now) status
        (W.contents out.old) (W.contents out.new)) }
    ensures cut { OnErr result (TakesPart (IsAnswer command profile (map (λ t. t.now) lefs.now) def.now)
        (W.contents out.old) (W.contents out.new)) }
{
    let ended = run_explained_as(alloc, command, profile, lefs, def, out, &mut ())?;
    Ok(ended.status)
}

/// The same of texts that are read in the narrow profile: `run_as` of `Profile::Narrow`.
pub fn run<W: Write, A: Allocator + Copy>(
    alloc: A,
    command: Command,
    lefs: &[&[u8]],
    def: &[u8],
    out: &mut W,
) -> Result<Status, RunFault>
    ensures whole { IfOk result (λ status. TakesAnswer (IsAnswer command Narrow (map (λ t. t.now) lefs.now) def.now) status
        (W.contents out.old) (W.contents out.new)) }
    ensures cut { OnErr result (TakesPart (IsAnswer command Narrow (map (λ t. t.now) lefs.now) def.now)
        (W.contents out.old) (W.contents out.new)) }
{
    run_as(alloc, command, Profile::Narrow, lefs, def, out)
}

/// Writes what `run` writes, and tells the progress of each round of `finish`, before anything is written.
pub fn run_with_progress<W: Write, A: Allocator + Copy, P: Progress>(
    alloc: A,
    command: Command,
    lefs: &[&[u8]],
    def: &[u8],
    out: &mut W,
    progress: &mut P,
) -> Result<Status, RunFault>
    ensures whole { IfOk result (λ status. TakesAnswer (IsAnswer command Narrow (map (λ t. t.now) lefs.now) def.now) status
        (W.contents out.old) (W.contents out.new)) }
    ensures cut { OnErr result (TakesPart (IsAnswer command Narrow (map (λ t. t.now) lefs.now) def.now)
        (W.contents out.old) (W.contents out.new)) }
{
    let ended = run_explained(alloc, command, lefs, def, out, progress)?;
    Ok(ended.status)
}

/// How a run ended.
#[derive(Drop)]
pub struct Ended<'a, A: Allocator> {
    /// Its status.
    pub status: Status,
    /// Why no design, list or length is written, if so.
    pub reason: Option<Reason<'a, A>>,
}

/// Writes what `run_as` writes, and returns with the status the reason where no design, list or length is written. The progress is told of
/// each round of `finish`, before anything is written.
pub fn run_explained_as<'a, W: Write, A: Allocator + Copy, P: Progress>(
    alloc: A,
    command: Command,
    profile: Profile,
    lefs: &[&'a [u8]],
    def: &[u8],
    out: &mut W,
    progress: &mut P,
) -> Result<Ended<'a, A>, RunFault>
    ensures whole { IfOk result (λ ended. TakesAnswer (IsExplained command profile (map (λ t. t.now) lefs.now) def.now ended.reason) ended.status
        (W.contents out.old) (W.contents out.new)) }
    ensures cut { OnErr result (TakesPart (IsAnswer command profile (map (λ t. t.now) lefs.now) def.now)
        (W.contents out.old) (W.contents out.new)) }
{
    match answer_to_as(alloc, command, profile, lefs, def, progress) {
        Ok(answer) => {
            write_text(out, &answer.text)?;
            Ok(Ended {
                status: answer.status,
                reason: answer.reason,
            })
        }
        Err(_) => {
            let status = run_out(out)?;
            Ok(Ended {
                status,
                reason: None,
            })
        }
    }
}

/// The same of texts that are read in the narrow profile: `run_explained_as` of `Profile::Narrow`.
pub fn run_explained<'a, W: Write, A: Allocator + Copy, P: Progress>(
    alloc: A,
    command: Command,
    lefs: &[&'a [u8]],
    def: &[u8],
    out: &mut W,
    progress: &mut P,
) -> Result<Ended<'a, A>, RunFault>
    ensures whole { IfOk result (λ ended. TakesAnswer (IsExplained command Narrow (map (λ t. t.now) lefs.now) def.now ended.reason) ended.status
        (W.contents out.old) (W.contents out.new)) }
    ensures cut { OnErr result (TakesPart (IsAnswer command Narrow (map (λ t. t.now) lefs.now) def.now)
        (W.contents out.old) (W.contents out.new)) }
{
    run_explained_as(alloc, command, Profile::Narrow, lefs, def, out, progress)
}

/// Checks the block of a stream, which has one LEF up to its `END LIBRARY` and after it one DEF, and writes the answer as
/// `run` does. A stream in which no LEF ends is refused at its first line.
pub fn run_stream<W: Write, A: Allocator + Copy>(
    alloc: A,
    stream: &[u8],
    out: &mut W,
) -> Result<Status, RunFault>
    ensures whole { IfOk result (λ status. TakesAnswer (IsStreamAnswer stream.now) status (W.contents out.old) (W.contents out.new)) }
    ensures cut { OnErr result (TakesPart (IsStreamAnswer stream.now) (W.contents out.old) (W.contents out.new)) }
{
    let ended = run_stream_explained(alloc, stream, out)?;
    Ok(ended.status)
}

/// Writes what `run_stream` writes, and returns with the status the reason where no list is written.
pub fn run_stream_explained<'a, W: Write, A: Allocator + Copy>(
    alloc: A,
    stream: &'a [u8],
    out: &mut W,
) -> Result<Ended<'a, A>, RunFault>
    ensures whole { IfOk result (λ ended. TakesAnswer (IsStreamExplained stream.now ended.reason) ended.status
        (W.contents out.old) (W.contents out.new)) }
    ensures cut { OnErr result (TakesPart (IsStreamAnswer stream.now) (W.contents out.old) (W.contents out.new)) }
{
    let Some((lef, def)) = split_stream(stream) else {
        write_text(out, NO_LIBRARY)?;
        return Ok(Ended {
            status: Status::Refused,
            reason: Some(Reason::NoLibrary),
        });
    };
    run_explained(alloc, Command::Check, &[lef], def, out, &mut ())
}

/// Writes that memory ran out, where it did so before a run could begin.
pub fn run_out<W: Write>(out: &mut W) -> Result<Status, RunFault>
    ensures whole { IfOk result (λ status. (status ≡ Memory) × Appends (W.contents out.old) (W.contents out.new) memory_text) }
    ensures cut { OnErr result (TakesFront memory_text (W.contents out.old) (W.contents out.new)) }
{
    write_text(out, b"MEMORY\n")?;
    Ok(Status::Memory)
}

/// Writes this help whole.
pub fn run_help<W: Write>(out: &mut W, help: &[u8]) -> Result<Status, RunFault>
    ensures whole { IfOk result (λ status. (status ≡ Success) × Appends (W.contents out.old) (W.contents out.new) help.now) }
    ensures cut { OnErr result (TakesFront help.now (W.contents out.old) (W.contents out.new)) }
{
    write_text(out, help)?;
    Ok(Status::Success)
}

/// Writes the text whole. It stops at the writer's first error, and where it takes no byte.
pub(crate) fn write_text<W: Write>(out: &mut W, text: &[u8]) -> Result<(), RunFault>
    ensures whole { OnOk result (Appends (W.contents out.old) (W.contents out.new) text.now) }
    ensures cut { OnErr result (TakesFront text.now (W.contents out.old) (W.contents out.new)) }
{
    let mut rest = text;
    while !rest.is_empty() {
        match out.write(rest) {
            Ok(0) | Err(_) => return Err(RunFault::Write),
            Ok(taken) => rest = &rest[taken..],
        }
    }
    Ok(())
}

//! lefdef: is a placed block of standard cells legal?
//!
//! `lefdef COMMAND DEF LEF...` reads the files, asks `leg_app` and writes its answer. With no arguments it reads one
//! LEF that ends in END LIBRARY and then one DEF from standard input, and runs `check`. `lefdef compare BEFORE AFTER LEF...` tells what
//! differs between two DEFs. Options before the command say in which profile texts are read. `lefdef --help` prints help, and
//! `lefdef --version` the program's version.
#![tactic(auto)]

mod help;
mod rounds;

use help::{VERSION, help_text};
use leg_app::{
    Asked, CompareLine, FILE_LIMIT, Halt, InputFault, Line, Profile, Progress, Reason, RunFault,
    STREAM_LIMIT, Side, Status, asked_by, read_all, run_compare_as, run_explained_as, run_help,
    run_out, run_stream_explained,
};
use leg_app_message::{NotingWriter, Paths, Texts, message, order_message, stream_message};
use rounds::Rounds;
use std::alloc::{AllocError, Allocator, Global};
use std::fs::File;
use std::io::IsTerminal;
use std::process::ExitCode;
use std::rt::Runtime;
use std::{env, io};

fn main(rt: HostRuntime) -> ExitCode {
    let mut rounds = Rounds::new(&rt, rt.stderr().is_terminal());
    ExitCode::from(ended(&rt, &mut rounds))
}

// Why there is no answer of a run.
#[derive(Drop)]
enum Stop<'a> {
    // The program ends without one, for this cause where the system gave one.
    Halt(Halt<'a>, Option<io::Error>),
    // The command line is wrong at this word: an option, or what stands behind options.
    WrongWord(&'a str),
    // An allocation failed.
    Memory,
}

impl From<AllocError> for Stop<'_> {
    fn from(_e: AllocError) -> Self {
        Stop::Memory
    }
}

// The exit status, after all that is written. The progress is told of each round of `finish`.
fn ended<R: Runtime + AllocGlobal, P: Progress>(rt: &R, progress: &mut P) -> u8 {
    let words = match words(rt) {
        Ok(words) => words,
        Err(stop) => return stopped(rt, stop),
    };
    match answered(rt, &words, progress) {
        Ok(status) => status.code(),
        Err(stop) => stopped(rt, stop),
    }
}

// The words after the program's name.
fn words<R: Runtime + AllocGlobal>(rt: &R) -> Result<Vec<String>, Stop<'static>> {
    match env::args(rt) {
        Ok(args) => Ok(args.skip(1).collect(rt.alloc())?),
        Err(cause) if cause.kind() == io::ErrorKind::OutOfMemory => Err(Stop::Memory),
        Err(_) => Err(Stop::Halt(Halt::Usage, None)),
    }
}

// Writes the answer to what the words ask.
fn answered<'a, R: Runtime + AllocGlobal, P: Progress>(
    rt: &R,
    words: &'a [String],
    progress: &mut P,
) -> Result<Status, Stop<'a>> {
    match asked_by(words) {
        Some(Asked::Stream) => on_stream(rt),
        Some(Asked::Help) => on_help(rt),
        Some(Asked::Version) => on_version(rt),
        Some(Asked::Compare(line)) => on_two_files(rt, &line),
        Some(Asked::Files(line)) => on_files(rt, &line, progress),
        Some(Asked::WrongOption(word)) => Err(Stop::WrongWord(word)),
        None => Err(Stop::Halt(Halt::Usage, None)),
    }
}

// The help on the program.
fn on_help<R: Runtime + AllocGlobal>(rt: &R) -> Result<Status, Stop<'static>> {
    let help = help_text(rt.alloc())?;
    let mut out = NotingWriter::new(io::writer(rt));
    let ran = run_help(&mut out, help.as_bytes());
    written(ran, out.error())
}

// The program's version.
fn on_version<R: Runtime + AllocGlobal>(rt: &R) -> Result<Status, Stop<'static>> {
    let mut out = NotingWriter::new(io::writer(rt));
    let ran = run_help(&mut out, VERSION.as_bytes());
    written(ran, out.error())
}

// The answer to files: the LEFs are read in turn and then the DEF, before any of them is judged.
fn on_files<'a, R: Runtime + AllocGlobal, A: Allocator, P: Progress>(
    rt: &R,
    line: &Line<'a, A>,
    progress: &mut P,
) -> Result<Status, Stop<'a>> {
    let texts = texts_of(rt, line.lefs)?;
    let def = file(rt, line.def)?;
    let lefs = as_slices(rt, &texts)?;
    on_texts(rt, line, &lefs, &def, progress)
}

// What differs between two DEFs: the LEFs are read in turn and then the DEFs, before any of them is judged.
fn on_two_files<'a, R: Runtime + AllocGlobal, A: Allocator>(
    rt: &R,
    line: &CompareLine<'a, A>,
) -> Result<Status, Stop<'a>> {
    let texts = texts_of(rt, line.lefs)?;
    let before = file(rt, line.before)?;
    let after = file(rt, line.after)?;
    let lefs = as_slices(rt, &texts)?;
    on_two_texts(rt, line, &lefs, &before, &after)
}

// The bytes of these files.
fn texts_of<'a, R: Runtime + AllocGlobal, A: Allocator>(
    rt: &R,
    paths: &'a [String<A>],
) -> Result<Vec<Vec<u8>>, Stop<'a>> {
    let mut texts = Vec::new(rt.alloc());
    for path in paths {
        let text = file(rt, path.as_str())?;
        texts.push(text).map_err(AllocError::from)?;
    }
    Ok(texts)
}

// The texts, to be lent.
fn as_slices<'t, R: Runtime + AllocGlobal>(
    rt: &R,
    texts: &'t [Vec<u8>],
) -> Result<Vec<&'t [u8]>, AllocError> {
    let mut slices = Vec::new(rt.alloc());
    for text in texts {
        slices.push(text.as_slice())?;
    }
    Ok(slices)
}

// The answer to the texts of files.
fn on_texts<R: Runtime + AllocGlobal, A: Allocator, P: Progress>(
    rt: &R,
    line: &Line<'_, A>,
    lefs: &[&[u8]],
    def: &[u8],
    progress: &mut P,
) -> Result<Status, Stop<'static>> {
    let mut out = NotingWriter::new(io::writer(rt));
    let ran = run_explained_as(
        rt.alloc(),
        line.command,
        line.profile,
        lefs,
        def,
        &mut out,
        progress,
    );
    let ended = written(ran, out.error())?;
    if let Some(reason) = &ended.reason {
        let files = Files {
            profile: line.profile,
            lef_paths: line.lefs,
            def_path: line.def,
            lefs,
            def,
        };
        explain(rt, message_on(rt, &files, reason));
    }
    Ok(ended.status)
}

// What differs between the texts of two DEFs.
fn on_two_texts<R: Runtime + AllocGlobal, A: Allocator>(
    rt: &R,
    line: &CompareLine<'_, A>,
    lefs: &[&[u8]],
    before: &[u8],
    after: &[u8],
) -> Result<Status, Stop<'static>> {
    let mut out = NotingWriter::new(io::writer(rt));
    let ran = run_compare_as(rt.alloc(), line.profile, lefs, before, after, &mut out);
    let ended = written(ran, out.error())?;
    match &ended.reason {
        Some(stopped) => {
            let (path, def) = match stopped.side {
                Side::Before => (line.before, before),
                Side::After => (line.after, after),
            };
            let files = Files {
                profile: line.profile,
                lef_paths: line.lefs,
                def_path: path,
                lefs,
                def,
            };
            explain(rt, message_on(rt, &files, &stopped.reason));
        }
        None => {
            let (first, second) = (line.before.as_bytes(), line.after.as_bytes());
            explain(rt, order_message(rt.alloc(), first, second, ended.order));
        }
    }
    Ok(ended.status)
}

// Files that were read, by their paths, with their texts and the profile in which these are read.
#[derive(Drop)]
struct Files<'t, A: Allocator> {
    profile: Profile,
    lef_paths: &'t [String<A>],
    def_path: &'t str,
    lefs: &'t [&'t [u8]],
    def: &'t [u8],
}

// The message on a run over the texts of these files that stopped for this reason.
fn message_on<R: Runtime + AllocGlobal, A: Allocator>(
    rt: &R,
    files: &Files<'_, A>,
    reason: &Reason<'_, Global>,
) -> Result<Vec<u8>, AllocError> {
    let mut paths = Vec::new(rt.alloc());
    for path in files.lef_paths {
        paths.push(path.as_bytes())?;
    }
    let texts = Texts {
        profile: files.profile,
        paths: Some(Paths {
            lefs: &paths,
            def: files.def_path.as_bytes(),
        }),
        lefs: files.lefs,
        def: files.def,
    };
    message(rt.alloc(), &texts, reason)
}

// The bytes of a file.
fn file<'a, R: Runtime + AllocGlobal>(rt: &R, path: &'a str) -> Result<Vec<u8>, Stop<'a>> {
    let mut file = match File::open(rt, path) {
        Ok(file) => file,
        Err(cause) => return Err(not_read(cause, path)),
    };
    match read_all(rt.alloc(), &mut file, FILE_LIMIT) {
        Ok(bytes) => Ok(bytes),
        Err(fault) => Err(no_input(fault, path)),
    }
}

// The answer to standard input.
fn on_stream<R: Runtime + AllocGlobal>(rt: &R) -> Result<Status, Stop<'static>> {
    match read_all(rt.alloc(), &mut rt.reader(), STREAM_LIMIT) {
        Ok(stream) => on_stream_text(rt, &stream),
        Err(fault) => Err(no_input(fault, "-")),
    }
}

// The answer to the bytes of standard input.
fn on_stream_text<R: Runtime + AllocGlobal>(
    rt: &R,
    stream: &[u8],
) -> Result<Status, Stop<'static>> {
    let mut out = NotingWriter::new(io::writer(rt));
    let ran = run_stream_explained(rt.alloc(), stream, &mut out);
    let ended = written(ran, out.error())?;
    if let Some(reason) = &ended.reason {
        explain(rt, stream_message(rt.alloc(), stream, reason));
    }
    Ok(ended.status)
}

// Why an input ends the program.
fn no_input(fault: InputFault, path: &str) -> Stop<'_> {
    match fault {
        InputFault::Unreadable(cause) => not_read(cause, path),
        InputFault::Memory => Stop::Memory,
    }
}

// Why an input that the system does not open or read ends the program: it may be that the system has no memory for it.
fn not_read(cause: io::Error, path: &str) -> Stop<'_> {
    if cause.kind() == io::ErrorKind::OutOfMemory {
        Stop::Memory
    } else {
        Stop::Halt(Halt::NotRead(path), Some(cause))
    }
}

// How a run ended, or that its output failed, for this cause.
fn written<T: Drop>(
    ran: Result<T, RunFault>,
    cause: Option<io::Error>,
) -> Result<T, Stop<'static>> {
    match ran {
        Ok(ended) => Ok(ended),
        Err(fault) => Err(Stop::Halt(Halt::from(fault), cause)),
    }
}

// Writes a message on standard error. One that can't be made or written changes no status.
fn explain<R: Runtime + AllocGlobal>(rt: &R, message: Result<Vec<u8>, AllocError>) {
    if let Ok(message) = message {
        if let Ok(text) = str::from_utf8(&message) {
            let _ = eprint!(rt; "{text}");
        }
    }
}

// Denotes why there is no answer, and gives the exit status.
fn stopped<R: Runtime + AllocGlobal>(rt: &R, stop: Stop<'_>) -> u8 {
    match stop {
        Stop::Halt(halt, cause) => halted(rt, &halt, cause),
        Stop::WrongWord(word) => {
            name_wrong_word(rt, word);
            halted(rt, &Halt::Usage, None)
        }
        Stop::Memory => {
            let mut out = NotingWriter::new(io::writer(rt));
            match run_out(&mut out) {
                Ok(status) => status.code(),
                Err(fault) => halted(rt, &Halt::from(fault), out.error()),
            }
        }
    }
}

// Names on standard error the word at which the command line is wrong.
fn name_wrong_word<R: Runtime + AllocGlobal>(rt: &R, word: &str) {
    let said = if word == "--wide" || word == "--masks" || word == "--soft" {
        eprintln!(rt;
            "lefdef: {word} is wrong here: --wide, --masks drop, and --soft drop or --soft hard may stand once each before the command, the last two with --wide"
        )
    } else {
        eprintln!(rt; "lefdef: {word} is no command")
    };
    // A message that can't be written changes no status.
    let _ = said;
}

// Denotes on standard error why the program ends without an answer, and gives the exit status.
fn halted<R: Runtime + AllocGlobal>(rt: &R, halt: &Halt<'_>, cause: Option<io::Error>) -> u8 {
    let said = match halt {
        Halt::NotRead(path) => eprintln!(rt; "cannot read {path}"),
        Halt::NotWritten => eprintln!(rt; "cannot write"),
        Halt::Usage => eprintln!(rt;
            "usage: lefdef COMMAND DEF LEF...\n       lefdef compare BEFORE AFTER LEF...\nCOMMAND is check, place-check, measure, legalise, route, flow, finish or print; lefdef --help says more"
        ),
    };
    // A message that can't be written changes no status.
    let _ = said;
    if let Some(cause) = cause {
        let _ = eprintln!(rt; "{cause}");
    }
    halt.code()
}

//! What no clause states: the words of lines, cuts of streams, and that writing goes on and stops.

mod blockages;
mod finish;
mod input;
mod judged;
mod lines;
mod metal;
mod options;

ghost use Rattle.std.specs.Prelude.{Some};

use leg_app::{
    Asked, Command, Line, Profile, RunFault, Status, asked_by, line_of, run, run_stream,
    split_stream,
};
use std::alloc::{AllocError, Global};
use std::io;
use std::io::{ErrorKind, Write};
use test_texts::{cells, wired};

/// Takes two bytes at most at a call, until it has no room. Then it fails, or takes nothing.
#[derive(Drop)]
struct Narrow {
    held: Vec<u8>,
    room: usize,
    fails: bool,
}

impl Write for Narrow {
    ghost contents = { λ w. Some w.held.items };

    fn write(&mut self, buf: &[u8]) -> io::Result<usize> {
        if self.room == 0 && self.fails {
            return Err(io::Error::from(ErrorKind::BrokenPipe));
        }
        let count = buf.len().min(self.room).min(2);
        self.held.extend_from_slice(&buf[..count])?;
        self.room -= count;
        Ok(count)
    }

    fn flush(&mut self) -> io::Result<()> {
        Ok(())
    }
}

// A site, a row of it, and a macro, two components of it of which the second begins one unit before the first ends.
const LEF: &[u8] = b"SITE core SIZE 0.2 BY 2.0 ; END core
MACRO INV SIZE 0.4 BY 2.0 ; SITE core ; END INV
END LIBRARY
";

const DEF: &[u8] = b"DESIGN top ;
UNITS DISTANCE MICRONS 1000 ;
DIEAREA ( 0 0 ) ( 800 2000 ) ;
ROW r core 0 0 N DO 4 BY 1 STEP 200 0 ;
COMPONENTS 2 ;
- u1 INV + PLACED ( 0 0 ) N ;
- u2 INV + PLACED ( 399 0 ) N ;
END COMPONENTS
END DESIGN
";

const ANSWER: &[u8] = b"OFFSITE u2\nOVERLAP u1 u2\nviolations 2\n";

fn is_answer(ended: Result<Status, RunFault>, status: Status, out: &[u8], expected: &[u8]) -> bool {
    ended == Ok(status) && out == expected
}

/// A command, the texts that it is given, and what it answers.
#[derive(Clone, Copy)]
struct Case<'a> {
    command: Command,
    lef: &'a [u8],
    def: &'a [u8],
    status: Status,
    answer: &'a [u8],
}

// Whether all of the answer is written where there is room.
fn writes_all(alloc: Global, case: &Case<'_>) -> bool {
    let mut out = Vec::new(alloc);
    let ended = run(alloc, case.command, &[case.lef], case.def, &mut out);
    is_answer(ended, case.status, &out, case.answer)
}

// Whether just a prefix of the answer is written where there is no more room, and the run ends at it.
fn writes_up_to(alloc: Global, case: &Case<'_>, room: usize, fails: bool) -> bool {
    let mut out = Narrow {
        held: Vec::new(alloc),
        room,
        fails,
    };
    let ended = run(alloc, case.command, &[case.lef], case.def, &mut out);
    ended == Err(RunFault::Write) && case.answer.get(..room) == Some(out.held.as_slice())
}

fn writes_up_to_each(alloc: Global, case: &Case<'_>, fails: bool) -> bool {
    for room in 0..case.answer.len() {
        if !writes_up_to(alloc, case, room, fails) {
            return false;
        }
    }
    true
}

fn writes_as_far_as_it_can(alloc: Global, case: &Case<'_>) -> bool {
    writes_all(alloc, case)
        && writes_up_to_each(alloc, case, true)
        && writes_up_to_each(alloc, case, false)
}

#[test]
fn an_answer_is_written_up_to_the_fault(rt: HostRuntime) {
    let violations = Case {
        command: Command::PlaceCheck,
        lef: LEF,
        def: DEF,
        status: Status::Violations,
        answer: ANSWER,
    };
    let routed = Case {
        command: Command::Route,
        lef: cells(),
        def: wired(),
        status: Status::Success,
        answer: wired(),
    };
    assert!(rt; writes_as_far_as_it_can(rt.alloc(), &violations));
    assert!(rt; writes_as_far_as_it_can(rt.alloc(), &routed));
}

fn words(alloc: Global, texts: &[&str]) -> Result<Vec<String>, AllocError> {
    let mut words = Vec::new(alloc);
    for text in texts {
        words.push(String::from_str(alloc, text)?)?;
    }
    Ok(words)
}

// Whether the words of these texts pass the test.
fn passes(alloc: Global, texts: &[&str], test: fn(&[String]) -> bool) -> bool
    requires callable { IsAlwaysCallable test }
{
    match words(alloc, texts) {
        Ok(words) => test(&words),
        Err(_) => false,
    }
}

fn are_no_line(words: &[String]) -> bool {
    line_of(Profile::Narrow, words).is_none()
}

fn ask_for_a_stream(words: &[String]) -> bool {
    matches!(asked_by(words), Some(Asked::Stream))
}

fn ask_for_help(words: &[String]) -> bool {
    matches!(asked_by(words), Some(Asked::Help))
}

fn ask_for_the_version(words: &[String]) -> bool {
    matches!(asked_by(words), Some(Asked::Version))
}

fn ask_for_nothing(words: &[String]) -> bool {
    asked_by(words).is_none()
}

#[test]
fn words_ask_for_a_stream_for_help_for_the_version_or_for_nothing(rt: HostRuntime) {
    assert!(rt;
        passes(rt.alloc(), &[], ask_for_a_stream)
            && passes(rt.alloc(), &["--help"], ask_for_help)
            && passes(rt.alloc(), &["-h"], ask_for_help)
            && passes(rt.alloc(), &["--version"], ask_for_the_version)
            && passes(rt.alloc(), &["-V"], ask_for_the_version)
            && passes(rt.alloc(), &["-v"], ask_for_nothing)
            && passes(rt.alloc(), &["--help", "check"], ask_for_nothing)
            && passes(rt.alloc(), &["check"], ask_for_nothing)
    );
}

fn same(word: &str, expected: &str) -> bool {
    word == expected
}

fn is_line(line: &Line<'_, Global>) -> bool {
    match line.lefs {
        [sites, cells] => {
            line.command == Command::PlaceCheck
                && line.profile == Profile::Narrow
                && same(line.def, "top.def")
                && same(sites, "sites.lef")
                && same(cells, "cells.lef")
        }
        _ => false,
    }
}

fn are_a_line(words: &[String]) -> bool {
    match line_of(Profile::Narrow, words) {
        Some(line) => is_line(&line),
        None => false,
    }
}

static NO_LINES: [&[&str]; 5] = [
    &[],
    &["place-check"],
    &["place-check", "top.def"],
    &["place", "top.def", "cells.lef"],
    &["Place-Check", "top.def", "cells.lef"],
];

fn has_no_line(alloc: Global, lines: &[&[&str]]) -> bool {
    for texts in lines {
        if !passes(alloc, texts, are_no_line) {
            return false;
        }
    }
    true
}

#[test]
fn a_line_has_a_command_a_def_and_lefs(rt: HostRuntime) {
    assert!(rt; has_no_line(rt.alloc(), &NO_LINES));
    let texts = ["place-check", "top.def", "sites.lef", "cells.lef"];
    assert!(rt; passes(rt.alloc(), &texts, are_a_line));
}

// Whether the stream is cut into these.
fn is_cut(stream: &[u8], lef: &[u8], def: &[u8]) -> bool {
    match split_stream(stream) {
        Some(parts) => parts.0 == lef && parts.1 == def,
        None => false,
    }
}

fn refuses_a_stream(alloc: Global) -> bool {
    let mut out = Vec::new(alloc);
    let ended = run_stream(alloc, b"SITE a\nEND\n", &mut out);
    is_answer(ended, Status::Refused, &out, b"REFUSED 0 1 UnexpectedEnd\n")
}

#[test]
fn a_stream_is_cut_after_its_first_library(rt: HostRuntime) {
    assert!(rt;
        is_cut(
            b"SITE a\nEND LIBRARY\nDESIGN t ;\nEND LIBRARY\n",
            b"SITE a\nEND LIBRARY",
            b"\nDESIGN t ;\nEND LIBRARY\n"
        )
    );
    assert!(rt; refuses_a_stream(rt.alloc()));
    assert!(rt; split_stream(b"END  LIBRARY\nEND\nLIBRARY end library END LIBRAR").is_none());
}

//! Forms read from words.

use leg_lex::{
    Cursor, FaultKind, Keyword, Names, Need, ReadFault, Words, clauses, is_name, is_word, only, the,
};
use std::alloc::Global;
use std::process::Abort;

/// A call of a cursor, and what it has to answer.
#[derive(Clone, Copy)]
enum Step<'a> {
    IsAt(&'a [u8]),
    IsAtEnd,
    Keyword(&'a [u8]),
    NoKeyword(&'a [u8], ReadFault),
    Mark(u8),
    Any(&'a [u8]),
    Name(&'a [u8]),
    NoName,
    Word(&'a [u8]),
    NoWord,
    Whole(i64),
    NoWhole(ReadFault),
    /// A length in millionths of a micron.
    Length(i64),
    End(&'a [u8]),
    EndOf(&'a [u8]),
    NoEndOf(&'a [u8]),
    NothingMore,
    NoStatement(ReadFault),
    PastKeyword(&'a [u8]),
    NotPastKeyword(&'a [u8]),
    PastEnd(&'a [u8]),
    PastEndOf(&'a [u8]),
}

/// Whether the cursor answers so.
fn answers(cursor: &mut Cursor, step: Step) -> bool {
    match step {
        Step::IsAt(keyword) => cursor.is_at(keyword),
        Step::IsAtEnd => cursor.is_at_end(),
        Step::Keyword(keyword) => cursor.keyword(keyword).is_ok(),
        Step::NoKeyword(keyword, fault) => cursor.keyword(keyword) == Err(fault),
        Step::Mark(mark) => cursor.mark(mark).is_ok(),
        Step::Any(word) => cursor.any() == Ok(word),
        Step::Name(name) => cursor.name() == Ok(name),
        Step::NoName => cursor.name().is_err(),
        Step::Word(word) => cursor.word() == Ok(word),
        Step::NoWord => cursor.word().is_err(),
        Step::Whole(number) => cursor.whole() == Ok(number),
        Step::NoWhole(fault) => cursor.whole() == Err(fault),
        Step::Length(millionths) => match cursor.length() {
            Ok(length) => length.millionths() == millionths,
            Err(_) => false,
        },
        Step::End(keyword) => cursor.end(keyword).is_ok(),
        Step::EndOf(name) => cursor.end_of(name).is_ok(),
        Step::NoEndOf(name) => cursor.again().end_of(name).is_err(),
        Step::NothingMore => cursor.nothing_more().is_ok(),
        Step::NoStatement(fault) => cursor.statement().err() == Some(fault),
        Step::PastKeyword(keyword) => cursor.past_keyword(keyword).is_ok(),
        Step::NotPastKeyword(keyword) => cursor.past_keyword(keyword).is_err(),
        Step::PastEnd(keyword) => cursor.past_end(keyword).is_ok(),
        Step::PastEndOf(name) => cursor.past_end_of(name).is_ok(),
    }
}

fn check_steps(rt: &impl Abort, cursor: &mut Cursor, steps: &[Step]) {
    for (number, step) in steps.iter().enumerate() {
        assert!(rt; answers(cursor, *step), "at step {number}");
    }
}

fn words_of<'a>(rt: &impl Abort, alloc: Global, text: &'a [u8]) -> Words<'a, Global> {
    Words::new(alloc, text).expect(rt, "no words")
}

#[test]
fn reads_forms_word_by_word(rt: HostRuntime) {
    static STEPS: [Step; 15] = [
        Step::IsAt(b"SITE"),
        Step::Keyword(b"SITE"),
        Step::Name(b"Core"),
        Step::Mark(b'('),
        Step::Whole(-7),
        Step::Length(250_000),
        Step::NoWord,
        Step::Any(b")"),
        Step::NoName,
        Step::Word(b"\"a_b\""),
        Step::End(b"SITE"),
        Step::NoEndOf(b"core"),
        Step::EndOf(b"Core"),
        Step::IsAtEnd,
        Step::NothingMore,
    ];
    let text = b"site Core ( -7 0.25 ) \"a_b\" end SITE End Core";
    let words = words_of(&rt, rt.alloc(), text);
    check_steps(&rt, &mut Cursor::new(0, &words), &STEPS);
}

#[test]
fn reads_past_forms(rt: HostRuntime) {
    static STEPS: [Step; 5] = [
        Step::PastKeyword(b"EndExt"),
        Step::PastEnd(b"UNITS"),
        Step::PastEndOf(b"A"),
        Step::IsAt(b"z"),
        Step::NotPastKeyword(b"END"),
    ];
    let text = b"x ENDEXT END y End Units end a END A z";
    let words = words_of(&rt, rt.alloc(), text);
    check_steps(&rt, &mut Cursor::new(0, &words), &STEPS);
}

#[test]
fn tells_the_word_at_fault(rt: HostRuntime) {
    let size_steps = [
        Step::Any(b"SIZE"),
        Step::NoKeyword(
            b"BY",
            ReadFault {
                file: 3,
                line: 2,
                start: 5,
                end: 6,
                kind: FaultKind::Unexpected,
                need: Need::Keyword(Keyword::new(b"BY")),
            },
        ),
        Step::Whole(1),
        Step::Keyword(b"BY"),
        // The statement ends where a number is read: at its semicolon.
        Step::NoWhole(ReadFault {
            file: 3,
            line: 4,
            start: 10,
            end: 11,
            kind: FaultKind::BadNumber,
            need: Need::Whole,
        }),
    ];
    // The text ends too early, at its last word.
    static REST: [Step; 1] = [Step::NoStatement(ReadFault {
        file: 3,
        line: 6,
        start: 17,
        end: 18,
        kind: FaultKind::UnexpectedEnd,
        need: Need::Mark(b';'),
    })];
    let words = words_of(&rt, rt.alloc(), b"SIZE\n1\nBY\n;\nSIZE\nx");
    let mut cursor = Cursor::new(3, &words);
    let mut size = cursor.statement().expect(&rt, "no statement");
    check_steps(&rt, &mut size, &size_steps);
    check_steps(&rt, &mut cursor, &REST);
}

#[test]
fn tells_names_and_words(rt: HostRuntime) {
    static NAMES: [(&[u8], bool); 5] = [
        (b"a#b\"", true),
        (b"", false),
        (b"a b", false),
        (b"#a", false),
        (b"\"a\"", false),
    ];
    static WORDS: [(&[u8], bool); 9] = [
        (b"a;", true),
        (b"", false),
        (b"a b", false),
        (b"#a", false),
        (b"\"a\"", true),
        (b"\"a", false),
        (b"\"a\"b", false),
        (b"\"a\\\"", false),
        (b"\"a\\\" b\"", true),
    ];
    for (bytes, answer) in &NAMES {
        assert!(rt; is_name(bytes) == *answer, "name {bytes:?}");
    }
    for (bytes, answer) in &WORDS {
        assert!(rt; is_word(bytes) == *answer, "word {bytes:?}");
    }
}

/// What is asked of the statements of a block.
#[derive(Clone, Copy)]
enum Asked<'a> {
    /// There is one statement of this keyword.
    One(&'a [u8]),
    /// There is none of this keyword.
    None(&'a [u8]),
    /// There is a second one of this keyword, on this line.
    Second(&'a [u8], u32),
}

/// Whether `only` and `the` answer so.
fn is_answered(statements: &[Cursor], end: &Cursor, asked: Asked) -> bool {
    match asked {
        Asked::One(keyword) => {
            is_one(statements, keyword, end) && matches!(only(statements, keyword), Ok(Some(_)))
        }
        Asked::None(keyword) => {
            the(statements, keyword, end).is_err() && matches!(only(statements, keyword), Ok(None))
        }
        Asked::Second(keyword, line) => {
            the(statements, keyword, end).is_err() && line_of_second(statements, keyword) == line
        }
    }
}

/// Whether `the` finds a statement that begins with the keyword.
fn is_one(statements: &[Cursor], keyword: &[u8], end: &Cursor) -> bool {
    match the(statements, keyword, end) {
        Ok(found) => found.is_at(keyword),
        Err(_) => false,
    }
}

/// The line of a second statement, at which `only` refuses a block; 0 where it does not.
fn line_of_second(statements: &[Cursor], keyword: &[u8]) -> u32 {
    match only(statements, keyword) {
        Err(fault) if fault.kind == FaultKind::Unexpected => fault.line,
        _ => 0,
    }
}

/// A block, the keyword that each of its statements begins with, if it has any words, and what is asked of them.
#[derive(Clone, Copy)]
struct Block<'a> {
    text: &'a [u8],
    heads: &'a [Option<&'a [u8]>],
    asked: &'a [Asked<'a>],
}

fn check_block(rt: &impl Abort, alloc: Global, block: &Block) {
    let words = words_of(rt, alloc, block.text);
    let mut cursor = Cursor::new(0, &words);
    let statements = cursor.statements(alloc).expect(rt, "memory");
    assert!(rt;
        are_at(&statements, block.heads) && are_answered(&statements, &cursor, block.asked)
    );
}

/// Whether the end of the block is next, and each question is answered so.
fn are_answered(statements: &[Cursor], end: &Cursor, all_asked: &[Asked]) -> bool {
    for asked in all_asked {
        if !is_answered(statements, end, *asked) {
            return false;
        }
    }
    end.is_at(b"END")
}

/// Whether there are as many cursors as heads, and each is at its keyword, or, without one, at its end.
fn are_at(cursors: &[Cursor], heads: &[Option<&[u8]>]) -> bool {
    for (cursor, head) in cursors.iter().zip(heads) {
        let is_there = match head {
            Some(keyword) => cursor.is_at(keyword),
            None => cursor.is_at_end(),
        };
        if !is_there {
            return false;
        }
    }
    cursors.len() == heads.len()
}

#[test]
fn cuts_a_block_into_statements(rt: HostRuntime) {
    static BLOCK: Block = Block {
        text: b"SIZE 1 BY 2 ; ; END",
        heads: &[Some(b"SIZE"), None],
        asked: &[
            Asked::One(b"size"),
            Asked::One(b"SIZE"),
            Asked::None(b"SITE"),
        ],
    };
    check_block(&rt, rt.alloc(), &BLOCK);
}

#[test]
fn refuses_a_second_statement(rt: HostRuntime) {
    static BLOCK: Block = Block {
        text: b"TYPE\na\n;\nType b ; END",
        heads: &[Some(b"TYPE"), Some(b"TYPE")],
        asked: &[Asked::Second(b"TYPE", 4)],
    };
    check_block(&rt, rt.alloc(), &BLOCK);
}

#[test]
fn cuts_a_statement_into_clauses(rt: HostRuntime) {
    static HEADS: [Option<&[u8]>; 3] = [Some(b"-"), Some(b"SOURCE"), Some(b"PLACED")];
    let text = b"- u1 INV + SOURCE DIST + PLACED ( 0 0 ) N ;";
    let words = words_of(&rt, rt.alloc(), text);
    let statement = Cursor::new(0, &words).statement();
    let statement = statement.expect(&rt, "no statement");
    let clauses = clauses(rt.alloc(), &statement).expect(&rt, "memory");
    assert!(rt; are_at(&clauses, &HEADS));
}

#[test]
fn finds_names(rt: HostRuntime) {
    static NAMES: [&[u8]; 3] = [b"m1", b"v1", b"M1"];
    let mut names = Names::new(rt.alloc());
    for name in &NAMES {
        if names.place_of(name).is_none() {
            names.push(name).expect(&rt, "memory");
        }
    }
    assert!(rt; are_found(&names));
}

fn are_found(names: &Names<Global>) -> bool {
    names.len() == 3
        && names.place_of(b"m1") == Some(0)
        && names.place_of(b"M1") == Some(2)
        && names.place_of(b"m2").is_none()
}

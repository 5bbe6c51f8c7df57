//! The words of small texts.

use leg_lex::{LexFault, Token, tokens};
use std::alloc::Global;
use std::process::Abort;

/// A text, and its words, each with its line.
#[derive(Clone, Copy)]
struct Text<'a> {
    text: &'a [u8],
    words: &'a [(&'a [u8], u32)],
}

fn check_words(rt: &impl Abort, alloc: Global, texts: &[Text]) {
    for Text { text, words } in texts {
        let found = tokens(alloc, text).expect(rt, "no words");
        assert!(rt; are_words(&found, words), "{text:?} has {found:?}");
    }
}

fn are_words(found: &[Token], words: &[(&[u8], u32)]) -> bool {
    for (word, expected) in found.iter().zip(words) {
        let (text, line) = *expected;
        if word.text != text || word.line != line {
            return false;
        }
    }
    found.len() == words.len()
}

#[test]
fn words_and_lines(rt: HostRuntime) {
    static TEXTS: [Text; 6] = [
        Text {
            text: b"VIA a;b; \"x # ;\" # rest\nEND",
            words: &[
                (b"VIA", 1),
                (b"a;b", 1),
                (b";", 1),
                (b"\"x # ;\"", 1),
                (b"END", 2),
            ],
        },
        Text {
            text: b"",
            words: &[],
        },
        Text {
            text: b"# only a comment",
            words: &[],
        },
        Text {
            text: b";",
            words: &[(b";", 1)],
        },
        Text {
            text: b"a;;",
            words: &[(b"a;", 1), (b";", 1)],
        },
        Text {
            text: b"a\x0bb\x0cc\td\r\r\ne",
            words: &[(b"a", 1), (b"b", 1), (b"c", 1), (b"d", 1), (b"e", 2)],
        },
    ];
    check_words(&rt, rt.alloc(), &TEXTS);
}

#[test]
fn quoted_words(rt: HostRuntime) {
    static TEXTS: [Text; 5] = [
        Text {
            text: b"\"a\\\"b\"",
            words: &[(b"\"a\\\"b\"", 1)],
        },
        Text {
            text: b"\"a\"b",
            words: &[(b"\"a\"", 1), (b"b", 1)],
        },
        Text {
            text: b"a\"b\"",
            words: &[(b"a\"b\"", 1)],
        },
        Text {
            text: b"\"a\n\" b",
            words: &[(b"\"a\n\"", 1), (b"b", 2)],
        },
        Text {
            text: b"\"\"",
            words: &[(b"\"\"", 1)],
        },
    ];
    check_words(&rt, rt.alloc(), &TEXTS);
}

#[test]
fn unclosed_quotes(rt: HostRuntime) {
    static TEXTS: [&[u8]; 3] = [b"a\n\"\n\" \"\n", b"a\n\n\"b\n;", b"#\n#\n\"\\\"\n"];
    for text in &TEXTS {
        let found = tokens(rt.alloc(), text);
        assert!(rt;
            matches!(found, Err(LexFault::UnclosedString(3))),
            "in {text:?}"
        );
    }
}

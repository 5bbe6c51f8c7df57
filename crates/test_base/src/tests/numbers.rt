//! Numbers by worked values.

use leg_lex::{NumFault, micron, whole};
use std::process::Abort;

/// As what a word is read.
#[derive(Clone, Copy)]
enum Number {
    /// A whole number.
    Whole,
    /// A length, in millionths of a micron.
    Millionths,
    /// A length, in database units of a thousandth of a micron.
    Thousandths,
}

fn value_of(word: &[u8], read_as: Number) -> Result<i64, NumFault> {
    match read_as {
        Number::Whole => whole(word),
        Number::Millionths => Ok(micron(word)?.millionths()),
        Number::Thousandths => micron(word)?.to_units(1000),
    }
}

fn check_numbers(rt: &impl Abort, read_as: Number, answers: &[(&str, Result<i64, NumFault>)]) {
    for (word, answer) in answers {
        assert_eq!(rt; value_of(word.as_bytes(), read_as), *answer, "of {word}");
    }
}

#[test]
fn lengths_at_a_thousand_units(rt: HostRuntime) {
    static ANSWERS: [(&str, Result<i64, NumFault>); 20] = [
        ("0.005", Ok(5)),
        (".5", Ok(500)),
        ("0.5000000", Ok(500)),
        ("5.", Ok(5000)),
        ("+.5", Ok(500)),
        ("-1.25", Ok(-1250)),
        ("-0", Ok(0)),
        ("-0.", Ok(0)),
        ("0.0005", Err(NumFault::NotOnUnit)),
        ("1e3", Err(NumFault::BadNumber)),
        (".", Err(NumFault::BadNumber)),
        ("+.", Err(NumFault::BadNumber)),
        ("1.2.3", Err(NumFault::BadNumber)),
        ("0.0000001", Err(NumFault::BadNumber)),
        ("", Err(NumFault::BadNumber)),
        ("200000.001", Ok(200_000_001)),
        ("2000000", Ok(2_000_000_000)),
        ("-2000000", Ok(-2_000_000_000)),
        ("2000000.001", Err(NumFault::TooLarge)),
        ("-2000000.001", Err(NumFault::TooLarge)),
    ];
    check_numbers(&rt, Number::Thousandths, &ANSWERS);
}

/// What the word denotes at 20,000 units a micron.
fn at_most_units(word: &str) -> Result<i64, NumFault> {
    micron(word.as_bytes())?.to_units(20_000)
}

#[test]
fn lengths_at_the_most_units(rt: HostRuntime) {
    for (word, answer) in [
        ("100000", Ok(2_000_000_000)),
        ("-100000", Ok(-2_000_000_000)),
        ("100000.00005", Err(NumFault::TooLarge)),
        ("100000.00001", Err(NumFault::NotOnUnit)),
        ("2000000000", Err(NumFault::TooLarge)),
        ("-2000000000", Err(NumFault::TooLarge)),
        ("1999999999.999999", Err(NumFault::NotOnUnit)),
    ] {
        assert_eq!(rt; at_most_units(word), answer, "of {word}");
    }
}

#[test]
fn millionths(rt: HostRuntime) {
    static ANSWERS: [(&str, Result<i64, NumFault>); 8] = [
        (".5", Ok(500_000)),
        ("-0.000001", Ok(-1)),
        ("2000000000", Ok(2_000_000_000_000_000)),
        ("-2000000000", Ok(-2_000_000_000_000_000)),
        ("2000000000.000001", Err(NumFault::TooLarge)),
        ("-2000000000.000001", Err(NumFault::TooLarge)),
        ("99999999999999999999", Err(NumFault::TooLarge)),
        ("00000000000000000000000001.0000000", Ok(1_000_000)),
    ];
    check_numbers(&rt, Number::Millionths, &ANSWERS);
}

#[test]
fn whole_numbers(rt: HostRuntime) {
    static ANSWERS: [(&str, Result<i64, NumFault>); 14] = [
        ("-12", Ok(-12)),
        ("+7", Ok(7)),
        ("007", Ok(7)),
        ("2000000000", Ok(2_000_000_000)),
        ("-2000000000", Ok(-2_000_000_000)),
        ("2000000001", Err(NumFault::TooLarge)),
        ("-2000000001", Err(NumFault::TooLarge)),
        (
            "1234567890123456789012345678901234567890",
            Err(NumFault::TooLarge),
        ),
        ("0000000000000000000000000000000000000000", Ok(0)),
        ("", Err(NumFault::BadNumber)),
        ("-", Err(NumFault::BadNumber)),
        ("+-1", Err(NumFault::BadNumber)),
        ("1.0", Err(NumFault::BadNumber)),
        ("1a", Err(NumFault::BadNumber)),
    ];
    check_numbers(&rt, Number::Whole, &ANSWERS);
}

#[test]
fn lengths_compare_by_their_millionths(rt: HostRuntime) {
    let half = micron(b".5");
    assert!(rt; half == micron(b"+0.500000"));
    assert!(rt; half != micron(b"0.500001"));
}

//! The options before a command, by worked lines of words.

use super::words;
use leg_app::{Asked, Command, CompareLine, Line, Masks, Profile, Soft, asked_by};
use std::alloc::{AllocError, Global};

/// What words ask.
#[derive(Clone, Copy)]
enum Expected<'t> {
    /// A check of the DEF `d` and of one LEF, read in the profile.
    Check(Profile),
    /// A comparison of the DEFs `d` and `e` with one LEF, read in the profile.
    Compare(Profile),
    /// Nothing: the line is wrong at this word.
    Wrong(&'t str),
    /// Nothing, and no option is wrong.
    Nothing,
}

fn is_check(line: &Line<'_, Global>, expected: Expected<'_>) -> bool {
    match expected {
        Expected::Check(profile) => {
            line.command == Command::Check
                && line.profile == profile
                && line.def == "d"
                && line.lefs.len() == 1
        }
        _ => false,
    }
}

fn is_comparison(line: &CompareLine<'_, Global>, expected: Expected<'_>) -> bool {
    match expected {
        Expected::Compare(profile) => {
            line.profile == profile
                && line.before == "d"
                && line.after == "e"
                && line.lefs.len() == 1
        }
        _ => false,
    }
}

fn is_wrong(word: &str, expected: Expected<'_>) -> bool {
    match expected {
        Expected::Wrong(expected) => word == expected,
        _ => false,
    }
}

fn do_ask(words: &[String], expected: Expected<'_>) -> bool {
    match asked_by(words) {
        Some(Asked::Files(line)) => is_check(&line, expected),
        Some(Asked::Compare(line)) => is_comparison(&line, expected),
        Some(Asked::WrongOption(word)) => is_wrong(word, expected),
        None => matches!(expected, Expected::Nothing),
        _ => false,
    }
}

// Whether the words of these texts ask this.
fn ask(alloc: Global, texts: &[&str], expected: Expected<'_>) -> bool {
    match words(alloc, texts) {
        Ok(words) => do_ask(&words, expected),
        Err(_) => false,
    }
}

// These words, and behind them a check of two files.
fn before_check(alloc: Global, options: &[&str]) -> Result<Vec<String>, AllocError> {
    let mut words = words(alloc, options)?;
    for text in ["check", "d", "l"] {
        words.push(String::from_str(alloc, text)?)?;
    }
    Ok(words)
}

// Whether a check of two files behind these words asks this.
fn check_asks(alloc: Global, options: &[&str], expected: Expected<'_>) -> bool {
    match before_check(alloc, options) {
        Ok(words) => do_ask(&words, expected),
        Err(_) => false,
    }
}

fn check_in(masks: Masks, soft: Soft) -> Expected<'static> {
    Expected::Check(Profile::Wide { masks, soft })
}

#[test]
fn words_without_options_ask_in_the_narrow_profile(rt: HostRuntime) {
    let check = Expected::Check(Profile::Narrow);
    let compare = Expected::Compare(Profile::Narrow);
    assert!(rt; check_asks(rt.alloc(), &[], check));
    assert!(rt; ask(rt.alloc(), &["compare", "d", "e", "l"], compare));
    assert!(rt; ask(rt.alloc(), &["chek", "d", "l"], Expected::Nothing));
    assert!(rt; ask(rt.alloc(), &["check", "d"], Expected::Nothing));
}

#[test]
fn the_wide_profile_is_asked_for_alone(rt: HostRuntime) {
    let compare = Expected::Compare(Profile::Wide {
        masks: Masks::Refused,
        soft: Soft::Refused,
    });
    assert!(rt;
        check_asks(
            rt.alloc(),
            &["--wide"],
            check_in(Masks::Refused, Soft::Refused)
        )
    );
    assert!(rt; ask(rt.alloc(), &["--wide", "compare", "d", "e", "l"], compare));
    assert!(rt; ask(rt.alloc(), &["--wide", "check", "d"], Expected::Nothing));
    assert!(rt; ask(rt.alloc(), &["--wide"], Expected::Nothing));
}

#[test]
fn masks_are_dropped_in_any_order(rt: HostRuntime) {
    let check = check_in(Masks::Dropped, Soft::Refused);
    assert!(rt; check_asks(rt.alloc(), &["--wide", "--masks", "drop"], check));
    assert!(rt; check_asks(rt.alloc(), &["--masks", "drop", "--wide"], check));
}

#[test]
fn soft_blockages_are_dropped_or_hard_in_any_order(rt: HostRuntime) {
    let dropped = check_in(Masks::Refused, Soft::Dropped);
    let hard = check_in(Masks::Refused, Soft::Hard);
    assert!(rt; check_asks(rt.alloc(), &["--wide", "--soft", "drop"], dropped));
    assert!(rt; check_asks(rt.alloc(), &["--soft", "drop", "--wide"], dropped));
    assert!(rt; check_asks(rt.alloc(), &["--wide", "--soft", "hard"], hard));
    assert!(rt; check_asks(rt.alloc(), &["--soft", "hard", "--wide"], hard));
}

static ALL_OPTIONS: [&[&str]; 6] = [
    &["--wide", "--masks", "drop", "--soft", "hard"],
    &["--wide", "--soft", "hard", "--masks", "drop"],
    &["--masks", "drop", "--wide", "--soft", "hard"],
    &["--masks", "drop", "--soft", "hard", "--wide"],
    &["--soft", "hard", "--wide", "--masks", "drop"],
    &["--soft", "hard", "--masks", "drop", "--wide"],
];

fn each_asks(alloc: Global, lines: &[&[&str]], expected: Expected<'_>) -> bool {
    for options in lines {
        if !check_asks(alloc, options, expected) {
            return false;
        }
    }
    true
}

#[test]
fn all_options_stand_in_any_order(rt: HostRuntime) {
    let check = check_in(Masks::Dropped, Soft::Hard);
    assert!(rt; each_asks(rt.alloc(), &ALL_OPTIONS, check));
}

#[test]
fn options_without_the_wide_profile_are_wrong(rt: HostRuntime) {
    let (masks, soft) = (Expected::Wrong("--masks"), Expected::Wrong("--soft"));
    assert!(rt; check_asks(rt.alloc(), &["--masks", "drop"], masks));
    assert!(rt; check_asks(rt.alloc(), &["--soft", "hard"], soft));
    assert!(rt; check_asks(rt.alloc(), &["--masks", "drop", "--soft", "drop"], masks));
    assert!(rt; check_asks(rt.alloc(), &["--soft", "drop", "--masks", "drop"], soft));
}

#[test]
fn an_option_that_stands_twice_is_wrong(rt: HostRuntime) {
    let (wide, masks) = (Expected::Wrong("--wide"), Expected::Wrong("--masks"));
    assert!(rt; check_asks(rt.alloc(), &["--wide", "--wide"], wide));
    assert!(rt;
        check_asks(
            rt.alloc(),
            &["--masks", "drop", "--wide", "--masks", "drop"],
            masks
        )
    );
}

#[test]
fn words_that_no_option_and_no_command_has_are_wrong(rt: HostRuntime) {
    let (masks, soft) = (Expected::Wrong("--masks"), Expected::Wrong("--soft"));
    let (command, help) = (Expected::Wrong("chek"), Expected::Wrong("--help"));
    assert!(rt; check_asks(rt.alloc(), &["--wide", "--masks", "keep"], masks));
    assert!(rt; check_asks(rt.alloc(), &["--masks", "hard", "--wide"], masks));
    assert!(rt; check_asks(rt.alloc(), &["--wide", "--soft"], soft));
    assert!(rt; ask(rt.alloc(), &["--wide", "chek", "d", "l"], command));
    assert!(rt; ask(rt.alloc(), &["--wide", "--help"], help));
}

//! The words of a command line.

ghost use Rattle.std.specs.Prelude.{◌≡◌, ◌↔◌, IsTrue, map, option_map, string_bytes, IfSome, IfNone};
ghost use Rattle.leg_app_input.specs.Line.{command_named, compare_line_of, line_of, names_command, behind_options, wrong_behind, wrong_option, IsHelpWord, IsVersionWord, Asks, AsksNothing};

use crate::command::Command;
use crate::options::{after_options, names_option, profile_of};
use leg_grammar::Profile;
use std::alloc::Allocator;

/// What the words of a command line ask.
#[derive(Drop)]
pub enum Asked<'a, A: Allocator> {
    /// To check the block of standard input.
    Stream,
    /// What the program can be asked.
    Help,
    /// Which version of the program it is.
    Version,
    /// What differs between two DEFs.
    Compare(CompareLine<'a, A>),
    /// A command on files.
    Files(Line<'a, A>),
    /// Nothing: at this word an option is wrong, or what stands behind the options.
    WrongOption(&'a str),
}

/// A comparison of two DEFs.
#[derive(Drop)]
pub struct CompareLine<'a, A: Allocator> {
    /// The profile in which the texts are read.
    pub profile: Profile,
    /// The word that names the first DEF.
    pub before: &'a str,
    /// The word that names the second DEF.
    pub after: &'a str,
    /// The words that name the LEFs of both, in order: one at least.
    pub lefs: &'a [String<A>],
}

/// A command on files.
#[derive(Drop)]
pub struct Line<'a, A: Allocator> {
    /// The command.
    pub command: Command,
    /// The profile in which the texts are read.
    pub profile: Profile,
    /// The word that names the DEF.
    pub def: &'a str,
    /// The words that name the LEFs, in order: one at least.
    pub lefs: &'a [String<A>],
}

/// What the words after the program's name ask: standard input where there are none, help where the one word is `--help` or `-h`, the
/// version where it is `--version` or `-V`, and else what `compare_line_of` or `line_of` returns of the words behind the options. None
/// where they ask for nothing and no option is wrong. It takes no memory.
pub fn asked_by<A: Allocator>(words: &[String<A>]) -> Option<Asked<'_, A>>
    ensures found { IfSome result (λ asked. Asks (map string_bytes words.now) asked) }
    ensures none { IfNone result (AsksNothing (map string_bytes words.now)) }
{
    match words {
        [] => Some(Asked::Stream),
        [word] if is_help_word(word.as_str()) => Some(Asked::Help),
        [word] if is_version_word(word.as_str()) => Some(Asked::Version),
        _ => asked_behind_options(words),
    }
}

/// What these words ask behind their options.
fn asked_behind_options<A: Allocator>(words: &[String<A>]) -> Option<Asked<'_, A>>
    ensures found { IfSome result (λ asked. Asks (map string_bytes words.now) asked) }
    ensures no_comparison { IfNone result (behind_options compare_line_of (map string_bytes words.now) ≡ None) }
    ensures no_line { IfNone result (behind_options line_of (map string_bytes words.now) ≡ None) }
    ensures no_option { IfNone result (wrong_option (map string_bytes words.now) ≡ None) }
{
    let (options, line) = after_options(words);
    let Some(profile) = profile_of(options) else {
        return Some(Asked::WrongOption(words.first()?.as_str()));
    };
    if let Some(line) = compare_line_of(profile, line) {
        return Some(Asked::Compare(line));
    }
    if let Some(line) = line_of(profile, line) {
        return Some(Asked::Files(line));
    }
    Some(Asked::WrongOption(wrong_behind(options.wide, line)?))
}

/// The first of these words, where it is wrong behind options.
fn wrong_behind<A: Allocator>(wide: bool, words: &[String<A>]) -> Option<&str>
    ensures { option_map (λ word. word.now) result ≡ wrong_behind wide (map string_bytes words.now) }
{
    let word = words.first()?.as_str();
    if (names_option(word) || wide) && !names_command(word) {
        Some(word)
    } else {
        None
    }
}

/// Whether the word names a command.
fn names_command(word: &str) -> bool
    ensures { result ≡ names_command word.now }
{
    command_named(word).is_some() || word == "compare"
}

/// Whether the word asks for help.
fn is_help_word(word: &str) -> bool
    ensures { IsTrue result ↔ IsHelpWord word.now }
{
    word == "--help" || word == "-h"
}

/// Whether the word asks for the program's version.
fn is_version_word(word: &str) -> bool
    ensures { IsTrue result ↔ IsVersionWord word.now }
{
    word == "--version" || word == "-V"
}

/// What the words behind the options ask: `compare`, two DEFs, and one LEF or more, read in this profile. None where the words are others.
/// It takes no memory.
pub fn compare_line_of<A: Allocator>(
    profile: Profile,
    words: &[String<A>],
) -> Option<CompareLine<'_, A>>
    ensures is { option_map (λ line. (line.before.now, line.after.now, map string_bytes line.lefs.now)) result
        ≡ compare_line_of (map string_bytes words.now) }
    ensures profile { IfSome result (λ line. line.profile ≡ profile) }
{
    let [name, before, after, lefs @ ..] = words else {
        return None;
    };
    if lefs.is_empty() || name.as_str() != "compare" {
        return None;
    }
    let before = before.as_str();
    let after = after.as_str();
    Some(CompareLine {
        profile,
        before,
        after,
        lefs,
    })
}

/// What the words behind the options ask: a command's exact name, a DEF, and one LEF or more, read in this profile. None where the words are
/// others. It takes no memory.
pub fn line_of<A: Allocator>(profile: Profile, words: &[String<A>]) -> Option<Line<'_, A>>
    ensures is { option_map (λ line. (line.command, line.def.now, map string_bytes line.lefs.now)) result
        ≡ line_of (map string_bytes words.now) }
    ensures profile { IfSome result (λ line. line.profile ≡ profile) }
{
    let [name, def, lefs @ ..] = words else {
        return None;
    };
    if lefs.is_empty() {
        return None;
    }
    let command = command_named(name.as_str())?;
    let def = def.as_str();
    Some(Line {
        command,
        profile,
        def,
        lefs,
    })
}

fn command_named(name: &str) -> Option<Command>
    ensures { result ≡ command_named name.now }
{
    if name == "check" {
        Some(Command::Check)
    } else if name == "place-check" {
        Some(Command::PlaceCheck)
    } else if name == "measure" {
        Some(Command::Measure)
    } else if name == "legalise" {
        Some(Command::Legalise)
    } else if name == "route" {
        Some(Command::Route)
    } else if name == "flow" {
        Some(Command::Flow)
    } else if name == "finish" {
        Some(Command::Finish)
    } else if name == "print" {
        Some(Command::Print)
    } else {
        None
    }
}

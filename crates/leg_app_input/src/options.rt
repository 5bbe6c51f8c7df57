//! The options before a command: in which profile texts are read.

ghost use Rattle.std.specs.Prelude.{◌≡◌, map, option_map, string_bytes};
ghost use Rattle.leg_app_input.specs.Options.{masks_at, soft_at, with_masks, with_soft, after_option, after_options, profile_of, names_option};

use leg_grammar::{Masks, Profile, Soft};
use std::alloc::Allocator;

/// The options that stand before a command.
#[derive(Clone, Copy)]
pub(crate) struct Options {
    pub(crate) wide: bool,
    pub(crate) masks: Option<Masks>,
    pub(crate) soft: Option<Soft>,
}

/// What the word after `--masks` asks for, and the words behind it.
fn masks_at<A: Allocator>(words: &[String<A>]) -> Option<(Masks, &[String<A>])>
    ensures { option_map (λ taken. (taken.0, map string_bytes taken.1.now)) result ≡ masks_at (map string_bytes words.now) }
{
    let [word, rest @ ..] = words else {
        return None;
    };
    if word.as_str() == "drop" {
        Some((Masks::Dropped, rest))
    } else {
        None
    }
}

/// What the word after `--soft` asks for, and the words behind it.
fn soft_at<A: Allocator>(words: &[String<A>]) -> Option<(Soft, &[String<A>])>
    ensures { option_map (λ taken. (taken.0, map string_bytes taken.1.now)) result ≡ soft_at (map string_bytes words.now) }
{
    let [word, rest @ ..] = words else {
        return None;
    };
    if word.as_str() == "drop" {
        Some((Soft::Dropped, rest))
    } else if word.as_str() == "hard" {
        Some((Soft::Hard, rest))
    } else {
        None
    }
}

/// The option `--masks` with its word, once: else all of these words are left.
fn with_masks<'a, A: Allocator>(
    options: Options,
    words: &'a [String<A>],
    taken: Option<(Masks, &'a [String<A>])>,
) -> (Options, &'a [String<A>])
    ensures { (result.0, map string_bytes result.1.now)
        ≡ with_masks options (map string_bytes words.now) (option_map (λ taken. (taken.0, map string_bytes taken.1.now)) taken.entry) }
{
    match taken {
        Some((masks, rest)) if options.masks.is_none() => (
            Options {
                masks: Some(masks),
                ..options
            },
            rest,
        ),
        _ => (options, words),
    }
}

/// The option `--soft` with its word, once.
fn with_soft<'a, A: Allocator>(
    options: Options,
    words: &'a [String<A>],
    taken: Option<(Soft, &'a [String<A>])>,
) -> (Options, &'a [String<A>])
    ensures { (result.0, map string_bytes result.1.now)
        ≡ with_soft options (map string_bytes words.now) (option_map (λ taken. (taken.0, map string_bytes taken.1.now)) taken.entry) }
{
    match taken {
        Some((soft, rest)) if options.soft.is_none() => (
            Options {
                soft: Some(soft),
                ..options
            },
            rest,
        ),
        _ => (options, words),
    }
}

/// The option that stands first, if one does that may, and the words behind it.
fn after_option<A: Allocator>(options: Options, words: &[String<A>]) -> (Options, &[String<A>])
    ensures { (result.0, map string_bytes result.1.now) ≡ after_option options (map string_bytes words.now) }
{
    let [word, rest @ ..] = words else {
        return (options, words);
    };
    if word.as_str() == "--wide" && !options.wide {
        (
            Options {
                wide: true,
                ..options
            },
            rest,
        )
    } else if word.as_str() == "--masks" {
        with_masks(options, words, masks_at(rest))
    } else if word.as_str() == "--soft" {
        with_soft(options, words, soft_at(rest))
    } else {
        (options, words)
    }
}

/// All options, of which there are three at most, and the words behind them.
pub(crate) fn after_options<A: Allocator>(words: &[String<A>]) -> (Options, &[String<A>])
    ensures { (result.0, map string_bytes result.1.now) ≡ after_options (map string_bytes words.now) }
{
    let none = Options {
        wide: false,
        masks: None,
        soft: None,
    };
    let (first, words) = after_option(none, words);
    let (second, words) = after_option(first, words);
    after_option(second, words)
}

/// The profile that options ask for; none where one stands without `--wide`.
pub(crate) fn profile_of(options: Options) -> Option<Profile>
    ensures { result ≡ profile_of options }
{
    if options.wide {
        return Some(Profile::Wide {
            masks: options.masks.unwrap_or(Masks::Refused),
            soft: options.soft.unwrap_or(Soft::Refused),
        });
    }
    if options.masks.is_some() || options.soft.is_some() {
        return None;
    }
    Some(Profile::Narrow)
}

/// Whether a word names an option.
pub(crate) fn names_option(word: &str) -> bool
    ensures { result ≡ names_option word.now }
{
    word == "--wide" || word == "--masks" || word == "--soft"
}

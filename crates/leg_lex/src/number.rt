//! What a word denotes as a number: a whole number, or a length. Nothing is rounded.

ghost use Rattle.std.specs.Prelude.{◌≡◌, true, false, MatchOption, ◌==◌, ◌-◌, ◌<◌, ◌^◌, min, IsTrue};
ghost use Rattle.std.specs.List.{before_first, after_first, list_all};
ghost use Rattle.std.specs.Str.{all_ascii_digits};
ghost use Rattle.std.specs.Str.Parse.{digits_value_after};
ghost use Rattle.leg_lex.specs.Number.{whole_of, micron_of, is_negative, without_sign, is_point, are_length, millionths_of, signed, within};

use crate::fault::NumFault;
use crate::length::Micron;
use crate::limits::{MILLIONTHS_LIMIT, NUMBER_LIMIT};
use memchr::memchr;

/// Millionths of a micron are written with this many decimals.
const MILLIONTHS_DECIMALS: usize = 6;

/// The whole number that a word denotes: an optional sign and one or more digits.
///
/// `BadNumber` if the word is not of this form, and `TooLarge` beyond `NUMBER_LIMIT` in absolute value.
pub fn whole(word: &[u8]) -> Result<i64, NumFault>
    ensures { result ≡ whole_of word.now }
{
    let (negative, digits) = split_sign(word);
    if digits.is_empty() {
        return Err(NumFault::BadNumber);
    }
    match followed_by(0, digits) {
        Some(magnitude) => within(NUMBER_LIMIT, negative, magnitude),
        None => Err(NumFault::BadNumber),
    }
}

/// The length that a word denotes, in microns: an optional sign, digits, an optional point and digits, of
/// which only zeros may follow the sixth decimal.
///
/// `BadNumber` if the word is not of this form, and `TooLarge` beyond `MILLIONTHS_LIMIT` in absolute value.
pub fn micron(word: &[u8]) -> Result<Micron, NumFault>
    ensures { result ≡ micron_of word.now }
{
    let (negative, digits) = split_sign(word);
    let (microns, decimals) = split_point(digits);
    if !are_length(microns, decimals) {
        return Err(NumFault::BadNumber);
    }
    let millionths = within(MILLIONTHS_LIMIT, negative, millionths_of(microns, decimals))?;
    Ok(Micron::of_millionths(millionths))
}

/// Whether a word begins with a minus, and the word without its sign.
fn split_sign(word: &[u8]) -> (bool, &[u8])
    ensures negative { result.0 ≡ is_negative word.now }
    ensures rest { result.1.now ≡ without_sign word.now }
{
    match word {
        [b'-', rest @ ..] => (true, rest),
        [b'+', rest @ ..] => (false, rest),
        _ => (false, word),
    }
}

/// What comes before the point and after it; without a point, all comes before it.
#[tactic(auto, using(crate::proofs::Points::points))]
fn split_point(digits: &[u8]) -> (&[u8], &[u8])
    ensures before { result.0.now ≡ before_first is_point digits.now }
    ensures after { result.1.now ≡ after_first is_point digits.now }
{
    match memchr(b'.', digits) {
        Some(point) => (&digits[..point], &digits[point + 1..]),
        None => (digits, &[]),
    }
}

/// Whether a length may have this before its point and that after it.
fn are_length(microns: &[u8], decimals: &[u8]) -> bool
    ensures { result ≡ are_length microns.now decimals.now }
{
    let beyond = &decimals[decimals.len().min(MILLIONTHS_DECIMALS)..];
    !(microns.is_empty() && decimals.is_empty())
        && are_digits(microns)
        && are_digits(decimals)
        && are_zeros(beyond)
}

/// The millionths that the digits before and after a point denote, `u64::MAX` where they are more.
#[tactic(auto, using(crate::proofs::Decimals::decimals))]
fn millionths_of(microns: &[u8], decimals: &[u8]) -> u64
    requires microns { IsTrue (all_ascii_digits microns.now) }
    requires decimals { IsTrue (all_ascii_digits decimals.now) }
    ensures { result ≡ min (millionths_of microns.now decimals.now) (2 ^ 64 - 1) }
{
    let kept = decimals.len().min(MILLIONTHS_DECIMALS);
    let zeros = b"000000".as_slice();
    let microns = followed_by(0, microns).unwrap();
    let millionths = followed_by(microns, &decimals[..kept]).unwrap();
    followed_by(millionths, &zeros[kept..]).unwrap()
}

fn are_digits(bytes: &[u8]) -> bool
    ensures { result ≡ all_ascii_digits bytes.now }
{
    bytes.iter().all(|byte| byte.is_ascii_digit())
}

fn are_zeros(bytes: &[u8]) -> bool
    ensures { result ≡ list_all (λ b. b == 48) bytes.now }
{
    bytes.iter().all(|byte| *byte == b'0')
}

/// What is written as `number` and then the digits, `u64::MAX` where it is more, or `None` where another byte is among them.
#[tactic(auto, using(crate::proofs::Digits::digits))]
fn followed_by(mut number: u64, digits: &[u8]) -> Option<u64>
    ensures { MatchOption result (all_ascii_digits digits.now ≡ false)
        (λ value. (all_ascii_digits digits.now ≡ true) × (value ≡ min (digits_value_after 10 number digits.now) (2 ^ 64 - 1))) }
{
    for digit in digits {
        if !digit.is_ascii_digit() {
            return None;
        }
        number = number
            .saturating_mul(10)
            .saturating_add(u64::from(*digit - b'0'));
    }
    Some(number)
}

/// The number with this sign and this magnitude, where that is at most `limit`.
pub(crate) fn within(limit: u64, negative: bool, magnitude: u64) -> Result<i64, NumFault>
    requires { limit < 2 ^ 63 }
    ensures { result ≡ within limit negative magnitude }
{
    if magnitude <= limit {
        Ok(with_sign(negative, magnitude))
    } else {
        Err(NumFault::TooLarge)
    }
}

fn with_sign(negative: bool, magnitude: u64) -> i64
    requires { magnitude < 2 ^ 63 }
    ensures { result ≡ signed negative magnitude }
{
    let number = magnitude as i64;
    if negative { -number } else { number }
}

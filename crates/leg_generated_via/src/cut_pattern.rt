//! Patterns of generated vias (LEF/DEF 5.8, "Vias", "Via").

ghost use Rattle.std.specs.Prelude.{◌≡◌, IfOk, [], map};
ghost use Rattle.leg_lex.specs.Words.{Means};
ghost use Rattle.leg_lex.specs.Until.{over};
ghost use Rattle.leg_grammar.specs.declared.cut_pattern.NextDigit.TheVariants.{Once};
ghost use Rattle.leg_grammar.specs.Def.CutPattern.{hex_digit, more_rows, row_count_of, one_digit, times_of, one_byte, is_whole_row, row_digits_of, one_part, pattern_parts, pattern_of, pattern_of_any, pattern_in, digits_of_row, digit_at, has_bit, has_cut};

use leg_grammar::{CUT_LIMIT, DigitRun, NextDigit};
use leg_lex::{Cursor, FaultKind, ReadFault, only};
use leg_lib_records::Items;
use std::alloc::{AllocError, Allocator};
use std::marker::Model;

/// The value of a hexadecimal digit.
fn hex_digit(byte: u8) -> Option<u8>
    ensures { result ≡ hex_digit byte }
{
    match byte {
        b'0'..=b'9' => Some(byte - 48),
        b'A'..=b'F' => Some(byte - 55),
        b'a'..=b'f' => Some(byte - 87),
        _ => None,
    }
}

/// A hexadecimal number with one more digit, where it is one of rows.
#[tactic(auto, unfolding(leg_grammar::specs::Def::CutPattern::more_rows))]
fn more_rows(number: u16, byte: u8) -> Option<u16>
    ensures { result ≡ more_rows number byte }
{
    let digit = hex_digit(byte)?;
    let longer = u64::from(number) * 16 + u64::from(digit);
    if longer <= CUT_LIMIT {
        Some(longer as u16)
    } else {
        None
    }
}

/// A hexadecimal number of rows.
#[tactic(auto, using(leg_lex::proofs::EachElement::over_ends, crate::proofs::CutPatterns::byte_goes_on, crate::proofs::CutPatterns::byte_fails))]
fn hex_number(bytes: &[u8]) -> Option<u16>
    ensures { result ≡ over more_rows 0 bytes.now }
{
    let mut number = 0;
    for byte in bytes {
        number = more_rows(number, *byte)?;
    }
    Some(number)
}

/// How many rows the same digits are for.
#[tactic(auto, unfolding(leg_grammar::specs::Def::CutPattern::row_count_of))]
fn row_count(bytes: &[u8]) -> Option<u16>
    ensures { result ≡ row_count_of bytes.now }
{
    let count = hex_number(bytes)?;
    if 1 <= count { Some(count) } else { None }
}

/// The digits of a row so far, and what comes next.
#[derive(Drop)]
struct RowSoFar<A: Allocator> {
    runs: Vec<DigitRun, A>,
    next: NextDigit,
}

impl<A: Allocator> Model for RowSoFar<A> {
    ghost use Rattle.leg_grammar.specs.Def.CutPattern.{RowDigits};

    ghost Value = { RowDigits };

    ghost view = { λ r. record { runs = r.runs.items; next = r.next } };
}

/// Adds a digit, which stands so many times. Another byte is `Unexpected`.
#[tactic(auto, unfolding(leg_grammar::specs::Def::CutPattern::one_digit))]
fn one_digit<A: Allocator>(
    row: &mut RowSoFar<A>,
    times: u16,
    byte: u8,
    word: &Cursor<'_, '_>,
) -> Result<(), ReadFault>
    ensures { Means (λ _. row.new) result (one_digit row.old times byte) }
{
    let Some(digit) = hex_digit(byte) else {
        return Err(word.fault(FaultKind::Unexpected));
    };
    row.runs.push(DigitRun { times, digit })?;
    row.next = NextDigit::Once;
    Ok(())
}

/// How often the digit behind `R` stands.
#[tactic(auto, unfolding(leg_grammar::specs::Def::CutPattern::times_of))]
fn times(byte: u8) -> Option<u16>
    ensures { result ≡ times_of byte }
{
    let times = hex_digit(byte)?;
    if 1 <= times {
        Some(u16::from(times))
    } else {
        None
    }
}

/// Reads one more byte of a row. One that does not belong there is `Unexpected`.
#[tactic(auto, unfolding(leg_grammar::specs::Def::CutPattern::byte_for))]
fn one_byte<A: Allocator>(
    row: &mut RowSoFar<A>,
    byte: u8,
    word: &Cursor<'_, '_>,
) -> Result<(), ReadFault>
    ensures { Means (λ _. row.new) result (one_byte row.old byte) }
{
    match row.next {
        NextDigit::Once => {
            if byte == b'R' {
                row.next = NextDigit::Count;
                Ok(())
            } else {
                one_digit(row, 1, byte, word)
            }
        }
        NextDigit::Count => {
            let Some(times) = times(byte) else {
                return Err(word.fault(FaultKind::Unexpected));
            };
            row.next = NextDigit::Times(times);
            Ok(())
        }
        NextDigit::Times(times) => one_digit(row, times, byte, word),
    }
}

/// Reads all bytes of a row.
#[tactic(auto, using(leg_lex::proofs::EachElement::over_ends, crate::proofs::CutPatterns::byte_goes_on, crate::proofs::CutPatterns::byte_fails))]
fn all_bytes<A: Allocator + Copy>(
    alloc: A,
    bytes: &[u8],
    word: &Cursor<'_, '_>,
) -> Result<RowSoFar<A>, ReadFault>
    ensures { Means (λ r. r) result (over one_byte (record { runs = []; next = Once }) bytes.now) }
{
    let mut row = RowSoFar {
        runs: Vec::new(alloc),
        next: NextDigit::Once,
    };
    for byte in bytes {
        one_byte(&mut row, *byte, word)?;
    }
    Ok(row)
}

/// Whether a row may end there.
fn is_whole_row(next: NextDigit) -> bool
    ensures { result ≡ is_whole_row next }
{
    matches!(next, NextDigit::Once)
}

/// The digits of a row. A row of another form is `Unexpected`.
#[tactic(auto, unfolding(leg_grammar::specs::Def::CutPattern::row_digits_of))]
fn row_digits<A: Allocator + Copy>(
    alloc: A,
    bytes: &[u8],
    word: &Cursor<'_, '_>,
) -> Result<Items<DigitRun, A>, ReadFault>
    ensures { Means (λ d. d) result (row_digits_of bytes.now) }
{
    if bytes.is_empty() {
        return Err(word.fault(FaultKind::Unexpected));
    }
    let row = all_bytes(alloc, bytes, word)?;
    if !is_whole_row(row.next) {
        return Err(word.fault(FaultKind::Unexpected));
    }
    Ok(Items::from_vec(row.runs))
}

/// So many rows that have the same digits.
#[derive(Drop)]
pub struct SameRows<A: Allocator> {
    count: u16,
    digits: Items<DigitRun, A>,
}

impl<A: Allocator> Model for SameRows<A> {
    ghost use Rattle.leg_grammar.specs.Def.CutPattern.{PatternRows};

    ghost Value = { PatternRows };

    ghost view = { λ r. record { count = r.count; digits = r.digits } };
}

/// The rows of a pattern so far, and how many come next, where that was read.
#[derive(Drop)]
struct PatternSoFar<A: Allocator> {
    rows: Vec<SameRows<A>, A>,
    count: Option<u16>,
}

impl<A: Allocator> Model for PatternSoFar<A> {
    ghost use Rattle.leg_grammar.specs.Def.CutPattern.{PatternParts};

    ghost Value = { PatternParts };

    ghost view = { λ p. record { rows = p.rows.items; count = p.count } };
}

/// Reads one more part of a pattern: how many rows, or the digits of so many. One of another form is `Unexpected`.
#[tactic(auto, unfolding(leg_grammar::specs::Def::CutPattern::count_or_digits))]
fn one_part<A: Allocator + Copy>(
    alloc: A,
    made: &mut PatternSoFar<A>,
    part: &[u8],
    word: &Cursor<'_, '_>,
) -> Result<(), ReadFault>
    ensures { Means (λ _. made.new) result (one_part made.old part.now) }
{
    match made.count {
        None => {
            let Some(count) = row_count(part) else {
                return Err(word.fault(FaultKind::Unexpected));
            };
            made.count = Some(count);
        }
        Some(count) => {
            let digits = row_digits(alloc, part, word)?;
            made.rows.push(SameRows { count, digits })?;
            made.count = None;
        }
    }
    Ok(())
}

/// The parts of a pattern, which stand between underscores.
fn pattern_parts<'a, A: Allocator + Copy>(
    alloc: A,
    word: &'a [u8],
) -> Result<Vec<&'a [u8], A>, AllocError>
    ensures { IfOk result (λ v. map (λ part. part.now) v.items ≡ pattern_parts word.now) }
{
    word.split(|byte| *byte == b'_').collect(alloc)
}

/// Reads all parts of a pattern.
fn all_parts<A: Allocator + Copy>(
    alloc: A,
    parts: &[&[u8]],
    word: &Cursor<'_, '_>,
) -> Result<PatternSoFar<A>, ReadFault>
    ensures { Means (λ p. p) result (over one_part (record { rows = []; count = None }) (map (λ part. part.now) parts.now)) }
{
    let mut made = PatternSoFar {
        rows: Vec::new(alloc),
        count: None,
    };
    for part in parts {
        one_part(alloc, &mut made, part, word)?;
    }
    Ok(made)
}

/// The rows of a pattern, from the bottom up.
#[tactic(auto, unfolding(leg_grammar::specs::Def::CutPattern::pattern_of))]
fn pattern_of<A: Allocator + Copy>(
    alloc: A,
    bytes: &[u8],
    word: &Cursor<'_, '_>,
) -> Result<Vec<SameRows<A>, A>, ReadFault>
    ensures { Means (λ v. v.items) result (pattern_of bytes.now) }
{
    let parts = pattern_parts(alloc, bytes)?;
    let made = all_parts(alloc, &parts, word)?;
    if made.count.is_some() {
        return Err(word.fault(FaultKind::Unexpected));
    }
    Ok(made.rows)
}

/// The rows of a clause `PATTERN`, if there is one.
#[tactic(auto, unfolding(leg_grammar::specs::Def::CutPattern::pattern_of_any))]
fn pattern_of_any<A: Allocator + Copy>(
    alloc: A,
    clause: Option<Cursor<'_, '_>>,
) -> Result<Option<Items<SameRows<A>, A>>, ReadFault>
    ensures { Means (λ p. p) result (pattern_of_any clause.entry) }
{
    let Some(mut words) = clause else {
        return Ok(None);
    };
    words.keyword(b"PATTERN")?;
    let place = words.again();
    let word = words.name()?;
    words.nothing_more()?;
    let rows = pattern_of(alloc, word, &place)?;
    Ok(Some(Items::from_vec(rows)))
}

/// The rows of the pattern that the clauses give, if they give one.
#[tactic(auto, unfolding(leg_grammar::specs::Def::CutPattern::pattern_in))]
pub fn pattern<A: Allocator + Copy>(
    alloc: A,
    clauses: &[Cursor<'_, '_>],
) -> Result<Option<Items<SameRows<A>, A>>, ReadFault>
    ensures { Means (λ p. p) result (pattern_in clauses.now) }
{
    pattern_of_any(alloc, only(clauses, b"PATTERN")?)
}

/// The digits of the row of this number: none behind the last.
#[tactic(auto, using(crate::proofs::CutPatterns::row_found, crate::proofs::CutPatterns::row_passed, crate::proofs::CutPatterns::row_behind))]
fn digits_of_row<A: Allocator>(rows: &[SameRows<A>], row: u16) -> &[DigitRun]
    ensures { result.now ≡ digits_of_row rows.now row }
{
    let mut left = row;
    for same in rows {
        if left < same.count {
            return same.digits.as_slice();
        }
        left -= same.count;
    }
    &[]
}

/// The digit at this place: 0 behind the last.
#[tactic(auto, using(crate::proofs::CutPatterns::digit_found, crate::proofs::CutPatterns::digit_passed, crate::proofs::CutPatterns::digit_behind))]
fn digit_at(runs: &[DigitRun], place: u16) -> u8
    ensures { result ≡ digit_at runs.now place }
{
    let mut left = place;
    for run in runs {
        if left < run.times {
            return run.digit;
        }
        left -= run.times;
    }
    0
}

/// Whether a digit has a cut in this one of its four columns.
fn has_bit(digit: u8, column: u16) -> bool
    ensures { result ≡ has_bit digit column }
{
    match column {
        0 => 8 <= digit,
        1 => 4 <= digit % 8,
        2 => 2 <= digit % 4,
        _ => digit % 2 == 1,
    }
}

/// Whether there is a cut in this row and this column.
pub(crate) fn has_cut<A: Allocator>(
    pattern: &Option<Items<SameRows<A>, A>>,
    row: u16,
    column: u16,
) -> bool
    ensures { result ≡ has_cut pattern.now row column }
{
    match pattern {
        None => true,
        Some(rows) => {
            let digits = digits_of_row(rows.as_slice(), row);
            has_bit(digit_at(digits, column / 4), column % 4)
        }
    }
}

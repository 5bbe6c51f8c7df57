//! The forms before the sections of a DEF that give one thing each (LEF/DEF 5.8, "DEF Syntax").

ghost use Rattle.std.specs.Prelude.{◌≢◌, Some, ◌≤◌, is_some, IfOk, IfErr};
ghost use Rattle.leg_lex.specs.declared.limits.TheConstants.{UNITS_LIMIT};
ghost use Rattle.leg_lex.specs.declared.read_fault.FaultKind.TheVariants.{Memory};
ghost use Rattle.leg_lex.specs.Words.{Reads, Means};
ghost use Rattle.leg_lex.specs.Past.{past};
ghost use Rattle.leg_grammar.specs.Def.Header.{word_after, design_name_at, microns_at, units_after, units_at, units_in};

use leg_lex::{Cursor, FaultKind, Need, ReadFault, UNITS_LIMIT};

/// The word after this keyword, and its `;`.
#[tactic(auto, unfolding(leg_grammar::specs::Def::Header::word_after))]
pub(crate) fn word_after<'a>(
    keyword: &[u8],
    words: &mut Cursor<'_, 'a>,
) -> Result<&'a [u8], ReadFault>
    ensures { Reads (λ word. word.now) result words.new (word_after keyword.now words.old) }
{
    words.keyword(keyword)?;
    let word = words.word()?;
    words.mark(b';')?;
    Ok(word)
}

/// The name of the design: `DESIGN NAME ;`.
#[tactic(auto, unfolding(leg_grammar::specs::Def::Header::design_name_at))]
pub(crate) fn design_name<'a>(words: &mut Cursor<'_, 'a>) -> Result<&'a [u8], ReadFault>
    ensures { Reads (λ name. name.now) result words.new (design_name_at words.old) }
{
    words.keyword(b"DESIGN")?;
    let name = words.name()?;
    words.mark(b';')?;
    Ok(name)
}

/// `UNITS DISTANCE MICRONS`.
#[tactic(auto, unfolding(leg_grammar::specs::Def::Header::microns_at))]
fn microns(words: &mut Cursor<'_, '_>) -> Result<(), ReadFault>
    ensures reads { Reads (λ x. x) result words.new (microns_at words.old) }
    ensures no_memory { IfErr result (λ fault. fault.kind ≢ Memory) }
{
    words.keyword(b"UNITS")?;
    words.keyword(b"DISTANCE")?;
    words.keyword(b"MICRONS")
}

/// A number of database units, from 1 to `UNITS_LIMIT`, and its `;`. Another number is `TooLarge`.
#[tactic(auto, unfolding(leg_grammar::specs::Def::Header::units_after))]
fn units_after(words: &mut Cursor<'_, '_>) -> Result<u32, ReadFault>
    ensures said { Reads (λ n. n) result words.new (units_after words.old) }
    ensures limits { IfOk result (λ n. (1 ≤ n) × (n ≤ UNITS_LIMIT)) }
    ensures no_memory { IfErr result (λ fault. fault.kind ≢ Memory) }
{
    let number = words.again();
    let n = words.whole()?;
    words.mark(b';')?;
    match u32::try_from(n) {
        Ok(n) if n >= 1 && n <= UNITS_LIMIT => Ok(n),
        _ => Err(number.need(FaultKind::TooLarge, Need::Units)),
    }
}

/// The database units of a micron: `UNITS DISTANCE MICRONS n ;`.
#[tactic(auto, unfolding(leg_grammar::specs::Def::Header::units_at))]
pub(crate) fn units(words: &mut Cursor<'_, '_>) -> Result<u32, ReadFault>
    ensures { Reads (λ n. n) result words.new (units_at words.old) }
{
    microns(words)?;
    units_after(words)
}

/// Whether `UNITS DISTANCE MICRONS` come first.
#[tactic(auto, using(crate::proofs::Microns::no_units, crate::proofs::Microns::no_distance, crate::proofs::Microns::all_but_microns, leg_lex::proofs::Keywords::surely_read))]
fn is_at_microns(words: &Cursor<'_, '_>) -> Result<bool, ReadFault>
    ensures means { Means (λ is. is) result (Some (is_some (microns_at words.now))) }
    ensures no_memory { IfErr result (λ fault. fault.kind ≢ Memory) }
{
    let mut next = words.again();
    if !next.is_at(b"UNITS") {
        return Ok(false);
    }
    next.keyword(b"UNITS")?;
    if !next.is_at(b"DISTANCE") {
        return Ok(false);
    }
    next.keyword(b"DISTANCE")?;
    Ok(next.is_at(b"MICRONS"))
}

/// Reads past everything up to the first `UNITS DISTANCE MICRONS`, and these words.
#[tactic(auto, using(leg_lex::proofs::ReadPast::past_here, leg_lex::proofs::ReadPast::past_later, leg_lex::proofs::ReadPast::past_nowhere, leg_lex::proofs::ReadPast::next_shorter))]
fn past_microns(words: &mut Cursor<'_, '_>) -> Result<(), ReadFault>
    ensures reads { Reads (λ x. x) result words.new (past microns_at words.old) }
    ensures no_memory { IfErr result (λ fault. fault.kind ≢ Memory) }
{
    'words: while !is_at_microns(words)? {
        words.any()?;
    }
    microns(words)
}

/// The database units of a micron, from the first place where `UNITS DISTANCE MICRONS` follow one another.
#[tactic(auto, unfolding(leg_grammar::specs::Def::Header::units_in))]
pub(crate) fn units_anywhere(words: &mut Cursor<'_, '_>) -> Result<u32, ReadFault>
    ensures said { Means (λ n. n) result (units_in words.old) }
    ensures limits { IfOk result (λ n. (1 ≤ n) × (n ≤ UNITS_LIMIT)) }
    ensures no_memory { IfErr result (λ fault. fault.kind ≢ Memory) }
{
    past_microns(words)?;
    units_after(words)
}

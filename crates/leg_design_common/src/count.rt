//! Numbers of at least 0, and of at least 1.

ghost use Rattle.leg_lex.specs.Words.{Reads};
ghost use Rattle.leg_grammar.specs.Def.Count.{count_at};
ghost use Rattle.leg_grammar.specs.Def.ViaArray.{number_from_one};

use leg_lex::{Cursor, FaultKind, Need, ReadFault};

/// A number of at least 0. One below 0 is `TooLarge`.
#[tactic(auto, unfolding(leg_grammar::specs::Def::Count::count_at))]
pub fn count(words: &mut Cursor<'_, '_>) -> Result<i64, ReadFault>
    ensures { Reads (λ z. z) result words.new (count_at words.old) }
{
    let first = words.again();
    let number = words.whole()?;
    if number < 0 {
        return Err(first.need(FaultKind::TooLarge, Need::AtLeast(0)));
    }
    Ok(number)
}

/// A number of at least 1. One below 1 is `TooLarge`.
#[tactic(auto, unfolding(leg_grammar::specs::Def::ViaArray::number_from_one))]
pub fn number_from_one(words: &mut Cursor<'_, '_>) -> Result<u64, ReadFault>
    ensures { Reads (λ n. n) result words.new (number_from_one words.old) }
{
    let first = words.again();
    let number = count(words)?.unsigned_abs();
    if number == 0 {
        return Err(first.need(FaultKind::TooLarge, Need::AtLeast(1)));
    }
    Ok(number)
}

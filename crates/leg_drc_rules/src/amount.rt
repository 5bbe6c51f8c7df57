//! The numbers of rules.

ghost use Rattle.std.specs.Prelude.{IfErr};
ghost use Rattle.leg_lex.specs.Words.{Reads, Means};
ghost use Rattle.leg_drc_rules.specs.Amount.{amount_at, amount_in, amount_of_any};
ghost use Rattle.leg_drc_rules.specs.Fault.{IsNumberOrMemory};

use crate::skip::skip;
use leg_lex::{Cursor, FaultKind, Micron, Need, ReadFault};

/// Reads a length or an area of at least 0. Another word is `BadNumber`, or `TooLarge` below 0 or beyond the limit.
#[tactic(auto, unfolding(crate::specs::Amount::amount_at))]
pub(crate) fn amount(words: &mut Cursor<'_, '_>) -> Result<Micron, ReadFault>
    ensures reads { Reads (λ m. m) result words.new (amount_at words.old) }
    ensures number { IfErr result (λ fault. IsNumberOrMemory fault.kind) }
{
    let number = words.again();
    match words.length() {
        Ok(length) => {
            if length.millionths() < 0 {
                Err(number.need(FaultKind::TooLarge, Need::AtLeast(0)))
            } else {
                Ok(length)
            }
        }
        Err(fault) => match fault.kind {
            FaultKind::TooLarge => Err(fault),
            _ => Err(fault.of_kind(FaultKind::BadNumber).needs(Need::Length)),
        },
    }
}

/// The number that is the second word of a statement.
#[tactic(auto, unfolding(crate::specs::Amount::amount_in))]
fn amount_in(statement: &mut Cursor<'_, '_>) -> Result<Micron, ReadFault>
    ensures means { Means (λ m. m) result (amount_in statement.old) }
    ensures number { IfErr result (λ fault. IsNumberOrMemory fault.kind) }
{
    skip(statement, 1);
    amount(statement)
}

/// The same of a statement that may be missing.
pub(crate) fn amount_of_any(statement: Option<Cursor<'_, '_>>) -> Result<Option<Micron>, ReadFault>
    ensures means { Means (λ m. m) result (amount_of_any statement.entry) }
    ensures number { IfErr result (λ fault. IsNumberOrMemory fault.kind) }
{
    match statement {
        Some(mut statement) => Ok(Some(amount_in(&mut statement)?)),
        None => Ok(None),
    }
}

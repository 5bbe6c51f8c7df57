//! The spacing of a layer (LEF/DEF 5.8, "Layer (Cut)", "Layer (Routing)"; which spacing is taken is lefdef's
//! own rule).

ghost use Rattle.std.specs.Prelude.{◌≡◌};
ghost use Rattle.std.specs.List.{find};
ghost use Rattle.leg_lex.specs.Words.{Means};
ghost use Rattle.leg_grammar.specs.Lef.Layer.{spacing_in, spacing_of_any, is_table, at_row_end, second_in_row, table_value, table_value_of_any, spacing_of};

use crate::layer::first_of_one_word;
use leg_lex::{Cursor, FaultKind, Micron, Need, ReadFault};

/// The spacing that a `SPACING` statement gives, at least 0.
#[tactic(auto, unfolding(leg_grammar::specs::Lef::Layer::spacing_in, leg_grammar::specs::Lef::Layer::length_in))]
fn spacing(statement: &mut Cursor<'_, '_>) -> Result<Micron, ReadFault>
    ensures { Means (λ s. s) result (spacing_in statement.old) }
{
    statement.any()?;
    let number = statement.again();
    let spacing = statement.length()?;
    if spacing.millionths() < 0 {
        Err(number.need(FaultKind::TooLarge, Need::AtLeast(0)))
    } else {
        Ok(spacing)
    }
}

/// The same of a statement that may be missing.
fn spacing_of_any(statement: Option<Cursor<'_, '_>>) -> Result<Option<Micron>, ReadFault>
    ensures { Means (λ s. s) result (spacing_of_any statement.entry) }
{
    match statement {
        Some(mut statement) => Ok(Some(spacing(&mut statement)?)),
        None => Ok(None),
    }
}

/// Whether a statement is a table by parallel run length.
#[tactic(auto, using(crate::proofs::Layers::is_table_of, crate::proofs::Layers::is_no_table))]
fn is_table(statement: &Cursor<'_, '_>) -> bool
    ensures { result ≡ is_table statement.now }
{
    if !statement.is_at(b"SPACINGTABLE") {
        return false;
    }
    let mut words = statement.again();
    words.skip_past(b"SPACINGTABLE");
    words.is_at(b"PARALLELRUNLENGTH")
}

/// The first table by parallel run length.
#[tactic(auto, using(crate::proofs::Layers::found_here, crate::proofs::Layers::found_later, crate::proofs::Layers::found_nowhere))]
fn first_table<'t, 'a>(statements: &[Cursor<'t, 'a>]) -> Option<Cursor<'t, 'a>>
    ensures { result ≡ find is_table statements.now }
{
    for statement in statements {
        if is_table(statement) {
            return Some(statement.again());
        }
    }
    None
}

/// Whether a row of a table ends here.
fn at_row_end(row: &Cursor<'_, '_>) -> bool
    ensures { result ≡ at_row_end row.now }
{
    row.is_at_end() || row.is_at(b"WIDTH")
}

/// The second number of a row of a table, at least 0, if the row has two.
#[tactic(auto, unfolding(leg_grammar::specs::Lef::Layer::second_in_row))]
fn second_in_row(row: &mut Cursor<'_, '_>) -> Result<Option<Micron>, ReadFault>
    ensures { Means (λ s. s) result (second_in_row row.old) }
{
    if at_row_end(row) {
        return Ok(None);
    }
    let _width = row.length()?;
    if at_row_end(row) {
        return Ok(None);
    }
    let second = row.again();
    let spacing = row.length()?;
    if spacing.millionths() < 0 {
        return Err(second.need(FaultKind::TooLarge, Need::AtLeast(0)));
    }
    Ok(Some(spacing))
}

/// The value of a table: that of the row of its first `WIDTH`.
#[tactic(auto, unfolding(leg_grammar::specs::Lef::Layer::table_value))]
fn table_value(statement: &mut Cursor<'_, '_>) -> Result<Option<Micron>, ReadFault>
    ensures { Means (λ s. s) result (table_value statement.old) }
{
    statement.skip_past(b"WIDTH");
    second_in_row(statement)
}

/// The same of a table that may be missing.
fn table_value_of_any(statement: Option<Cursor<'_, '_>>) -> Result<Option<Micron>, ReadFault>
    ensures { Means (λ s. s) result (table_value_of_any statement.entry) }
{
    match statement {
        Some(mut statement) => table_value(&mut statement),
        None => Ok(None),
    }
}

/// The spacing of a layer with these statements.
#[tactic(auto, unfolding(leg_grammar::specs::Lef::Layer::spacing_of))]
pub(crate) fn spacing_of(statements: &[Cursor<'_, '_>]) -> Result<Micron, ReadFault>
    ensures { Means (λ s. s) result (spacing_of statements.now) }
{
    let written = spacing_of_any(first_of_one_word(statements, b"SPACING"))?;
    let tabled = table_value_of_any(first_table(statements))?;
    Ok(written.or(tabled).unwrap_or(Micron::zero()))
}

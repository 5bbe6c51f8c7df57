//! Tables of spacings (LEF/DEF 5.8, "Layer (Routing)", on SPACINGTABLE).

ghost use Rattle.std.specs.Prelude.{◌≡◌, ◌≢◌, [], map, IfErr};
ghost use Rattle.leg_lex.specs.declared.read_fault.FaultKind.TheVariants.{Memory};
ghost use Rattle.leg_lex.specs.Until.{until};
ghost use Rattle.leg_lex.specs.Words.{Reads, Means};
ghost use Rattle.leg_drc_rules.specs.Fault.{IsNumberOrMemory};
ghost use Rattle.leg_drc_rules.specs.Table.{rows_fit, runs_fit, table_form, amounts_at, one_row, at_no_word, rise, table_where_rise, table_in, table_of_any};

use crate::amount::amount;
use crate::raw::{RawTable, RawTableRow};
use crate::skip::skip;
use leg_lex::{Cursor, FaultKind, Micron, ReadFault};
use leg_lib_records::Items;
use std::alloc::Allocator;

/// Whether rows of so many words each stand there, and nothing else: first the words of a row, then `WIDTH` and a row, and
/// so on.
#[tactic(auto, using(crate::proofs::Shapes::row_begins, crate::proofs::Shapes::row_goes_on, crate::proofs::Shapes::no_row_begins, crate::proofs::Shapes::row_ends_early, crate::proofs::Shapes::rows_end, crate::proofs::Shapes::skip_shorter))]
fn rows_fit(row: usize, words: &Cursor<'_, '_>) -> bool
    ensures { result ≡ rows_fit row row words.now }
{
    let mut words = words.again();
    let mut left = row;
    'words: while !words.is_at_end() {
        if left == 0 {
            if !words.is_at(b"WIDTH") {
                return false;
            }
            left = row;
        } else {
            if words.is_at(b"WIDTH") {
                return false;
            }
            left -= 1;
        }
        skip(&mut words, 1);
    }
    left == 0
}

/// Whether runs stand there, and rows with a width and a value for each run.
#[tactic(auto, using(crate::proofs::Shapes::run_more, crate::proofs::Shapes::first_run, crate::proofs::Shapes::no_runs, crate::proofs::Shapes::runs_end, crate::proofs::Shapes::runs_without_rows, crate::proofs::Shapes::skip_shorter))]
fn runs_fit(words: &Cursor<'_, '_>) -> bool
    ensures { result ≡ runs_fit 0 words.now }
{
    let mut rest = words.again();
    'runs: while !rest.is_at_end() && !rest.is_at(b"WIDTH") {
        skip(&mut rest, 1);
    }
    if rest.is_at_end() {
        return false;
    }
    let runs = words.len() - rest.len();
    if runs == 0 {
        return false;
    }
    skip(&mut rest, 1);
    rows_fit(runs + 1, &rest)
}

/// Whether a statement is a table by parallel run length, with any word in the place of a number.
#[tactic(auto, unfolding(crate::specs::Table::table_form))]
pub(crate) fn table_form(statement: &mut Cursor<'_, '_>) -> Result<(), ReadFault>
    ensures means { Means (λ x. x) result (table_form statement.old) }
    ensures no_memory { IfErr result (λ fault. fault.kind ≢ Memory) }
{
    statement.keyword(b"SPACINGTABLE")?;
    statement.keyword(b"PARALLELRUNLENGTH")?;
    if !runs_fit(statement) {
        return Err(statement.fault(FaultKind::Unexpected));
    }
    Ok(())
}

/// Reads the numbers up to the next `WIDTH`, or to the end.
#[tactic(auto, using(crate::proofs::Tables::amounts_end, crate::proofs::Tables::amounts_stop, crate::proofs::Tables::amounts_on, crate::proofs::Tables::amounts_fail, crate::proofs::Tables::amount_shorter), unfolding(crate::specs::Table::amounts_at))]
fn amounts<A: Allocator + Copy>(
    alloc: A,
    words: &mut Cursor<'_, '_>,
) -> Result<Items<Micron, A>, ReadFault>
    ensures reads { Reads (λ v. v) result words.new (amounts_at words.old) }
    ensures number { IfErr result (λ fault. IsNumberOrMemory fault.kind) }
{
    let mut amounts = Vec::new(alloc);
    'amounts: while !words.is_at_end() && !words.is_at(b"WIDTH") {
        amounts.push(amount(words)?)?;
    }
    Ok(Items::from_vec(amounts))
}

/// Reads `WIDTH` and a row.
#[tactic(auto, unfolding(crate::specs::Table::one_row))]
fn one_row<A: Allocator + Copy>(
    alloc: A,
    rows: &mut Vec<RawTableRow<A>, A>,
    words: &mut Cursor<'_, '_>,
) -> Result<(), ReadFault>
    ensures reads { Reads (λ _. rows.new.items) result words.new (one_row rows.old.items words.old) }
    ensures number { IfErr result (λ fault. IsNumberOrMemory fault.kind) }
{
    skip(words, 1);
    let width = amount(words)?;
    let values = amounts(alloc, words)?;
    rows.push(RawTableRow { width, values })?;
    Ok(())
}

/// Reads all rows, up to the end.
#[tactic(auto, using(crate::proofs::Tables::rows_end, crate::proofs::Tables::rows_on, crate::proofs::Tables::rows_fail, crate::proofs::Tables::row_shorter))]
fn rows<A: Allocator + Copy>(
    alloc: A,
    words: &mut Cursor<'_, '_>,
) -> Result<Items<RawTableRow<A>, A>, ReadFault>
    ensures reads { Reads (λ v. v) result words.new (until at_no_word one_row [] words.old) }
    ensures number { IfErr result (λ fault. IsNumberOrMemory fault.kind) }
{
    let mut rows = Vec::new(alloc);
    'rows: while !words.is_at_end() {
        one_row(alloc, &mut rows, words)?;
    }
    Ok(Items::from_vec(rows))
}

/// Whether each run is above the one before it.
fn runs_rise(runs: &[Micron]) -> bool
    ensures { result ≡ rise runs.now }
{
    let mut rest = runs;
    'runs: while let [first, others @ ..] = rest {
        if let [second, ..] = others {
            if second.millionths() <= first.millionths() {
                return false;
            }
        }
        rest = others;
    }
    true
}

/// Whether each row's width is above that of the row before it.
fn widths_rise<A: Allocator>(rows: &[RawTableRow<A>]) -> bool
    ensures { result ≡ rise (map (λ row. row.width) rows.now) }
{
    let mut rest = rows;
    'rows: while let [first, others @ ..] = rest {
        if let [second, ..] = others {
            if second.width.millionths() <= first.width.millionths() {
                return false;
            }
        }
        rest = others;
    }
    true
}

/// The table, if its runs rise and the widths of its rows do.
fn table_where_rise<A: Allocator>(table: RawTable<A>) -> Option<RawTable<A>>
    ensures { result ≡ table_where_rise table }
{
    if runs_rise(table.runs.as_slice()) && widths_rise(table.rows.as_slice()) {
        Some(table)
    } else {
        None
    }
}

/// The table of a statement of this form, if its runs rise and the widths of its rows do.
#[tactic(auto, unfolding(crate::specs::Table::table_in))]
fn table_in<A: Allocator + Copy>(
    alloc: A,
    statement: &mut Cursor<'_, '_>,
) -> Result<Option<RawTable<A>>, ReadFault>
    ensures means { Means (λ t. t) result (table_in statement.old) }
    ensures number { IfErr result (λ fault. IsNumberOrMemory fault.kind) }
{
    skip(statement, 1);
    skip(statement, 1);
    let runs = amounts(alloc, statement)?;
    let rows = rows(alloc, statement)?;
    Ok(table_where_rise(RawTable { runs, rows }))
}

/// The same of a statement that may be missing.
pub(crate) fn table_of_any<A: Allocator + Copy>(
    alloc: A,
    statement: Option<Cursor<'_, '_>>,
) -> Result<Option<RawTable<A>>, ReadFault>
    ensures means { Means (λ t. t) result (table_of_any statement.entry) }
    ensures number { IfErr result (λ fault. IsNumberOrMemory fault.kind) }
{
    match statement {
        Some(mut statement) => table_in(alloc, &mut statement),
        None => Ok(None),
    }
}

//! Lengths, tables and ends of lines in database units: no length is rounded (lefdef's own rule).

ghost use Rattle.std.specs.Prelude.{◌≢◌, ◌≤◌, ℤ, List, Option, IfOk, IfErr};
ghost use Rattle.leg_lib_records.specs.declared.scale_fault.ScaleKind.TheVariants.{Memory};
ghost use Rattle.leg_lib_records.specs.Scale.{IsLengthAt, OneForOne};
ghost use Rattle.leg_drc_rules.specs.declared.records.LineEnd.{LineEnd};
ghost use Rattle.leg_drc_rules.specs.Records.{RowModel, TableModel};
ghost use Rattle.leg_drc_rules.specs.Scale.{IsLengthOr, IsRowAt, IsTableAt, IsAnyTableAt, IsLineEndAt};

use crate::raw::{RawLineEnd, RawTable, RawTableRow};
use crate::records::{LineEnd, Table, TableRow};
use leg_lex::{Micron, NumFault, UNITS_LIMIT};
use leg_lib_records::{Items, ScaleKind};
use std::alloc::Allocator;

/// A length in database units, or another one where it is missing.
pub(crate) fn length_or(length: Option<Micron>, other: i64, n: u32) -> Result<i64, ScaleKind>
    requires above { 1 ≤ n }
    requires within { n ≤ UNITS_LIMIT }
    ensures ok { IfOk result (λ u. IsLengthOr n other length u) }
    ensures none { IfErr result (λ kind. (u : ℤ) → ¬ IsLengthOr n other length u) }
{
    let Some(length) = length else {
        return Ok(other);
    };
    match length.to_units(n) {
        Ok(units) => Ok(units),
        Err(NumFault::NotOnUnit) => Err(ScaleKind::NotOnUnit),
        Err(_) => Err(ScaleKind::TooLarge),
    }
}

/// Lengths in database units.
fn lengths_at<A: Allocator + Copy>(
    alloc: A,
    raw: &[Micron],
    n: u32,
) -> Result<Items<i64, A>, ScaleKind>
    requires above { 1 ≤ n }
    requires within { n ≤ UNITS_LIMIT }
    ensures ok { IfOk result (λ lengths. OneForOne (IsLengthAt n) raw.now lengths) }
    ensures none { IfErr result (λ kind. kind ≢ Memory → (lengths : List ℤ) → ¬ OneForOne (IsLengthAt n) raw.now lengths) }
{
    let mut lengths = Vec::new(alloc);
    for length in raw {
        lengths.push(length_or(Some(*length), 0, n)?)?;
    }
    Ok(Items::from_vec(lengths))
}

/// A row of a table in database units.
fn row_at<A: Allocator + Copy>(
    alloc: A,
    raw: &RawTableRow<A>,
    n: u32,
) -> Result<TableRow<A>, ScaleKind>
    requires above { 1 ≤ n }
    requires within { n ≤ UNITS_LIMIT }
    ensures ok { IfOk result (λ row. IsRowAt n raw.now row) }
    ensures none { IfErr result (λ kind. kind ≢ Memory → (row : RowModel) → ¬ IsRowAt n raw.now row) }
{
    let width = length_or(Some(raw.width), 0, n)?;
    let values = lengths_at(alloc, raw.values.as_slice(), n)?;
    Ok(TableRow { width, values })
}

/// The rows of a table in database units.
fn rows_at<A: Allocator + Copy>(
    alloc: A,
    raw: &[RawTableRow<A>],
    n: u32,
) -> Result<Items<TableRow<A>, A>, ScaleKind>
    requires above { 1 ≤ n }
    requires within { n ≤ UNITS_LIMIT }
    ensures ok { IfOk result (λ rows. OneForOne (IsRowAt n) raw.now rows) }
    ensures none { IfErr result (λ kind. kind ≢ Memory → (rows : List RowModel) → ¬ OneForOne (IsRowAt n) raw.now rows) }
{
    let mut rows = Vec::new(alloc);
    for row in raw {
        rows.push(row_at(alloc, row, n)?)?;
    }
    Ok(Items::from_vec(rows))
}

/// A table in database units.
fn table_at<A: Allocator + Copy>(alloc: A, raw: &RawTable<A>, n: u32) -> Result<Table<A>, ScaleKind>
    requires above { 1 ≤ n }
    requires within { n ≤ UNITS_LIMIT }
    ensures ok { IfOk result (λ table. IsTableAt n raw.now table) }
    ensures none { IfErr result (λ kind. kind ≢ Memory → (table : TableModel) → ¬ IsTableAt n raw.now table) }
{
    let runs = lengths_at(alloc, raw.runs.as_slice(), n)?;
    let rows = rows_at(alloc, raw.rows.as_slice(), n)?;
    Ok(Table { runs, rows })
}

/// The same of a table that may be missing.
#[tactic(auto, using(crate::proofs::Scaling::no_any_table))]
pub(crate) fn any_table_at<A: Allocator + Copy>(
    alloc: A,
    raw: &Option<RawTable<A>>,
    n: u32,
) -> Result<Option<Table<A>>, ScaleKind>
    requires above { 1 ≤ n }
    requires within { n ≤ UNITS_LIMIT }
    ensures ok { IfOk result (λ table. IsAnyTableAt n raw.now table) }
    ensures none { IfErr result (λ kind. kind ≢ Memory → (table : Option TableModel) → ¬ IsAnyTableAt n raw.now table) }
{
    match raw {
        Some(raw) => Ok(Some(table_at(alloc, raw, n)?)),
        None => Ok(None),
    }
}

/// What an end of line needs, in database units.
fn line_end_at(raw: &RawLineEnd, n: u32) -> Result<LineEnd, ScaleKind>
    requires above { 1 ≤ n }
    requires within { n ≤ UNITS_LIMIT }
    ensures ok { IfOk result (λ line_end. IsLineEndAt n raw.now line_end) }
    ensures none { IfErr result (λ kind. (line_end : LineEnd) → ¬ IsLineEndAt n raw.now line_end) }
{
    let spacing = length_or(Some(raw.spacing), 0, n)?;
    let width = length_or(Some(raw.width), 0, n)?;
    let within = length_or(Some(raw.within), 0, n)?;
    Ok(LineEnd {
        spacing,
        width,
        within,
    })
}

/// What ends of lines need, in database units.
pub(crate) fn line_ends_at<A: Allocator + Copy>(
    alloc: A,
    raw: &[RawLineEnd],
    n: u32,
) -> Result<Items<LineEnd, A>, ScaleKind>
    requires above { 1 ≤ n }
    requires within { n ≤ UNITS_LIMIT }
    ensures ok { IfOk result (λ line_ends. OneForOne (IsLineEndAt n) raw.now line_ends) }
    ensures none { IfErr result (λ kind. kind ≢ Memory
        → (line_ends : List LineEnd) → ¬ OneForOne (IsLineEndAt n) raw.now line_ends) }
{
    let mut line_ends = Vec::new(alloc);
    for line_end in raw {
        line_ends.push(line_end_at(line_end, n)?)?;
    }
    Ok(Items::from_vec(line_ends))
}

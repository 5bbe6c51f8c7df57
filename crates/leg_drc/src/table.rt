//! What tables of spacings ask for.

ghost use Rattle.std.specs.Prelude.{◌≡◌, ◌≤◌, option_map, IfSome};
ghost use Rattle.leg_lex.specs.declared.limits.TheConstants.{NUMBER_LIMIT};
ghost use Rattle.leg_drc.specs.Table.{value_behind, value_for, row_behind, table_value, table_spacing, layer_table};
ghost use Rattle.leg_drc.specs.Steps.Reach.{table_reach};

use crate::sides::{lesser_side, parallel_run};
use leg_drc_rules::{DeckRules, LayerRules, Table, TableRow};
use leg_geom::Rect;
use std::alloc::Allocator;

/// The value at the last of these runs that lies below this one; this value where there is none.
fn value_behind(run: i64, value: i64, runs: &[i64], values: &[i64]) -> i64
    ensures { result ≡ value_behind run value runs.now values.now }
{
    let mut found = value;
    for (k, below) in runs.iter().enumerate() {
        if k >= values.len() {
            return found;
        }
        if *below < run {
            found = values[k];
        }
    }
    found
}

/// The value of a row for a run: that of the last run of the table that lies below, else the first.
fn value_for(run: i64, runs: &[i64], values: &[i64]) -> i64
    ensures { result ≡ value_for run runs.now values.now }
{
    match values.first() {
        Some(value) => value_behind(run, *value, runs, values),
        None => 0,
    }
}

/// The last of these rows whose width lies below this one; this row where there is none.
fn row_behind<'t, A: Allocator>(
    width: i64,
    row: &'t TableRow<A>,
    rows: &'t [TableRow<A>],
) -> &'t TableRow<A>
    ensures { result.now ≡ row_behind width row.now rows.now }
{
    let mut found = row;
    for other in rows {
        if other.width < width {
            found = other;
        }
    }
    found
}

/// The value of a table for a width and a run: that of the last row whose width lies below, else of the first.
fn table_value<A: Allocator>(table: &Table<A>, width: i64, run: i64) -> i64
    ensures { result ≡ table_value table.now width run }
{
    match table.rows.as_slice().split_first() {
        Some((row, rows)) => {
            let row = row_behind(width, row, rows);
            value_for(run, table.runs.as_slice(), row.values.as_slice())
        }
        None => 0,
    }
}

/// The distance that a table asks of two rectangles, in database units: by the width of the wider one and by their parallel run.
#[tactic(auto, unfolding(crate::specs::Table::table_spacing))]
pub(crate) fn table_spacing<A: Allocator>(table: &Table<A>, a: &Rect, b: &Rect) -> u64
    ensures is { result ≡ table_spacing table.now a.now b.now }
    ensures within { result ≤ table_reach table.now }
{
    let width = lesser_side(a).max(lesser_side(b));
    table_value(table, width, parallel_run(a, b)).unsigned_abs()
}

/// The table of a layer, of which these are the rules by its number, where they have one.
fn table_among<A: Allocator>(layers: &[LayerRules<A>], layer: usize) -> Option<&Table<A>>
    ensures { option_map (λ table. table.now) result ≡ layer_table (record { grid = None; layers = layers.now }) layer }
{
    layers.get(layer)?.table.as_ref()
}

/// The table of a layer, where its rules have one.
pub(crate) fn layer_table<A: Allocator>(deck: &DeckRules<A>, layer: usize) -> Option<&Table<A>>
    ensures is { option_map (λ table. table.now) result ≡ layer_table deck.now layer }
    ensures within { IfSome result (λ table. table_reach table.now ≤ NUMBER_LIMIT) }
{
    table_among(deck.layers(), layer)
}

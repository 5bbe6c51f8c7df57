//! How far apart two shapes of a layer can be of which a rule of pairs holds.

ghost use Rattle.std.specs.Prelude.{◌≡◌, ℕ, get_or, IfOk};
ghost use Rattle.leg_drc.specs.Steps.Reach.{row_reach, table_reach, table_reach_on, net_spacing_on, cut_reach};
ghost use Rattle.leg_drc.specs.Steps.NearRule.{greatest};

use crate::table::layer_table;
use leg_drc_rules::{DeckRules, Table, TableRow};
use leg_lib_records::{Layer, LayerKind, Library};
use std::alloc::{AllocError, Allocator};

/// The greatest of these, and 0 where there is none.
pub(crate) fn greatest(reaches: &[u32]) -> u32
    ensures { result ≡ greatest reaches.now }
{
    let mut found = 0;
    for reach in reaches {
        found = found.max(*reach);
    }
    found
}

/// The reach of the layer, and 0 beyond the layers.
pub(crate) fn reach_on(reaches: &[u32], layer: usize) -> u32
    ensures { result ≡ get_or reaches.now layer 0 }
{
    match reaches.get(layer) {
        Some(reach) => *reach,
        None => 0,
    }
}

/// The greatest value of a row, in database units.
fn row_reach<A: Allocator>(row: &TableRow<A>) -> u64
    ensures { result ≡ row_reach row.now }
{
    let mut found = 0;
    for value in row.values.as_slice() {
        found = found.max(value.unsigned_abs());
    }
    found
}

/// The greatest distance that a table asks for, in database units.
fn table_reach<A: Allocator>(table: &Table<A>) -> u64
    ensures { result ≡ table_reach table.now }
{
    let mut found = 0;
    for row in table.rows.as_slice() {
        found = found.max(row_reach(row));
    }
    found
}

/// The greatest distance that the table of this layer asks for, in database units, and 0 where the layer has none.
fn table_reach_on<A: Allocator>(deck: &DeckRules<A>, layer: usize) -> u32
    ensures { result ≡ table_reach_on deck.now layer }
{
    match layer_table(deck, layer) {
        Some(table) => table_reach(table) as u32,
        None => 0,
    }
}

/// The spacing within a net on this layer, in database units.
fn net_spacing_on<A: Allocator>(deck: &DeckRules<A>, layer: usize) -> u32
    ensures { result ≡ net_spacing_on deck.now layer }
{
    match deck.layers().get(layer) {
        Some(rules) => rules.net_spacing.unsigned_abs() as u32,
        None => 0,
    }
}

/// The spacing within a net on this layer, in database units, and 0 where it isn't one of cuts.
fn cut_reach<A: Allocator + Copy>(
    library: &Library<'_, A>,
    deck: &DeckRules<A>,
    layer: usize,
) -> u32
    ensures { result ≡ cut_reach library.now deck.now layer }
{
    match library.layers().get(layer) {
        Some(found) if matches!(found.kind, LayerKind::Cut) => net_spacing_on(deck, layer),
        _ => 0,
    }
}

/// For each layer by its number the greatest distance that its table asks for.
pub(crate) fn table_reaches<A: Allocator + Copy>(
    alloc: A,
    deck: &DeckRules<A>,
) -> Result<Vec<u32, A>, AllocError>
    ensures { IfOk result (λ reaches. (layer : ℕ) → get_or reaches.items layer 0 ≡ table_reach_on deck.now layer) }
{
    let mut reaches = Vec::new(alloc);
    for layer in 0..deck.layers().len() {
        reaches.push(table_reach_on(deck, layer))?;
    }
    Ok(reaches)
}

/// For each layer by its number the spacing within a net, where the layer is one of cuts, and 0 elsewhere.
pub(crate) fn cut_reaches<A: Allocator + Copy>(
    alloc: A,
    library: &Library<'_, A>,
    deck: &DeckRules<A>,
) -> Result<Vec<u32, A>, AllocError>
    ensures { IfOk result (λ reaches. (layer : ℕ) → get_or reaches.items layer 0 ≡ cut_reach library.now deck.now layer) }
{
    let mut reaches = Vec::new(alloc);
    for layer in 0..deck.layers().len() {
        reaches.push(cut_reach(library, deck, layer))?;
    }
    Ok(reaches)
}

//! The bands of each layer, and which of them each item is in.

ghost use Rattle.std.specs.Prelude.{◌≡◌, ◌≤◌, ◌<◌, ◌+◌, ◌*◌, ◌/◌, ◌^◌, ◌++◌, length, map, replicate, sum_by, All, IfOk, OnOk};
ghost use Rattle.std.specs.List.{range_with_len};
ghost use Rattle.leg_geom.specs.Plane.{IsRect};
ghost use Rattle.leg_sweep.specs.Steps.Bands.{empty_band, entries_at, AreBandRanges, AreEmpty, AreByLayer};
ghost use Rattle.leg_sweep.specs.Steps.Grid.{bands_at, span_with, range_in, IsSmall, AreSpans, AreBandsOf, IsGrid, BeginsIn, AreBandsBelow};

use crate::band::{Band, BandRange};
use crate::coordinates::offset;
use crate::rule::LayeredRule;
use leg_geom::COORDINATE_LIMIT;
use std::alloc::{AllocError, Allocator};

/// What the items on a layer span along y. A height is above the lowest coordinate.
#[derive(Clone, Copy)]
struct LayerSpan {
    /// How many items there are.
    count: u32,
    /// The heights of the items, added up.
    total: u128,
    /// The height of the lowest bottom edge.
    lowest: u64,
    /// The height of the highest bottom edge.
    highest: u64,
}

/// The bands of a layer, one above the other. The bands of all layers are numbered through.
#[derive(Clone, Copy)]
struct LayerBands {
    /// The number of the lowest band.
    first: u32,
    /// How many bands there are: none on a layer without items.
    count: u32,
    /// How high a band is.
    height: u64,
    /// The height at which the lowest band begins.
    low: u64,
    /// How far above its top edge an item is in bands.
    reach: u64,
}

/// The bands in which each item is, and all bands, in which no item waits yet. The bands of a layer are of one height,
/// and are no other layer's. An item is in three bands at most, on average.
pub(crate) fn ranges_and_bands<R: LayeredRule, A: Allocator + Copy>(
    alloc: A,
    items: &[R::Item],
    rule: &R,
) -> Result<(Vec<BandRange, A>, Vec<Band<A>, A>), AllocError>
    requires few { length items.now < 2 ^ 32 }
    ensures ranges { IfOk result (λ both. AreBandRanges (R.Holds (R.fixed rule.now)) (R.rect_of (R.fixed rule.now)) items.now both.0.items both.1.items) }
    ensures empty { IfOk result (λ both. AreEmpty both.1.items) }
    ensures entries { IfOk result (λ both. sum_by (entries_at both.0.items) (range_with_len 0 (length items.now)) ≤ 3 * length items.now) }
    ensures layers { IfOk result
        (λ both. AreByLayer (map (R.layer_of (R.fixed rule.now)) items.now) (R.layer_reach_of (R.fixed rule.now)) both.0.items both.1.items) }
{
    let spans = layer_spans(alloc, items, rule)?;
    let grid = layer_bands(alloc, rule, &spans)?;
    let ranges = item_ranges(alloc, items, rule, &grid)?;
    let bands = empty_bands(alloc, rule, &grid)?;
    Ok((ranges, bands))
}

/// What the items on each layer span.
fn layer_spans<R: LayeredRule, A: Allocator>(
    alloc: A,
    items: &[R::Item],
    rule: &R,
) -> Result<Vec<LayerSpan, A>, AllocError>
    requires few { length items.now < 2 ^ 32 }
    ensures { let fixed = R.fixed rule.now in
        IfOk result (λ spans. AreSpans (R.rect_of fixed) (R.layer_of fixed) (R.layers_of fixed) items.now spans.items) }
{
    let none = LayerSpan {
        count: 0,
        total: 0,
        lowest: 2 * COORDINATE_LIMIT,
        highest: 0,
    };
    let mut spans = Vec::from_elem(alloc, none, rule.layers())?;
    for item in items {
        let layer = rule.layer(item);
        spans[layer] = with_item(rule, item, spans[layer]);
    }
    Ok(spans)
}

/// What items span together with one more.
fn with_item<R: LayeredRule>(rule: &R, item: &R::Item, span: LayerSpan) -> LayerSpan
    requires room { span.count + 1 < 2 ^ 32 }
    requires small { IsSmall span }
    ensures is { result ≡ span_with span (R.rect_of (R.fixed rule.now) item.now) }
    ensures proper { IsRect (R.rect_of (R.fixed rule.now) item.now) }
{
    let bottom = offset(rule.bottom(item));
    let top = offset(rule.top(item));
    LayerSpan {
        count: span.count + 1,
        total: span.total + u128::from(top - bottom),
        lowest: span.lowest.min(bottom),
        highest: span.highest.max(bottom),
    }
}

/// The bands of each layer, layer after layer.
fn layer_bands<R: LayeredRule, A: Allocator>(
    alloc: A,
    rule: &R,
    spans: &[LayerSpan],
) -> Result<Vec<LayerBands, A>, AllocError>
    requires few { sum_by (λ span. span.count) spans.now < 2 ^ 32 }
    requires small { All IsSmall spans.now }
    ensures { IfOk result (λ grid. IsGrid (R.layer_reach_of (R.fixed rule.now)) (length spans.now) spans.now grid.items) }
{
    let mut grid = Vec::with_capacity(alloc, spans.len())?;
    let mut first = 0;
    for (layer, span) in spans.iter().enumerate() {
        let bands = bands_of(*span, first, rule.layer_reach(layer));
        first += bands.count;
        grid.push(bands)?;
    }
    Ok(grid)
}

/// The bands of a layer whose items have this span. There is a band for each eight items at most, and one more.
fn bands_of(span: LayerSpan, first: u32, reach: u64) -> LayerBands
    requires { IsSmall span }
    ensures { AreBandsOf span first reach result }
{
    let within = reach.min(2 * COORDINATE_LIMIT);
    let spread = span.highest.saturating_sub(span.lowest);
    let height = band_height(span, spread, within);
    let count = if span.count == 0 {
        0
    } else {
        (spread / height) as u32 + 1
    };
    LayerBands {
        first,
        count,
        height,
        low: span.lowest,
        reach: within,
    }
}

/// The height of a layer's bands: twice the average height of the items and the reach, or more where that many bands
/// would be more than one for each eight items.
fn band_height(span: LayerSpan, spread: u64, reach: u64) -> u64
    requires small { IsSmall span }
    requires spread { spread ≤ 2 * COORDINATE_LIMIT }
    requires reach { reach ≤ 2 * COORDINATE_LIMIT }
    ensures tall { 0 < result }
    ensures even { span.total + span.count * reach ≤ span.count * result }
    ensures few { spread / result < span.count / 8 + 1 }
{
    let count = span.count as u64;
    let average = (span.total / u128::from(count.max(1))) as u64;
    let roomy = 2 * (average + 1 + reach);
    let enough = spread / (count / 8 + 1) + 1;
    roomy.max(enough)
}

/// The bands in which each item is.
fn item_ranges<R: LayeredRule, A: Allocator>(
    alloc: A,
    items: &[R::Item],
    rule: &R,
    grid: &[LayerBands],
) -> Result<Vec<BandRange, A>, AllocError>
    requires layers { length grid.now ≡ R.layers_of (R.fixed rule.now) }
    requires begin { All (λ a. BeginsIn (bands_at grid.now (R.layer_of (R.fixed rule.now) a)) (R.rect_of (R.fixed rule.now) a)) items.now }
    ensures { IfOk result (λ ranges. ranges.items
        ≡ map (λ a. range_in (bands_at grid.now (R.layer_of (R.fixed rule.now) a)) (R.rect_of (R.fixed rule.now) a)) items.now) }
{
    let mut ranges = Vec::with_capacity(alloc, items.len())?;
    for item in items {
        let bands = grid[rule.layer(item)];
        ranges.push(range_of(rule, item, bands))?;
    }
    Ok(ranges)
}

/// The bands in which an item is: from that of its bottom edge to that of what lies the reach above its top edge.
fn range_of<R: LayeredRule>(rule: &R, item: &R::Item, bands: LayerBands) -> BandRange
    requires { BeginsIn bands (R.rect_of (R.fixed rule.now) item.now) }
    ensures { result ≡ range_in bands (R.rect_of (R.fixed rule.now) item.now) }
{
    let bottom = offset(rule.bottom(item)) - bands.low;
    let top = offset(rule.top(item)) + bands.reach - bands.low;
    let last = (top / bands.height).min(bands.count as u64 - 1);
    BandRange {
        first: bands.first + (bottom / bands.height) as u32,
        last: bands.first + last as u32,
    }
}

/// All bands, layer after layer. No item waits in them.
fn empty_bands<R: LayeredRule, A: Allocator + Copy>(
    alloc: A,
    rule: &R,
    grid: &[LayerBands],
) -> Result<Vec<Band<A>, A>, AllocError>
    ensures { IfOk result (λ bands. AreBandsBelow (R.layer_reach_of (R.fixed rule.now)) grid.now (length grid.now) bands.items) }
{
    let mut bands = Vec::new(alloc);
    for (layer, of_layer) in grid.iter().enumerate() {
        push_bands(alloc, &mut bands, of_layer.count, rule.layer_reach(layer))?;
    }
    Ok(bands)
}

/// Adds this many bands of this reach, in which no item waits.
fn push_bands<A: Allocator + Copy>(
    alloc: A,
    bands: &mut Vec<Band<A>, A>,
    count: u32,
    reach: u64,
) -> Result<(), AllocError>
    ensures { OnOk result (bands.new.items ≡ bands.old.items ++ replicate count (empty_band reach)) }
{
    for _ in 0..count {
        bands.push(Band::new(alloc, reach))?;
    }
    Ok(())
}

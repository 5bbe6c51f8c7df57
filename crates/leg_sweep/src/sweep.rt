//! A sweep over the items from left to right, past bands in which they wait for one another.

ghost use Rattle.std.specs.Prelude.{◌≡◌, ◌≤◌, ◌<◌, ◌+◌, ◌^◌, length, map, sum_by, All, IfOk, OnOk};
ghost use Rattle.leg_sweep.specs.Counts.{count_pairs};
ghost use Rattle.leg_sweep.specs.Pairs.{TookPairs};
ghost use Rattle.leg_sweep.specs.Steps.Bands.{range_at, entries_at, near_in_band, near_both_in_band, AreBandRanges, AreEmpty};
ghost use Rattle.leg_sweep.specs.Steps.Sweep.{IsLeftToRight};

use crate::band::{Band, BandRange};
use crate::rule::PairRule;
use crate::sink::PairSink;
use crate::visit::visit;
use std::alloc::{AllocError, Allocator};

/// Hands the sink the pairs for which the rule holds. An item waits in its bands until an item comes there whose x gap
/// from it is beyond the reach.
pub(crate) fn sweep<R: PairRule, S: PairSink, A: Allocator + Copy>(
    alloc: A,
    items: &[R::Item],
    rule: &mut R,
    sink: &mut S,
    order: &[u32],
    ranges: &[BandRange],
    bands: &mut [Band<A>],
) -> Result<(), AllocError>
    requires few { length items.now < 2 ^ 32 }
    requires room { length items.now ≤ S.room_of sink.old }
    requires order { IsLeftToRight (map (R.rect_of (R.fixed rule.old)) items.now) order.now }
    requires ranges { AreBandRanges (R.Holds (R.fixed rule.old)) (R.rect_of (R.fixed rule.old)) items.now ranges.now bands.old }
    requires empty { AreEmpty bands.old }
    requires entries { sum_by (entries_at ranges.now) order.now < 2 ^ 62 }
    requires untested { R.tests_of rule.old ≡ 0 }
    requires seen { R.looks_of rule.old ≤ length items.now }
    ensures pairs { OnOk result (TookPairs S.Takes (R.Holds (R.fixed rule.old)) items.now (R.tests_of rule.new) sink.old sink.new) }
    ensures looks { OnOk result (R.tests_of rule.new ≤ R.looks_of rule.new) }
    ensures few_tests { OnOk result (R.tests_of rule.new
        ≤ count_pairs (near_both_in_band (map (R.rect_of (R.fixed rule.old)) items.now) ranges.now bands.old) order.now) }
    ensures few_looks { OnOk result (R.looks_of rule.new ≤ R.looks_of rule.old + sum_by (entries_at ranges.now) order.now
        + count_pairs (near_in_band (map (R.rect_of (R.fixed rule.old)) items.now) ranges.now bands.old) order.now) }
    ensures same { R.fixed rule.new ≡ R.fixed rule.old }
{
    let in_order = ranges_in_order(alloc, order, ranges)?;
    let mut kept = Vec::new(alloc);
    for (i, new) in order.iter().enumerate() {
        visit(items, rule, sink, bands, in_order[i], *new, &mut kept)?;
    }
    Ok(())
}

/// The ranges of the items in this order, one after the other: the sweep reads them so, and goes back and forth in memory
/// for nothing but the items.
fn ranges_in_order<A: Allocator>(
    alloc: A,
    order: &[u32],
    ranges: &[BandRange],
) -> Result<Vec<BandRange, A>, AllocError>
    requires { All (λ x. x < length ranges.now) order.now }
    ensures { IfOk result (λ in_order. in_order.items ≡ map (range_at ranges.now) order.now) }
{
    let mut in_order = Vec::with_capacity(alloc, order.len())?;
    for number in order {
        in_order.push(ranges[*number as usize])?;
    }
    Ok(in_order)
}

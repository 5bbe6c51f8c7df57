//! The pairs of items for which a rule holds, found band by band.

ghost use Rattle.std.specs.Prelude.{◌≡◌, ◌≤◌, ◌<◌, ◌+◌, ◌*◌, ◌^◌, length, IfOk, OnOk};
ghost use Rattle.leg_sweep.specs.Pairs.{ArePairs, TookPairs};
ghost use Rattle.leg_sweep.specs.Counts.{near_on_layer_along_x, near_on_layer, count_pairs};

use crate::crowding::are_crowded;
use crate::few::few_pairs;
use crate::grid::ranges_and_bands;
use crate::left_to_right::left_to_right;
use crate::near_pairs::{are_reaches_short, near_pairs};
use crate::pair_list::sort_pairs;
use crate::rule::LayeredRule;
use crate::sink::PairSink;
use crate::sweep::sweep;
use std::alloc::{AllocError, Allocator};

/// At most this many items are looked at directly: their pairs are no more than four times as many.
const FEW: usize = 9;

/// The pairs of numbers of items for which the rule holds, lower number first, in increasing order, found by a sweep over
/// bands of y on each layer. The rule's counts show afterwards how often it was asked.
pub fn pairs_in_bands<R: LayeredRule, A: Allocator + Copy>(
    alloc: A,
    items: &[R::Item],
    rule: &mut R,
) -> Result<Vec<(u32, u32), A>, AllocError>
    requires few { length items.now < 2 ^ 32 }
    requires untested { R.tests_of rule.old ≡ 0 }
    requires unseen { R.looks_of rule.old ≡ 0 }
    ensures pairs { IfOk result (λ found. ArePairs (R.Holds (R.fixed rule.old)) items.now found.items) }
    ensures tests { IfOk result (λ found. length found.items ≤ R.tests_of rule.new) }
    ensures looks { OnOk result (R.tests_of rule.new ≤ R.looks_of rule.new) }
    ensures few_tests { let fixed = R.fixed rule.old in OnOk result (R.tests_of rule.new
        ≤ count_pairs (near_on_layer (R.rect_of fixed) (R.layer_of fixed) (R.layer_reach_of fixed)) items.now) }
    ensures few_looks { let fixed = R.fixed rule.old in OnOk result (R.looks_of rule.new
        ≤ 4 * length items.now + count_pairs (near_on_layer_along_x (R.rect_of fixed) (R.layer_of fixed) (R.layer_reach_of fixed)) items.now) }
    ensures same { R.fixed rule.new ≡ R.fixed rule.old }
{
    let mut found = Vec::new(alloc);
    search(alloc, items, rule, &mut found)?;
    sort_pairs(&mut found);
    Ok(found)
}

/// Hands the sink each pair that `pairs_in_bands` answers, once, in any order.
pub fn each_pair<R: LayeredRule, S: PairSink, A: Allocator + Copy>(
    alloc: A,
    items: &[R::Item],
    rule: &mut R,
    sink: &mut S,
) -> Result<(), AllocError>
    requires few { length items.now < 2 ^ 32 }
    requires room { length items.now ≤ S.room_of sink.old }
    requires untested { R.tests_of rule.old ≡ 0 }
    requires unseen { R.looks_of rule.old ≡ 0 }
    ensures pairs { OnOk result (TookPairs S.Takes (R.Holds (R.fixed rule.old)) items.now (R.tests_of rule.new) sink.old sink.new) }
    ensures looks { OnOk result (R.tests_of rule.new ≤ R.looks_of rule.new) }
    ensures few_tests { let fixed = R.fixed rule.old in OnOk result (R.tests_of rule.new
        ≤ count_pairs (near_on_layer (R.rect_of fixed) (R.layer_of fixed) (R.layer_reach_of fixed)) items.now) }
    ensures few_looks { let fixed = R.fixed rule.old in OnOk result (R.looks_of rule.new
        ≤ 4 * length items.now + count_pairs (near_on_layer_along_x (R.rect_of fixed) (R.layer_of fixed) (R.layer_reach_of fixed)) items.now) }
    ensures same { R.fixed rule.new ≡ R.fixed rule.old }
{
    search(alloc, items, rule, sink)
}

/// The sweep over the bands of all layers, or, where the bands are crowded, a search among the rectangles near each one. A few
/// items are looked at directly, which needs no memory.
fn search<R: LayeredRule, S: PairSink, A: Allocator + Copy>(
    alloc: A,
    items: &[R::Item],
    rule: &mut R,
    sink: &mut S,
) -> Result<(), AllocError>
    requires few { length items.now < 2 ^ 32 }
    requires room { length items.now ≤ S.room_of sink.old }
    requires untested { R.tests_of rule.old ≡ 0 }
    requires unseen { R.looks_of rule.old ≡ 0 }
    ensures pairs { OnOk result (TookPairs S.Takes (R.Holds (R.fixed rule.old)) items.now (R.tests_of rule.new) sink.old sink.new) }
    ensures looks { OnOk result (R.tests_of rule.new ≤ R.looks_of rule.new) }
    ensures few_tests { let fixed = R.fixed rule.old in OnOk result (R.tests_of rule.new
        ≤ count_pairs (near_on_layer (R.rect_of fixed) (R.layer_of fixed) (R.layer_reach_of fixed)) items.now) }
    ensures few_looks { let fixed = R.fixed rule.old in OnOk result (R.looks_of rule.new
        ≤ 4 * length items.now + count_pairs (near_on_layer_along_x (R.rect_of fixed) (R.layer_of fixed) (R.layer_reach_of fixed)) items.now) }
    ensures same { R.fixed rule.new ≡ R.fixed rule.old }
{
    if items.len() <= FEW {
        return few_pairs(items, rule, sink);
    }
    let order = left_to_right(alloc, items, rule)?;
    let (ranges, mut bands) = ranges_and_bands(alloc, items, rule)?;
    if are_crowded(items, rule, &ranges) && are_reaches_short(rule) {
        return near_pairs(alloc, items, rule, sink, &order);
    }
    sweep(alloc, items, rule, sink, &order, &ranges, &mut bands)?;
    Ok(())
}

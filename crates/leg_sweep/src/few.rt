//! The pairs of a few items, found with no sweep.

ghost use Rattle.std.specs.Prelude.{◌≡◌, ◌≤◌, ◌<◌, ◌+◌, ◌-◌, ◌*◌, ◌^◌, ◌==◌, ◌↔◌, IsTrue, length, take, OnOk, if◌then◌else◌};
ghost use Rattle.std.specs.List.{range_with_len};
ghost use Rattle.leg_sweep.specs.Pairs.{TookPairs};
ghost use Rattle.leg_geom.specs.Pairs.{IsPair};
ghost use Rattle.leg_sweep.specs.Counts.{near_on_layer_along_x, near_on_layer, count_pairs};
ghost use Rattle.leg_sweep.specs.Steps.Sweep.{AreNewPairs};

use crate::rule::LayeredRule;
use crate::sink::PairSink;
use crate::waiting::ask;
use std::alloc::AllocError;

/// Hands the sink the pairs of a few items for which the rule holds: looks at each two of them that lie on one layer.
pub(crate) fn few_pairs<R: LayeredRule, S: PairSink>(
    items: &[R::Item],
    rule: &mut R,
    sink: &mut S,
) -> Result<(), AllocError>
    requires few { length items.now ≤ 9 }
    requires room { length items.now ≤ S.room_of sink.old }
    requires untested { R.tests_of rule.old ≡ 0 }
    requires unseen { R.looks_of rule.old ≡ 0 }
    ensures pairs { OnOk result (TookPairs S.Takes (R.Holds (R.fixed rule.old)) items.now (R.tests_of rule.new) sink.old sink.new) }
    ensures looks { OnOk result (R.tests_of rule.new ≤ R.looks_of rule.new) }
    ensures few_tests { let fixed = R.fixed rule.old in OnOk result (R.tests_of rule.new
        ≤ count_pairs (near_on_layer (R.rect_of fixed) (R.layer_of fixed) (R.layer_reach_of fixed)) items.now) }
    ensures few_looks { let fixed = R.fixed rule.old in OnOk result (R.looks_of rule.new
        ≤ 4 * length items.now + count_pairs (near_on_layer_along_x (R.rect_of fixed) (R.layer_of fixed) (R.layer_reach_of fixed)) items.now) }
    ensures same { R.fixed rule.new ≡ R.fixed rule.old }
{
    for new in 0..items.len() {
        meet_earlier(items, rule, sink, new)?;
    }
    Ok(())
}

/// Hands the sink the pairs that the item with this number makes with those before it. Of these it is tested with the ones
/// that are near it on its layer.
fn meet_earlier<R: LayeredRule, S: PairSink>(
    items: &[R::Item],
    rule: &mut R,
    sink: &mut S,
    new: usize,
) -> Result<(), AllocError>
    requires few { length items.now < 2 ^ 32 }
    requires room { length items.now ≤ S.room_of sink.old }
    requires there { new < length items.now }
    requires counts { R.tests_of rule.old ≤ R.looks_of rule.old }
    requires looks { R.looks_of rule.old + new < 2 ^ 64 }
    ensures found { OnOk result (AreNewPairs S.Takes (IsPair (R.Holds (R.fixed rule.old)) items.now) (range_with_len 0 new) new
        (R.tests_of rule.new - R.tests_of rule.old) sink.old sink.new) }
    ensures tests { let fixed = R.fixed rule.old in let near = near_on_layer (R.rect_of fixed) (R.layer_of fixed) (R.layer_reach_of fixed) in
        OnOk result (R.tests_of rule.new + count_pairs near (take new items.now) ≡ R.tests_of rule.old + count_pairs near (take (new + 1) items.now)) }
    ensures looks { OnOk result (R.looks_of rule.new ≤ R.looks_of rule.old + new) }
    ensures counts { OnOk result (R.tests_of rule.new ≤ R.looks_of rule.new) }
    ensures same { R.fixed rule.new ≡ R.fixed rule.old }
    ensures same_room { S.room_of sink.new ≡ S.room_of sink.old }
{
    let item = &items[new];
    for other in 0..new {
        if ask_on_layer(rule, &items[other], item) {
            sink.take((other as u32, new as u32))?;
        }
    }
    Ok(())
}

/// Whether the rule holds of the two items: on two layers it doesn't, and on one layer this is a look, and a test where both
/// gaps are within the layer's reach.
fn ask_on_layer<R: LayeredRule>(rule: &mut R, a: &R::Item, b: &R::Item) -> bool
    requires tests { R.tests_of rule.old < 2 ^ 64 - 1 }
    requires looks { R.looks_of rule.old < 2 ^ 64 - 1 }
    ensures answer { IsTrue result ↔ R.Holds (R.fixed rule.old) a.now b.now }
    ensures looks { let layer = R.layer_of (R.fixed rule.old) in R.looks_of rule.new
        ≡ R.looks_of rule.old + (if layer a.now == layer b.now then 1 else 0) }
    ensures tests { let fixed = R.fixed rule.old in R.tests_of rule.new ≡ R.tests_of rule.old
        + (if near_on_layer (R.rect_of fixed) (R.layer_of fixed) (R.layer_reach_of fixed) a.now b.now then 1 else 0) }
    ensures tested { IsTrue result → R.tests_of rule.new ≡ R.tests_of rule.old + 1 }
    ensures same { R.fixed rule.new ≡ R.fixed rule.old }
{
    let layer = rule.layer(a);
    if layer != rule.layer(b) {
        return false;
    }
    let reach = rule.layer_reach(layer);
    ask(rule, reach, a, b).1
}

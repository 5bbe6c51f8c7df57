//! The pairs of items, found among the rectangles near each one.

ghost use Rattle.std.specs.Prelude.{◌≡◌, ◌≤◌, ◌<◌, ◌+◌, ◌-◌, ◌*◌, ◌^◌, length, map, take, filter, nat_lt, All, IsTrue, OnOk};
ghost use Rattle.std.specs.List.{range_with_len};
ghost use Rattle.leg_sweep.specs.NearNumbers.{near_numbers};
ghost use Rattle.leg_sweep.specs.Pairs.{TookPairs};
ghost use Rattle.leg_geom.specs.Pairs.{IsPair};
ghost use Rattle.leg_sweep.specs.Counts.{near_on_layer, count_pairs};
ghost use Rattle.leg_sweep.specs.Steps.Cut.{AreCut};
ghost use Rattle.leg_sweep.specs.Steps.Layers.{AreNodesByLayer};
ghost use Rattle.leg_sweep.specs.Steps.Nodes.{IsForest, IsRight};
ghost use Rattle.leg_sweep.specs.Steps.Sweep.{rect_numbered, IsLeftToRight, AreNewPairs};

use crate::bounds::Window;
use crate::cut::cut_rects;
use crate::layer_nodes::{LayerNodes, nodes_by_layer};
use crate::near::Near;
use crate::node::Node;
use crate::rule::LayeredRule;
use crate::sink::PairSink;
use crate::waiting::meet_waiting;
use leg_geom::Rect;
use std::alloc::{AllocError, Allocator};

/// Hands the sink the pairs of items for which the rule holds. Each item is looked at with the earlier ones that are near it on
/// its layer, however many others lie beside it.
pub(crate) fn near_pairs<R: LayeredRule, S: PairSink, A: Allocator + Copy>(
    alloc: A,
    items: &[R::Item],
    rule: &mut R,
    sink: &mut S,
    order: &[u32],
) -> Result<(), AllocError>
    requires some { 0 < length items.now }
    requires few { length items.now < 2 ^ 32 }
    requires room { length items.now ≤ S.room_of sink.old }
    requires short { (layer : _) → layer < R.layers_of (R.fixed rule.old) → R.layer_reach_of (R.fixed rule.old) layer < 2 ^ 32 }
    requires order { IsLeftToRight (map (R.rect_of (R.fixed rule.old)) items.now) order.now }
    requires untested { R.tests_of rule.old ≡ 0 }
    requires seen { R.looks_of rule.old ≤ length items.now }
    ensures pairs { OnOk result (TookPairs S.Takes (R.Holds (R.fixed rule.old)) items.now (R.tests_of rule.new) sink.old sink.new) }
    ensures looks { OnOk result (R.tests_of rule.new ≤ R.looks_of rule.new) }
    ensures few_tests { let fixed = R.fixed rule.old in OnOk result (R.tests_of rule.new
        ≤ count_pairs (near_on_layer (R.rect_of fixed) (R.layer_of fixed) (R.layer_reach_of fixed)) items.now) }
    ensures few_looks { let fixed = R.fixed rule.old in OnOk result (R.looks_of rule.new
        ≤ 2 * length items.now + count_pairs (near_on_layer (R.rect_of fixed) (R.layer_of fixed) (R.layer_reach_of fixed)) items.now) }
    ensures same { R.fixed rule.new ≡ R.fixed rule.old }
{
    let rightmost = order[order.len() - 1] as usize;
    let rects = cut_rects(alloc, items, rule, rightmost)?;
    let layers = nodes_by_layer(alloc, items, rule, &rects)?;
    let mut near = Vec::new(alloc);
    let mut kept = Vec::new(alloc);
    for new in 0..items.len() {
        meet_near(
            items, rule, sink, &rects, &layers, new, &mut near, &mut kept,
        )?;
    }
    Ok(())
}

/// Whether no layer's reach is too long for `near_pairs`.
pub(crate) fn are_reaches_short<R: LayeredRule>(rule: &R) -> bool
    ensures { IsTrue result → (layer : _) → layer < R.layers_of (R.fixed rule.now) → R.layer_reach_of (R.fixed rule.now) layer < 2 ^ 32 }
{
    for layer in 0..rule.layers() {
        if rule.layer_reach(layer) > u64::from(u32::MAX) {
            return false;
        }
    }
    true
}

/// Hands the sink the pairs that the item with this number makes with those before it, of which it looks at the ones that are
/// near on its layer. `near` and `kept` are room to work in.
fn meet_near<R: LayeredRule, S: PairSink, A: Allocator>(
    items: &[R::Item],
    rule: &mut R,
    sink: &mut S,
    rects: &[Rect],
    layers: &[LayerNodes<A>],
    new: usize,
    near: &mut Vec<u32, A>,
    kept: &mut Vec<u32, A>,
) -> Result<(), AllocError>
    requires few { length items.now < 2 ^ 32 }
    requires room { length items.now ≤ S.room_of sink.old }
    requires there { new < length items.now }
    requires short { (layer : _) → layer < R.layers_of (R.fixed rule.old) → R.layer_reach_of (R.fixed rule.old) layer < 2 ^ 32 }
    requires cut { AreCut (R.rect_of (R.fixed rule.old)) items.now rects.now }
    requires layers { AreNodesByLayer rects.now (map (R.layer_of (R.fixed rule.old)) items.now) (R.layers_of (R.fixed rule.old)) layers.now }
    requires counts { R.tests_of rule.old ≤ R.looks_of rule.old }
    requires looks { R.looks_of rule.old + new < 2 ^ 64 }
    ensures found { OnOk result (AreNewPairs S.Takes (IsPair (R.Holds (R.fixed rule.old)) items.now) (range_with_len 0 new) new
        (R.tests_of rule.new - R.tests_of rule.old) sink.old sink.new) }
    ensures tests { OnOk result (R.tests_of rule.old ≤ R.tests_of rule.new) }
    ensures more { OnOk result (R.tests_of rule.new + R.looks_of rule.old ≤ R.tests_of rule.old + R.looks_of rule.new) }
    ensures looks { let fixed = R.fixed rule.old in let near = near_on_layer (R.rect_of fixed) (R.layer_of fixed) (R.layer_reach_of fixed) in
        OnOk result (R.looks_of rule.new + count_pairs near (take new items.now) ≤ R.looks_of rule.old + count_pairs near (take (new + 1) items.now)) }
    ensures same { R.fixed rule.new ≡ R.fixed rule.old }
    ensures same_room { S.room_of sink.new ≡ S.room_of sink.old }
{
    let layer = rule.layer(&items[new]);
    let reach = rule.layer_reach(layer);
    let of_layer = &layers[layer];
    near_before(rects, &of_layer.nodes, new, reach as u32, near)?;
    meet_waiting(items, rule, sink, reach, near, new as u32, kept)?;
    Ok(())
}

/// Puts the numbers of the rectangles in these nodes that come before the one with this number, and are near it, in the place of
/// what was there.
fn near_before<A: Allocator>(
    rects: &[Rect],
    nodes: &[Node],
    new: usize,
    reach: u32,
    near: &mut Vec<u32, A>,
) -> Result<(), AllocError>
    requires there { new < length rects.now }
    requires forest { IsForest nodes.now }
    requires right { All (IsRight rects.now) nodes.now }
    ensures { OnOk result (near.new.items ≡ filter (λ x. nat_lt x new)
        (near_numbers rects.now (rect_numbered rects.now new) reach nodes.now)) }
{
    near.clear();
    let window = Window::around(&rects[new], reach);
    for number in Near::new(rects, nodes, window) {
        if (number as usize) < new {
            near.push(number)?;
        }
    }
    Ok(())
}

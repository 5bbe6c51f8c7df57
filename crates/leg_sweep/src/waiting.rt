//! A new item together with waiting ones.

ghost use Rattle.std.specs.Prelude.{◌≡◌, ◌≤◌, ◌<◌, ◌+◌, ◌-◌, ◌^◌, ◌↔◌, IsTrue, [], length, map, filter, count_by, OnOk, if◌then◌else◌};
ghost use Rattle.leg_geom.specs.Gap.{x_gap, y_gap};
ghost use Rattle.leg_geom.specs.Pairs.{IsPair};
ghost use Rattle.leg_sweep.specs.Counts.{near_along_x, near_along_both};
ghost use Rattle.leg_sweep.specs.Steps.Sweep.{test_at, ordered, AreNewPairs, CanMeet};

use crate::rule::PairRule;
use crate::sink::PairSink;
use std::alloc::{AllocError, Allocator};
use std::mem::swap;

/// Looks at the new item together with each waiting one, and hands the sink the pairs for which the rule holds. Those
/// wait on that are within the reach along x. `kept` is room to work in.
pub(crate) fn meet_waiting<R: PairRule, S: PairSink, A: Allocator>(
    items: &[R::Item],
    rule: &mut R,
    sink: &mut S,
    reach: u64,
    waiting: &mut Vec<u32, A>,
    new: u32,
    kept: &mut Vec<u32, A>,
) -> Result<(), AllocError>
    requires few { length items.now < 2 ^ 32 }
    requires room { length items.now ≤ S.room_of sink.old }
    requires can { CanMeet (R.Holds (R.fixed rule.old)) (R.rect_of (R.fixed rule.old)) items.now reach waiting.old.items new }
    requires counts { R.tests_of rule.old ≤ R.looks_of rule.old }
    requires looks { R.looks_of rule.old + length waiting.old.items < 2 ^ 64 }
    ensures waiting { OnOk result (waiting.new.items
        ≡ filter (λ x. test_at (near_along_x reach) (map (R.rect_of (R.fixed rule.old)) items.now) x new) waiting.old.items) }
    ensures found { OnOk result (AreNewPairs S.Takes (IsPair (R.Holds (R.fixed rule.old)) items.now) waiting.old.items new
        (count_by (λ x. test_at (near_along_both reach) (map (R.rect_of (R.fixed rule.old)) items.now) x new) waiting.old.items) sink.old sink.new) }
    ensures looks { OnOk result (R.looks_of rule.new ≡ R.looks_of rule.old + length waiting.old.items) }
    ensures tests { OnOk result (R.tests_of rule.new ≡ R.tests_of rule.old
        + count_by (λ x. test_at (near_along_both reach) (map (R.rect_of (R.fixed rule.old)) items.now) x new) waiting.old.items) }
    ensures same { R.fixed rule.new ≡ R.fixed rule.old }
    ensures same_room { S.room_of sink.new ≡ S.room_of sink.old }
{
    kept.clear();
    turn(items, rule, sink, reach, waiting, new, kept)?;
    swap(waiting, kept);
    Ok(())
}

/// Looks at the new item together with each waiting one: keeps those within the reach along x, and hands the sink the
/// pairs for which the rule holds.
fn turn<R: PairRule, S: PairSink, A: Allocator>(
    items: &[R::Item],
    rule: &mut R,
    sink: &mut S,
    reach: u64,
    waiting: &[u32],
    new: u32,
    kept: &mut Vec<u32, A>,
) -> Result<(), AllocError>
    requires few { length items.now < 2 ^ 32 }
    requires room { length items.now ≤ S.room_of sink.old }
    requires can { CanMeet (R.Holds (R.fixed rule.old)) (R.rect_of (R.fixed rule.old)) items.now reach waiting.now new }
    requires empty { kept.old.items ≡ [] }
    requires counts { R.tests_of rule.old ≤ R.looks_of rule.old }
    requires looks { R.looks_of rule.old + length waiting.now < 2 ^ 64 }
    ensures kept { OnOk result (kept.new.items
        ≡ filter (λ x. test_at (near_along_x reach) (map (R.rect_of (R.fixed rule.old)) items.now) x new) waiting.now) }
    ensures found { OnOk result (AreNewPairs S.Takes (IsPair (R.Holds (R.fixed rule.old)) items.now) waiting.now new
        (count_by (λ x. test_at (near_along_both reach) (map (R.rect_of (R.fixed rule.old)) items.now) x new) waiting.now) sink.old sink.new) }
    ensures looks { OnOk result (R.looks_of rule.new ≡ R.looks_of rule.old + length waiting.now) }
    ensures tests { OnOk result (R.tests_of rule.new ≡ R.tests_of rule.old
        + count_by (λ x. test_at (near_along_both reach) (map (R.rect_of (R.fixed rule.old)) items.now) x new) waiting.now) }
    ensures same { R.fixed rule.new ≡ R.fixed rule.old }
    ensures same_room { S.room_of sink.new ≡ S.room_of sink.old }
{
    for other in waiting {
        let (near, holds) = ask(rule, reach, &items[*other as usize], &items[new as usize]);
        if near {
            kept.push(*other)?;
        }
        if holds {
            sink.take(lower_first(*other, new))?;
        }
    }
    Ok(())
}

/// Whether the two items are within the reach along x, and whether the rule holds of them: one look, and a
/// test only where both gaps are within the reach.
pub(crate) fn ask<R: PairRule>(rule: &mut R, reach: u64, a: &R::Item, b: &R::Item) -> (bool, bool)
    requires in_reach { R.Holds (R.fixed rule.old) a.now b.now → (x_gap (R.rect_of (R.fixed rule.old) a.now) (R.rect_of (R.fixed rule.old) b.now) ≤ reach)
        × (y_gap (R.rect_of (R.fixed rule.old) a.now) (R.rect_of (R.fixed rule.old) b.now) ≤ reach) }
    requires tests { R.tests_of rule.old < 2 ^ 64 - 1 }
    requires looks { R.looks_of rule.old < 2 ^ 64 - 1 }
    ensures near { result.0 ≡ near_along_x reach (R.rect_of (R.fixed rule.old) a.now) (R.rect_of (R.fixed rule.old) b.now) }
    ensures answer { IsTrue result.1 ↔ R.Holds (R.fixed rule.old) a.now b.now }
    ensures looks { R.looks_of rule.new ≡ R.looks_of rule.old + 1 }
    ensures tests { let rect = R.rect_of (R.fixed rule.old) in R.tests_of rule.new
        ≡ R.tests_of rule.old + (if near_along_both reach (rect a.now) (rect b.now) then 1 else 0) }
    ensures tested { IsTrue result.1 → R.tests_of rule.new ≡ R.tests_of rule.old + 1 }
    ensures same { R.fixed rule.new ≡ R.fixed rule.old }
{
    let (x, y) = rule.gaps(a, b);
    let near = x.unsigned_abs() <= reach;
    (near, near && y.unsigned_abs() <= reach && rule.meets(a, b))
}

/// The two numbers, the lower one first.
fn lower_first(a: u32, b: u32) -> (u32, u32)
    ensures { result ≡ ordered a b }
{
    if a < b { (a, b) } else { (b, a) }
}

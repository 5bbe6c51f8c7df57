//! A new item's visit to its bands, where it meets the items that wait.

ghost use Rattle.std.specs.Prelude.{◌≡◌, ◌≤◌, ◌<◌, ◌+◌, ◌-◌, ◌^◌, length, map, count_by, slice_set, Contains, OnOk};
ghost use Rattle.leg_geom.specs.Pairs.{IsPair};
ghost use Rattle.leg_sweep.specs.Counts.{near_along_x, near_along_both};
ghost use Rattle.leg_sweep.specs.Steps.Bands.{waiting_at, after_begin, after_pass, met, waiting_count, AreVisited, CanVisit};
ghost use Rattle.leg_sweep.specs.Steps.Sweep.{test_at, AreNewPairs, CanMeet};

use crate::band::{Band, BandRange};
use crate::rule::PairRule;
use crate::sink::PairSink;
use crate::waiting::meet_waiting;
use std::alloc::{AllocError, Allocator};

/// Looks at the new item with those that wait in its bands: in its first band with all, and in each other one with
/// those that began there. So two items are looked at in one band only. Hands the sink the pairs for which the rule holds.
/// Those that it looked at wait on where they are within the reach along x, and the new one waits in each of its bands.
pub(crate) fn visit<R: PairRule, S: PairSink, A: Allocator>(
    items: &[R::Item],
    rule: &mut R,
    sink: &mut S,
    bands: &mut [Band<A>],
    range: BandRange,
    new: u32,
    kept: &mut Vec<u32, A>,
) -> Result<(), AllocError>
    requires few { length items.now < 2 ^ 32 }
    requires room { length items.now ≤ S.room_of sink.old }
    requires can { CanVisit (R.Holds (R.fixed rule.old)) (R.rect_of (R.fixed rule.old)) items.now bands.old range.first range.last new }
    requires counts { R.tests_of rule.old ≤ R.looks_of rule.old }
    requires looks { R.looks_of rule.old + length (met bands.old range.first (range.last - range.first)) < 2 ^ 64 }
    ensures visited { let reach = (waiting_at bands.old range.first).reach in
        OnOk result (AreVisited (λ x. test_at (near_along_x reach) (map (R.rect_of (R.fixed rule.old)) items.now) x new)
        range.first range.last new bands.old bands.new) }
    ensures found { let met = met bands.old range.first (range.last - range.first) in let reach = (waiting_at bands.old range.first).reach in
        OnOk result (AreNewPairs S.Takes (IsPair (R.Holds (R.fixed rule.old)) items.now) met new
        (count_by (λ x. test_at (near_along_both reach) (map (R.rect_of (R.fixed rule.old)) items.now) x new) met) sink.old sink.new) }
    ensures looks { OnOk result (R.looks_of rule.new ≡ R.looks_of rule.old + length (met bands.old range.first (range.last - range.first))) }
    ensures tests { let reach = (waiting_at bands.old range.first).reach in OnOk result (R.tests_of rule.new ≡ R.tests_of rule.old
        + count_by (λ x. test_at (near_along_both reach) (map (R.rect_of (R.fixed rule.old)) items.now) x new)
        (met bands.old range.first (range.last - range.first))) }
    ensures left { let met = met bands.old range.first (range.last - range.first) in let reach = (waiting_at bands.old range.first).reach in
        OnOk result (waiting_count bands.new + length met ≡ waiting_count bands.old
        + count_by (λ x. test_at (near_along_x reach) (map (R.rect_of (R.fixed rule.old)) items.now) x new) met + (range.last + 1 - range.first)) }
    ensures same { R.fixed rule.new ≡ R.fixed rule.old }
    ensures same_room { S.room_of sink.new ≡ S.room_of sink.old }
{
    begin(items, rule, sink, bands, range.first as usize, new, kept)?;
    for k in range.first as usize..range.last as usize {
        pass(items, rule, sink, bands, k + 1, new, kept)?;
    }
    Ok(())
}

/// The new item's visit to its first band.
fn begin<R: PairRule, S: PairSink, A: Allocator>(
    items: &[R::Item],
    rule: &mut R,
    sink: &mut S,
    bands: &mut [Band<A>],
    number: usize,
    new: u32,
    kept: &mut Vec<u32, A>,
) -> Result<(), AllocError>
    requires few { length items.now < 2 ^ 32 }
    requires room { length items.now ≤ S.room_of sink.old }
    requires there { number < length bands.old }
    requires begun { let band = waiting_at bands.old number in
        CanMeet (R.Holds (R.fixed rule.old)) (R.rect_of (R.fixed rule.old)) items.now band.reach band.begun new }
    requires passing { let band = waiting_at bands.old number in
        CanMeet (R.Holds (R.fixed rule.old)) (R.rect_of (R.fixed rule.old)) items.now band.reach band.passing new }
    requires apart { (x : _) → Contains (waiting_at bands.old number).begun x → Contains (waiting_at bands.old number).passing x → ⊥ }
    requires counts { R.tests_of rule.old ≤ R.looks_of rule.old }
    requires looks { R.looks_of rule.old + length (met bands.old number 0) < 2 ^ 64 }
    ensures bands { let band = waiting_at bands.old number in OnOk result (bands.new
        ≡ slice_set bands.old number (after_begin (λ x. test_at (near_along_x band.reach) (map (R.rect_of (R.fixed rule.old)) items.now) x new) new band)) }
    ensures found { let met = met bands.old number 0 in let reach = (waiting_at bands.old number).reach in
        OnOk result (AreNewPairs S.Takes (IsPair (R.Holds (R.fixed rule.old)) items.now) met new
        (count_by (λ x. test_at (near_along_both reach) (map (R.rect_of (R.fixed rule.old)) items.now) x new) met) sink.old sink.new) }
    ensures looks { OnOk result (R.looks_of rule.new ≡ R.looks_of rule.old + length (met bands.old number 0)) }
    ensures tests { let reach = (waiting_at bands.old number).reach in OnOk result (R.tests_of rule.new ≡ R.tests_of rule.old
        + count_by (λ x. test_at (near_along_both reach) (map (R.rect_of (R.fixed rule.old)) items.now) x new) (met bands.old number 0)) }
    ensures same { R.fixed rule.new ≡ R.fixed rule.old }
    ensures same_room { S.room_of sink.new ≡ S.room_of sink.old }
{
    let band = &mut bands[number];
    meet_waiting(items, rule, sink, band.reach, &mut band.begun, new, kept)?;
    meet_waiting(items, rule, sink, band.reach, &mut band.passing, new, kept)?;
    band.begun.push(new)?;
    Ok(())
}

/// The new item's visit to a band that is not its first one.
fn pass<R: PairRule, S: PairSink, A: Allocator>(
    items: &[R::Item],
    rule: &mut R,
    sink: &mut S,
    bands: &mut [Band<A>],
    number: usize,
    new: u32,
    kept: &mut Vec<u32, A>,
) -> Result<(), AllocError>
    requires few { length items.now < 2 ^ 32 }
    requires room { length items.now ≤ S.room_of sink.old }
    requires there { number < length bands.old }
    requires begun { let band = waiting_at bands.old number in
        CanMeet (R.Holds (R.fixed rule.old)) (R.rect_of (R.fixed rule.old)) items.now band.reach band.begun new }
    requires counts { R.tests_of rule.old ≤ R.looks_of rule.old }
    requires looks { R.looks_of rule.old + length (waiting_at bands.old number).begun < 2 ^ 64 }
    ensures bands { let band = waiting_at bands.old number in OnOk result (bands.new
        ≡ slice_set bands.old number (after_pass (λ x. test_at (near_along_x band.reach) (map (R.rect_of (R.fixed rule.old)) items.now) x new) new band)) }
    ensures found { let band = waiting_at bands.old number in
        OnOk result (AreNewPairs S.Takes (IsPair (R.Holds (R.fixed rule.old)) items.now) band.begun new
        (count_by (λ x. test_at (near_along_both band.reach) (map (R.rect_of (R.fixed rule.old)) items.now) x new) band.begun) sink.old sink.new) }
    ensures looks { OnOk result (R.looks_of rule.new ≡ R.looks_of rule.old + length (waiting_at bands.old number).begun) }
    ensures tests { let band = waiting_at bands.old number in OnOk result (R.tests_of rule.new ≡ R.tests_of rule.old
        + count_by (λ x. test_at (near_along_both band.reach) (map (R.rect_of (R.fixed rule.old)) items.now) x new) band.begun) }
    ensures same { R.fixed rule.new ≡ R.fixed rule.old }
    ensures same_room { S.room_of sink.new ≡ S.room_of sink.old }
{
    let band = &mut bands[number];
    meet_waiting(items, rule, sink, band.reach, &mut band.begun, new, kept)?;
    band.passing.push(new)?;
    Ok(())
}

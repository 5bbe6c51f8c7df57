//! The pairs of items for which a rule holds.

ghost use Rattle.std.specs.Prelude.{◌≡◌, ◌≤◌, ◌<◌, ◌+◌, ◌^◌, [], ◌∷◌, length, map, replicate, IfOk, OnOk, IsPermutation, IsSorted};
ghost use Rattle.leg_sweep.specs.Pairs.{ArePairs};
ghost use Rattle.leg_sweep.specs.Counts.{near_along_x, near_along_both, count_pairs};
ghost use Rattle.leg_sweep.specs.Steps.Bands.{empty_band};
ghost use Rattle.leg_sweep.specs.Steps.Sweep.{pair_cmp};

use crate::band::{Band, BandRange};
use crate::left_to_right::left_to_right;
use crate::rule::PairRule;
use crate::sweep::sweep;
use std::alloc::{AllocError, Allocator};
use std::marker::Model;

/// Pairs of numbers of items, the lower number first.
#[derive(Drop)]
pub struct PairList<A: Allocator> {
    pairs: Vec<(u32, u32), A>,
}

impl<A: Allocator> Model for PairList<A> {
    ghost use Rattle.std.specs.Prelude.{ℕ, List};

    ghost Value = { List (ℕ × ℕ) };

    ghost view = { λ l. l.pairs.items };
}

impl<A: Allocator> PairList<A> {
    /// The pairs in their order.
    pub fn as_slice(&self) -> &[(u32, u32)]
        ensures { result.now ≡ self.now }
    {
        &self.pairs
    }

    /// The pairs alone.
    pub fn into_vec(self) -> Vec<(u32, u32), A>
        ensures { result.items ≡ self }
    {
        self.pairs
    }
}

/// The pairs of a rule, and how often it was asked for them.
#[derive(Drop)]
pub struct Found<A: Allocator> {
    /// The pairs, in increasing order.
    pub pairs: PairList<A>,
    /// How many tests were made.
    pub tests: u64,
    /// How many looks were taken.
    pub looks: u64,
}

/// The pairs of numbers of items for which the rule holds, lower number first, in increasing order. The
/// rule's counts show afterwards how often it was asked.
pub fn pairs<R: PairRule, A: Allocator + Copy>(
    alloc: A,
    items: &[R::Item],
    rule: &mut R,
) -> Result<Vec<(u32, u32), A>, AllocError>
    requires few { length items.now < 2 ^ 32 }
    requires untested { R.tests_of rule.old ≡ 0 }
    requires unseen { R.looks_of rule.old ≡ 0 }
    ensures pairs { IfOk result (λ found. ArePairs (R.Holds (R.fixed rule.old)) items.now found.items) }
    ensures tests { IfOk result (λ found. length found.items ≤ R.tests_of rule.new) }
    ensures looks { OnOk result (R.tests_of rule.new ≤ R.looks_of rule.new) }
    ensures few_tests { OnOk result (R.tests_of rule.new
        ≤ count_pairs (near_along_both (R.reach_of (R.fixed rule.old))) (map (R.rect_of (R.fixed rule.old)) items.now)) }
    ensures few_looks { OnOk result (R.looks_of rule.new
        ≤ length items.now + count_pairs (near_along_x (R.reach_of (R.fixed rule.old))) (map (R.rect_of (R.fixed rule.old)) items.now)) }
    ensures same { R.fixed rule.new ≡ R.fixed rule.old }
{
    let found = pairs_counted(alloc, items, rule)?;
    Ok(found.pairs.into_vec())
}

/// The pairs as `pairs` answers them, with the rule's counts.
pub fn pairs_counted<R: PairRule, A: Allocator + Copy>(
    alloc: A,
    items: &[R::Item],
    rule: &mut R,
) -> Result<Found<A>, AllocError>
    requires few { length items.now < 2 ^ 32 }
    requires untested { R.tests_of rule.old ≡ 0 }
    requires unseen { R.looks_of rule.old ≡ 0 }
    ensures pairs { IfOk result (λ found. ArePairs (R.Holds (R.fixed rule.old)) items.now found.pairs) }
    ensures tests_told { IfOk result (λ found. found.tests ≡ R.tests_of rule.new) }
    ensures looks_told { IfOk result (λ found. found.looks ≡ R.looks_of rule.new) }
    ensures tests { IfOk result (λ found. length found.pairs ≤ R.tests_of rule.new) }
    ensures looks { OnOk result (R.tests_of rule.new ≤ R.looks_of rule.new) }
    ensures few_tests { OnOk result (R.tests_of rule.new
        ≤ count_pairs (near_along_both (R.reach_of (R.fixed rule.old))) (map (R.rect_of (R.fixed rule.old)) items.now)) }
    ensures few_looks { OnOk result (R.looks_of rule.new
        ≤ length items.now + count_pairs (near_along_x (R.reach_of (R.fixed rule.old))) (map (R.rect_of (R.fixed rule.old)) items.now)) }
    ensures same { R.fixed rule.new ≡ R.fixed rule.old }
{
    let order = left_to_right(alloc, items, rule)?;
    let ranges = lowest_ranges(alloc, items.len())?;
    let mut bands = one_band(alloc, reach_of(rule))?;
    let mut pairs = Vec::new(alloc);
    sweep(alloc, items, rule, &mut pairs, &order, &ranges, &mut bands)?;
    sort_pairs(&mut pairs);
    Ok(Found {
        pairs: PairList { pairs },
        tests: rule.tests(),
        looks: rule.looks(),
    })
}

/// The reach of the rule.
fn reach_of<R: PairRule>(rule: &R) -> u64
    ensures { result ≡ R.reach_of (R.fixed rule.now) }
{
    rule.reach().unsigned_abs()
}

/// For each of this many items the lowest band alone.
fn lowest_ranges<A: Allocator>(alloc: A, count: usize) -> Result<Vec<BandRange, A>, AllocError>
    ensures { IfOk result (λ ranges. ranges.items ≡ replicate count (record { first = 0; last = 0 })) }
{
    Vec::from_elem(alloc, BandRange { first: 0, last: 0 }, count)
}

/// A single band of this reach, for all items.
fn one_band<A: Allocator + Copy>(alloc: A, reach: u64) -> Result<Vec<Band<A>, A>, AllocError>
    ensures { IfOk result (λ bands. bands.items ≡ empty_band reach ∷ []) }
{
    let mut bands = Vec::new(alloc);
    bands.push(Band::new(alloc, reach))?;
    Ok(bands)
}

/// Puts the pairs in increasing order.
pub(crate) fn sort_pairs<A: Allocator>(pairs: &mut Vec<(u32, u32), A>)
    ensures moved { IsPermutation pairs.old.items pairs.new.items }
    ensures count { length pairs.new.items ≡ length pairs.old.items }
    ensures sorted { IsSorted pair_cmp pairs.new.items }
{
    pairs.sort_unstable();
}

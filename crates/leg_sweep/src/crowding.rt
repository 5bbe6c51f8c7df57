//! Whether so many items wait in the bands that most looks of a sweep are in vain.

ghost use Rattle.std.specs.Prelude.{◌≡◌, ◌≤◌, ◌<◌, ◌+◌, ◌-◌, ◌^◌, length};

use crate::band::BandRange;
use crate::rule::LayeredRule;

/// How many looks an item takes, on average, where bands are crowded. With fewer a sweep is faster than an index.
const MANY_LOOKS: u64 = 128;

/// For how many items one pair is looked at.
const ITEMS_A_TRY: usize = 32;

/// Whether a sweep would take many looks, judged by some pairs taken at random. Only the time of a search depends on the
/// answer.
pub(crate) fn are_crowded<R: LayeredRule>(
    items: &[R::Item],
    rule: &mut R,
    ranges: &[BandRange],
) -> bool
    requires some { 0 < length items.now }
    requires few { length items.now < 2 ^ 32 }
    requires all { length ranges.now ≡ length items.now }
    requires unseen { R.looks_of rule.old ≡ 0 }
    ensures looks { R.looks_of rule.new ≤ length items.now }
    ensures tests { R.tests_of rule.new ≡ R.tests_of rule.old }
    ensures same { R.fixed rule.new ≡ R.fixed rule.old }
{
    let tries = items.len() / ITEMS_A_TRY;
    let mut seed = 0u64;
    let mut near = 0u64;
    for _ in 0..tries {
        let first = after(seed);
        seed = after(first);
        let (a, b) = (
            place_below(items.len(), first),
            place_below(items.len(), seed),
        );
        if share_band(ranges[a], ranges[b]) && are_near(rule, &items[a], &items[b]) {
            near += 1;
        }
    }
    near * items.len() as u64 > 2 * MANY_LOOKS * tries as u64
}

/// The next of a row of numbers that look random.
fn after(seed: u64) -> u64 {
    seed.wrapping_mul(6_364_136_223_846_793_005)
        .wrapping_add(1_442_695_040_888_963_407)
}

/// A place in a list of this length, by the upper bits of a number that looks random: the lower ones repeat soon.
fn place_below(length: usize, number: u64) -> usize
    requires { 0 < length }
    ensures { result < length }
{
    (number >> 32) as usize % length
}

/// Whether there is a band in both ranges.
fn share_band(a: BandRange, b: BandRange) -> bool {
    a.first <= b.last && b.first <= a.last
}

/// Whether the x gap of two items of a layer is within its reach. A look.
fn are_near<R: LayeredRule>(rule: &mut R, a: &R::Item, b: &R::Item) -> bool
    requires { R.looks_of rule.old < 2 ^ 64 - 1 }
    ensures looks { R.looks_of rule.new ≡ R.looks_of rule.old + 1 }
    ensures tests { R.tests_of rule.new ≡ R.tests_of rule.old }
    ensures same { R.fixed rule.new ≡ R.fixed rule.old }
{
    let layer = rule.layer(a);
    let reach = rule.layer_reach(layer);
    rule.gaps(a, b).0.unsigned_abs() <= reach
}

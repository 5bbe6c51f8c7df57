//! How sites are taken away from a row's free sites, in place.

ghost use Rattle.std.specs.Prelude.{◌≡◌, ◌<◌, ◌≤◌, [], ◌∷◌, ◌++◌, ◌+◌, ◌-◌, length, take, drop, vec_len, OnOk, OnErr};
ghost use Rattle.leg_legal_sites.specs.Steps.Stretches.{AreFreeStretches, IsWithout};
ghost use Rattle.leg_legal_sites.specs.Steps.TakeSites.{IsFirstEndBeyond, IsCutAt, if_any, with_rests, IsPutLeft, IsPutRight};

use crate::stretch::Stretch;
use std::alloc::{AllocError, Allocator};

/// Takes the sites from the one of the first number up to the one of the second away from those of the stretches, of which `first`
/// is the first one that ends beyond that number.
pub(crate) fn take_sites<A: Allocator>(
    stretches: &mut Vec<Stretch, A>,
    first: usize,
    from: u64,
    end: u64,
) -> Result<(), AllocError>
    requires stretches { AreFreeStretches stretches.old.items }
    requires first { IsFirstEndBeyond stretches.old.items from first }
    ensures ok { OnOk result (IsWithout stretches.old.items from end stretches.new.items) }
    ensures err { OnErr result (stretches.new.items ≡ stretches.old.items) }
{
    if end <= from {
        return Ok(());
    }
    let last = cut_end(stretches.as_slice(), first, from, end);
    if last <= first {
        return Ok(());
    }
    let left = Stretch {
        from: stretches[first].from,
        end: from,
    };
    let right = Stretch {
        from: end,
        end: stretches[last - 1].end,
    };
    if first + 1 == last && left.has_sites() && right.has_sites() {
        split(stretches, first, left, right)
    } else {
        shrink(stretches, first, last, left, right);
        Ok(())
    }
}

/// The first stretch that ends beyond this site. The last one is looked at first.
pub(crate) fn first_end_beyond(free: &[Stretch], site: u64) -> usize
    requires { AreFreeStretches free.now }
    ensures { IsFirstEndBeyond free.now site result }
{
    let count = free.len();
    if count > 0 && free[count - 1].from <= site && site < free[count - 1].end {
        return count - 1;
    }
    free.partition_point(|stretch| stretch.end <= site)
}

/// The first stretch that begins at the site of the second number or beyond, where `first` is the first one that ends beyond the
/// first number.
fn cut_end(free: &[Stretch], first: usize, from: u64, end: u64) -> usize
    requires stretches { AreFreeStretches free.now }
    requires first { IsFirstEndBeyond free.now from first }
    requires some { from < end }
    ensures cut { IsCutAt free.now from end first result }
    ensures within { result ≤ length free.now }
{
    for i in first..free.len() {
        if free[i].from >= end {
            return i;
        }
    }
    free.len()
}

/// Puts two stretches in the place of one.
fn split<A: Allocator>(
    stretches: &mut Vec<Stretch, A>,
    at: usize,
    left: Stretch,
    right: Stretch,
) -> Result<(), AllocError>
    requires { at < vec_len stretches.old }
    ensures ok { OnOk result (stretches.new.items ≡ take at stretches.old.items ++ (left ∷ right ∷ []) ++ drop (at + 1) stretches.old.items) }
    ensures err { OnErr result (stretches.new.items ≡ stretches.old.items) }
{
    stretches.insert(at + 1, right)?;
    stretches[at] = left;
    Ok(())
}

/// Puts those of two stretches that have a site in the place of some that lie side by side. These are as many as those
/// at least.
fn shrink<A: Allocator>(
    stretches: &mut Vec<Stretch, A>,
    first: usize,
    last: usize,
    left: Stretch,
    right: Stretch,
)
    requires order { first < last }
    requires within { last ≤ vec_len stretches.old }
    requires room { length (if_any left ++ if_any right) ≤ last - first }
    ensures { stretches.new.items ≡ with_rests first last left right stretches.old.items }
{
    let from = put_left(stretches, first, left);
    let end = put_right(stretches, last, right);
    remove_between(stretches, from, end);
}

/// Puts a stretch that has a site at this place. Returns the first place that isn't its.
fn put_left<A: Allocator>(stretches: &mut Vec<Stretch, A>, first: usize, left: Stretch) -> usize
    requires { first < vec_len stretches.old }
    ensures { IsPutLeft stretches.old.items first left stretches.new.items result }
{
    if !left.has_sites() {
        return first;
    }
    stretches[first] = left;
    first + 1
}

/// Puts a stretch that has a site at the place before this one. Returns the place up to which none is its.
fn put_right<A: Allocator>(stretches: &mut Vec<Stretch, A>, last: usize, right: Stretch) -> usize
    requires some { 1 ≤ last }
    requires within { last ≤ vec_len stretches.old }
    ensures { IsPutRight stretches.old.items last right stretches.new.items result }
{
    if !right.has_sites() {
        return last;
    }
    stretches[last - 1] = right;
    last - 1
}

/// Removes the stretches from one place up to another.
fn remove_between<A: Allocator>(stretches: &mut Vec<Stretch, A>, from: usize, end: usize)
    requires order { from ≤ end }
    requires within { end ≤ vec_len stretches.old }
    ensures { stretches.new.items ≡ take from stretches.old.items ++ drop end stretches.old.items }
{
    if from < end {
        stretches.drain(from..end);
    }
}

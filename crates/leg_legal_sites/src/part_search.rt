//! Where in the parts of a row so many consecutive sites are free.

ghost use Rattle.std.specs.Prelude.{◌≤◌, IsTrue};
ghost use Rattle.leg_legal_sites.specs.Steps.Stretches.{AreFreeStretches, AreFreeSites};
ghost use Rattle.leg_legal_sites.specs.Steps.Parts.{all_of, AreParts};
ghost use Rattle.leg_legal_sites.specs.Steps.Nearest.{FitsFrom, FitsUpTo, IsFirstFit, IsLast};
ghost use Rattle.leg_legal_sites.specs.Steps.TakeSites.{IsFirstEndBeyond, IsFirstStartBeyond};

use crate::free_sites::FreeSites;
use crate::part_groups::{GROUP, is_short};
use crate::part_places::{place_beyond, place_from};
use crate::stretch::Stretch;
use crate::take_sites::first_end_beyond;
use std::alloc::Allocator;

/// The first of this many consecutive free sites, the least that isn't below this one. `next` is the first stretch that ends beyond it.
fn first_from(free: &[Stretch], next: usize, many: u64, least: u64) -> Option<u64>
    requires stretches { AreFreeStretches free.now }
    requires next { IsFirstEndBeyond free.now least next }
    requires some { 1 ≤ many }
    ensures { IsFirstFit (FitsFrom free.now many least) result }
{
    for i in next..free.len() {
        let stretch = free[i];
        let first = stretch.from.max(least);
        if stretch.end.saturating_sub(first) >= many {
            return Some(first);
        }
    }
    None
}

/// The first of this many consecutive free sites, the greatest that isn't above this one. `end` is the first stretch that begins
/// beyond it.
fn last_upto(free: &[Stretch], end: usize, many: u64, most: u64) -> Option<u64>
    requires stretches { AreFreeStretches free.now }
    requires end { IsFirstStartBeyond free.now most end }
    requires some { 1 ≤ many }
    ensures { IsLast (FitsUpTo free.now many most) result }
{
    for i in (0..end).rev() {
        let stretch = free[i];
        if stretch.end.saturating_sub(stretch.from) >= many {
            return Some(most.min(stretch.end - many));
        }
    }
    None
}

/// The first stretch that begins beyond a site, where `next` is the first one that ends beyond it.
fn first_start_beyond(free: &[Stretch], next: usize, site: u64) -> usize
    requires stretches { AreFreeStretches free.now }
    requires next { IsFirstEndBeyond free.now site next }
    ensures { IsFirstStartBeyond free.now site result }
{
    if next >= free.len() {
        return next;
    }
    if free[next].from <= site {
        return next + 1;
    }
    next
}

/// Whether this many sites from this one on lie in the stretch at this place.
fn has_room(free: &[Stretch], place: usize, many: u64, site: u64) -> bool
    ensures { IsTrue result → AreFreeSites free.now many site }
{
    if place >= free.len() {
        return false;
    }
    let stretch = free[place];
    stretch.from <= site && many <= stretch.end.saturating_sub(site)
}

/// The first of this many consecutive free sites of a part, the greatest that isn't above this one, and the least that isn't below it.
pub(crate) fn fits_beside<A: Allocator>(
    part: &FreeSites<A>,
    many: u64,
    site: u64,
) -> (Option<u64>, Option<u64>)
    requires { 1 ≤ many }
    ensures left { IsLast (FitsUpTo part.now many site) result.0 }
    ensures right { IsFirstFit (FitsFrom part.now many site) result.1 }
{
    if part.longest() < many {
        return (None, None);
    }
    let free = part.stretches();
    let next = first_end_beyond(free, site);
    if has_room(free, next, many, site) {
        return (Some(site), Some(site));
    }
    let end = first_start_beyond(free, next, site);
    (
        last_upto(free, end, many, site),
        first_from(free, next, many, site),
    )
}

/// The same, of the sites of a part: the first of this many, the least that isn't below this one.
fn first_in_part<A: Allocator>(part: &FreeSites<A>, many: u64, least: u64) -> Option<u64>
    requires { 1 ≤ many }
    ensures { IsFirstFit (FitsFrom part.now many least) result }
{
    if part.longest() < many {
        return None;
    }
    let free = part.stretches();
    first_from(free, first_end_beyond(free, least), many, least)
}

/// The first of this many, the greatest that isn't above this one.
fn last_in_part<A: Allocator>(part: &FreeSites<A>, many: u64, most: u64) -> Option<u64>
    requires { 1 ≤ many }
    ensures { IsLast (FitsUpTo part.now many most) result }
{
    if part.longest() < many {
        return None;
    }
    let free = part.stretches();
    let end = first_start_beyond(free, first_end_beyond(free, most), most);
    last_upto(free, end, many, most)
}

/// The same, of the sites of all parts.
pub(crate) fn first_in_parts<A: Allocator>(
    parts: &[FreeSites<A>],
    groups: &[u64],
    many: u64,
    least: u64,
) -> Option<u64>
    requires parts { AreParts parts.now groups.now }
    requires some { 1 ≤ many }
    ensures { IsFirstFit (FitsFrom (all_of parts.now) many least) result }
{
    let mut i = place_from(parts, least);
    'parts: while i < parts.len() {
        if is_short(groups, i, many) {
            i += GROUP;
            continue;
        }
        match first_in_part(&parts[i], many, least) {
            Some(first) => return Some(first),
            None => {}
        }
        i += 1;
    }
    None
}

/// The same, of the sites of all parts.
pub(crate) fn last_in_parts<A: Allocator>(
    parts: &[FreeSites<A>],
    groups: &[u64],
    many: u64,
    most: u64,
) -> Option<u64>
    requires parts { AreParts parts.now groups.now }
    requires some { 1 ≤ many }
    ensures { IsLast (FitsUpTo (all_of parts.now) many most) result }
{
    let mut i = place_beyond(parts, most);
    'parts: while i > 0 {
        if i >= GROUP && is_short(groups, i - GROUP, many) {
            i -= GROUP;
            continue;
        }
        match last_in_part(&parts[i - 1], many, most) {
            Some(first) => return Some(first),
            None => {}
        }
        i -= 1;
    }
    None
}

//! Between which sites the free sites of all parts of a row lie.

ghost use Rattle.leg_legal_sites.specs.Steps.Parts.{all_of, AreInRow, AreParts, AreNoLonger, AreGroups, HasSpan, HasFirst, HasLast};
ghost use Rattle.std.specs.Prelude.{length};

use crate::ends::Ends;
use crate::free_sites::FreeSites;
use crate::part_groups::{GROUP, longest_between};
use std::alloc::Allocator;

/// The first and the last of all free sites, and how many are free side by side at most, if any is free.
pub(crate) fn ends_of<A: Allocator>(parts: &[FreeSites<A>], groups: &[u64]) -> Option<Ends>
    requires { AreParts parts.now groups.now }
    ensures { HasSpan (all_of parts.now) result }
{
    if parts.len() == 1 {
        return parts[0].ends();
    }
    let first = first_ends(parts)?;
    let last = last_ends(parts)?;
    Some(Ends {
        from: first.from,
        end: last.end,
        longest: longest_of_all(parts, groups),
    })
}

/// The ends of the first part that has a free site.
fn first_ends<A: Allocator>(parts: &[FreeSites<A>]) -> Option<Ends>
    requires { AreInRow parts.now }
    ensures { HasFirst (all_of parts.now) result }
{
    for i in 0..parts.len() {
        match parts[i].ends() {
            Some(ends) => return Some(ends),
            None => {}
        }
    }
    None
}

/// The ends of the last part that has a free site.
fn last_ends<A: Allocator>(parts: &[FreeSites<A>]) -> Option<Ends>
    requires { AreInRow parts.now }
    ensures { HasLast (all_of parts.now) result }
{
    for i in (0..parts.len()).rev() {
        match parts[i].ends() {
            Some(ends) => return Some(ends),
            None => {}
        }
    }
    None
}

/// How many sites are free side by side at most.
fn longest_of_all<A: Allocator>(parts: &[FreeSites<A>], groups: &[u64]) -> u64
    requires { AreGroups parts.now groups.now }
    ensures { AreNoLonger parts.now 0 (length parts.now) result }
{
    let mut longest = longest_between(parts, GROUP * groups.len(), parts.len());
    for i in 0..groups.len() {
        longest = groups[i].max(longest);
    }
    longest
}

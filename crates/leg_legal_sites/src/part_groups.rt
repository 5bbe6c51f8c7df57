//! Parts of a row in groups, so that a search passes those of a group at once.

ghost use Rattle.std.specs.Prelude.{◌≤◌, length, IsTrue, IfOk};
ghost use Rattle.leg_legal_sites.specs.Steps.Parts.{AreNoLonger, AreGroups, IsShort};

use crate::free_sites::FreeSites;
use std::alloc::{AllocError, Allocator};

/// How many parts are a group. The last parts are in no group, where they are fewer.
pub(crate) const GROUP: usize = 32;

/// How many sites are free side by side at most in the parts from one place up to another.
pub(crate) fn longest_between<A: Allocator>(parts: &[FreeSites<A>], from: usize, end: usize) -> u64
    requires { end ≤ length parts.now }
    ensures { AreNoLonger parts.now from end result }
{
    let mut longest = 0;
    for i in from..end {
        longest = parts[i].longest().max(longest);
    }
    longest
}

/// How many sites are free side by side at most in a part of each group.
pub(crate) fn groups_of<A: Allocator + Copy>(
    alloc: A,
    parts: &[FreeSites<A>],
) -> Result<Vec<u64, A>, AllocError>
    ensures { IfOk result (λ groups. AreGroups parts.now groups.items) }
{
    let count = parts.len() / GROUP;
    let mut groups = Vec::with_capacity(alloc, count)?;
    for group in 0..count {
        let from = GROUP * group;
        groups.push(longest_between(parts, from, from + GROUP))?;
    }
    Ok(groups)
}

/// Measures the groups anew that parts from one place up to another are in.
pub(crate) fn measure_groups<A: Allocator>(
    groups: &mut [u64],
    parts: &[FreeSites<A>],
    first: usize,
    last: usize,
)
    requires { AreGroups parts.now groups.old }
    ensures { AreGroups parts.now groups.new }
{
    let end = groups.len().min(last.div_ceil(GROUP));
    for group in first / GROUP..end {
        let from = GROUP * group;
        groups[group] = longest_between(parts, from, from + GROUP);
    }
}

/// Whether a group begins with the part at this place that has no part with so many free sites side by side.
pub(crate) fn is_short(groups: &[u64], place: usize, many: u64) -> bool
    ensures { IsTrue result → IsShort groups.now place many }
{
    if place % GROUP != 0 {
        return false;
    }
    let group = place / GROUP;
    group < groups.len() && groups[group] < many
}

//! How sites are taken from the parts of a row.

ghost use Rattle.std.specs.Prelude.{◌≡◌, ◌<◌, ◌≤◌, length, vec_len, IsTrue, OnOk};
ghost use Rattle.leg_legal_sites.specs.Steps.Parts.{all_of, AreInRow, AreParts, HaveSameSites, LieBefore, LieBeyond, AreLostUpTo, AreAllFewer};

use crate::free_sites::FreeSites;
use crate::part_groups::{groups_of, measure_groups};
use std::alloc::{AllocError, Allocator};

/// How many stretches a part has before it is cut into two.
const PART_LIMIT: usize = 128;

/// Takes the sites from `from` up to `end` from the parts from the first place up to the last, outside which none has any.
pub(crate) fn take_from_parts<A: Allocator>(
    parts: &mut [FreeSites<A>],
    first: usize,
    last: usize,
    from: u64,
    end: u64,
) -> Result<(), AllocError>
    requires within { last ≤ length parts.old }
    requires before { LieBefore parts.old first from }
    requires beyond { LieBeyond parts.old last end }
    ensures lost { OnOk result (AreLostUpTo from end (length parts.old) parts.old parts.new) }
    ensures fewer { AreAllFewer parts.old parts.new }
{
    for i in first..last {
        if parts[i].are_beside(from, end) {
            continue;
        }
        parts[i].take(from, end)?;
    }
    Ok(())
}

/// Makes parts and groups anew once parts from the first place up to the last have lost sites: the first one is cut into two if it
/// has too many stretches, and those without any are let go.
pub(crate) fn regroup<A: Allocator + Copy>(
    parts: &mut Vec<FreeSites<A>, A>,
    groups: &mut Vec<u64, A>,
    first: usize,
    last: usize,
) -> Result<(), AllocError>
    requires within { last ≤ vec_len parts.old }
    requires parts { AreParts parts.old.items groups.old.items }
    ensures kept { OnOk result (HaveSameSites (all_of parts.old.items) (all_of parts.new.items)) }
    ensures parts { AreParts parts.new.items groups.new.items }
{
    if is_long(parts.as_slice(), first) {
        groups.clear();
        cut_part(parts, first)?;
        return group_anew(parts, groups);
    }
    if is_any_empty(parts.as_slice(), first, last) {
        groups.clear();
        drop_empty(parts);
        return group_anew(parts, groups);
    }
    measure_groups(groups.as_mut_slice(), parts.as_slice(), first, last);
    Ok(())
}

/// Whether there is a part at this place, with too many stretches.
fn is_long<A: Allocator>(parts: &[FreeSites<A>], i: usize) -> bool
    ensures { IsTrue result → i < length parts.now }
{
    i < parts.len() && parts[i].stretches().len() >= PART_LIMIT
}

/// Whether a part from the first place up to the last has no stretch, and isn't the only one.
fn is_any_empty<A: Allocator>(parts: &[FreeSites<A>], first: usize, last: usize) -> bool
    requires { last ≤ length parts.now }
{
    if parts.len() == 1 {
        return false;
    }
    for i in first..last {
        if !parts[i].has_sites() {
            return true;
        }
    }
    false
}

/// Cuts a part into two.
fn cut_part<A: Allocator + Copy>(
    parts: &mut Vec<FreeSites<A>, A>,
    i: usize,
) -> Result<(), AllocError>
    requires there { i < vec_len parts.old }
    requires in_row { AreInRow parts.old.items }
    ensures kept { OnOk result (HaveSameSites (all_of parts.old.items) (all_of parts.new.items)) }
    ensures in_row { AreInRow parts.new.items }
{
    let rest = parts[i].cut()?;
    parts.insert(i + 1, rest)?;
    Ok(())
}

/// Lets go of the parts that have no stretch.
fn drop_empty<A: Allocator>(parts: &mut Vec<FreeSites<A>, A>)
    requires { AreInRow parts.old.items }
    ensures kept { all_of parts.new.items ≡ all_of parts.old.items }
    ensures in_row { AreInRow parts.new.items }
{
    parts.retain(|part| part.has_sites());
}

/// Makes the groups of the parts. It fails only when out of memory, and then the groups are as before.
fn group_anew<A: Allocator + Copy>(
    parts: &Vec<FreeSites<A>, A>,
    groups: &mut Vec<u64, A>,
) -> Result<(), AllocError>
    requires { AreParts parts.now.items groups.old.items }
    ensures { AreParts parts.now.items groups.new.items }
{
    *groups = groups_of(*groups.allocator(), parts.as_slice())?;
    Ok(())
}

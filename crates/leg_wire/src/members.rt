//! Numbers in lists: those of each kind, or of each set.

ghost use Rattle.std.specs.Prelude.{◌<◌, ◌^◌, IsTrue, All, length, IfOk, OnOk};
ghost use Rattle.leg_wire.specs.Steps.Kinds.{AreMembers};
ghost use Rattle.leg_wire.specs.Steps.NumberSets.{IsOneList, AreListsMerged};

use crate::net_shapes::{add_number, empty_lists};
use leg_lib_records::Items;
use std::alloc::{AllocError, Allocator};
use std::mem;

/// For each of this many kinds the numbers of its shapes, whose kinds these are.
pub(crate) fn members_of<A: Allocator + Copy>(
    alloc: A,
    numbers: &[u32],
    count: u32,
) -> Result<Vec<Items<u32, A>, A>, AllocError>
    requires few { length numbers.now < 2 ^ 32 }
    requires within { All (λ number. number < count) numbers.now }
    ensures { IfOk result (λ members. AreMembers numbers.now count members.items) }
{
    let mut members = empty_lists(alloc, count)?;
    for (shape, kind) in numbers.iter().enumerate() {
        add_number(&mut members, *kind, shape as u32)?;
    }
    Ok(members)
}

/// Puts the members of the set with the higher least number to those of the other. The fewer are put behind the more, but to those of the
/// number 0 others are only added.
pub(crate) fn merge<A: Allocator + Copy>(
    alloc: A,
    members: &mut [Items<u32, A>],
    low: u32,
    high: u32,
) -> Result<(), AllocError>
    requires order { low < high }
    requires within { high < length members.old }
    ensures { OnOk result (AreListsMerged low high members.old members.new) }
{
    let empty = Items::from_vec(Vec::new(alloc));
    let others = mem::replace(&mut members[high as usize], empty);
    let own = mem::replace(&mut members[low as usize], Items::from_vec(Vec::new(alloc)));
    members[low as usize] = one_list(alloc, own, others, low == 0)?;
    Ok(())
}

/// One list of the numbers of two. Those of the first begin it, where they must or are not the fewer.
fn one_list<A: Allocator + Copy>(
    alloc: A,
    mut first: Items<u32, A>,
    mut second: Items<u32, A>,
    begins: bool,
) -> Result<Items<u32, A>, AllocError>
    ensures { IfOk result (λ both. IsOneList first second (IsTrue begins) both) }
{
    if !begins && first.as_slice().len() < second.as_slice().len() {
        second.append(Vec::from_slice(alloc, first.as_slice())?)?;
        return Ok(second);
    }
    first.append(Vec::from_slice(alloc, second.as_slice())?)?;
    Ok(first)
}

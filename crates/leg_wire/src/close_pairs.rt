//! Comparable shapes that are too close.

ghost use Rattle.std.specs.Prelude.{◌≡◌, ◌<◌, ◌^◌, ◌++◌, ◌↔◌, ℕ, length, map, All, AllPairs, Contains, IfOk, OnOk};
ghost use Rattle.leg_sweep.specs.Pairs.{Before, ArePairs};
ghost use Rattle.leg_sweep.specs.Steps.Sweep.{ordered};
ghost use Rattle.leg_wire.specs.Steps.Kinds.{pairs_between, pairs_among};
ghost use Rattle.leg_wire.specs.Steps.TooCloseRule.{AreClose};

use crate::kinds::{are_many_alike, kinds_of};
use crate::members::members_of;
use crate::too_close::TooClose;
use leg_flat::Shape;
use leg_lib_records::Items;
use leg_sweep::pairs_in_bands;
use std::alloc::{AllocError, Allocator};

/// The pairs of numbers of shapes for which the rule holds, lower number first, in increasing order. Shapes of one kind are no
/// such pairs. Where many are of one kind, one of each kind stands for them in the search: its time doesn't grow with their pairs.
pub(crate) fn close_pairs<A: Allocator + Copy>(
    alloc: A,
    shapes: &[Shape],
    rule: &mut TooClose<'_, '_, A>,
) -> Result<Vec<(u32, u32), A>, AllocError>
    requires few { length shapes.now < 2 ^ 32 }
    requires untested { rule.old.tests ≡ 0 }
    requires unseen { rule.old.looks ≡ 0 }
    ensures { IfOk result (λ found. ArePairs (AreClose rule.old.library.now) shapes.now found.items) }
{
    if !are_many_alike(alloc, shapes)? {
        return pairs_in_bands(alloc, shapes, rule);
    }
    let (kinds, numbers) = kinds_of(alloc, shapes)?;
    let close = pairs_in_bands(alloc, &kinds, rule)?;
    let members = members_of(alloc, &numbers, kinds.len() as u32)?;
    let mut found = Vec::new(alloc);
    push_among(&members, &close, &mut found)?;
    put_in_order(&mut found);
    Ok(found)
}

/// Adds the pairs of shapes of pairs of kinds, which have these members.
fn push_among<A: Allocator + Copy>(
    members: &[Items<u32, A>],
    close: &[(u32, u32)],
    found: &mut Vec<(u32, u32), A>,
) -> Result<(), AllocError>
    requires first { All (λ p. p.0 < length members.now) close.now }
    requires second { All (λ p. p.1 < length members.now) close.now }
    ensures { OnOk result (found.new.items ≡ found.old.items ++ pairs_among members.now close.now) }
{
    for (first, second) in close {
        let firsts = members[*first as usize].as_slice();
        push_between(firsts, members[*second as usize].as_slice(), found)?;
    }
    Ok(())
}

/// Adds the pairs of each of these numbers with each of those.
fn push_between<A: Allocator>(
    firsts: &[u32],
    seconds: &[u32],
    found: &mut Vec<(u32, u32), A>,
) -> Result<(), AllocError>
    ensures { OnOk result (found.new.items ≡ found.old.items ++ pairs_between firsts.now seconds.now) }
{
    for first in firsts {
        push_beside(*first, seconds, found)?;
    }
    Ok(())
}

/// Adds the pairs of the number with each of these.
fn push_beside<A: Allocator>(
    first: u32,
    seconds: &[u32],
    found: &mut Vec<(u32, u32), A>,
) -> Result<(), AllocError>
    ensures { OnOk result (found.new.items ≡ found.old.items ++ map (ordered first) seconds.now) }
{
    for second in seconds {
        found.push((first.min(*second), first.max(*second)))?;
    }
    Ok(())
}

/// Puts the pairs in increasing order, each once.
fn put_in_order<A: Allocator>(pairs: &mut Vec<(u32, u32), A>)
    ensures rising { AllPairs Before pairs.new.items }
    ensures same { (p : ℕ × ℕ) → Contains pairs.new.items p ↔ Contains pairs.old.items p }
{
    pairs.sort_unstable();
    pairs.dedup();
}

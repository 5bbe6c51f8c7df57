//! What a negotiation is about.

ghost use Rattle.std.specs.Prelude.{◌≡◌, ◌<◌, All, length, IfOk, ◌^◌};
ghost use Rattle.leg_finish_search.specs.Slots.{AreSlotLists};
ghost use Rattle.leg_finish_search.specs.declared.clash.Clash.{Clash};

use crate::clash::{Clash, Part, clashes_of};
use crate::ground::Ground;
use crate::lattice::Lattice;
use crate::net::{NetToJoin, half_perimeter};
use std::alloc::{AllocError, Allocator};

/// The nets of a negotiation, the lattice for them, and what may not lie near what else.
#[derive(Drop)]
pub(crate) struct Board<'s, 'n, A: Allocator, L: Lattice> {
    pub(crate) ground: Ground<'s, A, L>,
    pub(crate) clashes: Vec<Clash, A>,
    pub(crate) nets: &'n [NetToJoin<A>],
    /// The places of the nets, in the order of their turns.
    pub(crate) order: Vec<u32, A>,
    ghost clashes_within: { All (λ (clash : Clash). clash.other_level < L.levels_of ground.lattice.now) clashes.items },
    ghost nets_within: { All (λ net. AreSlotLists (L.size_of ground.lattice.now) net.groups.items) nets.now },
    ghost order_within: { All (λ place. place < length nets.now) order.items },
}

/// The places of the nets in the order of their turns: those with a shorter half perimeter come first, and of two the first.
fn order_of<A: Allocator + Copy, L: Lattice>(
    alloc: A,
    ground: &Ground<'_, A, L>,
    nets: &[NetToJoin<A>],
) -> Result<Vec<u32, A>, AllocError>
    requires few { length nets.now < 2 ^ 32 }
    requires nets { All (λ net. AreSlotLists (L.size_of ground.now.lattice.now) net.groups.items) nets.now }
    ensures { IfOk result (λ order. All (λ place. place < length nets.now) order.items) }
{
    let mut turns = Vec::with_capacity(alloc, nets.len())?;
    for (place, net) in nets.iter().enumerate() {
        turns.push((half_perimeter(ground, net), place as u32))?;
    }
    turns.sort_unstable();
    let turns = turns.as_slice();
    let mut order = Vec::with_capacity(alloc, turns.len())?;
    for k in 0..turns.len() {
        order.push(turns[k].1)?;
    }
    Ok(order)
}

impl<'s, 'n, A: Allocator + Copy, L: Lattice> Board<'s, 'n, A, L> {
    /// These nets on this lattice, whose nodes and vias have these rectangles.
    pub(crate) fn new(
        alloc: A,
        lattice: &'s L,
        parts: &[Part],
        nets: &'n [NetToJoin<A>],
    ) -> Result<Board<'s, 'n, A, L>, AllocError>
        requires parts { All (λ part. part.level < L.levels_of lattice.now) parts.now }
        requires few { length nets.now < 2 ^ 32 }
        requires nets { All (λ net. AreSlotLists (L.size_of lattice.now) net.groups.items) nets.now }
        ensures lattice { IfOk result (λ board. board.ground.lattice.now ≡ lattice.now) }
        ensures nets { IfOk result (λ board. board.nets.now ≡ nets.now) }
    {
        let ground = Ground::new(alloc, lattice)?;
        let clashes = clashes_of(alloc, parts)?;
        let order = order_of(alloc, &ground, nets)?;
        Ok(Board {
            ground,
            clashes,
            nets,
            order,
        })
    }
}

//! Routing many nets together.

ghost use Rattle.std.specs.Prelude.{◌≡◌, ◌<◌, ◌^◌, All, AllPairs, length, map, IfOk, ℕ};
ghost use Rattle.leg_finish_search.specs.Slots.{AreSlotLists};
ghost use Rattle.leg_finish_search.specs.Steps.NetWalks.{IsLaidIn};

use crate::board::Board;
use crate::budget::Budget;
use crate::clash::Part;
use crate::laid::Laid;
use crate::lattice::Lattice;
use crate::net::NetToJoin;
use crate::progress::Progress;
use crate::rounds::lay_all;
use crate::table::Table;
use leg_lib_records::Items;
use std::alloc::{AllocError, Allocator};

/// What came of nets that were routed together.
#[derive(Drop)]
pub struct Negotiated<A: Allocator> {
    /// For each of the nets its walks, by the numbers of their slots, in the order in which they join its groups.
    pub walks: Vec<Items<Items<u32, A>, A>, A>,
    /// The places of the nets that are not joined, or whose metal is in conflict with another's: none if all are routed. They
    /// are claimed by nothing: whether the walks are open ways that join the nets, and may lie together, is for the caller to see.
    pub left: Vec<u32, A>,
}

/// As many nets, of which none has a walk.
fn nothing_laid<A: Allocator + Copy>(alloc: A, count: usize) -> Result<Vec<Laid<A>, A>, AllocError>
    ensures count { IfOk result (λ laid. length laid.items ≡ count) }
    ensures laid { (size : ℕ) → IfOk result (λ laid. All (IsLaidIn size) laid.items) }
{
    let mut laid = Vec::with_capacity(alloc, count)?;
    for _ in 0..count {
        laid.push(Laid::nothing(alloc))?;
    }
    Ok(laid)
}

/// Whether this net, with so many groups, is not joined, or is in conflict.
fn is_left<A: Allocator + Copy, L: Lattice>(
    board: &Board<'_, '_, A, L>,
    table: &Table<A>,
    laid: &Laid<A>,
    groups: usize,
) -> bool
    requires size { table.now ≡ L.size_of board.now.ground.lattice.now }
    requires laid { IsLaidIn (L.size_of board.now.ground.lattice.now) laid.now }
{
    (groups > 1 && !laid.has_walks()) || laid.is_in_conflict(&board.ground, table)
}

/// The places of the nets that are not joined, or are in conflict.
fn left_of<A: Allocator + Copy, L: Lattice>(
    alloc: A,
    board: &Board<'_, '_, A, L>,
    table: &Table<A>,
    laid: &[Laid<A>],
) -> Result<Vec<u32, A>, AllocError>
    requires size { table.now ≡ L.size_of board.now.ground.lattice.now }
    requires count { length laid.now ≡ length board.now.nets.now }
    requires few { length laid.now < 2 ^ 32 }
    requires laid { All (IsLaidIn (L.size_of board.now.ground.lattice.now)) laid.now }
    ensures within { IfOk result (λ left. All (λ place. place < length board.now.nets.now) left.items) }
    ensures increasing { IfOk result (λ left. AllPairs (λ a b. a < b) left.items) }
{
    let mut left = Vec::new(alloc);
    for place in 0..laid.len() {
        if is_left(board, table, &laid[place], board.nets[place].groups.len()) {
            left.push(place as u32)?;
        }
    }
    Ok(left)
}

/// The same, where it is known whether there are none.
fn left_after<A: Allocator + Copy, L: Lattice>(
    alloc: A,
    board: &Board<'_, '_, A, L>,
    table: &Table<A>,
    laid: &[Laid<A>],
    is_done: bool,
) -> Result<Vec<u32, A>, AllocError>
    requires size { table.now ≡ L.size_of board.now.ground.lattice.now }
    requires count { length laid.now ≡ length board.now.nets.now }
    requires few { length laid.now < 2 ^ 32 }
    requires laid { All (IsLaidIn (L.size_of board.now.ground.lattice.now)) laid.now }
    ensures within { IfOk result (λ left. All (λ place. place < length board.now.nets.now) left.items) }
    ensures increasing { IfOk result (λ left. AllPairs (λ a b. a < b) left.items) }
{
    if is_done {
        Ok(Vec::new(alloc))
    } else {
        left_of(alloc, board, table, laid)
    }
}

/// The walks of the nets.
fn walks_of<A: Allocator + Copy>(
    alloc: A,
    laid: Vec<Laid<A>, A>,
) -> Result<Vec<Items<Items<u32, A>, A>, A>, AllocError>
    ensures { IfOk result (λ walks. walks.items ≡ map (λ net. net.walks) laid.items) }
{
    let mut walks = Vec::with_capacity(alloc, laid.len())?;
    for net in laid {
        walks.push(Items::from_vec(net.into_walks()))?;
    }
    Ok(walks)
}

/// Walks that join the groups of each of these nets, past one another: negotiated congestion (McMurchie and Ebeling, 1995). Nets may
/// use what others use, at a price; those that do are taken up and laid again in the next round, in which the price is higher, and
/// higher still where nets were in conflict for rounds, until none is in conflict. The parts are all rectangles that nodes and vias of
/// the lattice have; it says what is open where no net has a walk.
///
/// It says nothing of the walks but that their slots are the lattice's: a caller sees by itself whether they are what it needs. The
/// same nets get the same walks each time.
pub fn negotiate<A: Allocator + Copy, L: Lattice, P: Progress>(
    alloc: A,
    lattice: &L,
    parts: &[Part],
    nets: &[NetToJoin<A>],
    budget: Budget,
    progress: &mut P,
) -> Result<Negotiated<A>, AllocError>
    requires parts { All (λ part. part.level < L.levels_of lattice.now) parts.now }
    requires few { length nets.now < 2 ^ 32 }
    requires nets { All (λ net. AreSlotLists (L.size_of lattice.now) net.groups.items) nets.now }
    ensures count { IfOk result (λ found. length found.walks.items ≡ length nets.now) }
    ensures walks { IfOk result (λ found. All (AreSlotLists (L.size_of lattice.now)) found.walks.items) }
    ensures left { IfOk result (λ found. All (λ place. place < length nets.now) found.left.items) }
    ensures increasing { IfOk result (λ found. AllPairs (λ a b. a < b) found.left.items) }
{
    let board = Board::new(alloc, lattice, parts, nets)?;
    let mut table = Table::new(alloc, lattice.size() as usize, budget.looks)?;
    let mut laid = nothing_laid(alloc, nets.len())?;
    let is_done = lay_all(alloc, &board, &mut table, &mut laid, budget, progress)?;
    let left = left_after(alloc, &board, &table, &laid, is_done)?;
    Ok(Negotiated {
        walks: walks_of(alloc, laid)?,
        left,
    })
}

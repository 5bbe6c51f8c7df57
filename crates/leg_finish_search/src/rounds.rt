//! Rounds of routing: nets that are in conflict are taken up and laid again.

ghost use Rattle.std.specs.Prelude.{◌≡◌, ◌<◌, All, length, slice_set, OnOk};
ghost use Rattle.leg_finish_search.specs.Steps.NetWalks.{IsLaidIn};

use crate::board::Board;
use crate::budget::Budget;
use crate::element::Element;
use crate::laid::Laid;
use crate::lattice::Lattice;
use crate::price::Prices;
use crate::progress::Progress;
use crate::table::Table;
use crate::turn::lay;
use std::alloc::{AllocError, Allocator};

// How often all nets are laid once more when none is in conflict any more.
const POLISHING_ROUNDS: u32 = 2;

/// Puts a net that was laid in its place.
fn put<A: Allocator>(laid: &mut [Laid<A>], place: usize, net: Laid<A>)
    requires { place < length laid.old }
    ensures { laid.new ≡ slice_set laid.old place net }
{
    laid[place] = net;
}

/// Lays the net of this place again, at these prices. If that cannot be done it stays as it was.
fn lay_again<A: Allocator + Copy, L: Lattice>(
    alloc: A,
    board: &Board<'_, '_, A, L>,
    table: &mut Table<A>,
    laid: &mut [Laid<A>],
    place: usize,
    prices: Prices,
) -> Result<bool, AllocError>
    requires size { table.old ≡ L.size_of board.now.ground.lattice.now }
    requires count { length laid.old ≡ length board.now.nets.now }
    requires laid { All (IsLaidIn (L.size_of board.now.ground.lattice.now)) laid.old }
    requires there { place < length laid.old }
    ensures same { table.new ≡ table.old }
    ensures count { length laid.new ≡ length laid.old }
    ensures laid { OnOk result (All (IsLaidIn (L.size_of board.now.ground.lattice.now)) laid.new) }
{
    laid[place].lift(table);
    match lay(alloc, &board.ground, table, &board.nets[place], prices)? {
        Some(walks) => {
            let net = Laid::new(alloc, &board.ground, table, &board.clashes, walks)?;
            put(laid, place, net);
            Ok(true)
        }
        None => {
            laid[place].put_back(table);
            Ok(false)
        }
    }
}

/// The turn of the net of this place: it is laid again, or only if it is in conflict. Whether it could be.
fn take_turn<A: Allocator + Copy, L: Lattice>(
    alloc: A,
    board: &Board<'_, '_, A, L>,
    table: &mut Table<A>,
    laid: &mut [Laid<A>],
    place: usize,
    prices: Prices,
    each: bool,
) -> Result<bool, AllocError>
    requires size { table.old ≡ L.size_of board.now.ground.lattice.now }
    requires count { length laid.old ≡ length board.now.nets.now }
    requires laid { All (IsLaidIn (L.size_of board.now.ground.lattice.now)) laid.old }
    requires there { place < length laid.old }
    ensures same { table.new ≡ table.old }
    ensures count { length laid.new ≡ length laid.old }
    ensures laid { OnOk result (All (IsLaidIn (L.size_of board.now.ground.lattice.now)) laid.new) }
{
    if each || laid[place].is_in_conflict(&board.ground, table) {
        lay_again(alloc, board, table, laid, place, prices)
    } else {
        Ok(true)
    }
}

/// One round: each net is laid, or only those that are in conflict when their turn comes. It ends at the first that cannot be.
fn one_round<A: Allocator + Copy, L: Lattice>(
    alloc: A,
    board: &Board<'_, '_, A, L>,
    table: &mut Table<A>,
    laid: &mut [Laid<A>],
    prices: Prices,
    each: bool,
) -> Result<bool, AllocError>
    requires size { table.old ≡ L.size_of board.now.ground.lattice.now }
    requires count { length laid.old ≡ length board.now.nets.now }
    requires laid { All (IsLaidIn (L.size_of board.now.ground.lattice.now)) laid.old }
    ensures same { table.new ≡ table.old }
    ensures count { length laid.new ≡ length laid.old }
    ensures laid { OnOk result (All (IsLaidIn (L.size_of board.now.ground.lattice.now)) laid.new) }
{
    for place in &board.order {
        if !take_turn(alloc, board, table, laid, *place as usize, prices, each)? {
            return Ok(false);
        }
    }
    Ok(true)
}

/// How many nets are in conflict.
fn count_conflicts<A: Allocator + Copy, L: Lattice>(
    board: &Board<'_, '_, A, L>,
    table: &Table<A>,
    laid: &[Laid<A>],
) -> u32
    requires size { table.now ≡ L.size_of board.now.ground.lattice.now }
    requires laid { All (IsLaidIn (L.size_of board.now.ground.lattice.now)) laid.now }
{
    let mut count = 0u32;
    for net in laid {
        if net.is_in_conflict(&board.ground, table) {
            count = count.saturating_add(1);
        }
    }
    count
}

/// Where nets are in conflict now, it costs more from the next round on.
fn fight_over<A: Allocator + Copy, L: Lattice>(
    alloc: A,
    board: &Board<'_, '_, A, L>,
    table: &mut Table<A>,
    laid: &[Laid<A>],
) -> Result<(), AllocError>
    requires size { table.old ≡ L.size_of board.now.ground.lattice.now }
    requires laid { All (IsLaidIn (L.size_of board.now.ground.lattice.now)) laid.now }
    ensures same { table.new ≡ table.old }
{
    let mut nodes = Vec::new(alloc);
    let mut vias = Vec::new(alloc);
    for net in laid {
        net.note_conflicts(&board.ground, table, &mut nodes, &mut vias)?;
    }
    table.fight_over_all(Element::Node, &nodes);
    table.fight_over_all(Element::Via, &vias);
    Ok(())
}

/// Rounds until no net is in conflict, and says whether that is so: else a net could not be laid, or the budget is used up.
fn rounds<A: Allocator + Copy, L: Lattice, P: Progress>(
    alloc: A,
    board: &Board<'_, '_, A, L>,
    table: &mut Table<A>,
    laid: &mut [Laid<A>],
    budget: Budget,
    progress: &mut P,
) -> Result<bool, AllocError>
    requires size { table.old ≡ L.size_of board.now.ground.lattice.now }
    requires count { length laid.old ≡ length board.now.nets.now }
    requires laid { All (IsLaidIn (L.size_of board.now.ground.lattice.now)) laid.old }
    ensures same { table.new ≡ table.old }
    ensures count { length laid.new ≡ length laid.old }
    ensures laid { OnOk result (All (IsLaidIn (L.size_of board.now.ground.lattice.now)) laid.new) }
{
    let mut prices = Prices::FIRST;
    let mut best = u32::MAX;
    let mut waited = 0u32;
    for round in 0..budget.rounds {
        if !one_round(alloc, board, table, laid, prices, round == 0)? {
            return Ok(false);
        }
        let in_conflict = count_conflicts(board, table, laid);
        progress.round(round + 1, in_conflict);
        if in_conflict == 0 {
            return Ok(true);
        }
        waited = if in_conflict < best {
            0
        } else {
            waited.saturating_add(1)
        };
        best = best.min(in_conflict);
        if waited >= budget.patience {
            return Ok(false);
        }
        fight_over(alloc, board, table, laid)?;
        prices = prices.raised();
    }
    Ok(false)
}

/// Lays all nets, and says whether none is in conflict in the end. Then each of them is laid twice more, past all others, since the
/// detours of earlier rounds may not be needed any more.
pub(crate) fn lay_all<A: Allocator + Copy, L: Lattice, P: Progress>(
    alloc: A,
    board: &Board<'_, '_, A, L>,
    table: &mut Table<A>,
    laid: &mut [Laid<A>],
    budget: Budget,
    progress: &mut P,
) -> Result<bool, AllocError>
    requires size { table.old ≡ L.size_of board.now.ground.lattice.now }
    requires count { length laid.old ≡ length board.now.nets.now }
    requires laid { All (IsLaidIn (L.size_of board.now.ground.lattice.now)) laid.old }
    ensures same { table.new ≡ table.old }
    ensures count { length laid.new ≡ length laid.old }
    ensures laid { OnOk result (All (IsLaidIn (L.size_of board.now.ground.lattice.now)) laid.new) }
{
    if !rounds(alloc, board, table, laid, budget, progress)? {
        return Ok(false);
    }
    for _ in 0..POLISHING_ROUNDS {
        if !one_round(alloc, board, table, laid, Prices::TOO_HIGH, true)? {
            break;
        }
    }
    Ok(true)
}

//! The way that a search has found, from its end back.

ghost use Rattle.std.specs.Prelude.{◌≡◌, ◌<◌, IfOk, IfSome};
ghost use Rattle.leg_finish_search.specs.Slots.{AreSlots};

use crate::ground::Ground;
use crate::lattice::Lattice;
use crate::slot_state::Origin;
use crate::table::Table;
use std::alloc::{AllocError, Allocator};

/// The slot from which the way enters this slot, if it does not begin there.
fn before<A: Allocator + Copy, L: Lattice>(
    ground: &Ground<'_, A, L>,
    slot: u32,
    origin: Origin,
) -> Option<u32>
    ensures { IfSome result (λ from. from < L.size_of ground.now.lattice.now) }
{
    let row = ground.lattice.xs().len();
    let layer = row.saturating_mul(ground.lattice.ys().len());
    let slot = slot as usize;
    let from = match origin {
        Origin::Nowhere | Origin::Itself => return None,
        Origin::West => slot.checked_sub(1),
        Origin::East => slot.checked_add(1),
        Origin::South => slot.checked_sub(row),
        Origin::North => slot.checked_add(row),
        Origin::Below => slot.checked_sub(layer),
        Origin::Above => slot.checked_add(layer),
    };
    let from = from?;
    if from < ground.lattice.size() as usize {
        Some(from as u32)
    } else {
        None
    }
}

/// The slots of the way to the end that was found, from its beginning on.
pub(crate) fn way_to<A: Allocator + Copy, L: Lattice>(
    alloc: A,
    ground: &Ground<'_, A, L>,
    table: &Table<A>,
    end: u32,
) -> Result<Vec<u32, A>, AllocError>
    requires size { table.now ≡ L.size_of ground.now.lattice.now }
    requires within { end < L.size_of ground.now.lattice.now }
    ensures { IfOk result (λ way. AreSlots (L.size_of ground.now.lattice.now) way.items) }
{
    let mut way = Vec::new(alloc);
    way.push(end)?;
    let mut at = end;
    for _ in 0..ground.lattice.size() {
        let Some(from) = before(ground, at, table.origin(at)) else {
            break;
        };
        way.push(from)?;
        at = from;
    }
    way.reverse();
    Ok(way)
}

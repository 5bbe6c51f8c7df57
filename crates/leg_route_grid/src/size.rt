//! How large a grid is.

ghost use Rattle.std.specs.Prelude.{◌≤◌, ◌<◌, ◌*◌, ◌↔◌, IsTrue, SomeIff};
ghost use Rattle.leg_rules.specs.declared.grid_limits.TheConstants.{GREATEST_GRID};
ghost use Rattle.leg_rules.specs.Route.GridSize.{track_count};

use crate::lines::count_of;
use leg_design_records::Track;
use std::alloc::Allocator;

/// Whether there are more tracks than the limit, those of all statements taken together.
pub(crate) fn are_too_many<A: Allocator>(tracks: &[Track<A>], limit: u64) -> bool
    ensures { IsTrue result ↔ (limit < track_count tracks.now) }
{
    let mut left = limit;
    for track in tracks {
        let count = count_of(track);
        if left < count {
            return true;
        }
        left -= count;
    }
    false
}

/// How many slots a grid has of this many layers, rows and columns, where these are no more than the limit.
pub(crate) fn slots_of(layers: usize, rows: usize, columns: usize, limit: u64) -> Option<u32>
    requires { limit ≤ GREATEST_GRID }
    ensures { SomeIff result (layers * rows * columns ≤ limit) (layers * rows * columns) }
{
    if rows == 0 || columns == 0 {
        return Some(0);
    }
    let limit = limit as usize;
    if layers <= limit / columns / rows {
        Some((layers * rows * columns) as u32)
    } else {
        None
    }
}

/// Whether these are no more slots than the limit.
pub(crate) fn fits(layers: usize, rows: usize, columns: usize, limit: u64) -> bool
    requires { limit ≤ GREATEST_GRID }
    ensures { IsTrue result ↔ (layers * rows * columns ≤ limit) }
{
    match slots_of(layers, rows, columns, limit) {
        Some(_slots) => true,
        None => false,
    }
}

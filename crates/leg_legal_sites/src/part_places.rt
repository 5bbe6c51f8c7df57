//! Between which parts of a row some sites lie.

ghost use Rattle.std.specs.Prelude.{◌≤◌, length};
ghost use Rattle.leg_legal_sites.specs.Steps.Parts.{AreInRow, LieBefore, LieBeyond};

use crate::free_sites::FreeSites;
use std::alloc::Allocator;

/// A place before which each part's free sites lie before this one. Where each part has a free site and there are two parts at
/// least, it is the last such place.
pub(crate) fn place_from<A: Allocator>(parts: &[FreeSites<A>], site: u64) -> usize
    requires { AreInRow parts.now }
    ensures before { LieBefore parts.now result site }
    ensures within { result ≤ length parts.now }
{
    if parts.len() < 2 {
        return 0;
    }
    let mut low = 0;
    let mut high = parts.len();
    'halves: while low < high {
        let middle = low + (high - low) / 2;
        if parts[middle].end_by(site) {
            low = middle + 1;
            continue;
        }
        high = middle;
    }
    low
}

/// A place from which on each part's free sites lie beyond this one. Where each part has a free site and there are two parts at
/// least, it is the first such place.
pub(crate) fn place_beyond<A: Allocator>(parts: &[FreeSites<A>], site: u64) -> usize
    requires { AreInRow parts.now }
    ensures beyond { LieBeyond parts.now result site }
    ensures within { result ≤ length parts.now }
{
    if parts.len() < 2 {
        return parts.len();
    }
    let mut low = 0;
    let mut high = parts.len();
    'halves: while low < high {
        let middle = low + (high - low) / 2;
        if parts[middle].begin_beyond(site) {
            high = middle;
            continue;
        }
        low = middle + 1;
    }
    high
}

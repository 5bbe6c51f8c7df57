//! The ends that a search has reached.

ghost use Rattle.std.specs.Prelude.{◌≡◌, ◌⊎◌, ◌<◌, ◌↔◌, IsTrue, ℕ, length, All, Contains, MatchOption};
ghost use Rattle.leg_route_search.specs.Steps.Marks.{IsAt};

use crate::mark::Mark;
use crate::marks::Marks;
use std::alloc::Allocator;

/// The least of the ends that are reached at this level.
pub(crate) fn least_end<A: Allocator>(ends: &[u32], marks: &Marks<A>, level: u32) -> Option<u32>
    requires { All (λ a. a < length marks.now) ends.now }
    ensures { MatchOption result ((a : ℕ) → Contains ends.now a → IsAt marks.now a level → ⊥) (λ end. Contains ends.now end × IsAt marks.now end level) }
{
    let mut least = None;
    for end in ends {
        if is_reached(marks, *end, level) {
            least = Some(lesser(least, *end));
        }
    }
    least
}

/// Whether the node is reached at this level.
fn is_reached<A: Allocator>(marks: &Marks<A>, node: u32, level: u32) -> bool
    requires { node < length marks.now }
    ensures { IsTrue result ↔ IsAt marks.now node level }
{
    match marks.mark(node) {
        Mark::Reached { level: found, .. } => found == level,
        Mark::Unseen | Mark::Shut | Mark::Far { .. } => false,
    }
}

/// The lesser of the least number so far and one more.
fn lesser(least: Option<u32>, more: u32) -> u32
    ensures { (result ≡ more) ⊎ (least ≡ Some result) }
{
    match least {
        Some(least) if least < more => least,
        _ => more,
    }
}

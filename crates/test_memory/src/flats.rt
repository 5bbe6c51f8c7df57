//! Two flats side by side.

use leg_flat::Flat;
use std::alloc::Allocator;

/// Whether these have the same shapes, and nets with the same pieces.
pub fn are_same_flats<A: Allocator + Copy>(flat: &Flat<A>, other: &Flat<A>) -> bool {
    if flat.shapes() != other.shapes() || flat.net_count() != other.net_count() {
        return false;
    }
    for net in 0..flat.net_count() {
        if flat.pieces(net) != other.pieces(net) {
            return false;
        }
    }
    true
}

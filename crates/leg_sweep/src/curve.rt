//! An order in which rectangles that lie near one another come near one another.

use crate::coordinates::offset;
use leg_geom::Rect;
use std::mem::swap;

/// How many bits identify a column or a row of tiles. A tile has sides of 512 units.
const TILE_BITS: u32 = 26;

/// How many bits the sum of two coordinates has below those.
const BITS_IN_A_TILE: u32 = 10;

/// How many doublings of an extent are one class of sizes.
const DOUBLINGS: u32 = 6;

/// How many bits identify a class of sizes.
const CLASS_BITS: u32 = 4;

/// The place of a rectangle in the order. Rectangles of about one width and one height come together, so that a few
/// long ones don't widen the groups of all others. Within such a class the order is that of the tiles of their centres
/// on a curve that fills the plane.
///
/// Only the speed of the search depends on the order.
pub(crate) fn curve_key(rect: &Rect) -> u64 {
    let (x1, x2) = (offset(rect.x1()), offset(rect.x2()));
    let (y1, y2) = (offset(rect.y1()), offset(rect.y2()));
    let sizes = size_class(x1.abs_diff(x2)) << CLASS_BITS | size_class(y1.abs_diff(y2));
    sizes << (2 * TILE_BITS)
        | place_on_curve((x1 + x2) >> BITS_IN_A_TILE, (y1 + y2) >> BITS_IN_A_TILE)
}

/// The class of an extent.
fn size_class(extent: u64) -> u64 {
    u64::from(extent.max(1).ilog2() / DOUBLINGS)
}

/// The place of a tile on Hilbert's curve: which quarter it is in, which quarter of that, and so on, where each quarter is
/// turned so that the next begins where it ends.
fn place_on_curve(column: u64, row: u64) -> u64 {
    let (mut x, mut y) = (column, row);
    let mut place = 0;
    for bit in (0..TILE_BITS).rev() {
        let right = x >> bit & 1;
        let up = y >> bit & 1;
        place = place << 2 | right << 1 | (right ^ up);
        if up == 0 {
            if right == 1 {
                x = !x;
                y = !y;
            }
            swap(&mut x, &mut y);
        }
    }
    place
}

//! The lattice on which nets are routed, with what its steps cost.

ghost use Rattle.std.specs.Prelude.{◌≡◌, ◌<◌, length, IfOk};
ghost use Rattle.leg_finish_search.specs.Point.{IsPointOf};

use crate::lattice::{GridPoint, Lattice};
use crate::place::{Place, PlaceBox, outside};
use crate::places::{pitch_of, places_of};
use crate::price::VIA;
use leg_lib_records::Direction;
use std::alloc::{AllocError, Allocator};

/// A lattice, and how far its columns and rows are from the first ones, as walks pay for it.
#[derive(Drop)]
pub(crate) struct Ground<'s, A: Allocator, L: Lattice> {
    pub(crate) lattice: &'s L,
    xs: Vec<u32, A>,
    ys: Vec<u32, A>,
    ghost columns: { length xs.items ≡ length (L.xs_of lattice.now) },
    ghost rows: { length ys.items ≡ length (L.ys_of lattice.now) },
}

impl<'s, A: Allocator + Copy, L: Lattice> Ground<'s, A, L> {
    pub(crate) fn new(alloc: A, lattice: &'s L) -> Result<Ground<'s, A, L>, AllocError>
        ensures { IfOk result (λ ground. ground.lattice.now ≡ lattice.now) }
    {
        let pitch = pitch_of(alloc, lattice.xs())?;
        Ok(Ground {
            lattice,
            xs: places_of(alloc, lattice.xs(), pitch)?,
            ys: places_of(alloc, lattice.ys(), pitch)?,
        })
    }

    /// Where the point lies.
    pub(crate) fn place(&self, point: GridPoint) -> Place
        requires { IsPointOf (L.levels_of self.now.lattice.now) (length (L.ys_of self.now.lattice.now)) (length (L.xs_of self.now.lattice.now)) point }
    {
        Place {
            level: point.level,
            x: self.xs[point.column],
            y: self.ys[point.row],
        }
    }

    /// Where the slot lies.
    pub(crate) fn place_at(&self, slot: u32) -> Place
        requires { slot < L.size_of self.now.lattice.now }
    {
        self.place(self.lattice.point(slot))
    }

    /// What is left at least to pay from the point to the box: the way along both axes, and a via for each level that it is below or
    /// above, or for the turn into a direction in which no wires run on its own.
    pub(crate) fn left(&self, point: GridPoint, ends: &PlaceBox) -> u32
        requires { IsPointOf (L.levels_of self.now.lattice.now) (length (L.ys_of self.now.lattice.now)) (length (L.xs_of self.now.lattice.now)) point }
    {
        let place = self.place(point);
        let x = outside(ends.low.x, ends.high.x, place.x);
        let y = outside(ends.low.y, ends.high.y, place.y);
        let across = match self.lattice.direction(point.level) {
            Direction::Horizontal => y,
            Direction::Vertical => x,
        };
        let below = ends.low.level.saturating_sub(point.level);
        let above = point.level.saturating_sub(ends.high.level);
        let vias = below.max(above).max(usize::from(across > 0));
        let vias = vias.min(u32::MAX as usize) as u32;
        x.saturating_add(y).saturating_add(VIA.saturating_mul(vias))
    }
}

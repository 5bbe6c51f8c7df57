//! The bands of the plane between two heights, and the rectangles in them.

ghost use Rattle.std.specs.Prelude.{◌≡◌, ◌++◌, IfOk, OnOk};
ghost use Rattle.leg_polygon.specs.Slab.{bands, runs};

use crate::shape::Slab;
use std::alloc::{AllocError, Allocator};
use std::marker::Model;

/// A band of the plane between two heights.
#[derive(Clone, Copy)]
pub(crate) struct Band {
    pub(crate) low: i64,
    pub(crate) high: i64,
}

impl Model for Band {
    ghost use Rattle.std.specs.Prelude.{ℤ};

    ghost Value = { ℤ × ℤ };

    ghost view = { λ b. (b.low, b.high) };

    ghost inverse = { λ b. record { low = b.0; high = b.1 } };
}

/// Adds the rectangles in the band from the first edge to the second, from the third to the fourth, and so on.
pub(crate) fn add_runs<A: Allocator>(
    slabs: &mut Vec<Slab, A>,
    band: &Band,
    edges: &[i64],
) -> Result<(), AllocError>
    ensures { OnOk result (slabs.new.items ≡ slabs.old.items ++ runs band.now edges.now) }
{
    let mut rest = edges;
    'runs: while let [west, east, others @ ..] = rest {
        slabs.push(Slab {
            x1: *west,
            y1: band.low,
            x2: *east,
            y2: band.high,
        })?;
        rest = others;
    }
    Ok(())
}

/// The bands between each two heights that follow one another.
pub(crate) fn bands<A: Allocator + Copy>(
    alloc: A,
    heights: &[i64],
) -> Result<Vec<Band, A>, AllocError>
    ensures { IfOk result (λ v. v.items ≡ bands heights.now) }
{
    let mut bands = Vec::new(alloc);
    if let [first, rest @ ..] = heights {
        let mut low = *first;
        'bands: for high in rest {
            bands.push(Band { low, high: *high })?;
            low = *high;
        }
    }
    Ok(bands)
}

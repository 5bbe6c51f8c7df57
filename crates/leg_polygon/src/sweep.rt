//! The rows of a polygon, from the bottom up.
//!
//! The edges of a row are those of the row below it and the places of the sides that begin or end on the line between the two,
//! without what stands twice. So with n sides a row costs no more than the rectangles of the row below it, its own, and the
//! sides that begin or end there: all rows together n log n and the rectangles.

ghost use Rattle.std.specs.Prelude.{◌≡◌, ◌≢◌, ◌++◌, ◌+◌, ◌<◌, ◌≤◌, ◌<ℤ◌, AllPairs, length, fold, map, flat_map, IfOk, IfErr, IsErrOf, OnOk};
ghost use Rattle.leg_polygon.specs.Slab.{edges, runs, toggle};
ghost use Rattle.leg_polygon.specs.Steps.Sweep.{ArePartedAt, DoClimb, DoStack, odd_upto};

use crate::band::{Band, add_runs};
use crate::fault::PolygonFault;
use crate::number_list::{in_one_alone, odd_numbers};
use crate::shape::{Slab, Vertex};
use crate::side::Side;
use crate::side_end::{count_upto, ends, sort_by_height};
use std::alloc::{AllocError, Allocator};

/// The places of the points along x.
fn places<A: Allocator + Copy>(alloc: A, points: &[Vertex]) -> Result<Vec<i64, A>, AllocError>
    ensures { IfOk result (λ v. v.items ≡ map (λ point. point.x) points.now) }
{
    points.iter().map(|point| point.x).collect(alloc)
}

/// The edges of a row, from those of the row below it and the ends of sides between the two.
fn next_edges<A: Allocator + Copy>(
    alloc: A,
    edges: &[i64],
    between: &[Vertex],
) -> Result<Vec<i64, A>, AllocError>
    requires rising { AllPairs (λ a b. a <ℤ b) edges.now }
    ensures { IfOk result (λ v. v.items ≡ fold toggle edges.now (map (λ point. point.x) between.now)) }
{
    let mut places = places(alloc, between)?;
    let changes = odd_numbers(alloc, &mut places)?;
    in_one_alone(alloc, edges, &changes)
}

/// Adds the rectangles in the band between the edges, if there are then at most so many.
fn add_row<A: Allocator>(
    slabs: &mut Vec<Slab, A>,
    band: &Band,
    edges: &[i64],
    limit: usize,
) -> Result<(), PolygonFault>
    requires { length slabs.old.items ≤ limit }
    ensures added { OnOk result (slabs.new.items ≡ slabs.old.items ++ runs band.now edges.now) }
    ensures within { OnOk result (length slabs.new.items ≤ limit) }
    ensures many { IsErrOf result PolygonFault.TooMany → limit < length slabs.old.items + length (runs band.now edges.now) }
    ensures fault { IfErr result (λ fault. fault ≢ PolygonFault.Memory → fault ≡ PolygonFault.TooMany) }
{
    if limit - slabs.len() < edges.len() / 2 {
        return Err(PolygonFault::TooMany);
    }
    add_runs(slabs, band, edges)?;
    Ok(())
}

/// The points, which stand from the bottom up, that stand on the band's lower line or below it, and those above it.
fn parted<'a>(points: &'a [Vertex], band: &Band) -> (&'a [Vertex], &'a [Vertex])
    requires { DoClimb points.now }
    ensures { ArePartedAt band.now.0 points.now result.0.now result.1.now }
{
    points.split_at(count_upto(points, band.low))
}

/// The rectangles of all rows: in each band those between the places at which an odd number of the points stand on the band's
/// lower line or below it.
fn all_rows<A: Allocator + Copy>(
    alloc: A,
    points: &[Vertex],
    bands: &[Band],
    limit: usize,
) -> Result<Vec<Slab, A>, PolygonFault>
    requires climb { DoClimb points.now }
    requires stack { DoStack bands.now }
    ensures rows { IfOk result (λ v. v.items ≡ flat_map (λ band. runs band (odd_upto points.now band.0)) bands.now) }
    ensures within { IfOk result (λ v. length v.items ≤ limit) }
    ensures many { IsErrOf result PolygonFault.TooMany
        → limit < length (flat_map (λ band. runs band (odd_upto points.now band.0)) bands.now) }
    ensures fault { IfErr result (λ fault. fault ≢ PolygonFault.Memory → fault ≡ PolygonFault.TooMany) }
{
    let mut slabs = Vec::new(alloc);
    let mut edges = Vec::new(alloc);
    let mut rest = points;
    'bands: for band in bands {
        let (between, above) = parted(rest, band);
        edges = next_edges(alloc, &edges, between)?;
        add_row(&mut slabs, band, &edges, limit)?;
        rest = above;
    }
    Ok(slabs)
}

/// The rectangles of the walk in each band, if there are at most so many (else `TooMany`).
pub(crate) fn all_bands<A: Allocator + Copy>(
    alloc: A,
    walk: &[Side],
    bands: &[Band],
    limit: usize,
) -> Result<Vec<Slab, A>, PolygonFault>
    requires stack { DoStack bands.now }
    ensures rows { IfOk result (λ v. v.items ≡ flat_map (λ band. runs band (edges walk.now band.0)) bands.now) }
    ensures within { IfOk result (λ v. length v.items ≤ limit) }
    ensures many { IsErrOf result PolygonFault.TooMany
        → limit < length (flat_map (λ band. runs band (edges walk.now band.0)) bands.now) }
    ensures fault { IfErr result (λ fault. fault ≢ PolygonFault.Memory → fault ≡ PolygonFault.TooMany) }
{
    let mut ends = ends(alloc, walk)?;
    sort_by_height(&mut ends);
    all_rows(alloc, &ends, bands, limit)
}

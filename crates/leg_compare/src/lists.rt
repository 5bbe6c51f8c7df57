//! Lists of two designs whose elements have no names, compared in their order.

ghost use Rattle.std.specs.Prelude.{◌≡◌, ◌↔◌, map, IsTrue};
ghost use Rattle.leg_design_records.specs.Records.{blockage_said};

use crate::equal::{are_same_rects, are_same_shapes, is_same_orient, is_same_place};
use leg_design_records::{Blockage, Port, Row, Track};
use std::alloc::Allocator;

/// Whether the rows are the same.
fn is_same_row(a: &Row<'_>, b: &Row<'_>) -> bool
    ensures { IsTrue result ↔ (a.now ≡ b.now) }
{
    a.name == b.name
        && a.site == b.site
        && a.at == b.at
        && is_same_orient(a.orient, b.orient)
        && a.count == b.count
}

/// Whether these are the same rows.
pub(crate) fn are_same_rows(a: &[Row<'_>], b: &[Row<'_>]) -> bool
    ensures { IsTrue result ↔ (a.now ≡ b.now) }
{
    if a.len() != b.len() {
        return false;
    }
    for i in 0..a.len() {
        if !is_same_row(&a[i], &b[i]) {
            return false;
        }
    }
    true
}

/// Whether the tracks are the same.
fn is_same_track<A: Allocator>(a: &Track<A>, b: &Track<A>) -> bool
    ensures { IsTrue result ↔ (a.now ≡ b.now) }
{
    a.axis == b.axis
        && a.start == b.start
        && a.count == b.count
        && a.step == b.step
        && a.layers == b.layers
}

/// Whether these are the same tracks.
pub(crate) fn are_same_tracks<A: Allocator>(a: &[Track<A>], b: &[Track<A>]) -> bool
    ensures { IsTrue result ↔ (a.now ≡ b.now) }
{
    if a.len() != b.len() {
        return false;
    }
    for i in 0..a.len() {
        if !is_same_track(&a[i], &b[i]) {
            return false;
        }
    }
    true
}

/// Whether the entries of `BLOCKAGES` are the same.
fn is_same_blockage<A: Allocator>(a: &Blockage<A>, b: &Blockage<A>) -> bool
    ensures { IsTrue result ↔ (blockage_said a.now ≡ blockage_said b.now) }
{
    match a {
        Blockage::LayerRects { layer, rects } => match b {
            Blockage::LayerRects {
                layer: other,
                rects: others,
            } => *layer == *other && are_same_rects(rects, others),
            Blockage::Placement { rects: _ } => false,
        },
        Blockage::Placement { rects } => match b {
            Blockage::LayerRects { layer: _, rects: _ } => false,
            Blockage::Placement { rects: others } => are_same_rects(rects, others),
        },
    }
}

/// Whether these are the same blockages.
pub(crate) fn are_same_blockages<A: Allocator>(a: &[Blockage<A>], b: &[Blockage<A>]) -> bool
    ensures { IsTrue result ↔ (map blockage_said a.now ≡ map blockage_said b.now) }
{
    if a.len() != b.len() {
        return false;
    }
    for i in 0..a.len() {
        if !is_same_blockage(&a[i], &b[i]) {
            return false;
        }
    }
    true
}

/// Whether the ports are the same.
fn is_same_port<A: Allocator>(a: &Port<A>, b: &Port<A>) -> bool
    ensures { IsTrue result ↔ (a.now ≡ b.now) }
{
    are_same_shapes(&a.shapes, &b.shapes)
        && a.status == b.status
        && is_same_place(&a.place, &b.place)
}

/// Whether these are the same ports.
pub(crate) fn are_same_ports<A: Allocator>(a: &[Port<A>], b: &[Port<A>]) -> bool
    ensures { IsTrue result ↔ (a.now ≡ b.now) }
{
    if a.len() != b.len() {
        return false;
    }
    for i in 0..a.len() {
        if !is_same_port(&a[i], &b[i]) {
            return false;
        }
    }
    true
}

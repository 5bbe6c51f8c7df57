//! Hulls of boxes of slots, by which the nearest box is found without a look at each.

ghost use Rattle.std.specs.Prelude.{◌≡◌, ◌<◌, List, ◌++◌, length, IfOk, OnOk};
ghost use Rattle.leg_route_grid.specs.declared.slot_box.SlotBox.{SlotBox};
ghost use Rattle.leg_route_grid.specs.Steps.Hulls.{Covers, IsHullAt, AreEachHull, AreHulls};

use crate::slot::Slot;
use crate::slot_box::SlotBox;
use std::alloc::{AllocError, Allocator};

/// A box in which some boxes lie that stand one behind the other in a list, and how many they are.
#[derive(Clone, Copy)]
pub struct Hull {
    pub ends: SlotBox,
    pub count: usize,
}

/// For each of the boxes the hull of those that end with it: of the second of each two that of both, of the last of each four
/// that of all four, and so on, and else that of the box alone.
pub fn hulls_of<A: Allocator>(alloc: A, boxes: &[SlotBox]) -> Result<Vec<Hull, A>, AllocError>
    ensures { IfOk result (λ hulls. AreHulls boxes.now hulls.items) }
{
    let mut hulls = Vec::new(alloc);
    add_hulls(boxes, &mut hulls)?;
    Ok(hulls)
}

/// Adds the hulls of those boxes that came after the first ones, of which the hulls are there.
pub fn add_hulls<A: Allocator>(
    boxes: &[SlotBox],
    hulls: &mut Vec<Hull, A>,
) -> Result<(), AllocError>
    requires { (first : List SlotBox) × (more : List SlotBox) × (boxes.now ≡ first ++ more) × AreHulls first hulls.old.items }
    ensures { OnOk result (AreHulls boxes.now hulls.new.items) }
{
    for last in hulls.len()..boxes.len() {
        let hull = hull_to(boxes, hulls, last);
        hulls.push(hull)?;
    }
    Ok(())
}

/// The hull of the boxes that end with the one of this number, from the hulls of those before it.
fn hull_to(boxes: &[SlotBox], hulls: &[Hull], last: usize) -> Hull
    requires within { last < length boxes.now }
    requires hulls { AreEachHull boxes.now hulls.now }
    requires count { length hulls.now ≡ last }
    ensures { IsHullAt boxes.now last result }
{
    let most = greatest_power_in(last + 1);
    let mut hull = Hull {
        ends: boxes[last],
        count: 1,
    };
    while hull.count < most && hull.count <= last {
        let before = &hulls[last - hull.count];
        hull = Hull {
            ends: around(&hull.ends, &before.ends),
            count: hull.count + before.count,
        };
    }
    hull
}

/// The greatest power of two that divides the number.
fn greatest_power_in(number: usize) -> usize {
    number & number.wrapping_neg()
}

/// The least box in which both lie.
fn around(a: &SlotBox, b: &SlotBox) -> SlotBox
    ensures first { Covers result a.now }
    ensures second { Covers result b.now }
{
    SlotBox {
        low: Slot {
            layer: a.low.layer.min(b.low.layer),
            row: a.low.row.min(b.low.row),
            column: a.low.column.min(b.low.column),
        },
        high: Slot {
            layer: a.high.layer.max(b.high.layer),
            row: a.high.row.max(b.high.row),
            column: a.high.column.max(b.high.column),
        },
    }
}

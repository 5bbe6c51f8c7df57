//! With which elements of the lattice the metal of a net is in conflict, if they are used by another net.

ghost use Rattle.std.specs.Prelude.{◌≡◌, ◌<◌, ◌≤◌, All, length, IfOk, OnOk};
ghost use Rattle.leg_finish_search.specs.Point.{IsPointOf};
ghost use Rattle.leg_finish_search.specs.Slots.{AreSlots, AreSlotLists};

use crate::clash::Clash;
use crate::element::Element;
use crate::ground::Ground;
use crate::lattice::{GridPoint, Lattice};
use crate::table::Table;
use leg_geom::places_within;
use leg_lib_records::Items;
use std::alloc::{AllocError, Allocator};

/// Whether the step from the one slot to the other, which is beside it, goes by a via.
pub(crate) fn is_via_step<A: Allocator + Copy, L: Lattice>(
    ground: &Ground<'_, A, L>,
    from: u32,
    to: u32,
) -> bool {
    let layer = ground
        .lattice
        .xs()
        .len()
        .saturating_mul(ground.lattice.ys().len());
    from.abs_diff(to) as usize == layer
}

/// The elements of this kind with which the metal of these walks is in conflict, each once. Those of the walks are among them, but
/// for vias: a via of which an end is in conflict is left out, as the conflict shows there. Nodes have to be asked for first; both
/// lists have to be closed.
pub(crate) fn stamps_of<A: Allocator + Copy, L: Lattice>(
    alloc: A,
    ground: &Ground<'_, A, L>,
    table: &mut Table<A>,
    clashes: &[Clash],
    walks: &[Items<u32, A>],
    other: Element,
) -> Result<Vec<u32, A>, AllocError>
    requires size { table.old ≡ L.size_of ground.now.lattice.now }
    requires clashes { All (λ clash. clash.other_level < L.levels_of ground.now.lattice.now) clashes.now }
    requires walks { AreSlotLists (L.size_of ground.now.lattice.now) walks.now }
    ensures same { table.new ≡ table.old }
    ensures list { IfOk result (λ list. AreSlots (L.size_of ground.now.lattice.now) list.items) }
{
    let mut list = Vec::new(alloc);
    for walk in walks {
        note_walk(ground, table, clashes, walk.as_slice(), other, &mut list)?;
    }
    Ok(list)
}

/// Adds those of one walk.
fn note_walk<A: Allocator + Copy, L: Lattice>(
    ground: &Ground<'_, A, L>,
    table: &mut Table<A>,
    clashes: &[Clash],
    walk: &[u32],
    other: Element,
    list: &mut Vec<u32, A>,
) -> Result<(), AllocError>
    requires size { table.old ≡ L.size_of ground.now.lattice.now }
    requires clashes { All (λ clash. clash.other_level < L.levels_of ground.now.lattice.now) clashes.now }
    requires walk { AreSlots (L.size_of ground.now.lattice.now) walk.now }
    requires list { AreSlots (L.size_of ground.now.lattice.now) list.old.items }
    ensures same { table.new ≡ table.old }
    ensures list { OnOk result (AreSlots (L.size_of ground.now.lattice.now) list.new.items) }
{
    for k in 0..walk.len() {
        let slot = walk[k];
        note_near(ground, table, clashes, (Element::Node, slot), other, list)?;
        if k > 0 && is_via_step(ground, walk[k - 1], slot) {
            let low = slot.min(walk[k - 1]);
            note_near(ground, table, clashes, (Element::Via, low), other, list)?;
        }
    }
    Ok(())
}

/// Adds those that are in conflict with this element.
fn note_near<A: Allocator + Copy, L: Lattice>(
    ground: &Ground<'_, A, L>,
    table: &mut Table<A>,
    clashes: &[Clash],
    own: (Element, u32),
    other: Element,
    list: &mut Vec<u32, A>,
) -> Result<(), AllocError>
    requires size { table.old ≡ L.size_of ground.now.lattice.now }
    requires clashes { All (λ clash. clash.other_level < L.levels_of ground.now.lattice.now) clashes.now }
    requires own { own.1 < L.size_of ground.now.lattice.now }
    requires list { AreSlots (L.size_of ground.now.lattice.now) list.old.items }
    ensures same { table.new ≡ table.old }
    ensures list { OnOk result (AreSlots (L.size_of ground.now.lattice.now) list.new.items) }
{
    let (element, slot) = own;
    let point = ground.lattice.point(slot);
    for clash in clashes {
        if clash.element == element && clash.level == point.level && clash.other == other {
            note_clash(ground, table, clash, point, list)?;
        }
    }
    Ok(())
}

/// Adds those that clash in this way with an element of the slot.
fn note_clash<A: Allocator + Copy, L: Lattice>(
    ground: &Ground<'_, A, L>,
    table: &mut Table<A>,
    clash: &Clash,
    point: GridPoint,
    list: &mut Vec<u32, A>,
) -> Result<(), AllocError>
    requires size { table.old ≡ L.size_of ground.now.lattice.now }
    requires clash { clash.now.other_level < L.levels_of ground.now.lattice.now }
    requires point { IsPointOf (L.levels_of ground.now.lattice.now) (length (L.ys_of ground.now.lattice.now)) (length (L.xs_of ground.now.lattice.now)) point }
    requires list { AreSlots (L.size_of ground.now.lattice.now) list.old.items }
    ensures same { table.new ≡ table.old }
    ensures list { OnOk result (AreSlots (L.size_of ground.now.lattice.now) list.new.items) }
{
    let (xs, ys) = (ground.lattice.xs(), ground.lattice.ys());
    let (low, high) = clash.columns(xs[point.column]);
    let columns = places_within(xs, low, high);
    let (low, high) = clash.rows(ys[point.row]);
    let rows = places_within(ys, low, high);
    for row in rows.0..rows.1 {
        note_row(ground, table, clash, point, row, columns, list)?;
    }
    Ok(())
}

/// Adds those in these columns of a row.
fn note_row<A: Allocator + Copy, L: Lattice>(
    ground: &Ground<'_, A, L>,
    table: &mut Table<A>,
    clash: &Clash,
    point: GridPoint,
    row: usize,
    columns: (usize, usize),
    list: &mut Vec<u32, A>,
) -> Result<(), AllocError>
    requires size { table.old ≡ L.size_of ground.now.lattice.now }
    requires clash { clash.now.other_level < L.levels_of ground.now.lattice.now }
    requires point { IsPointOf (L.levels_of ground.now.lattice.now) (length (L.ys_of ground.now.lattice.now)) (length (L.xs_of ground.now.lattice.now)) point }
    requires row { row < length (L.ys_of ground.now.lattice.now) }
    requires columns { columns.1 ≤ length (L.xs_of ground.now.lattice.now) }
    requires list { AreSlots (L.size_of ground.now.lattice.now) list.old.items }
    ensures same { table.new ≡ table.old }
    ensures list { OnOk result (AreSlots (L.size_of ground.now.lattice.now) list.new.items) }
{
    for column in columns.0..columns.1 {
        let there = GridPoint {
            level: clash.other_level,
            row,
            column,
        };
        note_there(ground, table, clash, point, there, list)?;
    }
    Ok(())
}

/// Adds the element of the other slot, if they clash in this way; but for a via of which an end is in the list of nodes.
fn note_there<A: Allocator + Copy, L: Lattice>(
    ground: &Ground<'_, A, L>,
    table: &mut Table<A>,
    clash: &Clash,
    point: GridPoint,
    other: GridPoint,
    list: &mut Vec<u32, A>,
) -> Result<(), AllocError>
    requires size { table.old ≡ L.size_of ground.now.lattice.now }
    requires point { IsPointOf (L.levels_of ground.now.lattice.now) (length (L.ys_of ground.now.lattice.now)) (length (L.xs_of ground.now.lattice.now)) point }
    requires other { IsPointOf (L.levels_of ground.now.lattice.now) (length (L.ys_of ground.now.lattice.now)) (length (L.xs_of ground.now.lattice.now)) other }
    requires list { AreSlots (L.size_of ground.now.lattice.now) list.old.items }
    ensures same { table.new ≡ table.old }
    ensures list { OnOk result (AreSlots (L.size_of ground.now.lattice.now) list.new.items) }
{
    let (xs, ys) = (ground.lattice.xs(), ground.lattice.ys());
    let across = xs[other.column].saturating_sub(xs[point.column]);
    let up = ys[other.row].saturating_sub(ys[point.row]);
    if !clash.holds(across, up) || shows_at_end(ground, table, clash.other, other) {
        return Ok(());
    }
    table.note(clash.other, ground.lattice.slot(other), list)
}

/// Whether it is a via of which an end is in the list of nodes.
fn shows_at_end<A: Allocator + Copy, L: Lattice>(
    ground: &Ground<'_, A, L>,
    table: &Table<A>,
    element: Element,
    point: GridPoint,
) -> bool
    requires size { table.now ≡ L.size_of ground.now.lattice.now }
    requires point { IsPointOf (L.levels_of ground.now.lattice.now) (length (L.ys_of ground.now.lattice.now)) (length (L.xs_of ground.now.lattice.now)) point }
{
    match element {
        Element::Node => false,
        Element::Via => {
            has_node(ground, table, point)
                || (ground.lattice.levels() - point.level > 1
                    && has_node(
                        ground,
                        table,
                        GridPoint {
                            level: point.level + 1,
                            ..point
                        },
                    ))
        }
    }
}

/// Whether the node of the point is in the list of nodes.
fn has_node<A: Allocator + Copy, L: Lattice>(
    ground: &Ground<'_, A, L>,
    table: &Table<A>,
    point: GridPoint,
) -> bool
    requires size { table.now ≡ L.size_of ground.now.lattice.now }
    requires point { IsPointOf (L.levels_of ground.now.lattice.now) (length (L.ys_of ground.now.lattice.now)) (length (L.xs_of ground.now.lattice.now)) point }
{
    table.is_noted(Element::Node, ground.lattice.slot(point))
}

//! What is kept of the slots at which walks of a net end: those that may be near to the joined part one by one, and the others in
//! groups, so that a walk does not cost a look at each.

ghost use Rattle.std.specs.Prelude.{◌≡◌, ◌+◌, ◌<◌, ◌≤◌, length, All, Contains, IfOk, OnOk};
ghost use Rattle.leg_route_grid.specs.declared.slot.Slot.{Slot};
ghost use Rattle.leg_route_grid.specs.Steps.Grid.{slot_total};
ghost use Rattle.leg_route_grid.specs.Steps.Hulls.{AreHulls};
ghost use Rattle.leg_route_grid.specs.Steps.WalkBounds.{IsBoxOf, IsInBox};
ghost use Rattle.leg_route.specs.declared.end_slots.EndSlot.{EndSlot};
ghost use Rattle.leg_route.specs.declared.net_ends.EndGroup.{EndGroup};
ghost use Rattle.leg_route.specs.Steps.NetEnds.{ends_in, IsInGroup, IsGroupOf, HasLeast, AreGroups, AreKept, AreGroupsTo, IsGroupFrom, AreGroupsFrom, HaveComeNear, IsWithin, AreBeyond, HaveGrownNear};

use crate::end_slots::EndSlot;
use crate::next_wires::has_mark;
use leg_route_grid::{Grid, Hull, Slot, SlotBox, bound, bound_of_box};
use std::alloc::{AllocError, Allocator};

/// So many ends at most are in a group: a look at the group serves them all, and a group that comes near brings no more.
const GROUP: usize = 32;

/// Ends that stand one behind the other in a list, a box in which their slots lie, and a number of steps, of which an open walk of the
/// net from the joined slots to one of them has no fewer.
#[derive(Clone, Copy)]
pub(crate) struct EndGroup {
    pub(crate) first: usize,
    pub(crate) count: usize,
    pub(crate) within: SlotBox,
    pub(crate) least: u32,
}

/// The slots in the pieces of a net that are not joined to its first one: near ones, and groups of far ones, of which pieces may have
/// been joined since.
#[derive(Drop)]
pub(crate) struct NetEnds<A: Allocator> {
    pub(crate) near: Vec<EndSlot, A>,
    pub(crate) listed: Vec<EndSlot, A>,
    pub(crate) far: Vec<EndGroup, A>,
}

/// These ends: all of them near where they are few, and else in groups.
pub(crate) fn net_ends<A: Allocator + Copy>(
    alloc: A,
    grid: &Grid<'_, '_, A>,
    ends: Vec<EndSlot, A>,
) -> Result<NetEnds<A>, AllocError>
    requires within { All (λ (end : EndSlot). end.slot < slot_total grid.now) ends.items }
    ensures { IfOk result (λ kept. AreKept grid.now ends.items (ends_in kept)) }
{
    if ends.len() <= GROUP {
        return Ok(NetEnds {
            near: ends,
            listed: Vec::new(alloc),
            far: Vec::new(alloc),
        });
    }
    let mut listed = ends;
    sort_ends(grid, &mut listed);
    let far = groups_of(alloc, grid, &listed)?;
    Ok(NetEnds {
        near: Vec::new(alloc),
        listed,
        far,
    })
}

/// So many ends at most are put in an order. Where there are more, most lie in metal as large as the block, and the slots of one shape
/// stand one behind the other as they are found.
const MOST_IN_ORDER: usize = 1 << 18;

/// Puts the ends in an order in which those that stand one behind the other mostly lie near to one another in rows and columns, if they
/// are not too many.
fn sort_ends<A: Allocator + Copy>(grid: &Grid<'_, '_, A>, ends: &mut Vec<EndSlot, A>)
    ensures from { (end : EndSlot) → Contains ends.new.items end → Contains ends.old.items end }
    ensures to { (end : EndSlot) → Contains ends.old.items end → Contains ends.new.items end }
{
    let rows = grid.rows() as u64;
    let columns = grid.columns() as u64;
    if ends.len() <= MOST_IN_ORDER {
        ends.sort_unstable_by_key(|end| place_key(u64::from(end.slot), rows, columns));
    }
}

/// So many columns count as one row in the order of ends. Of ends that are equally near, the one in the first row comes first, so the
/// joined part mostly grows row by row, and fewer groups that are wide touch its edge.
const WIDE: u64 = 4;

/// The bits of the row and of the column of this number in turn: places whose keys are near mostly lie near to one another.
fn place_key(number: u64, rows: u64, columns: u64) -> u64 {
    let columns = columns.max(1);
    let row = number / columns % rows.max(1);
    spread(row) << 1 | spread(number % columns / WIDE)
}

/// The lower half of the bits, each with none between it and the next one.
fn spread(bits: u64) -> u64 {
    let bits = (bits | bits << 16) & 0x0000_ffff_0000_ffff;
    let bits = (bits | bits << 8) & 0x00ff_00ff_00ff_00ff;
    let bits = (bits | bits << 4) & 0x0f0f_0f0f_0f0f_0f0f;
    let bits = (bits | bits << 2) & 0x3333_3333_3333_3333;
    (bits | bits << 1) & 0x5555_5555_5555_5555
}

/// The ends of the list in groups of those that stand one behind the other.
fn groups_of<A: Allocator + Copy>(
    alloc: A,
    grid: &Grid<'_, '_, A>,
    listed: &[EndSlot],
) -> Result<Vec<EndGroup, A>, AllocError>
    requires within { All (λ (end : EndSlot). end.slot < slot_total grid.now) listed.now }
    ensures { IfOk result (λ far. AreGroupsTo grid.now listed.now (length listed.now) far.items) }
{
    let mut far = Vec::new(alloc);
    let mut first = 0;
    'groups: while first < listed.len() {
        let count = (listed.len() - first).min(GROUP);
        far.push(group_at(grid, listed, first, count))?;
        first += count;
    }
    Ok(far)
}

/// The group of so many ends of the list from the first on.
fn group_at<A: Allocator + Copy>(
    grid: &Grid<'_, '_, A>,
    listed: &[EndSlot],
    first: usize,
    count: usize,
) -> EndGroup
    requires within { All (λ (end : EndSlot). end.slot < slot_total grid.now) listed.now }
    requires some { 0 < count }
    requires room { first + count ≤ length listed.now }
    ensures first { result.first ≡ first }
    ensures count { result.count ≡ count }
    ensures is { IsGroupOf grid.now listed.now result }
    ensures least { HasLeast listed.now result }
{
    let slot = grid.slot(listed[first].slot);
    let mut group = EndGroup {
        first,
        count: 1,
        within: SlotBox {
            low: slot,
            high: slot,
        },
        least: listed[first].least,
    };
    for k in first + 1..first + count {
        let end = listed[k];
        group = EndGroup {
            first: group.first,
            count: group.count + 1,
            within: wider(&group.within, grid.slot(end.slot)),
            least: group.least.min(end.least),
        };
    }
    group
}

/// The least box in which the slot lies, and all of the other box.
fn wider(ends: &SlotBox, slot: Slot) -> SlotBox
    ensures here { IsInBox result slot }
    ensures still { (s : Slot) → IsInBox ends.now s → IsInBox result s }
{
    SlotBox {
        low: Slot {
            layer: ends.low.layer.min(slot.layer),
            row: ends.low.row.min(slot.row),
            column: ends.low.column.min(slot.column),
        },
        high: Slot {
            layer: ends.high.layer.max(slot.layer),
            row: ends.high.row.max(slot.row),
            column: ends.high.column.max(slot.column),
        },
    }
}

/// Notes for each of the groups how few steps are left to it, now that these boxes, whose hulls these are, have come to the joined part.
pub(crate) fn note_boxes(far: &mut [EndGroup], boxes: &[SlotBox], hulls: &[Hull])
    requires { AreHulls boxes.now hulls.now }
    ensures { AreGroupsFrom boxes.now far.old far.new }
{
    for k in 0..far.len() {
        far[k] = group_from(&far[k], boxes, hulls);
    }
}

/// The same group, to which no more steps are left than from these boxes, whose hulls these are.
fn group_from(group: &EndGroup, boxes: &[SlotBox], hulls: &[Hull]) -> EndGroup
    requires { AreHulls boxes.now hulls.now }
    ensures { IsGroupFrom boxes.now group.now result }
{
    EndGroup {
        first: group.first,
        count: group.count,
        within: group.within,
        least: bound_of_box(boxes, hulls, &group.within, group.least),
    }
}

/// Makes near the ends of those groups to which no more than `reach` steps are left. `boxes` are all those of the joined part, and these
/// are their hulls.
pub(crate) fn bring_near<A: Allocator + Copy>(
    alloc: A,
    grid: &Grid<'_, '_, A>,
    joined: &[bool],
    boxes: &[SlotBox],
    hulls: &[Hull],
    reach: u32,
    ends: &mut NetEnds<A>,
) -> Result<(), AllocError>
    requires groups { AreGroups grid.now (ends_in ends.old).listed (ends_in ends.old).far }
    requires boxes { All (IsBoxOf grid.now) boxes.now }
    requires hulls { AreHulls boxes.now hulls.now }
    ensures { OnOk result (HaveGrownNear grid.now joined.now boxes.now reach (ends_in ends.old) (ends_in ends.new)) }
{
    let left = groups_left(
        alloc,
        grid,
        joined,
        boxes,
        hulls,
        reach,
        &ends.listed,
        &ends.far,
        &mut ends.near,
    )?;
    ends.far = left;
    Ok(())
}

/// Those of the groups to which more than `reach` steps are left. The ends of the others are added to the near ones.
fn groups_left<A: Allocator + Copy>(
    alloc: A,
    grid: &Grid<'_, '_, A>,
    joined: &[bool],
    boxes: &[SlotBox],
    hulls: &[Hull],
    reach: u32,
    listed: &[EndSlot],
    far: &[EndGroup],
    near: &mut Vec<EndSlot, A>,
) -> Result<Vec<EndGroup, A>, AllocError>
    requires groups { AreGroups grid.now listed.now far.now }
    requires boxes { All (IsBoxOf grid.now) boxes.now }
    requires hulls { AreHulls boxes.now hulls.now }
    ensures near { OnOk result (HaveComeNear grid.now joined.now boxes.now (IsWithin listed.now far.now reach) near.old.items near.new.items) }
    ensures left { IfOk result (λ left. AreBeyond reach far.now left.items) }
{
    let mut left = Vec::new(alloc);
    for group in far {
        if group.least <= reach {
            add_group(grid, listed, group, joined, boxes, hulls, near)?;
        } else {
            left.push(*group)?;
        }
    }
    Ok(left)
}

/// Adds the ends of the group whose pieces are not joined to the near ones, each with how many steps are left to it.
fn add_group<A: Allocator + Copy>(
    grid: &Grid<'_, '_, A>,
    listed: &[EndSlot],
    group: &EndGroup,
    joined: &[bool],
    boxes: &[SlotBox],
    hulls: &[Hull],
    near: &mut Vec<EndSlot, A>,
) -> Result<(), AllocError>
    requires group { IsGroupOf grid.now listed.now group.now }
    requires boxes { All (IsBoxOf grid.now) boxes.now }
    requires hulls { AreHulls boxes.now hulls.now }
    ensures { OnOk result (HaveComeNear grid.now joined.now boxes.now (IsInGroup listed.now group.now) near.old.items near.new.items) }
{
    for k in group.first..group.first + group.count {
        let end = listed[k];
        if has_mark(Some(end.piece), joined, false) {
            let least = bound(grid, boxes, hulls, end.slot, u32::MAX);
            near.push(EndSlot {
                piece: end.piece,
                slot: end.slot,
                least,
            })?;
        }
    }
    Ok(())
}

/// How many steps are left at least to each end of the groups.
pub(crate) fn least_far(far: &[EndGroup]) -> u32
    ensures { (group : EndGroup) → Contains far.now group → result ≤ group.least }
{
    let mut least = u32::MAX;
    for group in far {
        least = least.min(group.least);
    }
    least
}

/// How many steps are left at least to each of the near ends, as far as is known.
fn least_near(near: &[EndSlot]) -> u32 {
    let mut least = u32::MAX;
    for end in near {
        least = least.min(end.least);
    }
    least
}

/// Up to how many steps a walk is looked for first: as many as are left at least to an end. A walk that is longer brings groups near,
/// which each do so once.
pub(crate) fn first_reach<A: Allocator>(ends: &NetEnds<A>) -> u32 {
    if ends.far.is_empty() {
        return 0;
    }
    least_near(&ends.near).min(least_far(&ends.far))
}

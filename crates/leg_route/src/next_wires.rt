//! The wires of a shortest open walk from the joined part of a net to the rest.

ghost use Rattle.std.specs.Prelude.{◌≡◌, ◌↔◌, ◌<◌, ℕ, IsTrue, map, All, Contains, length, IfOk, OnOk, IfSome};
ghost use Rattle.std.specs.Option.{option_map};
ghost use Rattle.leg_wire.specs.NetShapes.{AreNumbersOf};
ghost use Rattle.leg_wire.specs.PieceMarks.{AreMarks};
ghost use Rattle.leg_rules.specs.Joins.Touch.{piece_count, AreJoined};
ghost use Rattle.leg_route_grid.specs.Steps.Grid.{IsNumberOf, slot_total};
ghost use Rattle.leg_route_grid.specs.Steps.WalkBounds.{AreBoxed};
ghost use Rattle.leg_rules.specs.Route.Meets.{MeetsRest};
ghost use Rattle.leg_route_grid.specs.Steps.NodeNumbers.{IsOneOf};
ghost use Rattle.leg_route_access.specs.Steps.AccessTable.{IsAccessTable};
ghost use Rattle.leg_route.specs.Steps.NetSlots.{HasMark, AreMarkedSlots, IsPartOf, IsSearchFrom, IsNextAnswerAt, IsNearestAt, IsNearAnswerAt};
ghost use Rattle.leg_route.specs.declared.end_slots.EndSlot.{EndSlot};
ghost use Rattle.leg_route.specs.Steps.EndSlots.{IsFarSlot, AreSameEnds};
ghost use Rattle.leg_route.specs.Steps.NetEnds.{ends_in};
ghost use Rattle.leg_route.specs.Steps.NextWires.{IsNextAnswer};

use crate::end_slots::{EndSlot, note_steps, slots_of_ends, steps_to_ends};
use crate::joined_part::JoinedPart;
use crate::net_ends::{bring_near, first_reach, least_far};
use leg_design_records::{Design, Wire};
use leg_flat::{Flat, Shape};
use leg_route_access::laws::{
    numbers_walk_as_nodes, open_walks_are_grid_walks, searches_walk_as_numbers,
};
use leg_route_access::{NetGraph, SlotAccess, nodes_of, wires_of};
use leg_route_grid::laws::nodes_have_numbers;
use leg_route_grid::{BoxedSlots, Grid, Hull, add_slots_in, grid_is_sound, hulls_of};
use leg_route_search::{Marks, far_walk, near_walk};
use std::alloc::{AllocError, Allocator};

/// Whether the piece has this mark.
pub(crate) fn has_mark(piece: Option<u32>, marks: &[bool], mark: bool) -> bool
    ensures { IsTrue result ↔ HasMark marks.now mark piece }
{
    match piece {
        Some(number) => marks.get(number as usize) == Some(&mark),
        None => false,
    }
}

/// The slots that lie in shapes whose pieces have this mark, of the shapes of these numbers, and for each shape in which some lie
/// their box.
pub(crate) fn marked_slots<A: Allocator + Copy>(
    alloc: A,
    grid: &Grid<'_, '_, A>,
    shapes: &[Shape],
    numbers: &[u32],
    marks: &[bool],
    mark: bool,
) -> Result<BoxedSlots<A>, AllocError>
    requires { All (λ k. k < length shapes.now) numbers.now }
    ensures { IfOk result (λ found. AreMarkedSlots grid.now shapes.now marks.now mark numbers.now found.boxes.items found.slots.items) }
{
    let mut found = BoxedSlots::new(alloc);
    for number in numbers {
        let shape = &shapes[*number as usize];
        if has_mark(shape.piece, marks, mark) {
            add_slots_in(grid, shape.layer, &shape.rect, &mut found)?;
        }
    }
    found.sort_boxes();
    Ok(found)
}

/// The numbers of the slots of a shortest open walk of the net from these slots to one of the ends, where a search nearby finds one.
/// Where it finds none, `left_out` is whether there may be one, and `limit` is how many steps it then has at least. What the search
/// finds out of each of the ends is noted. `slots` has what is open in the flat.
fn walk_nearby<A: Allocator + Copy>(
    alloc: A,
    grid: &Grid<'_, '_, A>,
    flat: &Flat<A>,
    slots: &[SlotAccess],
    net: u32,
    starts: &BoxedSlots<A>,
    hulls: &[Hull],
    ends: &mut [EndSlot],
    limit: &mut u64,
    marks: &mut Marks<A>,
    left_out: &mut bool,
) -> Result<Option<Vec<u32, A>>, AllocError>
    requires given { IsSearchFrom grid.now flat.now slots.now net starts.now.slots.items starts.now.boxes.items hulls.now }
    requires ends_within { All (λ (end : EndSlot). end.slot < slot_total grid.now) ends.old }
    requires far { All (λ (end : EndSlot). IsFarSlot grid.now flat.now net starts.now.boxes.items end.least end.slot) ends.old }
    requires count { length marks.old ≡ slot_total grid.now }
    ensures answer { IfOk result (λ walk. IsNearestAt grid.now flat.now net (map (λ (end : EndSlot). end.slot) ends.old) left_out.new
        (option_map (λ numbers. numbers.items) walk)) }
    ensures within { IfOk result (λ walk. IfSome walk (λ numbers. All (λ n. n < slot_total grid.now) numbers.items)) }
    ensures same { AreSameEnds ends.old ends.new }
    ensures far { All (λ (end : EndSlot). IsFarSlot grid.now flat.now net starts.now.boxes.items end.least end.slot) ends.new }
    ensures count { length marks.new ≡ length marks.old }
{
    grid_is_sound(grid);
    *left_out = false;
    if starts.slots.is_empty() {
        return Ok(None);
    }
    if ends.is_empty() {
        return Ok(None);
    }
    let graph = NetGraph {
        grid,
        slots,
        net,
        starts: starts.boxes.as_slice(),
        start_hulls: hulls,
        ends: &[],
        end_hulls: &[],
    };
    searches_walk_as_numbers();
    let last = slots_of_ends(alloc, ends)?;
    let mut known = steps_to_ends(alloc, ends)?;
    let walk = near_walk(alloc, &graph, &last, &mut known, limit, marks, left_out)?;
    note_steps(ends, &known);
    Ok(walk)
}

/// The numbers of the slots of a shortest open walk of the net, whose walks begin and end in these slots, or `None` where there
/// is no such walk, found by a search that begins with this limit. `slots` has what is open in the flat.
fn walk_further<A: Allocator + Copy>(
    alloc: A,
    grid: &Grid<'_, '_, A>,
    flat: &Flat<A>,
    slots: &[SlotAccess],
    net: u32,
    starts: &BoxedSlots<A>,
    hulls: &[Hull],
    ends: &BoxedSlots<A>,
    limit: u64,
    marks: &mut Marks<A>,
) -> Result<Option<Vec<u32, A>>, AllocError>
    requires given { IsSearchFrom grid.now flat.now slots.now net starts.now.slots.items starts.now.boxes.items hulls.now }
    requires ends { (n : ℕ) → Contains ends.now.slots.items n ↔ IsOneOf (IsNumberOf grid.now) (MeetsRest flat.now net) n }
    requires ends_within { All (λ n. n < slot_total grid.now) ends.now.slots.items }
    requires ends_boxed { AreBoxed grid.now ends.now.boxes.items ends.now.slots.items }
    requires count { length marks.old ≡ slot_total grid.now }
    ensures answer { IfOk result (λ walk. IsNextAnswerAt grid.now flat.now net (option_map (λ numbers. numbers.items) walk)) }
    ensures within { IfOk result (λ walk. IfSome walk (λ numbers. All (λ n. n < slot_total grid.now) numbers.items)) }
    ensures count { length marks.new ≡ length marks.old }
{
    grid_is_sound(grid);
    let end_hulls = hulls_of(alloc, &ends.boxes)?;
    let graph = NetGraph {
        grid,
        slots,
        net,
        starts: starts.boxes.as_slice(),
        start_hulls: hulls,
        ends: ends.boxes.as_slice(),
        end_hulls: end_hulls.as_slice(),
    };
    searches_walk_as_numbers();
    let walk = far_walk(alloc, &graph, &starts.slots, &ends.slots, limit, marks)?;
    Ok(walk)
}

/// Looks nearby for a shortest walk from the joined part of the net to the rest, among those ends to which no more than `reach` steps are
/// left, and others that were near before. Where it finds none, or one that may not be a shortest, `left_out` is whether there may be
/// a walk, `reach` is how far it is to be looked for then, and `limit` is how many steps a walk to one of these ends has at least.
fn walk_within<A: Allocator + Copy>(
    alloc: A,
    grid: &Grid<'_, '_, A>,
    flat: &Flat<A>,
    slots: &[SlotAccess],
    net: u32,
    numbers: &[u32],
    part: &mut JoinedPart<A>,
    reach: &mut u32,
    limit: &mut u64,
    marks: &mut Marks<A>,
    left_out: &mut bool,
) -> Result<Option<Vec<u32, A>>, AllocError>
    requires told { IsAccessTable grid.now flat.now slots.now }
    requires numbers { AreNumbersOf flat.now.shapes net numbers.now }
    requires joined { AreMarks (AreJoined flat.now net 0) (piece_count flat.now net) part.old.joined.items }
    requires part { IsPartOf grid.now flat.now net part.old.joined.items numbers.now
        part.old.slots.boxes.items part.old.slots.slots.items part.old.hulls.items (ends_in part.old.ends) }
    requires count { length marks.old ≡ slot_total grid.now }
    ensures answer { IfOk result (λ walk. IsNearAnswerAt grid.now flat.now net left_out.new (option_map (λ numbers. numbers.items) walk)) }
    ensures within { IfOk result (λ walk. IfSome walk (λ numbers. All (λ n. n < slot_total grid.now) numbers.items)) }
    ensures part { OnOk result (IsPartOf grid.now flat.now net part.new.joined.items numbers.now
        part.new.slots.boxes.items part.new.slots.slots.items part.new.hulls.items (ends_in part.new.ends)) }
    ensures same_net { part.new.net ≡ part.old.net }
    ensures same_joined { part.new.joined.items ≡ part.old.joined.items }
    ensures count { length marks.new ≡ slot_total grid.now }
{
    grid_is_sound(grid);
    bring_near(
        alloc,
        grid,
        &part.joined,
        &part.slots.boxes,
        &part.hulls,
        *reach,
        &mut part.ends,
    )?;
    let walk = walk_nearby(
        alloc,
        grid,
        flat,
        slots,
        net,
        &part.slots,
        &part.hulls,
        &mut part.ends.near,
        limit,
        marks,
        left_out,
    )?;
    if part.ends.far.is_empty() {
        return Ok(walk);
    }
    let least = least_far(&part.ends.far);
    if let Some(nodes) = walk {
        if nodes.len() <= least as usize {
            return Ok(Some(nodes));
        }
        *reach = nodes.len().min(u32::MAX as usize) as u32;
    } else {
        *reach = reach.saturating_mul(2).max(least);
    }
    *left_out = true;
    Ok(None)
}

/// So many times a walk is looked for nearby at most. Each time it is looked for twice as far at least, or as far as a walk is long
/// that was found, so no end is too far for the last one.
const ROUNDS: u32 = 40;

/// Looks nearby for a shortest walk from the joined part of the net to the rest, farther and farther. Where it finds none, `left_out`
/// is whether there may be one, and `limit` is where a search that goes on begins.
fn walk_near<A: Allocator + Copy>(
    alloc: A,
    grid: &Grid<'_, '_, A>,
    flat: &Flat<A>,
    slots: &[SlotAccess],
    net: u32,
    numbers: &[u32],
    part: &mut JoinedPart<A>,
    limit: &mut u64,
    marks: &mut Marks<A>,
    left_out: &mut bool,
) -> Result<Option<Vec<u32, A>>, AllocError>
    requires told { IsAccessTable grid.now flat.now slots.now }
    requires numbers { AreNumbersOf flat.now.shapes net numbers.now }
    requires joined { AreMarks (AreJoined flat.now net 0) (piece_count flat.now net) part.old.joined.items }
    requires part { IsPartOf grid.now flat.now net part.old.joined.items numbers.now
        part.old.slots.boxes.items part.old.slots.slots.items part.old.hulls.items (ends_in part.old.ends) }
    requires count { length marks.old ≡ slot_total grid.now }
    ensures answer { IfOk result (λ walk. IsNearAnswerAt grid.now flat.now net left_out.new (option_map (λ numbers. numbers.items) walk)) }
    ensures within { IfOk result (λ walk. IfSome walk (λ numbers. All (λ n. n < slot_total grid.now) numbers.items)) }
    ensures part { OnOk result (IsPartOf grid.now flat.now net part.new.joined.items numbers.now
        part.new.slots.boxes.items part.new.slots.slots.items part.new.hulls.items (ends_in part.new.ends)) }
    ensures same_net { part.new.net ≡ part.old.net }
    ensures same_joined { part.new.joined.items ≡ part.old.joined.items }
    ensures count { length marks.new ≡ slot_total grid.now }
{
    let mut reach = first_reach(&part.ends);
    'rounds: for _ in 0..ROUNDS {
        let walk = walk_within(
            alloc, grid, flat, slots, net, numbers, part, &mut reach, limit, marks, left_out,
        )?;
        if !*left_out || part.ends.far.is_empty() {
            return Ok(walk);
        }
    }
    *left_out = true;
    Ok(None)
}

/// The numbers of the slots of a shortest open walk from the joined part of the net to the rest, or `None` where there is no such
/// walk. The slots of the rest are looked for again where a search nearby finds no walk.
fn next_walk<A: Allocator + Copy>(
    alloc: A,
    grid: &Grid<'_, '_, A>,
    flat: &Flat<A>,
    slots: &[SlotAccess],
    net: u32,
    numbers: &[u32],
    part: &mut JoinedPart<A>,
    marks: &mut Marks<A>,
) -> Result<Option<Vec<u32, A>>, AllocError>
    requires told { IsAccessTable grid.now flat.now slots.now }
    requires numbers { AreNumbersOf flat.now.shapes net numbers.now }
    requires joined { AreMarks (AreJoined flat.now net 0) (piece_count flat.now net) part.old.joined.items }
    requires part { IsPartOf grid.now flat.now net part.old.joined.items numbers.now
        part.old.slots.boxes.items part.old.slots.slots.items part.old.hulls.items (ends_in part.old.ends) }
    requires count { length marks.old ≡ slot_total grid.now }
    ensures answer { IfOk result (λ walk. IsNextAnswerAt grid.now flat.now net (option_map (λ numbers. numbers.items) walk)) }
    ensures within { IfOk result (λ walk. IfSome walk (λ numbers. All (λ n. n < slot_total grid.now) numbers.items)) }
    ensures part { OnOk result (IsPartOf grid.now flat.now net part.new.joined.items numbers.now
        part.new.slots.boxes.items part.new.slots.slots.items part.new.hulls.items (ends_in part.new.ends)) }
    ensures same_net { part.new.net ≡ part.old.net }
    ensures same_joined { part.new.joined.items ≡ part.old.joined.items }
    ensures count { length marks.new ≡ length marks.old }
{
    let mut limit = 0;
    let mut left_out = false;
    let near = walk_near(
        alloc,
        grid,
        flat,
        slots,
        net,
        numbers,
        part,
        &mut limit,
        marks,
        &mut left_out,
    )?;
    if let Some(walk) = near {
        return Ok(Some(walk));
    }
    if !left_out {
        return Ok(None);
    }
    let shapes = flat.shapes();
    let ends = marked_slots(alloc, grid, shapes, numbers, &part.joined, false)?;
    let walk = walk_further(
        alloc,
        grid,
        flat,
        slots,
        net,
        &part.slots,
        &part.hulls,
        &ends,
        limit,
        marks,
    )?;
    Ok(walk)
}

/// The wires of a shortest open walk from the joined part of the net to the rest, or `None` where there is no such walk. `slots`
/// has for each slot of the grid what is open in the flat, `numbers` are those of the net's shapes, and `part` is what is kept of its
/// joined pieces and of the others, for which is noted what is found out of them. `marks` has one for each slot. Of several such walks one is taken as
/// `shortest` of `leg_route_search` states.
///
/// It fails only when out of memory.
pub(crate) fn next_wires<A: Allocator + Copy>(
    alloc: A,
    grid: &Grid<'_, '_, A>,
    design: &Design<'_, A>,
    flat: &Flat<A>,
    slots: &[SlotAccess],
    net: u32,
    numbers: &[u32],
    part: &mut JoinedPart<A>,
    marks: &mut Marks<A>,
) -> Result<Option<Vec<Wire, A>>, AllocError>
    requires of_design { grid.now.design ≡ design.now }
    requires told { IsAccessTable grid.now flat.now slots.now }
    requires in_range { net < length flat.now.pieces }
    requires numbers { AreNumbersOf flat.now.shapes net numbers.now }
    requires joined { AreMarks (AreJoined flat.now net 0) (piece_count flat.now net) part.old.joined.items }
    requires part { IsPartOf grid.now flat.now net part.old.joined.items numbers.now
        part.old.slots.boxes.items part.old.slots.slots.items part.old.hulls.items (ends_in part.old.ends) }
    requires count { length marks.old ≡ slot_total grid.now }
    ensures answer { IfOk result (λ answer. IsNextAnswer design.now flat.now net (option_map (λ wires. wires.items) answer)) }
    ensures part { OnOk result (IsPartOf grid.now flat.now net part.new.joined.items numbers.now
        part.new.slots.boxes.items part.new.slots.slots.items part.new.hulls.items (ends_in part.new.ends)) }
    ensures same_net { part.new.net ≡ part.old.net }
    ensures same_joined { part.new.joined.items ≡ part.old.joined.items }
    ensures count { length marks.new ≡ length marks.old }
{
    let found = next_walk(alloc, grid, flat, slots, net, numbers, part, marks)?;
    grid_is_sound(grid);
    nodes_have_numbers();
    numbers_walk_as_nodes();
    open_walks_are_grid_walks();
    let Some(walk) = found else {
        return Ok(None);
    };
    let nodes = nodes_of(alloc, grid, &walk)?;
    let wires = wires_of(alloc, grid, design, &nodes)?;
    Ok(Some(wires))
}

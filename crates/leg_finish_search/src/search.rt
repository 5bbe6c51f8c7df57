//! The search for the cheapest way from what is joined of a net to one of its other groups.

ghost use Rattle.std.specs.Prelude.{◌≡◌, ◌<◌, length, IfOk, IfSome};
ghost use Rattle.leg_finish_search.specs.Point.{IsPointOf};

use crate::element::Element;
use crate::ground::Ground;
use crate::lattice::{GridPoint, Lattice};
use crate::place::PlaceBox;
use crate::price::{Prices, VIA};
use crate::slot_state::Origin;
use crate::table::Table;
use crate::tree::Source;
use leg_lib_records::Direction;
use std::alloc::{AllocError, Allocator};

/// What a search asks: for which net, at which prices, and at which box it aims.
#[derive(Clone, Copy)]
pub(crate) struct Question {
    pub(crate) net: u32,
    pub(crate) prices: Prices,
    pub(crate) ends: PlaceBox,
}

/// A slot from which ways go on.
#[derive(Clone, Copy)]
struct Reached {
    slot: u32,
    point: GridPoint,
    /// What the way to it costs.
    cost: u32,
}

/// A step that a way may take.
#[derive(Clone, Copy)]
struct Step {
    to: GridPoint,
    /// From which side it comes there.
    origin: Origin,
    /// What it uses: the node that it goes to alone, or a via too.
    element: Element,
}

impl Step {
    /// A step along a level.
    fn along(to: GridPoint, origin: Origin) -> Step
        ensures { result.to ≡ to }
    {
        Step {
            to,
            origin,
            element: Element::Node,
        }
    }

    /// A step to another level.
    fn through(to: GridPoint, origin: Origin) -> Step
        ensures { result.to ≡ to }
    {
        Step {
            to,
            origin,
            element: Element::Via,
        }
    }
}

/// Notes the way that begins at the slot. A node that the net uses already costs nothing.
pub(crate) fn begin<A: Allocator + Copy, L: Lattice>(
    ground: &Ground<'_, A, L>,
    table: &mut Table<A>,
    question: &Question,
    source: Source,
) -> Result<(), AllocError>
    requires within { source.slot < L.size_of ground.now.lattice.now }
    requires size { table.old ≡ L.size_of ground.now.lattice.now }
    ensures { table.new ≡ table.old }
{
    let slot = source.slot;
    let cost = if source.is_used {
        0
    } else {
        question.prices.of(table.congestion(Element::Node, slot))
    };
    let left = ground.left(ground.lattice.point(slot), &question.ends);
    table.reach(slot, cost, Origin::Itself, left)
}

/// The slot of an end to which the cheapest way leads that begins at one of the slots noted, if there is such a way.
pub(crate) fn find<A: Allocator + Copy, L: Lattice>(
    ground: &Ground<'_, A, L>,
    table: &mut Table<A>,
    question: &Question,
) -> Result<Option<u32>, AllocError>
    requires size { table.old ≡ L.size_of ground.now.lattice.now }
    ensures same { table.new ≡ table.old }
    ensures within { IfOk result (λ found. IfSome found (λ end. end < L.size_of ground.now.lattice.now)) }
{
    for _ in 0..table.looks() {
        let Some((slot, cost)) = table.next() else {
            return Ok(None);
        };
        if table.is_end(slot) {
            return Ok(Some(slot));
        }
        let point = ground.lattice.point(slot);
        spread(ground, table, question, Reached { slot, point, cost })?;
    }
    Ok(None)
}

/// Tries each step from the slot.
fn spread<A: Allocator + Copy, L: Lattice>(
    ground: &Ground<'_, A, L>,
    table: &mut Table<A>,
    question: &Question,
    from: Reached,
) -> Result<(), AllocError>
    requires size { table.old ≡ L.size_of ground.now.lattice.now }
    requires slot { from.slot < L.size_of ground.now.lattice.now }
    requires point { IsPointOf (L.levels_of ground.now.lattice.now) (length (L.ys_of ground.now.lattice.now))
        (length (L.xs_of ground.now.lattice.now)) from.point }
    ensures { table.new ≡ table.old }
{
    match ground.lattice.direction(from.point.level) {
        Direction::Horizontal => spread_along_x(ground, table, question, from)?,
        Direction::Vertical => spread_along_y(ground, table, question, from)?,
    }
    spread_through(ground, table, question, from)
}

/// Tries the steps to the west and to the east.
fn spread_along_x<A: Allocator + Copy, L: Lattice>(
    ground: &Ground<'_, A, L>,
    table: &mut Table<A>,
    question: &Question,
    from: Reached,
) -> Result<(), AllocError>
    requires size { table.old ≡ L.size_of ground.now.lattice.now }
    requires slot { from.slot < L.size_of ground.now.lattice.now }
    requires point { IsPointOf (L.levels_of ground.now.lattice.now) (length (L.ys_of ground.now.lattice.now))
        (length (L.xs_of ground.now.lattice.now)) from.point }
    ensures { table.new ≡ table.old }
{
    let point = from.point;
    if point.column > 0 {
        let to = GridPoint {
            column: point.column - 1,
            ..point
        };
        follow(ground, table, question, from, Step::along(to, Origin::East))?;
    }
    if point.column + 1 < ground.lattice.xs().len() {
        let to = GridPoint {
            column: point.column + 1,
            ..point
        };
        follow(ground, table, question, from, Step::along(to, Origin::West))?;
    }
    Ok(())
}

/// Tries the steps to the south and to the north.
fn spread_along_y<A: Allocator + Copy, L: Lattice>(
    ground: &Ground<'_, A, L>,
    table: &mut Table<A>,
    question: &Question,
    from: Reached,
) -> Result<(), AllocError>
    requires size { table.old ≡ L.size_of ground.now.lattice.now }
    requires slot { from.slot < L.size_of ground.now.lattice.now }
    requires point { IsPointOf (L.levels_of ground.now.lattice.now) (length (L.ys_of ground.now.lattice.now))
        (length (L.xs_of ground.now.lattice.now)) from.point }
    ensures { table.new ≡ table.old }
{
    let point = from.point;
    if point.row > 0 {
        let to = GridPoint {
            row: point.row - 1,
            ..point
        };
        follow(
            ground,
            table,
            question,
            from,
            Step::along(to, Origin::North),
        )?;
    }
    if point.row + 1 < ground.lattice.ys().len() {
        let to = GridPoint {
            row: point.row + 1,
            ..point
        };
        follow(
            ground,
            table,
            question,
            from,
            Step::along(to, Origin::South),
        )?;
    }
    Ok(())
}

/// Tries the steps down and up.
fn spread_through<A: Allocator + Copy, L: Lattice>(
    ground: &Ground<'_, A, L>,
    table: &mut Table<A>,
    question: &Question,
    from: Reached,
) -> Result<(), AllocError>
    requires size { table.old ≡ L.size_of ground.now.lattice.now }
    requires slot { from.slot < L.size_of ground.now.lattice.now }
    requires point { IsPointOf (L.levels_of ground.now.lattice.now) (length (L.ys_of ground.now.lattice.now))
        (length (L.xs_of ground.now.lattice.now)) from.point }
    ensures { table.new ≡ table.old }
{
    let point = from.point;
    if point.level > 0 {
        let to = GridPoint {
            level: point.level - 1,
            ..point
        };
        follow(
            ground,
            table,
            question,
            from,
            Step::through(to, Origin::Above),
        )?;
    }
    if ground.lattice.levels() - point.level > 1 {
        let to = GridPoint {
            level: point.level + 1,
            ..point
        };
        follow(
            ground,
            table,
            question,
            from,
            Step::through(to, Origin::Below),
        )?;
    }
    Ok(())
}

/// Takes the step, if it is open and the node that it leads to, and notes what the way then costs.
fn follow<A: Allocator + Copy, L: Lattice>(
    ground: &Ground<'_, A, L>,
    table: &mut Table<A>,
    question: &Question,
    from: Reached,
    step: Step,
) -> Result<(), AllocError>
    requires size { table.old ≡ L.size_of ground.now.lattice.now }
    requires slot { from.slot < L.size_of ground.now.lattice.now }
    requires from { IsPointOf (L.levels_of ground.now.lattice.now) (length (L.ys_of ground.now.lattice.now))
        (length (L.xs_of ground.now.lattice.now)) from.point }
    requires to { IsPointOf (L.levels_of ground.now.lattice.now) (length (L.ys_of ground.now.lattice.now))
        (length (L.xs_of ground.now.lattice.now)) step.to }
    ensures { table.new ≡ table.old }
{
    let slot = ground.lattice.slot(step.to);
    // A step is kept with the lower of its slots.
    let gate = slot.min(from.slot);
    let net = question.net;
    let is_open = match step.element {
        Element::Node => ground.lattice.is_open_along(gate, net),
        Element::Via => ground.lattice.is_open_above(gate, net),
    };
    if !is_open || !ground.lattice.is_open_node(slot, net) {
        return Ok(());
    }
    let prices = question.prices;
    let step_price = match step.element {
        Element::Node => ground.place(from.point).distance(ground.place(step.to)),
        Element::Via => VIA.saturating_add(prices.of(table.congestion(Element::Via, gate))),
    };
    let node_price = prices.of(table.congestion(Element::Node, slot));
    let cost = from
        .cost
        .saturating_add(step_price)
        .saturating_add(node_price);
    table.reach(
        slot,
        cost,
        step.origin,
        ground.left(step.to, &question.ends),
    )
}

//! What is kept of the slots of a grid, as shapes are added.

ghost use Rattle.std.specs.Prelude.{◌≡◌, ◌↔◌, ◌<◌, ◌≤◌, ◌-ℤ◌, ◌+ℤ◌, ◌<ℤ◌, ◌+◌, ℕ, List, [], ◌∷◌, ◌++◌, AllPairs, Contains, Some, length, take, slice_get, IsTrue, IfOk};
ghost use Rattle.leg_geom.specs.Plane.{IsCoordinate};
ghost use Rattle.leg_rules.specs.declared.shape.Shape.{Shape};
ghost use Rattle.leg_rules.specs.Metal.Flat.{FlatModel};
ghost use Rattle.leg_wire_spacing.specs.Access.{Admits};
ghost use Rattle.leg_rules.specs.declared.node.Node.{Node};
ghost use Rattle.leg_route_grid.specs.Steps.Grid.{IsDesignGrid, IsNumberOf, slot_total};
ghost use Rattle.leg_route_access.specs.Steps.AccessTable.{IsSlotAccess, IsAccessTable};
ghost use Rattle.leg_route_access.specs.Steps.Reaches.{IsFar};
ghost use Rattle.leg_route_grid.specs.Steps.SlotRanges.{IsInRow, IsInRows};
ghost use Rattle.leg_route_access.specs.Steps.SameShape.{AreSame};
ghost use Rattle.leg_route_access.specs.Steps.AccessUpdates.{AreAccessAfter, ArePlacesNear, IsSlotOnLayer, LiesOnIf};

use crate::open_step::next_along;
use crate::reach::{far_on, layers_near, reach_on};
use crate::slot_access::{SlotAccess, slot_beside};
use leg_design_records::Design;
use leg_geom::places_within;
use leg_lib_records::Direction;
use leg_route_grid::{Grid, RoutingLayer, Slot, grid_is_sound};
use leg_route_search::Side;
use leg_rules::Shape;
use leg_wire_spacing::Access;
use std::alloc::{AllocError, Allocator};

/// Free where there is something, and else blocked.
fn access_of(is_there: bool) -> Access
    ensures { (net : ℕ) → Admits result net ↔ IsTrue is_there }
{
    if is_there {
        Access::Free
    } else {
        Access::Blocked
    }
}

/// What is known of the slot of this number where no shape lies.
fn bare_slot<A: Allocator + Copy>(grid: &Grid<'_, '_, A>, number: u32) -> SlotAccess
    requires { number < slot_total grid.now }
    ensures { (flat : FlatModel) → flat.shapes ≡ [] → IsSlotAccess grid.now flat number result }
{
    SlotAccess {
        node: access_of(grid.holds_node(number)),
        along: access_of(next_along(grid, number).is_some()),
        above: access_of(grid.beside(number, Side::Above).is_some()),
    }
}

/// What is known of each slot where no shape lies.
fn bare_slots<A: Allocator + Copy>(
    alloc: A,
    grid: &Grid<'_, '_, A>,
) -> Result<Vec<SlotAccess, A>, AllocError>
    ensures { IfOk result (λ slots. (flat : FlatModel) → flat.shapes ≡ [] → IsAccessTable grid.now flat slots.items) }
{
    let mut slots = Vec::with_capacity(alloc, grid.size() as usize)?;
    for number in 0..grid.size() {
        slots.push(bare_slot(grid, number))?;
    }
    Ok(slots)
}

/// To which nets the node of each slot of the grid and the steps from it are open, where these shapes lie. It fails only when out
/// of memory.
pub fn slots_beside<A: Allocator + Copy>(
    alloc: A,
    grid: &Grid<'_, '_, A>,
    design: &Design<'_, A>,
    shapes: &[Shape],
) -> Result<Vec<SlotAccess, A>, AllocError>
    requires { grid.now.design ≡ design.now }
    ensures { IfOk result (λ slots. (flat : FlatModel) → flat.shapes ≡ shapes.now → IsAccessTable grid.now flat slots.items) }
{
    let mut slots = bare_slots(alloc, grid)?;
    add_shapes(grid, design, shapes, &mut slots);
    Ok(slots)
}

/// The same where these shapes lie too, after the others: the slots near them are computed anew, on the layers near them. A shape
/// that is the one before it again, as cuts of a via may be, is passed over. The grid is that of the design.
pub fn add_shapes<A: Allocator + Copy>(
    grid: &Grid<'_, '_, A>,
    design: &Design<'_, A>,
    shapes: &[Shape],
    slots: &mut [SlotAccess],
)
    requires of_design { grid.now.design ≡ design.now }
    requires count { length slots.old ≡ slot_total grid.now }
    ensures count { length slots.new ≡ length slots.old }
    ensures told { (before : List Shape) → ((flat : FlatModel) → flat.shapes ≡ before → IsAccessTable grid.now flat slots.old)
        → (flat : FlatModel) → flat.shapes ≡ before ++ shapes.now → IsAccessTable grid.now flat slots.new }
{
    for k in 0..shapes.len() {
        add_unless_again(grid, design, shapes, k, slots);
    }
}

/// The same with the shape of this number alone, after those before it.
fn add_unless_again<A: Allocator + Copy>(
    grid: &Grid<'_, '_, A>,
    design: &Design<'_, A>,
    shapes: &[Shape],
    k: usize,
    slots: &mut [SlotAccess],
)
    requires of_design { grid.now.design ≡ design.now }
    requires within { k < length shapes.now }
    requires count { length slots.old ≡ slot_total grid.now }
    ensures count { length slots.new ≡ length slots.old }
    ensures told { (before : List Shape) → ((flat : FlatModel) → flat.shapes ≡ before ++ take k shapes.now → IsAccessTable grid.now flat slots.old)
        → (flat : FlatModel) → flat.shapes ≡ before ++ take (k + 1) shapes.now → IsAccessTable grid.now flat slots.new }
{
    grid_is_sound(grid);
    if is_again(shapes, k) {
        return;
    }
    add_shape(grid, design, &shapes[k], slots);
}

/// Whether the shape of this number is the one before it again.
fn is_again(shapes: &[Shape], k: usize) -> bool
    requires { k < length shapes.now }
    ensures { (shape : Shape) → slice_get shapes.now k ≡ Some shape → IsTrue result → Contains (take k shapes.now) shape }
{
    if k == 0 {
        return false;
    }
    let before = k - 1;
    is_same(&shapes[before], &shapes[k])
}

/// Whether both are the same metal, of one piece.
fn is_same(a: &Shape, b: &Shape) -> bool
    ensures { IsTrue result ↔ AreSame a.now b.now }
{
    a.layer == b.layer
        && a.rect.is(&b.rect)
        && a.owner == b.owner
        && are_same_numbers(a.component, b.component)
        && are_same_numbers(a.piece, b.piece)
}

/// Whether both are one number, or none.
fn are_same_numbers(a: Option<u32>, b: Option<u32>) -> bool
    ensures { IsTrue result ↔ a ≡ b }
{
    a == b
}

/// The same where one more shape lies, after the others: the slots near it are computed anew, on the
/// layers near it. The grid is that of the design.
pub fn add_shape<A: Allocator + Copy>(
    grid: &Grid<'_, '_, A>,
    design: &Design<'_, A>,
    shape: &Shape,
    slots: &mut [SlotAccess],
)
    requires of_design { grid.now.design ≡ design.now }
    requires count { length slots.old ≡ slot_total grid.now }
    ensures count { length slots.new ≡ length slots.old }
    ensures told { (flat grown : FlatModel) → grown.shapes ≡ flat.shapes ++ shape.now ∷ []
        → IsAccessTable grid.now flat slots.old → IsAccessTable grid.now grown slots.new }
{
    grid_is_sound(grid);
    let (first, end) = layers_near(grid, shape.layer);
    for k in first..end {
        add_on_layer(grid, design, shape, k, slots);
    }
}

/// Whether the routing layer is that of this number, and its wires run in this direction.
fn steps_along(own: RoutingLayer, layer: usize, direction: Direction) -> bool
    ensures { IsTrue result ↔ ((own.number ≡ layer) × (own.direction ≡ direction)) }
{
    own.number == layer && own.direction == direction
}

/// The same on routing layer k alone.
fn add_on_layer<A: Allocator + Copy>(
    grid: &Grid<'_, '_, A>,
    design: &Design<'_, A>,
    shape: &Shape,
    k: usize,
    slots: &mut [SlotAccess],
)
    requires of_design { grid.now.design ≡ design.now }
    requires count { length slots.old ≡ slot_total grid.now }
    requires layer { k < length grid.now.layers }
    ensures { AreAccessAfter grid.now shape.now (IsSlotOnLayer grid.now k) slots.old slots.new }
{
    grid_is_sound(grid);
    let Some(reach) = reach_on(grid, design, k, shape.layer) else {
        return;
    };
    let own = grid.layer_at(k);
    let along_x = steps_along(own, shape.layer, Direction::Horizontal);
    let along_y = steps_along(own, shape.layer, Direction::Vertical);
    let far = far_on(design.library(), shape.layer, reach);
    let columns = places_near(grid.xs(), along_x, shape.rect.x1(), shape.rect.x2(), far);
    let rows = places_near(grid.ys(), along_y, shape.rect.y1(), shape.rect.y2(), far);
    let on_layer = own.number == shape.layer;
    add_in_rows(grid, design, shape, k, on_layer, rows, columns, slots);
}

/// The same in these rows and columns of a layer alone.
fn add_in_rows<A: Allocator + Copy>(
    grid: &Grid<'_, '_, A>,
    design: &Design<'_, A>,
    shape: &Shape,
    layer: usize,
    on_layer: bool,
    rows: (usize, usize),
    columns: (usize, usize),
    slots: &mut [SlotAccess],
)
    requires of_design { grid.now.design ≡ design.now }
    requires proper { IsDesignGrid grid.now }
    requires count { length slots.old ≡ slot_total grid.now }
    requires layer { layer < length grid.now.layers }
    requires on_layer { LiesOnIf grid.now layer shape.now.layer on_layer }
    requires rows { rows.1 ≤ length grid.now.ys }
    requires columns { columns.1 ≤ length grid.now.xs }
    ensures { AreAccessAfter grid.now shape.now (IsInRows grid.now layer rows columns) slots.old slots.new }
{
    for row in rows.0..rows.1 {
        add_in_row(grid, design, shape, layer, on_layer, row, columns, slots);
    }
}

/// The same in these columns of a row alone.
fn add_in_row<A: Allocator + Copy>(
    grid: &Grid<'_, '_, A>,
    design: &Design<'_, A>,
    shape: &Shape,
    layer: usize,
    on_layer: bool,
    row: usize,
    columns: (usize, usize),
    slots: &mut [SlotAccess],
)
    requires of_design { grid.now.design ≡ design.now }
    requires proper { IsDesignGrid grid.now }
    requires count { length slots.old ≡ slot_total grid.now }
    requires layer { layer < length grid.now.layers }
    requires on_layer { LiesOnIf grid.now layer shape.now.layer on_layer }
    requires row { row < length grid.now.ys }
    requires columns { columns.1 ≤ length grid.now.xs }
    ensures { AreAccessAfter grid.now shape.now (IsInRow grid.now layer row columns) slots.old slots.new }
{
    for column in columns.0..columns.1 {
        let number = grid.number_at(Slot { layer, row, column });
        add_at(grid, design, shape, number, on_layer, slots);
    }
}

/// The same in one slot alone. Where the shape takes away nothing of what is kept, it is not computed what is open beside it.
fn add_at<A: Allocator + Copy>(
    grid: &Grid<'_, '_, A>,
    design: &Design<'_, A>,
    shape: &Shape,
    number: u32,
    on_layer: bool,
    slots: &mut [SlotAccess],
)
    requires of_design { grid.now.design ≡ design.now }
    requires proper { IsDesignGrid grid.now }
    requires count { length slots.old ≡ slot_total grid.now }
    requires within { number < slot_total grid.now }
    requires on_layer { (node : Node) → IsNumberOf grid.now number node → node.layer ≡ shape.now.layer → IsTrue on_layer }
    ensures { AreAccessAfter grid.now shape.now (λ n. n ≡ number) slots.old slots.new }
{
    let place = number as usize;
    let kept = slots[place];
    if kept.is_settled(shape.owner, on_layer) {
        return;
    }
    slots[place] = kept.and(slot_beside(grid, design, shape, number));
}

/// The places of the values near these coordinates, not farther from them than this: the first place, and the one past the last. If
/// `back` is set, the place before is among them, the step from which ends at the first one near.
fn places_near(values: &[i64], back: bool, low: i64, high: i64, far: i64) -> (usize, usize)
    requires rising { AllPairs (λ a b. a <ℤ b) values.now }
    requires low { IsCoordinate low }
    requires high { IsCoordinate high }
    requires far { IsFar far }
    ensures { ArePlacesNear values.now back (low -ℤ far) (high +ℤ far) result.0 result.1 }
{
    let (first, end) = places_within(values, low - far, high + far);
    if back {
        (first.saturating_sub(1), end)
    } else {
        (first, end)
    }
}

//! The grid of a design.

ghost use Rattle.std.specs.Prelude.{◌≡◌, ◌↔◌, ◌<◌, ◌≤◌, ◌<ℤ◌, ◌^◌, IsTrue, Bool, List, Some, AllPairs, length, slice_get, IfOk, IfErr, OnOk};
ghost use Rattle.leg_lex.specs.Number.{IsNumber};
ghost use Rattle.leg_lib_records.specs.declared.records.Direction.{Direction};
ghost use Rattle.leg_lib_records.specs.Sound.{IsWidth, IsSound};
ghost use Rattle.leg_design_records.specs.WellFormedParts.{IsPosition};
ghost use Rattle.leg_route_grid.specs.declared.fault.GridFault.TheVariants.{TooLarge};
ghost use Rattle.leg_rules.specs.declared.grid_limits.TheConstants.{GREATEST_GRID};
ghost use Rattle.leg_route_grid.specs.declared.layers.RoutingLayer.{RoutingLayer};
ghost use Rattle.leg_rules.specs.declared.node.Node.{Node};
ghost use Rattle.leg_rules.specs.Route.Nodes.{IsNode};
ghost use Rattle.leg_rules.specs.Route.Tracks.{Runs};
ghost use Rattle.leg_rules.specs.Route.GridSize.{IsGridTooLarge, IsGridBeyond};
ghost use Rattle.leg_route_grid.specs.Steps.Grid.{AreTracks, IsDesignGrid, IsSlot, LiesAt, IsNumberOf, axis_of, values_of, slot_total};
ghost use Rattle.leg_route_grid.specs.Steps.TrackMarks.{AreTrackMarks};

use crate::fault::GridFault;
use crate::layers::{RoutingLayer, routing_layers};
use crate::lines::{grid_xs, grid_ys};
use crate::size::{are_too_many, fits, slots_of};
use crate::slot::Slot;
use crate::through::vias_between;
use crate::track_marks::track_marks;
use leg_design_records::laws::design_is_sound;
use leg_design_records::{Axis, Design};
use leg_geom::Point;
use leg_lib_records::{Direction, Items};
use leg_rules::{GREATEST_GRID, GRID_LIMIT, Node};
use std::alloc::{AllocError, Allocator};
use std::marker::Model;

/// The grid of a design. Its slots, one for each routing layer and each pair of an x and a y value, have numbers by layer, y
/// and x. In a slot lies a node where the layer has a track there.
#[derive(Drop)]
pub struct Grid<'g, 'a, A: Allocator + Copy> {
    design: &'g Design<'a, A>,
    layers: Vec<RoutingLayer, A>,
    xs: Vec<i64, A>,
    ys: Vec<i64, A>,
    tracks: Vec<Items<bool, A>, A>,
    vias: Vec<Option<usize>, A>,
}

impl<'g, 'a, A: Allocator + Copy> Model for Grid<'g, 'a, A> {
    ghost use Rattle.leg_route_grid.specs.Steps.Grid.{GridModel, IsDesignGrid};

    ghost Value = { GridModel };

    ghost view = { λ g. record {
      design = g.design.now;
      layers = g.layers.items;
      xs = g.xs.items;
      ys = g.ys.items;
      tracks = g.tracks.items;
      vias = g.vias.items;
    } };

    ghost invariant = { λ g. IsDesignGrid (record {
      design = g.design.now;
      layers = g.layers.items;
      xs = g.xs.items;
      ys = g.ys.items;
      tracks = g.tracks.items;
      vias = g.vias.items;
    }) };
}

/// The marks of the tracks of a routing layer.
fn marks_of<A: Allocator + Copy>(
    alloc: A,
    design: &Design<'_, A>,
    layer: RoutingLayer,
    xs: &[i64],
    ys: &[i64],
) -> Result<Vec<bool, A>, AllocError>
    requires xs { AllPairs (λ a b. a <ℤ b) xs.now }
    requires ys { AllPairs (λ a b. a <ℤ b) ys.now }
    ensures { IfOk result (λ marks. AreTrackMarks design.now layer.number (axis_of layer.direction) (values_of xs.now ys.now layer.direction) marks.items) }
{
    match layer.direction {
        Direction::Vertical => track_marks(alloc, design, layer.number, Axis::X, xs),
        Direction::Horizontal => track_marks(alloc, design, layer.number, Axis::Y, ys),
    }
}

/// The marks of the tracks of layer k of the routing layers.
fn marks_at<A: Allocator + Copy>(
    alloc: A,
    design: &Design<'_, A>,
    layers: &[RoutingLayer],
    k: usize,
    xs: &[i64],
    ys: &[i64],
) -> Result<Vec<bool, A>, AllocError>
    requires xs { AllPairs (λ a b. a <ℤ b) xs.now }
    requires ys { AllPairs (λ a b. a <ℤ b) ys.now }
    requires within { k < length layers.now }
    ensures { IfOk result (λ marks. (layer : RoutingLayer) → slice_get layers.now k ≡ Some layer
        → AreTrackMarks design.now layer.number (axis_of layer.direction) (values_of xs.now ys.now layer.direction) marks.items) }
{
    let marks = marks_of(alloc, design, layers[k], xs, ys)?;
    Ok(marks)
}

/// For each of the routing layers the marks of its tracks.
fn all_track_marks<A: Allocator + Copy>(
    alloc: A,
    design: &Design<'_, A>,
    layers: &[RoutingLayer],
    xs: &[i64],
    ys: &[i64],
) -> Result<Vec<Items<bool, A>, A>, AllocError>
    requires xs { AllPairs (λ a b. a <ℤ b) xs.now }
    requires ys { AllPairs (λ a b. a <ℤ b) ys.now }
    ensures { IfOk result (λ tracks. AreTracks design.now layers.now xs.now ys.now tracks.items) }
{
    let mut tracks = Vec::with_capacity(alloc, layers.len())?;
    for k in 0..layers.len() {
        let marks = marks_at(alloc, design, layers, k, xs, ys)?;
        tracks.push(Items::from_vec(marks))?;
    }
    Ok(tracks)
}

/// The point of these coordinates.
pub(crate) fn point_at(x: i64, y: i64) -> Point
    requires x { IsNumber x }
    requires y { IsNumber y }
    ensures { result ≡ record { x = x; y = y } }
{
    Point::new(x, y).unwrap()
}

impl<'g, 'a, A: Allocator + Copy> Grid<'g, 'a, A> {
    /// The grid of the design. `TooLarge` is returned where it has too many tracks or its grid too many slots.
    pub fn new(alloc: A, design: &'g Design<'a, A>) -> Result<Grid<'g, 'a, A>, GridFault>
        ensures is { IfOk result (λ grid. grid.design ≡ design.now) }
        ensures fits { OnOk result (¬ IsGridTooLarge design.now) }
        ensures large { IfErr result (λ fault. fault ≡ TooLarge → IsGridTooLarge design.now) }
    {
        Self::new_within(alloc, design, GRID_LIMIT)
    }

    /// The grid of the design by another limit than `GRID_LIMIT`, which is `GREATEST_GRID` at most. `TooLarge` is returned
    /// where the design has more tracks than the limit or its grid more slots.
    pub fn new_within(
        alloc: A,
        design: &'g Design<'a, A>,
        limit: u64,
    ) -> Result<Grid<'g, 'a, A>, GridFault>
        requires { limit ≤ GREATEST_GRID }
        ensures is { IfOk result (λ grid. grid.design ≡ design.now) }
        ensures fits { OnOk result (¬ IsGridBeyond limit design.now) }
        ensures large { IfErr result (λ fault. fault ≡ TooLarge → IsGridBeyond limit design.now) }
    {
        if are_too_many(design.tracks(), limit) {
            return Err(GridFault::TooLarge);
        }
        let library = design.library();
        let layers = routing_layers(alloc, library.layers())?;
        let xs = grid_xs(alloc, design)?;
        let ys = grid_ys(alloc, design)?;
        if !fits(layers.len(), ys.len(), xs.len(), limit) {
            return Err(GridFault::TooLarge);
        }
        let tracks = all_track_marks(alloc, design, &layers, &xs, &ys)?;
        let vias = vias_between(alloc, library, &layers)?;
        Ok(Grid {
            design,
            layers,
            xs,
            ys,
            tracks,
            vias,
        })
    }

    /// How many slots there are.
    pub fn size(&self) -> u32
        ensures is { result ≡ slot_total self.now }
        ensures proper { IsDesignGrid self.now }
    {
        slots_of(
            self.layers.len(),
            self.ys.len(),
            self.xs.len(),
            GREATEST_GRID,
        )
        .unwrap()
    }

    /// The slot of this number. Slots are numbered by layer, then by row, then by column, from 0.
    pub fn slot(&self, number: u32) -> Slot
        requires { number < slot_total self.now }
        ensures is { IsSlot self.now number result.layer result.row result.column }
        ensures proper { IsDesignGrid self.now }
    {
        let columns = self.xs.len();
        let rows = self.ys.len();
        let number = number as usize;
        let row = number / columns;
        Slot {
            layer: row / rows,
            row: row % rows,
            column: number % columns,
        }
    }

    /// The routing layers, bottom up: layer k of the slots is the one at place k.
    pub fn layers(&self) -> &[RoutingLayer]
        ensures is { result.now ≡ self.now.layers }
        ensures proper { IsDesignGrid self.now }
    {
        &self.layers
    }

    /// The x values of the columns in database units, in increasing order.
    pub fn xs(&self) -> &[i64]
        ensures is { result.now ≡ self.now.xs }
        ensures proper { IsDesignGrid self.now }
    {
        &self.xs
    }

    /// The y values of the rows in database units, in increasing order.
    pub fn ys(&self) -> &[i64]
        ensures is { result.now ≡ self.now.ys }
        ensures proper { IsDesignGrid self.now }
    {
        &self.ys
    }

    /// How many columns of slots there are, one for each x value.
    pub fn columns(&self) -> usize
        ensures { result ≡ length self.now.xs }
    {
        self.xs.len()
    }

    /// How many rows of slots there are, one for each y value.
    pub fn rows(&self) -> usize
        ensures { result ≡ length self.now.ys }
    {
        self.ys.len()
    }

    /// How many routing layers there are.
    pub fn layer_count(&self) -> usize
        ensures { result ≡ length self.now.layers }
    {
        self.layers.len()
    }

    /// The number of the slot: slots are numbered by layer, then by row, then by column, from 0.
    pub fn number_at(&self, slot: Slot) -> u32
        requires layer { slot.layer < length self.now.layers }
        requires row { slot.row < length self.now.ys }
        requires column { slot.column < length self.now.xs }
        ensures is { IsSlot self.now result slot.layer slot.row slot.column }
        ensures within { result < slot_total self.now }
    {
        ((slot.layer * self.ys.len() + slot.row) * self.xs.len() + slot.column) as u32
    }

    /// Routing layer k, counted from 0 at the bottom.
    pub fn layer_at(&self, k: usize) -> RoutingLayer
        requires { k < length self.now.layers }
        ensures is { slice_get self.now.layers k ≡ Some result }
        ensures proper { IsDesignGrid self.now }
    {
        self.layers[k]
    }

    /// The via by which wires go from routing layer k to the next one above, by its number in the library, or none where no
    /// via leads there, as from the top layer.
    pub fn via_at(&self, k: usize) -> Option<usize>
        requires { k < length self.now.layers }
        ensures is { slice_get self.now.vias k ≡ Some result }
        ensures proper { IsDesignGrid self.now }
    {
        self.vias[k]
    }

    /// The y value of this row.
    pub(crate) fn y_at(&self, row: usize) -> i64
        requires { row < length self.now.ys }
        ensures is { slice_get self.now.ys row ≡ Some result }
        ensures within { IsNumber result }
    {
        self.ys[row]
    }

    /// The x value of this column.
    pub(crate) fn x_at(&self, column: usize) -> i64
        requires { column < length self.now.xs }
        ensures is { slice_get self.now.xs column ≡ Some result }
        ensures within { IsNumber result }
    {
        self.xs[column]
    }

    /// Whether the marks of layer k have this place set.
    fn has_mark(&self, k: usize, place: usize) -> bool
        requires there { k < length self.now.tracks }
        requires within { (marks : List Bool) → slice_get self.now.tracks k ≡ Some marks → place < length marks }
        ensures { (marks : List Bool) → slice_get self.now.tracks k ≡ Some marks → slice_get marks place ≡ Some result }
    {
        let marks = self.tracks[k].as_slice();
        marks[place]
    }

    /// Whether a node lies in the slot.
    pub(crate) fn has_node(&self, slot: Slot) -> bool
        requires layer { slot.layer < length self.now.layers }
        requires row { slot.row < length self.now.ys }
        requires column { slot.column < length self.now.xs }
        ensures { (node : Node) → LiesAt self.now slot.layer slot.row slot.column node → (IsTrue result ↔ IsNode self.now.design node) }
    {
        match self.layer_at(slot.layer).direction {
            Direction::Vertical => self.has_mark(slot.layer, slot.column),
            Direction::Horizontal => self.has_mark(slot.layer, slot.row),
        }
    }

    /// The point of the slot of this number, on its layer.
    pub fn node(&self, number: u32) -> Node
        requires { number < slot_total self.now }
        ensures is { IsNumberOf self.now number result }
        ensures within { IsPosition result.at }
    {
        let slot = self.slot(number);
        let layer = self.layer_at(slot.layer);
        let y = self.y_at(slot.row);
        let x = self.x_at(slot.column);
        Node {
            layer: layer.number,
            at: point_at(x, y),
        }
    }

    /// Whether a node lies in the slot of this number.
    pub fn holds_node(&self, number: u32) -> bool
        requires { number < slot_total self.now }
        ensures { (node : Node) → IsNumberOf self.now number node → (IsTrue result ↔ IsNode self.now.design node) }
    {
        self.has_node(self.slot(number))
    }

    /// The width of the wires on the layer of the slot of this number.
    pub fn width_at(&self, number: u32) -> i64
        requires { number < slot_total self.now }
        ensures is { (node : Node) → IsNumberOf self.now number node → ((direction : Direction) × Runs self.now.design.library node.layer direction result) }
        ensures proper { IsWidth result }
    {
        let slot = self.slot(number);
        let layer = self.layer_at(slot.layer);
        design_is_sound(self.design);
        layer.width
    }
}

/// What holds of each grid, as its type states: it does nothing.
pub fn grid_is_sound<A: Allocator + Copy>(grid: &Grid<'_, '_, A>)
    ensures library { IsSound grid.now.design.library }
    ensures proper { IsDesignGrid grid.now }
    ensures few { slot_total grid.now < 2 ^ 32 }
{
    design_is_sound(grid.design);
    let _slots = grid.size();
}

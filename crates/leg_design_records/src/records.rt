//! The records of a design. Numbers denote layers, sites, masters and vias in the library, and components and pins in
//! the design; lengths are in database units.

use leg_geom::{Orient, Place, Point, Rect};
use leg_lex::{Name, Named};
use leg_lib_records::{Items, ShapeList};
use std::alloc::Allocator;
use std::marker::Model;

/// Whether and how a component or a port is placed (LEF/DEF 5.8, "Components", "Pins").
#[derive(Clone, Copy, PartialEq, Eq, Debug)]
pub enum Status {
    /// It has no place.
    Unplaced,
    /// It has a place, from which a placer may move it.
    Placed,
    /// It has a place, from which only a person moves it.
    Fixed,
    /// It has a place and belongs to a cover macro, which nothing moves.
    Cover,
}

/// Which coordinate all points of a track share.
#[derive(Clone, Copy, PartialEq, Eq, Debug)]
pub enum Axis {
    /// Vertical tracks.
    X,
    /// Horizontal tracks.
    Y,
}

/// A row of sites that abut, from its lower left corner to the right (LEF/DEF 5.8, "Rows").
#[derive(Drop)]
pub struct Row<'a> {
    pub name: Name<'a>,
    /// Its site, by number.
    pub site: usize,
    /// The lower left corner of the first site.
    pub at: Point,
    /// The orientation of every site.
    pub orient: Orient,
    /// How many sites it has, one at least.
    pub count: i64,
}

/// Tracks at `start`, `start + step` and so on, as many as `count` (LEF/DEF 5.8, "Tracks").
#[derive(Drop)]
pub struct Track<A: Allocator> {
    pub axis: Axis,
    pub start: i64,
    pub count: i64,
    pub step: i64,
    /// The layers that they are for; with none, they are for every routing layer.
    pub layers: Items<usize, A>,
}

impl<A: Allocator> Model for Track<A> {
    ghost use Rattle.leg_design_records.specs.Records.{TrackModel};

    ghost Value = { TrackModel };

    ghost view = { λ t. record { axis = t.axis; start = t.start; count = t.count; step = t.step; layers = t.layers } };
}

/// A component, which is placed by the lower left corner of its oriented box (LEF/DEF 5.8, "Components").
#[derive(Drop)]
pub struct Component<'a> {
    pub name: Name<'a>,
    pub master: usize,
    pub status: Status,
    pub place: Option<Place>,
}

/// A port of a pin of the design. Its shapes are those of the port at the point 0 0 in orientation N (LEF/DEF 5.8,
/// "Pins").
#[derive(Drop)]
pub struct Port<A: Allocator> {
    pub shapes: ShapeList<A>,
    pub status: Status,
    pub place: Option<Place>,
}

impl<A: Allocator> Model for Port<A> {
    ghost use Rattle.leg_design_records.specs.Records.{PortModel};

    ghost Value = { PortModel };

    ghost view = { λ p. record { shapes = p.shapes; status = p.status; place = p.place } };
}

/// A pin of the design (LEF/DEF 5.8, "Pins").
#[derive(Drop)]
pub struct Pin<'a, A: Allocator> {
    pub name: Name<'a>,
    /// The net that its `+ NET` names, which need not exist.
    pub net_name: Option<Name<'a>>,
    /// The word after its `+ DIRECTION`.
    pub direction: Option<Name<'a>>,
    /// The word after its `+ USE`.
    pub usage: Option<Name<'a>>,
    pub ports: Items<Port<A>, A>,
}

impl<'a, A: Allocator> Model for Pin<'a, A> {
    ghost use Rattle.leg_design_records.specs.Records.{PinModel};

    ghost Value = { PinModel };

    ghost view = { λ p. record { name = p.name; net_name = p.net_name; direction = p.direction; usage = p.usage; ports = p.ports } };
}

/// Rectangles that are to be kept free (LEF/DEF 5.8, "Blockages"). Contracts see one by its record, `blockage_said`.
#[derive(Drop)]
pub enum Blockage<A: Allocator> {
    /// Rectangles on a layer with metal. They are judged as obstructions of components are, with an owner of their own.
    LayerRects { layer: usize, rects: Items<Rect, A> },
    /// Rectangles in which no movable component may stand.
    Placement { rects: Items<Rect, A> },
}

/// What a net joins.
#[derive(Clone, Copy, PartialEq, Eq, Hash, Debug)]
pub enum Terminal {
    /// A pin of a component, by the numbers of both; that of the pin counts in the component's macro.
    Comp { component: u32, pin: usize },
    /// A pin of the design.
    Pin(u32),
}

/// A piece of a net's wiring (LEF/DEF 5.8, "Regular Wiring Statement", "Special Wiring Statement").
#[derive(Clone, Copy, PartialEq, Eq, Debug)]
pub enum Wire {
    /// A horizontal or vertical line with a width, which reaches past each end by that end's extension.
    Segment {
        layer: usize,
        from: Point,
        to: Point,
        width: i64,
        ext_from: i64,
        ext_to: i64,
    },
    /// A via. The vias of the library count first, and then those of the design.
    ViaAt {
        via: usize,
        at: Point,
    },
    /// A rectangle, given from its point.
    Patch {
        layer: usize,
        at: Point,
        rect: Rect,
    },
}

/// An entry of `NETS` or of `SPECIALNETS` (LEF/DEF 5.8, "Nets", "Special Nets").
#[derive(Drop)]
pub struct Net<'a, A: Allocator> {
    pub name: Name<'a>,
    /// The word after its `+ USE`.
    pub usage: Option<Name<'a>>,
    pub terminals: Items<Terminal, A>,
    pub wires: Items<Wire, A>,
}

impl<'a, A: Allocator> Model for Net<'a, A> {
    ghost use Rattle.leg_design_records.specs.Records.{NetModel};

    ghost Value = { NetModel };

    ghost view = { λ n. record { name = n.name; usage = n.usage; terminals = n.terminals; wires = n.wires } };
}

impl Named for Component<'_> {
    ghost use Rattle.leg_design_records.specs.Steps.Entries.{AreEntries, none_are_entries, fewer_are_entries};

    ghost name_of = { λ component. component.name };

    ghost fits = { AreEntries };

    ghost none_fits = { none_are_entries };

    ghost fewer_fit = { fewer_are_entries };
}

impl<A: Allocator> Named for Pin<'_, A> {
    ghost use Rattle.leg_design_records.specs.Steps.Entries.{AreEntries, none_are_entries, fewer_are_entries};

    ghost name_of = { λ pin. pin.name };

    ghost fits = { AreEntries };

    ghost none_fits = { none_are_entries };

    ghost fewer_fit = { fewer_are_entries };
}

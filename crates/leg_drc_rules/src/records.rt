//! The rules of layers in database units.

ghost use Rattle.std.specs.Prelude.{◌≡◌, All};
ghost use Rattle.leg_drc_rules.specs.Records.{AreSpacingsWithin};

use leg_lex::Micron;
use leg_lib_records::Items;
use std::alloc::Allocator;
use std::marker::Model;

/// What an end of line needs (LEF/DEF 5.8, "Layer (Routing)", on ENDOFLINE), in database units: an end that is narrower than `width` has
/// no metal nearer than `spacing` before it, nor before the places up to `within` beside it.
#[derive(Clone, Copy, PartialEq, Eq, Debug)]
pub struct LineEnd {
    pub spacing: i64,
    pub width: i64,
    pub within: i64,
}

/// A row of a table: the spacings of shapes wider than `width`, one for each run, in database units.
#[derive(Drop)]
pub struct TableRow<A: Allocator> {
    pub width: i64,
    pub values: Items<i64, A>,
}

impl<A: Allocator> Model for TableRow<A> {
    ghost use Rattle.leg_drc_rules.specs.Records.{RowModel};

    ghost Value = { RowModel };

    ghost view = { λ r. record { width = r.width; values = r.values } };
}

/// A table of spacings by width and parallel run length (LEF/DEF 5.8, "Layer (Routing)", on SPACINGTABLE), in database units. The runs
/// rise, and so do the widths of the rows.
#[derive(Drop)]
pub struct Table<A: Allocator> {
    pub runs: Items<i64, A>,
    pub rows: Items<TableRow<A>, A>,
}

impl<A: Allocator> Model for Table<A> {
    ghost use Rattle.leg_drc_rules.specs.Records.{TableModel};

    ghost Value = { TableModel };

    ghost view = { λ t. record { runs = t.runs; rows = t.rows } };
}

/// The rules of a layer, in database units.
#[derive(Drop)]
pub struct LayerRules<A: Allocator> {
    /// The least area of metal, in millionths of a square micron, if it is stated.
    pub area: Option<Micron>,
    /// The least width of wires: 0 on a layer that carries none.
    pub width: i64,
    /// How far apart metal of one net must be.
    pub net_spacing: i64,
    pub table: Option<Table<A>>,
    pub line_ends: Items<LineEnd, A>,
}

impl<A: Allocator> Model for LayerRules<A> {
    ghost use Rattle.leg_drc_rules.specs.Records.{LayerRulesModel};

    ghost Value = { LayerRulesModel };

    ghost view = { λ r. record { area = r.area; width = r.width; net_spacing = r.net_spacing; table = r.table; line_ends = r.line_ends } };
}

/// The rules of a technology at the units of a library: those of each of its layers by its number, and the manufacturing grid.
#[derive(Drop)]
pub struct DeckRules<A: Allocator> {
    pub(crate) grid: Option<Micron>,
    pub(crate) layers: Items<LayerRules<A>, A>,
}

impl<A: Allocator> Model for DeckRules<A> {
    ghost use Rattle.std.specs.Prelude.{All};
    ghost use Rattle.leg_drc_rules.specs.Records.{DeckModel, AreSpacingsWithin};

    ghost Value = { DeckModel };

    ghost view = { λ d. record { grid = d.grid; layers = d.layers } };

    ghost invariant = { λ d. All AreSpacingsWithin d.layers };
}

impl<A: Allocator> DeckRules<A> {
    /// The manufacturing grid, in millionths of a micron, if one is stated.
    pub fn grid(&self) -> Option<Micron>
        ensures { result ≡ self.now.grid }
    {
        self.grid
    }

    /// The rules of each layer by its number.
    pub fn layers(&self) -> &[LayerRules<A>]
        ensures is { result.now ≡ self.now.layers }
        ensures within { All AreSpacingsWithin self.now.layers }
    {
        self.layers.as_slice()
    }
}

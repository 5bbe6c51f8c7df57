//! The rules of layers as texts state them, in millionths of a micron.

ghost use Rattle.std.specs.Prelude.{◌≡◌, slice_get, slice_set};
ghost use Rattle.leg_drc_rules.specs.Deck.{lacks_section};

use leg_lex::Micron;
use leg_lib_records::Items;
use std::alloc::Allocator;
use std::marker::Model;

/// What an end of line needs (LEF/DEF 5.8, "Layer (Routing)", on ENDOFLINE): an end that is narrower than `width` has no metal nearer
/// than `spacing` before it, nor before the places up to `within` beside it.
#[derive(Clone, Copy, PartialEq, Eq, Debug)]
pub struct RawLineEnd {
    pub spacing: Micron,
    pub width: Micron,
    pub within: Micron,
}

/// A row of a table: the spacings of shapes wider than `width`, one for each run.
#[derive(Drop)]
pub struct RawTableRow<A: Allocator> {
    pub width: Micron,
    pub values: Items<Micron, A>,
}

impl<A: Allocator> Model for RawTableRow<A> {
    ghost use Rattle.leg_drc_rules.specs.Records.{RowModel};

    ghost Value = { RowModel };

    ghost view = { λ r. record { width = r.width; values = r.values } };
}

/// A table of spacings by width and parallel run length (LEF/DEF 5.8, "Layer (Routing)", on SPACINGTABLE). The runs rise, and so do
/// the widths of the rows.
#[derive(Drop)]
pub struct RawTable<A: Allocator> {
    pub runs: Items<Micron, A>,
    pub rows: Items<RawTableRow<A>, A>,
}

impl<A: Allocator> Model for RawTable<A> {
    ghost use Rattle.leg_drc_rules.specs.Records.{TableModel};

    ghost Value = { TableModel };

    ghost view = { λ t. record { runs = t.runs; rows = t.rows } };
}

/// The rules that the section of a layer states.
#[derive(Drop)]
pub struct RawLayerRules<A: Allocator> {
    /// The least area of metal, in millionths of a square micron.
    pub area: Option<Micron>,
    /// The least width of wires, where it isn't that of the layer.
    pub width: Option<Micron>,
    /// How far apart metal of one net must be, where it isn't as far as that of different ones.
    pub net_spacing: Option<Micron>,
    pub table: Option<RawTable<A>>,
    pub line_ends: Items<RawLineEnd, A>,
}

impl<A: Allocator> Model for RawLayerRules<A> {
    ghost use Rattle.leg_drc_rules.specs.Records.{RawLayerRulesModel};

    ghost Value = { RawLayerRulesModel };

    ghost view = { λ r. record { area = r.area; width = r.width; net_spacing = r.net_spacing; table = r.table; line_ends = r.line_ends } };
}

/// The rules of a technology, in millionths of a micron: for each layer of a library by its number those that its first section
/// states, and the manufacturing grid.
#[derive(Drop)]
pub struct RawDeckRules<A: Allocator> {
    pub(crate) grid: Option<Micron>,
    pub(crate) layers: Vec<Option<RawLayerRules<A>>, A>,
}

impl<A: Allocator> Model for RawDeckRules<A> {
    ghost use Rattle.leg_drc_rules.specs.Records.{RawDeckModel};

    ghost Value = { RawDeckModel };

    ghost view = { λ d. record { grid = d.grid; layers = d.layers.items } };
}

impl<A: Allocator> RawDeckRules<A> {
    /// The manufacturing grid, in millionths of a micron, if one is stated.
    pub fn grid(&self) -> Option<Micron>
        ensures { result ≡ self.now.grid }
    {
        self.grid
    }

    /// The rules of each layer by its number; none where no text has a section of the layer.
    pub fn layers(&self) -> &[Option<RawLayerRules<A>>]
        ensures { result.now ≡ self.now.layers }
    {
        self.layers.as_slice()
    }

    /// Whether the layer of this number has no section so far.
    pub(crate) fn lacks_section(&self, number: usize) -> bool
        ensures { result ≡ lacks_section (slice_get self.now.layers number) }
    {
        match self.layers.get(number) {
            Some(None) => true,
            _ => false,
        }
    }

    /// Sets the rules of the layer of this number.
    pub(crate) fn set_rules(&mut self, number: usize, rules: RawLayerRules<A>)
        ensures { self.new ≡ record self.old { layers = slice_set self.old.layers number (Some rules) } }
    {
        if let Some(place) = self.layers.get_mut(number) {
            *place = Some(rules);
        }
    }
}

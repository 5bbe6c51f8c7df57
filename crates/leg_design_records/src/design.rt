//! A design.

ghost use Rattle.std.specs.Prelude.{◌≡◌, ◌↔◌, IsTrue, map, option_map};
ghost use Rattle.leg_lex.specs.NameLookup.{place_of};
ghost use Rattle.leg_design_records.specs.Records.{blockage_said, net_names};
ghost use Rattle.leg_design_records.specs.WellFormed.{IsWellFormed};

use crate::records::{Blockage, Component, Net, Pin, Row, Track};
use leg_geom::Rect;
use leg_lex::{Name, Names};
use leg_lib_records::{Library, Via};
use std::alloc::Allocator;
use std::marker::Model;

/// The fields of a design, in file order, of which nothing is known yet as a whole. See `Design` for the meaning of
/// each.
#[derive(Drop)]
pub struct DesignFields<'a, A: Allocator + Copy> {
    pub library: &'a Library<'a, A>,
    pub name: Name<'a>,
    pub divider: Option<Name<'a>>,
    pub bus: Option<Name<'a>>,
    pub die: Rect,
    pub rows: Vec<Row<'a>, A>,
    pub tracks: Vec<Track<A>, A>,
    pub vias: Vec<Via<'a, A>, A>,
    pub components: Vec<Component<'a>, A>,
    pub pins: Vec<Pin<'a, A>, A>,
    pub blockages: Vec<Blockage<A>, A>,
    pub nets: Vec<Net<'a, A>, A>,
    pub special: Vec<Net<'a, A>, A>,
}

impl<'a, A: Allocator + Copy> Model for DesignFields<'a, A> {
    ghost use Rattle.std.specs.Prelude.{map};
    ghost use Rattle.leg_design_records.specs.Records.{DesignModel, blockage_said};

    ghost Value = { DesignModel };

    ghost view = { λ d. record {
      library = d.library.now;
      name = d.name;
      divider = d.divider;
      bus = d.bus;
      die = d.die;
      rows = d.rows.items;
      tracks = d.tracks.items;
      vias = d.vias.items;
      components = d.components.items;
      pins = d.pins.items;
      blockages = map blockage_said d.blockages.items;
      nets = d.nets.items;
      special = d.special.items;
    } };
}

/// A design, in file order, with the library that it was read with. Contracts see it as its record, which has the
/// library's own.
#[derive(Drop)]
pub struct Design<'a, A: Allocator + Copy> {
    pub(crate) fields: DesignFields<'a, A>,
    // The names of the entries of SPECIALNETS, with an index.
    special_names: Names<'a, A>,
}

impl<'a, A: Allocator + Copy> Model for Design<'a, A> {
    ghost use Rattle.std.specs.Prelude.{◌≡◌};
    ghost use Rattle.leg_design_records.specs.Records.{DesignModel, net_names};
    ghost use Rattle.leg_design_records.specs.WellFormed.{IsWellFormed};

    ghost Value = { DesignModel };

    ghost view = { λ d. d.fields };

    ghost invariant = { λ d. IsWellFormed d.fields × (d.special_names ≡ net_names d.fields.special) };
}

impl<'a, A: Allocator + Copy> Design<'a, A> {
    /// The design of these fields, which are well-formed under their library, and whose entries of `SPECIALNETS` have these names.
    pub fn new(fields: DesignFields<'a, A>, special_names: Names<'a, A>) -> Design<'a, A>
        requires well_formed { IsWellFormed fields }
        requires named { special_names ≡ net_names fields.special }
        ensures { result ≡ fields.entry }
    {
        Design {
            fields,
            special_names,
        }
    }

    /// The library that the design was read with.
    pub fn library(&self) -> &'a Library<'a, A>
        ensures is { result.now ≡ self.now.library }
    {
        self.fields.library
    }

    /// Whether this is the library of the design: it is equal to the one that the design was read with.
    pub fn fits(&self, library: &Library<'_, A>) -> bool
        ensures { IsTrue result ↔ (library.now ≡ self.now.library) }
    {
        library.equals(self.fields.library)
    }

    /// The name of the design.
    pub fn name(&self) -> &[u8]
        ensures is { result.now ≡ self.now.name }
    {
        self.fields.name.bytes()
    }

    /// The word after `DIVIDERCHAR`, which is between the parts of a hierarchical name.
    pub fn divider(&self) -> Option<&[u8]>
        ensures is { option_map (λ word. word.now) result ≡ self.now.divider }
    {
        self.fields.divider.as_ref().map(|word| word.bytes())
    }

    /// The word after `BUSBITCHARS`, which is around the number of a bus bit.
    pub fn bus(&self) -> Option<&[u8]>
        ensures is { option_map (λ word. word.now) result ≡ self.now.bus }
    {
        self.fields.bus.as_ref().map(|word| word.bytes())
    }

    /// The area of the die.
    pub fn die(&self) -> Rect
        ensures is { result ≡ self.now.die }
        ensures proper { IsWellFormed self.now }
    {
        self.fields.die
    }

    /// The rows, in file order.
    pub fn rows(&self) -> &[Row<'a>]
        ensures is { result.now ≡ self.now.rows }
        ensures proper { IsWellFormed self.now }
    {
        self.fields.rows.as_slice()
    }

    /// The tracks, in file order.
    pub fn tracks(&self) -> &[Track<A>]
        ensures is { result.now ≡ self.now.tracks }
        ensures proper { IsWellFormed self.now }
    {
        self.fields.tracks.as_slice()
    }

    /// The vias of the design itself, in file order. Wires number them after those of the library.
    pub fn vias(&self) -> &[Via<'a, A>]
        ensures is { result.now ≡ self.now.vias }
        ensures proper { IsWellFormed self.now }
    {
        self.fields.vias.as_slice()
    }

    /// The components, in file order.
    pub fn components(&self) -> &[Component<'a>]
        ensures is { result.now ≡ self.now.components }
        ensures proper { IsWellFormed self.now }
    {
        self.fields.components.as_slice()
    }

    /// The pins of the design, in file order.
    pub fn pins(&self) -> &[Pin<'a, A>]
        ensures is { result.now ≡ self.now.pins }
        ensures proper { IsWellFormed self.now }
    {
        self.fields.pins.as_slice()
    }

    /// The blockages, in file order. Those on layers without metal are left out.
    pub fn blockages(&self) -> &[Blockage<A>]
        ensures is { map blockage_said result.now ≡ self.now.blockages }
        ensures proper { IsWellFormed self.now }
    {
        self.fields.blockages.as_slice()
    }

    /// The entries of `NETS`, in file order.
    pub fn nets(&self) -> &[Net<'a, A>]
        ensures is { result.now ≡ self.now.nets }
        ensures proper { IsWellFormed self.now }
    {
        self.fields.nets.as_slice()
    }

    /// The entries of `SPECIALNETS`, in file order.
    pub fn special(&self) -> &[Net<'a, A>]
        ensures is { result.now ≡ self.now.special }
        ensures proper { IsWellFormed self.now }
    {
        self.fields.special.as_slice()
    }

    /// The number of the entry of `SPECIALNETS` of this name, from 0, if there is one.
    pub fn special_named(&self, name: &[u8]) -> Option<usize>
        ensures { result ≡ place_of name.now (net_names self.now.special) }
    {
        self.special_names.place_of(name)
    }
}

//! A library in database units.

ghost use Rattle.std.specs.Prelude.{◌≡◌};
ghost use Rattle.leg_lex.specs.NameLookup.{place_of};
ghost use Rattle.leg_lib_records.specs.Records.{layer_names, site_names, via_names, master_names, rule_names};
ghost use Rattle.leg_lib_records.specs.Sound.{IsSound};

use crate::records::{Layer, Master, Rule, Site, Via};
use leg_lex::NamedList;
use std::alloc::Allocator;
use std::marker::Model;

/// A library in database units, in file order. Of the layers, the sites, the vias, the masters and the nondefault rules no
/// two have one name, and neither have the pins of a master. Widths, spacings and the sides of shapes are within the limit of
/// numbers, twice that in masters; widths are above 0, those of layers even, and no spacing is below 0. Shapes and the widths
/// of rules are on layers of the library, a master's site is one of its sites, and a via is marked good exactly where it is.
#[derive(Drop)]
pub struct Library<'a, A: Allocator + Copy> {
    pub(crate) units: u32,
    pub(crate) layers: NamedList<'a, Layer<'a>, A>,
    pub(crate) sites: NamedList<'a, Site<'a>, A>,
    pub(crate) vias: NamedList<'a, Via<'a, A>, A>,
    pub(crate) masters: NamedList<'a, Master<'a, A>, A>,
    pub(crate) rules: NamedList<'a, Rule<'a, A>, A>,
}

impl<'a, A: Allocator + Copy> Model for Library<'a, A> {
    ghost use Rattle.leg_lib_records.specs.Records.{LibraryModel};
    ghost use Rattle.leg_lib_records.specs.Sound.{IsSound};

    ghost Value = { LibraryModel };

    ghost view = { λ l. record { units = l.units; layers = l.layers; sites = l.sites; vias = l.vias; masters = l.masters; rules = l.rules } };

    ghost invariant = { λ l. IsSound (record { units = l.units; layers = l.layers; sites = l.sites; vias = l.vias; masters = l.masters; rules = l.rules }) };
}

impl<'a, A: Allocator + Copy> Library<'a, A> {
    /// The database units of a micron.
    pub fn units(&self) -> u32
        ensures { result ≡ self.now.units }
    {
        self.units
    }

    /// The layers, bottom up.
    pub fn layers(&self) -> &[Layer<'a>]
        ensures is { result.now ≡ self.now.layers }
        ensures proper { IsSound self.now }
    {
        self.layers.as_slice()
    }

    /// The sites, in file order.
    pub fn sites(&self) -> &[Site<'a>]
        ensures { result.now ≡ self.now.sites }
    {
        self.sites.as_slice()
    }

    /// The vias, in file order.
    pub fn vias(&self) -> &[Via<'a, A>]
        ensures is { result.now ≡ self.now.vias }
        ensures proper { IsSound self.now }
    {
        self.vias.as_slice()
    }

    /// The masters, in file order.
    pub fn masters(&self) -> &[Master<'a, A>]
        ensures is { result.now ≡ self.now.masters }
        ensures proper { IsSound self.now }
    {
        self.masters.as_slice()
    }

    /// The nondefault rules, in file order.
    pub fn rules(&self) -> &[Rule<'a, A>]
        ensures is { result.now ≡ self.now.rules }
        ensures proper { IsSound self.now }
    {
        self.rules.as_slice()
    }

    /// The number of the layer of this name, if there is one.
    pub fn layer_named(&self, name: &[u8]) -> Option<usize>
        ensures { result ≡ place_of name.now (layer_names self.now) }
    {
        self.layers.place_of(name)
    }

    /// The number of the site of this name, if there is one.
    pub fn site_named(&self, name: &[u8]) -> Option<usize>
        ensures { result ≡ place_of name.now (site_names self.now) }
    {
        self.sites.place_of(name)
    }

    /// The number of the via of this name, if there is one.
    pub fn via_named(&self, name: &[u8]) -> Option<usize>
        ensures { result ≡ place_of name.now (via_names self.now) }
    {
        self.vias.place_of(name)
    }

    /// The number of the master of this name, if there is one.
    pub fn master_named(&self, name: &[u8]) -> Option<usize>
        ensures { result ≡ place_of name.now (master_names self.now) }
    {
        self.masters.place_of(name)
    }

    /// The number of the nondefault rule of this name, if there is one.
    pub fn rule_named(&self, name: &[u8]) -> Option<usize>
        ensures { result ≡ place_of name.now (rule_names self.now) }
    {
        self.rules.place_of(name)
    }
}

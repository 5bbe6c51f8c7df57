//! A library as LEF texts denote it, in millionths of a micron.

ghost use Rattle.std.specs.Prelude.{◌≡◌, ◌++◌, ◌∷◌, [], None, IsTrue, OnOk, OnErr};
ghost use Rattle.leg_lex.specs.NameLookup.{place_of};
ghost use Rattle.leg_lex.specs.Words.{is_name};
ghost use Rattle.leg_lib_records.specs.Measure.{HasArea};
ghost use Rattle.leg_lib_records.specs.Records.{empty_library, raw_layer_names, raw_site_names, raw_via_names, raw_master_names, raw_rule_names};
ghost use Rattle.leg_lib_records.specs.References.{IsRawViaOf, IsRawMasterOf, IsRawRuleOf};
ghost use Rattle.leg_lib_records.specs.Sound.{IsSoundRawLayer, IsSoundRawRule, IsSoundRaw};

use crate::raw::{RawLayer, RawMaster, RawRule, RawSite, RawVia};
use leg_lex::NamedList;
use std::alloc::{AllocError, Allocator};
use std::marker::Model;

/// A library in millionths of a micron, in file order. Of the layers, the sites, the vias, the macros and the nondefault
/// rules no two have one name, and neither have the pins of a macro. The widths of routing layers and of rules are above 0,
/// and no spacing is below 0. Shapes and the widths of rules are on layers of the library, a macro's site is one of its sites,
/// and a via is marked good exactly where its name and its shapes are those of a good via.
#[derive(Drop)]
pub struct RawLibrary<'a, A: Allocator + Copy> {
    pub(crate) layers: NamedList<'a, RawLayer<'a>, A>,
    pub(crate) sites: NamedList<'a, RawSite<'a>, A>,
    pub(crate) vias: NamedList<'a, RawVia<'a, A>, A>,
    pub(crate) masters: NamedList<'a, RawMaster<'a, A>, A>,
    pub(crate) rules: NamedList<'a, RawRule<'a, A>, A>,
}

impl<'a, A: Allocator + Copy> Model for RawLibrary<'a, A> {
    ghost use Rattle.leg_lib_records.specs.Records.{RawLibraryModel};
    ghost use Rattle.leg_lib_records.specs.Sound.{IsSoundRaw};

    ghost Value = { RawLibraryModel };

    ghost view = { λ l. record { layers = l.layers; sites = l.sites; vias = l.vias; masters = l.masters; rules = l.rules } };

    ghost invariant = { λ l. IsSoundRaw (record { layers = l.layers; sites = l.sites; vias = l.vias; masters = l.masters; rules = l.rules }) };
}

impl<'a, A: Allocator + Copy> RawLibrary<'a, A> {
    /// A library with no records.
    pub fn new(alloc: A) -> RawLibrary<'a, A>
        ensures { result ≡ empty_library }
    {
        RawLibrary {
            layers: NamedList::new(alloc),
            sites: NamedList::new(alloc),
            vias: NamedList::new(alloc),
            masters: NamedList::new(alloc),
            rules: NamedList::new(alloc),
        }
    }

    /// The layers, bottom up.
    pub fn layers(&self) -> &[RawLayer<'a>]
        ensures is { result.now ≡ self.now.layers }
        ensures proper { IsSoundRaw self.now }
    {
        self.layers.as_slice()
    }

    /// The sites, in file order.
    pub fn sites(&self) -> &[RawSite<'a>]
        ensures { result.now ≡ self.now.sites }
    {
        self.sites.as_slice()
    }

    /// The vias, in file order.
    pub fn vias(&self) -> &[RawVia<'a, A>]
        ensures { result.now ≡ self.now.vias }
    {
        self.vias.as_slice()
    }

    /// The macros, in file order.
    pub fn masters(&self) -> &[RawMaster<'a, A>]
        ensures { result.now ≡ self.now.masters }
    {
        self.masters.as_slice()
    }

    /// The nondefault rules, in file order.
    pub fn rules(&self) -> &[RawRule<'a, A>]
        ensures { result.now ≡ self.now.rules }
    {
        self.rules.as_slice()
    }

    /// The number of the layer of this name.
    pub fn layer_named(&self, name: &[u8]) -> Option<usize>
        ensures { result ≡ place_of name.now (raw_layer_names self.now) }
    {
        self.layers.place_of(name)
    }

    /// The number of the site of this name.
    pub fn site_named(&self, name: &[u8]) -> Option<usize>
        ensures { result ≡ place_of name.now (raw_site_names self.now) }
    {
        self.sites.place_of(name)
    }

    /// The number of the via of this name.
    pub fn via_named(&self, name: &[u8]) -> Option<usize>
        ensures { result ≡ place_of name.now (raw_via_names self.now) }
    {
        self.vias.place_of(name)
    }

    /// The number of the macro of this name.
    pub fn master_named(&self, name: &[u8]) -> Option<usize>
        ensures { result ≡ place_of name.now (raw_master_names self.now) }
    {
        self.masters.place_of(name)
    }

    /// The number of the nondefault rule of this name.
    pub fn rule_named(&self, name: &[u8]) -> Option<usize>
        ensures { result ≡ place_of name.now (raw_rule_names self.now) }
    {
        self.rules.place_of(name)
    }

    /// Adds a layer whose name is new. If an allocation fails, nothing changes.
    #[tactic(auto, using(crate::proofs::SoundRaw::sound_with_layer))]
    pub fn push_layer(&mut self, layer: RawLayer<'a>) -> Result<(), AllocError>
        requires is_new { place_of layer.name (raw_layer_names self.old) ≡ None }
        requires named { IsTrue (is_name layer.name) }
        requires sound { IsSoundRawLayer layer }
        ensures pushed { OnOk result (self.new ≡ record self.old { layers = self.old.layers ++ layer.entry ∷ [] }) }
        ensures unchanged { OnErr result (self.new ≡ self.old) }
    {
        self.layers.push(layer.name.bytes(), layer)
    }

    /// Adds a site whose name is new. If an allocation fails, nothing changes.
    #[tactic(auto, using(crate::proofs::SoundRaw::sound_with_site))]
    pub fn push_site(&mut self, site: RawSite<'a>) -> Result<(), AllocError>
        requires is_new { place_of site.name (raw_site_names self.old) ≡ None }
        requires named { IsTrue (is_name site.name) }
        requires sound { HasArea site.size }
        ensures pushed { OnOk result (self.new ≡ record self.old { sites = self.old.sites ++ site.entry ∷ [] }) }
        ensures unchanged { OnErr result (self.new ≡ self.old) }
    {
        self.sites.push(site.name.bytes(), site)
    }

    /// Adds a via whose name is new, whose shapes are on layers of the library, and which is marked good exactly where it
    /// is. If an allocation fails, nothing changes.
    #[tactic(auto, using(crate::proofs::SoundRaw::sound_with_via))]
    pub fn push_via(&mut self, via: RawVia<'a, A>) -> Result<(), AllocError>
        requires is_new { place_of via.name (raw_via_names self.old) ≡ None }
        requires named { IsTrue (is_name via.name) }
        requires refers { IsRawViaOf self.old.layers via }
        ensures pushed { OnOk result (self.new ≡ record self.old { vias = self.old.vias ++ via.entry ∷ [] }) }
        ensures unchanged { OnErr result (self.new ≡ self.old) }
    {
        self.vias.push(via.name.bytes(), via)
    }

    /// Adds a macro whose name is new, whose shapes are on layers of the library, whose site is one of its sites, and whose
    /// pins have distinct names. If an allocation fails, nothing changes.
    #[tactic(auto, using(crate::proofs::SoundRaw::sound_with_master))]
    pub fn push_master(&mut self, master: RawMaster<'a, A>) -> Result<(), AllocError>
        requires is_new { place_of master.name (raw_master_names self.old) ≡ None }
        requires named { IsTrue (is_name master.name) }
        requires refers { IsRawMasterOf self.old.layers self.old.sites master }
        ensures pushed { OnOk result (self.new ≡ record self.old { masters = self.old.masters ++ master.entry ∷ [] }) }
        ensures unchanged { OnErr result (self.new ≡ self.old) }
    {
        self.masters.push(master.name.bytes(), master)
    }

    /// Adds a nondefault rule whose name is new, and whose widths are above 0 and those of layers of the library. If an allocation
    /// fails, nothing changes.
    #[tactic(auto, using(crate::proofs::SoundRaw::sound_with_rule))]
    pub fn push_rule(&mut self, rule: RawRule<'a, A>) -> Result<(), AllocError>
        requires is_new { place_of rule.name (raw_rule_names self.old) ≡ None }
        requires named { IsTrue (is_name rule.name) }
        requires sound { IsSoundRawRule rule }
        requires refers { IsRawRuleOf self.old.layers rule }
        ensures pushed { OnOk result (self.new ≡ record self.old { rules = self.old.rules ++ rule.entry ∷ [] }) }
        ensures unchanged { OnErr result (self.new ≡ self.old) }
    {
        self.rules.push(rule.name.bytes(), rule)
    }
}

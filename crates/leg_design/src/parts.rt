//! What the forms of a DEF gave so far (LEF/DEF 5.8, "DEF Syntax").

ghost use Rattle.std.specs.Prelude.{◌≡◌, ◌≤◌, ◌+◌, nat_lt, ◌&&◌, true, IfOk, OnOk};
ghost use Rattle.leg_lex.specs.Words.{Reads, Means};
ghost use Rattle.leg_design_records.specs.declared.limits.TheConstants.{PART_LIMIT};
ghost use Rattle.leg_grammar.specs.Def.Guard.{unless};
ghost use Rattle.leg_design_records.specs.Records.{net_names, terminal_count};
ghost use Rattle.leg_grammar.specs.Def.Parts.{no_parts, divider_form, bus_form, name_form, units_form, die_form, track_form};
ghost use Rattle.leg_grammar.specs.Def.Form.{with_all_nets, design_of};

mod nets;
mod rows;
mod rules;
mod sections;

use crate::dropped_rows::DroppedRows;
use crate::header::{design_name, units, word_after};
use leg_design_common::TurnTable;
use leg_design_floorplan::die::die;
use leg_design_floorplan::track::track;
use leg_design_nets::{NetTable, add_lone_pins};
use leg_design_records::{Blockage, Component, DesignFields, PART_LIMIT, Pin, Row, Track};
use leg_geom::Rect;
use leg_grammar::Profile;
use leg_lex::{Cursor, Entry, FaultKind, Keyword, Name, NamedList, Names, Need, ReadFault};
use leg_lib_records::{Library, Rule, Via};
use std::alloc::{AllocError, Allocator};
use std::marker::Model;

// Which forms have appeared, of those that appear at most once and of which nothing else in the parts tells it.
#[derive(Drop)]
struct Appearances {
    units: bool,
    vias: bool,
    components: bool,
    pins: bool,
    blockages: bool,
    nets: bool,
    special: bool,
}

/// What the forms before gave. Contracts see it as a design, which forms have appeared, the profile in which they are read, the
/// sites of rows that were dropped, the nondefault rules, and which vias are turned.
#[derive(Drop)]
pub(crate) struct Parts<'a, A: Allocator + Copy> {
    profile: Profile,
    has: Appearances,
    library: &'a Library<'a, A>,
    name: Option<Name<'a>>,
    divider: Option<Name<'a>>,
    bus: Option<Name<'a>>,
    die: Option<Rect>,
    rows: Vec<Row<'a>, A>,
    tracks: Vec<Track<A>, A>,
    vias: NamedList<'a, Via<'a, A>, A>,
    components: NamedList<'a, Component<'a>, A>,
    pins: NamedList<'a, Pin<'a, A>, A>,
    blockages: Vec<Blockage<A>, A>,
    nets: NetTable<'a, A>,
    special: NetTable<'a, A>,
    dropped: DroppedRows<A>,
    rules: NamedList<'a, Rule<'a, A>, A>,
    turned: TurnTable<A>,
}

impl<'a, A: Allocator + Copy> Model for Parts<'a, A> {
    ghost use Rattle.std.specs.Prelude.{[], is_some, map, unwrap_or};
    ghost use Rattle.leg_design_records.specs.Records.{blockage_said};
    ghost use Rattle.leg_grammar.specs.Def.Parts.{DesignParts, no_die};

    ghost Value = { DesignParts };

    ghost view = { λ p. record {
      profile = p.profile;
      has = record {
        name = is_some p.name;
        units = p.has.units;
        die = is_some p.die;
        vias = p.has.vias;
        components = p.has.components;
        pins = p.has.pins;
        blockages = p.has.blockages;
        nets = p.has.nets;
        special = p.has.special;
      };
      design = record {
        library = p.library.now;
        name = unwrap_or p.name [];
        divider = p.divider;
        bus = p.bus;
        die = unwrap_or p.die no_die;
        rows = p.rows.items;
        tracks = p.tracks.items;
        vias = p.vias;
        components = p.components;
        pins = p.pins;
        blockages = map blockage_said p.blockages.items;
        nets = p.nets;
        special = p.special;
      };
      dropped = p.dropped;
      rules = p.rules;
      turned = p.turned;
    } };
}

impl<'a, A: Allocator + Copy> Parts<'a, A> {
    /// What no forms give.
    pub(crate) fn new(alloc: A, profile: Profile, library: &'a Library<'a, A>) -> Parts<'a, A>
        ensures { result ≡ no_parts profile library.now }
    {
        Parts {
            profile,
            has: Appearances {
                units: false,
                vias: false,
                components: false,
                pins: false,
                blockages: false,
                nets: false,
                special: false,
            },
            library,
            name: None,
            divider: None,
            bus: None,
            die: None,
            rows: Vec::new(alloc),
            tracks: Vec::new(alloc),
            vias: NamedList::new(alloc),
            components: NamedList::new(alloc),
            pins: NamedList::new(alloc),
            blockages: Vec::new(alloc),
            nets: NetTable::new(alloc),
            special: NetTable::new(alloc),
            dropped: DroppedRows::new(alloc),
            rules: NamedList::new(alloc),
            turned: TurnTable::new(alloc),
        }
    }

    /// The profile in which the forms are read.
    pub(crate) fn profile(&self) -> Profile
        ensures { result ≡ self.now.profile }
    {
        self.profile
    }

    /// `DIVIDERCHAR word ;`, once.
    #[tactic(auto, unfolding(leg_grammar::specs::Def::Parts::divider_form))]
    pub(crate) fn divider_form(&mut self, words: &mut Cursor<'_, 'a>) -> Result<(), ReadFault>
        ensures { Reads (λ _. self.new) result words.new (divider_form self.old words.old) }
    {
        once(self.divider.is_some(), words)?;
        let word = word_after(b"DIVIDERCHAR", words)?;
        self.divider = Some(Name::new(word));
        Ok(())
    }

    /// `BUSBITCHARS word ;`, once.
    #[tactic(auto, unfolding(leg_grammar::specs::Def::Parts::bus_form))]
    pub(crate) fn bus_form(&mut self, words: &mut Cursor<'_, 'a>) -> Result<(), ReadFault>
        ensures { Reads (λ _. self.new) result words.new (bus_form self.old words.old) }
    {
        once(self.bus.is_some(), words)?;
        let word = word_after(b"BUSBITCHARS", words)?;
        self.bus = Some(Name::new(word));
        Ok(())
    }

    /// `DESIGN NAME ;`, once.
    #[tactic(auto, unfolding(leg_grammar::specs::Def::Parts::name_form))]
    pub(crate) fn name_form(&mut self, words: &mut Cursor<'_, 'a>) -> Result<(), ReadFault>
        ensures { Reads (λ _. self.new) result words.new (name_form self.old words.old) }
    {
        once(self.name.is_some(), words)?;
        let name = design_name(words)?;
        self.name = Some(Name::new(name));
        Ok(())
    }

    /// `UNITS`, once. Another number than the library's is `Unexpected`.
    #[tactic(auto, unfolding(leg_grammar::specs::Def::Parts::units_form))]
    pub(crate) fn units_form(&mut self, words: &mut Cursor<'_, 'a>) -> Result<(), ReadFault>
        ensures { Reads (λ _. self.new) result words.new (units_form self.old words.old) }
    {
        once(self.has.units, words)?;
        let start = words.again();
        if units(words)? != self.library.units() {
            return Err(at_number(start)?.need(FaultKind::Unexpected, Need::SameUnits));
        }
        self.has.units = true;
        Ok(())
    }

    /// `DIEAREA`, once.
    #[tactic(auto, unfolding(leg_grammar::specs::Def::Parts::die_form))]
    pub(crate) fn die_form(&mut self, alloc: A, words: &mut Cursor<'_, 'a>) -> Result<(), ReadFault>
        ensures { Reads (λ _. self.new) result words.new (die_form self.old words.old) }
    {
        once(self.die.is_some(), words)?;
        self.die = Some(die(alloc, words)?);
        Ok(())
    }

    /// More tracks.
    #[tactic(auto, unfolding(leg_grammar::specs::Def::Parts::track_form))]
    pub(crate) fn track_form(
        &mut self,
        alloc: A,
        words: &mut Cursor<'_, 'a>,
    ) -> Result<(), ReadFault>
        ensures { Reads (λ _. self.new) result words.new (track_form self.old words.old) }
    {
        let track = track(alloc, self.profile, self.library, words)?;
        self.tracks.push(track)?;
        Ok(())
    }

    /// Whether `DESIGN`, `UNITS` and `DIEAREA` have appeared.
    fn is_complete(&self) -> bool
        ensures { result ≡ (self.now.has.name && self.now.has.units && self.now.has.die) }
    {
        self.name.is_some() && self.has.units && self.die.is_some()
    }

    /// The first of `DESIGN`, `UNITS` and `DIEAREA` that has not appeared, or the last of them.
    fn missing(&self) -> &'static [u8] {
        if self.name.is_none() {
            b"DESIGN"
        } else if !self.has.units {
            b"UNITS"
        } else {
            b"DIEAREA"
        }
    }

    /// Adds the lone pins to the nets. If an allocation fails, nothing is known of the nets.
    fn add_lone_pins(&mut self) -> Result<(), AllocError>
        requires { terminal_count self.old.design.nets + terminal_count self.old.design.special ≤ PART_LIMIT }
        ensures { OnOk result (self.new ≡ record self.old { design = with_all_nets self.old.design }) }
    {
        add_lone_pins(self.pins.as_slice(), &mut self.nets, &mut self.special)
    }

    /// Adds the lone pins, where `DESIGN`, `UNITS` and `DIEAREA` have appeared and there aren't too many terminals.
    /// Faults are reported at `end`.
    #[tactic(auto, using(crate::proofs::Designs::not_whole, crate::proofs::Designs::site_is_used, crate::proofs::Designs::too_many_before, crate::proofs::Designs::too_many, crate::proofs::Designs::design_made))]
    fn complete(&mut self, end: &Cursor<'_, '_>) -> Result<(), ReadFault>
        ensures design { Means (λ _. self.new.design) result (design_of self.old) }
        ensures name { OnOk result (self.new.has.name ≡ true) }
        ensures die { OnOk result (self.new.has.die ≡ true) }
    {
        if !self.is_complete() {
            let need = Need::Statement(Keyword::new(self.missing()));
            return Err(end.need(FaultKind::Unexpected, need));
        }
        self.dropped
            .are_unused(self.library, self.components.as_slice(), end)?;
        // Sections are refused where they list too many, so this is not found here; lone pins are counted from it on.
        if are_too_many(&self.nets, &self.special) {
            return Err(end.need(FaultKind::TooMany, Need::Fewer(Entry::NetPart)));
        }
        self.add_lone_pins()?;
        if are_too_many(&self.nets, &self.special) {
            return Err(end.need(FaultKind::TooMany, Need::Fewer(Entry::NetPart)));
        }
        Ok(())
    }

    /// The fields of the design, where `DESIGN` and `DIEAREA` have appeared, and the names of its entries of `SPECIALNETS`.
    fn fields(self) -> (DesignFields<'a, A>, Names<'a, A>)
        requires name { self.has.name ≡ true }
        requires die { self.has.die ≡ true }
        ensures fields { result.0 ≡ self.entry.design }
        ensures names { result.1 ≡ net_names self.entry.design.special }
    {
        let (special, special_names) = self.special.into_parts();
        let fields = DesignFields {
            library: self.library,
            name: self.name.unwrap(),
            divider: self.divider,
            bus: self.bus,
            die: self.die.unwrap(),
            rows: self.rows,
            tracks: self.tracks,
            vias: self.vias.into_vec(),
            components: self.components.into_vec(),
            pins: self.pins.into_vec(),
            blockages: self.blockages,
            nets: self.nets.into_vec(),
            special,
        };
        (fields, special_names)
    }

    /// The fields of the design, where `DESIGN`, `UNITS` and `DIEAREA` have appeared, and the names of its entries of
    /// `SPECIALNETS`. Faults are reported at `end`.
    pub(crate) fn design(
        self,
        end: &Cursor<'_, 'a>,
    ) -> Result<(DesignFields<'a, A>, Names<'a, A>), ReadFault>
        ensures design { Means (λ d. d.0) result (design_of self.entry) }
        ensures names { IfOk result (λ d. d.1 ≡ net_names d.0.special) }
    {
        let mut parts = self;
        parts.complete(end)?;
        Ok(parts.fields())
    }
}

// Checks that a form that appears at most once has not appeared before. A second one is `Unexpected`.
fn once(has: bool, words: &Cursor<'_, '_>) -> Result<(), ReadFault>
    ensures { Means (λ x. x) result (unless has) }
{
    if has {
        return Err(words.need(FaultKind::Unexpected, Need::NoSecond));
    }
    Ok(())
}

// The place of the number of `UNITS DISTANCE MICRONS n`.
fn at_number<'t, 'a>(mut units: Cursor<'t, 'a>) -> Result<Cursor<'t, 'a>, ReadFault> {
    units.any()?;
    units.any()?;
    units.any()?;
    Ok(units)
}

// Whether the entries of both sections together list too many terminals.
fn are_too_many<A: Allocator + Copy>(nets: &NetTable<'_, A>, special: &NetTable<'_, A>) -> bool
    ensures { result ≡ nat_lt PART_LIMIT (terminal_count nets.now + terminal_count special.now) }
{
    nets.terminal_count()
        .saturating_add(special.terminal_count()) as u64
        > PART_LIMIT
}

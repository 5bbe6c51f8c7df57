//! The profile in which nets are read, and what is read before them, of which they name parts.

ghost use Rattle.std.specs.Prelude.{◌≡◌};
ghost use Rattle.std.specs.Option.{option_copied};
ghost use Rattle.leg_grammar.specs.Def.NetScope.{via_numbered, via_named, rule_numbered, rule_named, under_rule};

use crate::turn_table::TurnTable;
use crate::via_number::{number_of_via, via_of_number};
use leg_design_records::{Component, Pin};
use leg_grammar::Profile;
use leg_lex::NamedList;
use leg_lib_records::{Library, Rule, Via};
use std::alloc::Allocator;
use std::marker::Model;

/// The profile in which nets are read, the library, the vias, components and pins of the design, and nondefault rules. Which vias are turned is of
/// interest to nets alone.
#[derive(Drop)]
pub struct NetScope<'k, 'a, A: Allocator + Copy> {
    /// The profile in which nets are read.
    pub profile: Profile,
    /// The library.
    pub library: &'k Library<'a, A>,
    /// The vias of the section `VIAS`, and those that are made by turning.
    pub vias: &'k NamedList<'a, Via<'a, A>, A>,
    /// Which vias are turned.
    pub turned: &'k TurnTable<A>,
    /// The components of the design.
    pub components: &'k NamedList<'a, Component<'a>, A>,
    /// The pins of the design.
    pub pins: &'k NamedList<'a, Pin<'a, A>, A>,
    /// The nondefault rules of the DEF.
    pub rules: &'k NamedList<'a, Rule<'a, A>, A>,
    /// The number of the rule under which wires are read, if there is one.
    pub rule: Option<usize>,
}

impl<'k, 'a, A: Allocator + Copy> Model for NetScope<'k, 'a, A> {
    ghost use Rattle.leg_grammar.specs.Def.NetScope.{NetScopeModel};

    ghost Value = { NetScopeModel };

    ghost view = { λ k. record {
      profile = k.profile;
      library = k.library.now;
      vias = k.vias.now;
      turned = k.turned.now;
      components = k.components.now;
      pins = k.pins.now;
      rules = k.rules.now;
      rule = k.rule;
    } };
}

impl<'k, 'a, A: Allocator + Copy> NetScope<'k, 'a, A> {
    /// The via of this number: those of the library count first.
    pub fn via_numbered(&self, number: usize) -> Option<&Via<'a, A>>
        ensures { option_copied result ≡ via_numbered self.now number }
    {
        via_of_number(self.library, self.vias, number)
    }

    /// The number of the via of this name.
    pub fn via_named(&self, name: &[u8]) -> Option<usize>
        ensures { result ≡ via_named self.now name.now }
    {
        number_of_via(self.library, self.vias, name)
    }

    /// The nondefault rule of this number: those of the DEF count first.
    #[tactic(auto, using(leg_lemmas::proofs::Places::in_first, crate::proofs::ViaNumbers::in_second))]
    pub fn rule_numbered(&self, number: usize) -> Option<&Rule<'a, A>>
        ensures { option_copied result ≡ rule_numbered self.now number }
    {
        let of_design = self.rules.as_slice();
        if number < of_design.len() {
            of_design.get(number)
        } else {
            self.library.rules().get(number - of_design.len())
        }
    }

    /// The number of the nondefault rule of this name.
    #[tactic(auto, using(crate::proofs::RuleNumbers::rule_within))]
    pub fn rule_named(&self, name: &[u8]) -> Option<usize>
        ensures { result ≡ rule_named self.now name.now }
    {
        match self.rules.place_of(name) {
            Some(number) => Some(number),
            None => {
                let number = self.library.rule_named(name)?;
                let before = &self.library.rules()[..number];
                Some(self.rules.as_slice().len() + before.len())
            }
        }
    }

    /// The same where wires are read under the rule of this number.
    pub fn under(&self, rule: usize) -> NetScope<'k, 'a, A>
        ensures { result ≡ under_rule self.now rule }
    {
        NetScope {
            profile: self.profile,
            library: self.library,
            vias: self.vias,
            turned: self.turned,
            components: self.components,
            pins: self.pins,
            rules: self.rules,
            rule: Some(rule),
        }
    }
}

//! The sections of a DEF before those of nets, each of which appears at most once (LEF/DEF 5.8, "DEF Syntax").

ghost use Rattle.std.specs.Prelude.{◌≡◌};
ghost use Rattle.leg_lex.specs.Words.{Reads};
ghost use Rattle.leg_grammar.specs.Def.Parts.{parts_scope, vias_form, components_form, pins_form, blockages_form};

use crate::parts::{Parts, once};
use leg_design_common::NetScope;
use leg_design_floorplan::blockage::blockages;
use leg_design_floorplan::component::components;
use leg_design_floorplan::pin::pins;
use leg_design_floorplan::via::vias;
use leg_lex::{Cursor, ReadFault};
use std::alloc::Allocator;
use std::mem::replace;

impl<'a, A: Allocator + Copy> Parts<'a, A> {
    /// The section `VIAS`, once.
    #[tactic(auto, unfolding(leg_grammar::specs::Def::Parts::vias_form))]
    pub(crate) fn vias_form(
        &mut self,
        alloc: A,
        words: &mut Cursor<'_, 'a>,
    ) -> Result<(), ReadFault>
        ensures { Reads (λ _. self.new) result words.new (vias_form self.old words.old) }
    {
        once(self.has.vias, words)?;
        let vias = vias(alloc, self.profile, self.library, words)?;
        drop(replace(&mut self.vias, vias));
        self.has.vias = true;
        Ok(())
    }

    /// The section `COMPONENTS`, once.
    #[tactic(auto, unfolding(leg_grammar::specs::Def::Parts::components_form))]
    pub(crate) fn components_form(
        &mut self,
        alloc: A,
        words: &mut Cursor<'_, 'a>,
    ) -> Result<(), ReadFault>
        ensures { Reads (λ _. self.new) result words.new (components_form self.old words.old) }
    {
        once(self.has.components, words)?;
        let components = components(alloc, self.library, words)?;
        drop(replace(&mut self.components, components));
        self.has.components = true;
        Ok(())
    }

    /// The section `PINS`, once.
    #[tactic(auto, unfolding(leg_grammar::specs::Def::Parts::pins_form))]
    pub(crate) fn pins_form(
        &mut self,
        alloc: A,
        words: &mut Cursor<'_, 'a>,
    ) -> Result<(), ReadFault>
        ensures { Reads (λ _. self.new) result words.new (pins_form self.old words.old) }
    {
        once(self.has.pins, words)?;
        let pins = pins(alloc, &self.net_scope(), words)?;
        drop(replace(&mut self.pins, pins));
        self.has.pins = true;
        Ok(())
    }

    /// The section `BLOCKAGES`, once.
    #[tactic(auto, unfolding(leg_grammar::specs::Def::Parts::blockages_form))]
    pub(crate) fn blockages_form(
        &mut self,
        alloc: A,
        words: &mut Cursor<'_, 'a>,
    ) -> Result<(), ReadFault>
        ensures { Reads (λ _. self.new) result words.new (blockages_form self.old words.old) }
    {
        once(self.has.blockages, words)?;
        let blockages = blockages(alloc, self.profile, self.library, words)?;
        drop(replace(&mut self.blockages, blockages));
        self.has.blockages = true;
        Ok(())
    }

    // What pins and nets name parts of.
    pub(super) fn net_scope<'k>(&'k self) -> NetScope<'k, 'a, A>
        ensures { result ≡ parts_scope self.now }
    {
        NetScope {
            profile: self.profile,
            library: self.library,
            vias: &self.vias,
            turned: &self.turned,
            components: &self.components,
            pins: &self.pins,
            rules: &self.rules,
            rule: None,
        }
    }
}

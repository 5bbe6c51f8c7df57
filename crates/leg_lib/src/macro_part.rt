//! The parts of a macro: its pins, its obstructions, and its statements (LEF/DEF 5.8, "Macro").

ghost use Rattle.std.specs.Prelude.{◌≡◌, ◌++◌, ◌∷◌, [], map, None, OnOk, OnErr};
ghost use Rattle.leg_lex.specs.Words.{Reads};
ghost use Rattle.leg_lex.specs.Until.{until};
ghost use Rattle.leg_lex.specs.Statements.{at_end};
ghost use Rattle.leg_lex.specs.NameLookup.{place_of};
ghost use Rattle.leg_grammar.specs.Lef.Macro.{no_macro_parts, macro_pin, macro_obstruction, macro_density, macro_timing, macro_statement, macro_part};

use crate::geometry::geometry;
use crate::named::second_definition;
use crate::pin::pin;
use leg_grammar::Profile;
use leg_lex::{Cursor, NameKind, Names, ReadFault};
use leg_lib_records::{RawLibrary, RawPin, RawShape};
use std::alloc::{AllocError, Allocator};
use std::marker::Model;

/// What a macro had so far: its pins, of which no two have one name, the shapes of its obstructions,
/// and its statements.
#[derive(Drop)]
pub(crate) struct MacroParts<'t, 'a, A: Allocator + Copy> {
    pub(crate) pins: Vec<RawPin<'a, A>, A>,
    pub(crate) pin_names: Names<'a, A>,
    pub(crate) obstructions: Vec<RawShape, A>,
    pub(crate) statements: Vec<Cursor<'t, 'a>, A>,
}

impl<'t, 'a, A: Allocator + Copy> Model for MacroParts<'t, 'a, A> {
    ghost use Rattle.std.specs.Prelude.{◌≡◌, map};
    ghost use Rattle.leg_grammar.specs.Lef.Macro.{MacroParts};

    ghost Value = { MacroParts };

    ghost view = { λ p. record { pins = p.pins.items; obstructions = p.obstructions.items; statements = p.statements.items } };

    ghost invariant = { λ p. p.pin_names ≡ map (λ pin. pin.name) p.pins.items };
}

impl<'t, 'a, A: Allocator + Copy> MacroParts<'t, 'a, A> {
    /// No parts.
    pub(crate) fn new(alloc: A) -> MacroParts<'t, 'a, A>
        ensures { result ≡ no_macro_parts }
    {
        MacroParts {
            pins: Vec::new(alloc),
            pin_names: Names::new(alloc),
            obstructions: Vec::new(alloc),
            statements: Vec::new(alloc),
        }
    }

    /// Adds a pin whose name is new. If an allocation fails, nothing changes.
    fn push_pin(&mut self, pin: RawPin<'a, A>) -> Result<(), AllocError>
        requires { place_of pin.name (map (λ p. p.name) self.old.pins) ≡ None }
        ensures pushed { OnOk result (self.new ≡ record self.old { pins = self.old.pins ++ pin.entry ∷ [] }) }
        ensures unchanged { OnErr result (self.new ≡ self.old) }
    {
        self.pins.reserve(1)?;
        self.pin_names.push(pin.name.bytes())?;
        self.pins.push(pin).unwrap();
        Ok(())
    }

    /// One more pin, whose name is new.
    #[tactic(auto, unfolding(leg_grammar::specs::Lef::Macro::macro_pin))]
    fn macro_pin(
        &mut self,
        alloc: A,
        profile: Profile,
        library: &RawLibrary<'a, A>,
        words: &mut Cursor<'t, 'a>,
    ) -> Result<(), ReadFault>
        ensures { Reads (λ _. self.new) result words.new (macro_pin profile library.now self.old words.old) }
    {
        let first = words.again();
        let pin = pin(alloc, profile, library, words)?;
        if self.pin_names.place_of(pin.name.bytes()).is_some() {
            return Err(second_definition(&first, NameKind::MacroPin));
        }
        self.push_pin(pin)?;
        Ok(())
    }

    /// `OBS`, shapes, and `END`.
    #[tactic(auto, unfolding(leg_grammar::specs::Lef::Macro::macro_obstruction))]
    fn macro_obstruction(
        &mut self,
        alloc: A,
        profile: Profile,
        library: &RawLibrary<'a, A>,
        words: &mut Cursor<'t, 'a>,
    ) -> Result<(), ReadFault>
        ensures { Reads (λ _. self.new) result words.new (macro_obstruction profile library.now self.old words.old) }
    {
        words.keyword(b"OBS")?;
        let mut shapes = geometry(alloc, profile, library, words)?;
        words.keyword(b"END")?;
        self.obstructions.append(&mut shapes)?;
        Ok(())
    }

    /// `DENSITY`, and everything up to the first `END`.
    #[tactic(auto, unfolding(leg_grammar::specs::Lef::Macro::macro_density))]
    fn macro_density(&mut self, words: &mut Cursor<'t, 'a>) -> Result<(), ReadFault>
        ensures { Reads (λ _. self.new) result words.new (macro_density self.old words.old) }
    {
        words.keyword(b"DENSITY")?;
        words.past_keyword(b"END")
    }

    /// `TIMING`, and everything up to `END TIMING`.
    #[tactic(auto, unfolding(leg_grammar::specs::Lef::Macro::macro_timing))]
    fn macro_timing(&mut self, words: &mut Cursor<'t, 'a>) -> Result<(), ReadFault>
        ensures { Reads (λ _. self.new) result words.new (macro_timing self.old words.old) }
    {
        words.keyword(b"TIMING")?;
        words.past_end(b"TIMING")
    }

    /// One more statement.
    #[tactic(auto, unfolding(leg_grammar::specs::Lef::Macro::macro_statement))]
    fn macro_statement(&mut self, words: &mut Cursor<'t, 'a>) -> Result<(), ReadFault>
        ensures { Reads (λ _. self.new) result words.new (macro_statement self.old words.old) }
    {
        let statement = words.statement()?;
        self.statements.push(statement)?;
        Ok(())
    }

    /// One more part.
    #[tactic(auto, unfolding(leg_grammar::specs::Lef::Macro::macro_part))]
    pub(crate) fn macro_part(
        &mut self,
        alloc: A,
        profile: Profile,
        library: &RawLibrary<'a, A>,
        words: &mut Cursor<'t, 'a>,
    ) -> Result<(), ReadFault>
        ensures { Reads (λ _. self.new) result words.new (macro_part profile library.now self.old words.old) }
    {
        if words.is_at(b"PIN") {
            self.macro_pin(alloc, profile, library, words)
        } else if words.is_at(b"OBS") {
            self.macro_obstruction(alloc, profile, library, words)
        } else if words.is_at(b"DENSITY") {
            self.macro_density(words)
        } else if words.is_at(b"TIMING") {
            self.macro_timing(words)
        } else {
            self.macro_statement(words)
        }
    }

    /// The parts up to the macro's `END`.
    #[tactic(auto, using(crate::proofs::MacroForms::macro_parts_end, crate::proofs::MacroForms::macro_parts_on, crate::proofs::MacroForms::macro_parts_fail, crate::proofs::MacroForms::macro_part_shorter))]
    pub(crate) fn macro_parts(
        &mut self,
        alloc: A,
        profile: Profile,
        library: &RawLibrary<'a, A>,
        words: &mut Cursor<'t, 'a>,
    ) -> Result<(), ReadFault>
        ensures { Reads (λ _. self.new) result words.new (until at_end (macro_part profile library.now) self.old words.old) }
    {
        'parts: while !words.is_at(b"END") {
            self.macro_part(alloc, profile, library, words)?;
        }
        Ok(())
    }
}

//! The sections of nets of a DEF, each of which appears at most once (LEF/DEF 5.8, "Nets", "Special Nets"; that vias may be turned in the wide
//! profile alone is lefdef's own rule).

ghost use Rattle.std.specs.Prelude.{◌≡◌, OnErr};
ghost use Rattle.leg_lex.specs.Words.{Reads, Means};
ghost use Rattle.leg_grammar.specs.Def.TurnedVia.{turned_vias_at};
ghost use Rattle.leg_grammar.specs.Def.Parts.{with_turned_vias, turned_parts, nets_section_form, nets_form, special_section_form, special_form};

use crate::parts::{Parts, once};
use leg_design_common::TurnTable;
use leg_design_floorplan::turned_via::TurnedVias;
use leg_design_nets::nets;
use leg_grammar::Profile;
use leg_lex::{Cursor, FaultKind, NamedList, ReadFault};
use leg_lib_records::{Library, Via};
use std::alloc::Allocator;
use std::mem::replace;

/// These vias, and which of them are turned, with those that the words of a section turn.
fn with_turned<'a, A: Allocator + Copy>(
    alloc: A,
    library: &'a Library<'a, A>,
    vias: NamedList<'a, Via<'a, A>, A>,
    turned: TurnTable<A>,
    words: &mut Cursor<'_, 'a>,
) -> Result<(NamedList<'a, Via<'a, A>, A>, TurnTable<A>), ReadFault>
    ensures { Reads (λ m. record { vias = m.0; turned = m.1 }) result words.new
        (turned_vias_at library.now (record { vias = vias.entry; turned = turned }) words.old) }
{
    let mut made = TurnedVias::new(vias, turned);
    made.add_all(alloc, library, words)?;
    Ok(made.into_parts())
}

impl<'a, A: Allocator + Copy> Parts<'a, A> {
    /// Adds the vias that the words of a section turn.
    #[tactic(auto, using(crate::proofs::TurnedParts::not_turned), unfolding(leg_grammar::specs::Def::Parts::with_turned_vias))]
    fn add_turned_vias(&mut self, alloc: A, words: &Cursor<'_, 'a>) -> Result<(), ReadFault>
        ensures { Means (λ _. self.new) result (with_turned_vias self.old words.now) }
    {
        let vias = replace(&mut self.vias, NamedList::new(alloc));
        let turned = replace(&mut self.turned, TurnTable::new(alloc));
        let (vias, turned) = with_turned(alloc, self.library, vias, turned, &mut words.again())?;
        drop(replace(&mut self.vias, vias));
        drop(replace(&mut self.turned, turned));
        self.has.vias = true;
        Ok(())
    }

    /// The same in the wide profile alone. Where they cannot be added, `fault` is the text's, unless there are too many.
    #[tactic(auto, unfolding(leg_grammar::specs::Def::Parts::turned_parts))]
    fn turn_vias(
        &mut self,
        alloc: A,
        fault: ReadFault,
        words: &Cursor<'_, 'a>,
    ) -> Result<(), ReadFault>
        ensures { Means (λ _. self.new) result (turned_parts self.old.profile self.old words.now) }
    {
        match self.profile {
            Profile::Narrow => Err(fault),
            Profile::Wide { .. } => match self.add_turned_vias(alloc, words) {
                Ok(()) => Ok(()),
                Err(other) if other.kind == FaultKind::Memory => Err(other),
                Err(other) if other.kind == FaultKind::TooMany => Err(other),
                Err(_) => Err(fault),
            },
        }
    }

    /// The section `NETS` under the vias before.
    #[tactic(auto, unfolding(leg_grammar::specs::Def::Parts::nets_section_form))]
    fn nets_section(&mut self, alloc: A, words: &mut Cursor<'_, 'a>) -> Result<(), ReadFault>
        ensures read { Reads (λ _. self.new) result words.new (nets_section_form self.old words.old) }
        ensures unchanged { OnErr result (self.new ≡ self.old) }
    {
        let nets = nets(alloc, &self.net_scope(), false, &self.special, words)?;
        drop(replace(&mut self.nets, nets));
        self.has.nets = true;
        Ok(())
    }

    /// The section `NETS`, once; with the vias that its words turn, where it can't be read without.
    #[tactic(auto, unfolding(leg_grammar::specs::Def::Parts::nets_form))]
    pub(crate) fn nets_form(
        &mut self,
        alloc: A,
        words: &mut Cursor<'_, 'a>,
    ) -> Result<(), ReadFault>
        ensures { Reads (λ _. self.new) result words.new (nets_form self.old words.old) }
    {
        once(self.has.nets, words)?;
        let start = words.again();
        match self.nets_section(alloc, words) {
            Err(fault) if fault.kind != FaultKind::Memory => {
                self.turn_vias(alloc, fault, &start)?;
                *words = start;
                self.nets_section(alloc, words)
            }
            read => read,
        }
    }

    /// The section `SPECIALNETS` under the vias before.
    #[tactic(auto, unfolding(leg_grammar::specs::Def::Parts::special_section_form))]
    fn special_section(&mut self, alloc: A, words: &mut Cursor<'_, 'a>) -> Result<(), ReadFault>
        ensures read { Reads (λ _. self.new) result words.new (special_section_form self.old words.old) }
        ensures unchanged { OnErr result (self.new ≡ self.old) }
    {
        let special = nets(alloc, &self.net_scope(), true, &self.nets, words)?;
        drop(replace(&mut self.special, special));
        self.has.special = true;
        Ok(())
    }

    /// The section `SPECIALNETS`, once; with the vias that its words turn, where it can't be read without.
    #[tactic(auto, unfolding(leg_grammar::specs::Def::Parts::special_form))]
    pub(crate) fn special_form(
        &mut self,
        alloc: A,
        words: &mut Cursor<'_, 'a>,
    ) -> Result<(), ReadFault>
        ensures { Reads (λ _. self.new) result words.new (special_form self.old words.old) }
    {
        once(self.has.special, words)?;
        let start = words.again();
        match self.special_section(alloc, words) {
            Err(fault) if fault.kind != FaultKind::Memory => {
                self.turn_vias(alloc, fault, &start)?;
                *words = start;
                self.special_section(alloc, words)
            }
            read => read,
        }
    }
}

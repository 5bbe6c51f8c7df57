//! Rows of a DEF, of which the wide profile drops some (LEF/DEF 5.8, "Rows"; lefdef's own rule).

ghost use Rattle.leg_lex.specs.Words.{Reads};
ghost use Rattle.leg_grammar.specs.Def.Parts.{dropped_row_form, row_form};

use crate::parts::Parts;
use leg_design_floorplan::dropped_row::dropped_row;
use leg_design_floorplan::row::row;
use leg_grammar::Profile;
use leg_lex::{Cursor, FaultKind, ReadFault};
use std::alloc::Allocator;

impl<'a, A: Allocator + Copy> Parts<'a, A> {
    /// A row that is dropped. Where there is none, `fault` is the text's.
    #[tactic(auto, unfolding(leg_grammar::specs::Def::Parts::dropped_row_form))]
    fn dropped_row_form(
        &mut self,
        alloc: A,
        fault: ReadFault,
        words: &mut Cursor<'_, 'a>,
    ) -> Result<(), ReadFault>
        ensures { Reads (λ _. self.new) result words.new (dropped_row_form self.old.profile self.old words.old) }
    {
        match self.profile {
            Profile::Narrow => Err(fault),
            Profile::Wide { .. } => match dropped_row(alloc, self.library, words) {
                Ok(site) => {
                    self.dropped.add(site, fault)?;
                    Ok(())
                }
                Err(other) if other.kind == FaultKind::Memory => Err(other),
                Err(_) => Err(fault),
            },
        }
    }

    /// One more row, or one that is dropped.
    #[tactic(auto, unfolding(leg_grammar::specs::Def::Parts::row_form, leg_grammar::specs::Def::Parts::kept_row_form))]
    pub(crate) fn row_form(&mut self, alloc: A, words: &mut Cursor<'_, 'a>) -> Result<(), ReadFault>
        ensures { Reads (λ _. self.new) result words.new (row_form self.old words.old) }
    {
        let mut ahead = words.again();
        match row(alloc, self.library, &mut ahead) {
            Ok(row) => {
                self.rows.push(row)?;
                *words = ahead;
                Ok(())
            }
            Err(fault) if fault.kind == FaultKind::Memory => Err(fault),
            Err(fault) => self.dropped_row_form(alloc, fault, words),
        }
    }
}

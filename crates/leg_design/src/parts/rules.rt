//! Nondefault rules of a DEF, which the wide profile keeps (LEF/DEF 5.8, "Nondefault Rules").

ghost use Rattle.std.specs.Prelude.{Some};
ghost use Rattle.leg_lex.specs.Words.{Reads, Means};
ghost use Rattle.leg_grammar.specs.Def.Rule.{rules_at, rules_of};
ghost use Rattle.leg_grammar.specs.Def.Parts.{rules_form};

use crate::parts::Parts;
use crate::skipped::past_section;
use leg_design_floorplan::rule::rules;
use leg_grammar::Profile;
use leg_lex::{Cursor, FaultKind, NamedList, ReadFault};
use leg_lib_records::{Library, Rule};
use std::alloc::Allocator;
use std::mem::replace;

/// The rules of the section that begins there, or none where the words are no such section.
fn rules_or_none<'a, A: Allocator + Copy>(
    alloc: A,
    library: &Library<'_, A>,
    words: &mut Cursor<'_, 'a>,
) -> Result<NamedList<'a, Rule<'a, A>, A>, ReadFault>
    ensures { Means (λ r. r) result (Some (rules_of (rules_at library.now words.old))) }
{
    match rules(alloc, library, words) {
        Ok(rules) => Ok(rules),
        Err(fault) if fault.kind == FaultKind::Memory => Err(fault),
        Err(_) => Ok(NamedList::new(alloc)),
    }
}

impl<'a, A: Allocator + Copy> Parts<'a, A> {
    /// The section `NONDEFAULTRULES`, which is read past. In the wide profile its rules are kept, in place of those of a section before.
    #[tactic(auto, unfolding(leg_grammar::specs::Def::Parts::rules_form))]
    pub(crate) fn rules_form(
        &mut self,
        alloc: A,
        words: &mut Cursor<'_, 'a>,
    ) -> Result<(), ReadFault>
        ensures { Reads (λ _. self.new) result words.new (rules_form self.old.profile self.old words.old) }
    {
        match self.profile {
            Profile::Narrow => past_section(words),
            Profile::Wide { .. } => {
                let mut section = words.again();
                past_section(words)?;
                let rules = rules_or_none(alloc, self.library, &mut section)?;
                drop(replace(&mut self.rules, rules));
                Ok(())
            }
        }
    }
}

//! Sections (LEF/DEF 5.8, "DEF Syntax").

ghost use Rattle.std.specs.Prelude.{◌≢◌, IfErr};
ghost use Rattle.leg_lex.specs.declared.read_fault.FaultKind.TheVariants.{Memory};
ghost use Rattle.leg_lex.specs.Words.{Reads};
ghost use Rattle.leg_grammar.specs.Def.Section.{section_start};

use leg_lex::{Cursor, ReadFault};

/// The start of a section: its keyword, a number, which isn't compared, and `;`.
#[tactic(auto, unfolding(leg_grammar::specs::Def::Section::section_start))]
pub fn section_start(keyword: &[u8], words: &mut Cursor<'_, '_>) -> Result<(), ReadFault>
    ensures reads { Reads (λ x. x) result words.new (section_start keyword.now words.old) }
    ensures no_memory { IfErr result (λ fault. fault.kind ≢ Memory) }
{
    words.keyword(keyword)?;
    words.whole()?;
    words.mark(b';')
}

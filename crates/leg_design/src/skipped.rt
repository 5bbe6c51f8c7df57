//! The forms that add nothing to a design (LEF/DEF 5.8, "DEF Syntax"; lefdef's own rule).

ghost use Rattle.std.specs.Prelude.{◌≡◌};
ghost use Rattle.leg_lex.specs.Words.{Reads};
ghost use Rattle.leg_grammar.specs.Def.SkippedForms.{is_past_statement, is_past_section, past_def_section, past_def_form};

use leg_grammar::Profile;
use leg_grammar::mask::drops_masks;
use leg_lex::{Cursor, FaultKind, Keyword, Need, ReadFault};

/// Whether a statement without effect comes next.
fn is_past_statement(words: &Cursor<'_, '_>) -> bool
    ensures { result ≡ is_past_statement words.now }
{
    words.is_at(b"VERSION")
        || words.is_at(b"NAMESCASESENSITIVE")
        || words.is_at(b"TECHNOLOGY")
        || words.is_at(b"HISTORY")
        || words.is_at(b"GCELLGRID")
}

/// Whether a section without effect begins there.
fn is_past_section(words: &Cursor<'_, '_>) -> bool
    ensures { result ≡ is_past_section words.now }
{
    words.is_at(b"PROPERTYDEFINITIONS")
        || words.is_at(b"REGIONS")
        || words.is_at(b"FILLS")
        || words.is_at(b"SLOTS")
        || words.is_at(b"STYLES")
        || words.is_at(b"SCANCHAINS")
        || words.is_at(b"GROUPS")
        || words.is_at(b"PINPROPERTIES")
}

/// A keyword, and everything up to `END` and the keyword.
#[tactic(auto, using(crate::proofs::Skips::past_section_from, crate::proofs::Skips::past_section_of_none))]
pub(crate) fn past_section(words: &mut Cursor<'_, '_>) -> Result<(), ReadFault>
    ensures { Reads (λ x. x) result words.new (past_def_section words.old) }
{
    let keyword = words.any()?;
    words.past_end(keyword)
}

/// The fault of words that begin no form.
fn no_form(words: &Cursor<'_, '_>) -> ReadFault {
    if words.is_at_end() {
        let need = Need::Keyword(Keyword::new(b"END DESIGN"));
        words.need(FaultKind::UnexpectedEnd, need)
    } else {
        words.need(FaultKind::Unexpected, Need::Form)
    }
}

/// A form without effect. A word that begins no form is `Unexpected`.
#[tactic(auto, unfolding(leg_grammar::specs::Def::SkippedForms::past_def_form))]
pub(crate) fn past_form(profile: Profile, words: &mut Cursor<'_, '_>) -> Result<(), ReadFault>
    ensures { Reads (λ x. x) result words.new (past_def_form profile words.old) }
{
    if is_past_statement(words) {
        words.statement()?;
        Ok(())
    } else if is_past_section(words) {
        past_section(words)
    } else if words.is_at(b"BEGINEXT") {
        words.past_extension()
    } else if drops_masks(profile) && words.is_at(b"COMPONENTMASKSHIFT") {
        words.statement()?;
        Ok(())
    } else {
        Err(no_form(words))
    }
}

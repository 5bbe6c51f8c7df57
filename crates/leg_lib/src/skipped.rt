//! The forms that are read past (LEF/DEF 5.8, "LEF Syntax"; lefdef's own rule).

ghost use Rattle.leg_lex.specs.Words.{Reads};
ghost use Rattle.leg_grammar.specs.Lef.SkippedForms.{past_named, past_lef_section, past_statement, past_lef_form};

use leg_lex::{Cursor, ReadFault};

/// A keyword, a name, and everything up to `END` and this name.
#[tactic(auto, unfolding(leg_grammar::specs::Lef::SkippedForms::past_named))]
fn past_named(words: &mut Cursor<'_, '_>) -> Result<(), ReadFault>
    ensures { Reads (λ x. x) result words.new (past_named words.old) }
{
    words.any()?;
    let name = words.name()?;
    words.past_end_of(name)
}

/// This keyword, and everything up to `END` and the keyword.
#[tactic(auto, unfolding(leg_grammar::specs::Lef::SkippedForms::past_lef_section))]
pub(crate) fn past_section(keyword: &[u8], words: &mut Cursor<'_, '_>) -> Result<(), ReadFault>
    ensures { Reads (λ x. x) result words.new (past_lef_section keyword.now words.old) }
{
    words.keyword(keyword)?;
    words.past_end(keyword)
}

/// Any other form, up to its semicolon.
#[tactic(auto, unfolding(leg_grammar::specs::Lef::SkippedForms::past_statement))]
pub(crate) fn past_statement(words: &mut Cursor<'_, '_>) -> Result<(), ReadFault>
    ensures { Reads (λ x. x) result words.new (past_statement words.old) }
{
    words.statement()?;
    Ok(())
}

/// A form that adds nothing to the library.
#[tactic(auto, unfolding(leg_grammar::specs::Lef::SkippedForms::past_lef_form))]
pub(crate) fn past_form(words: &mut Cursor<'_, '_>) -> Result<(), ReadFault>
    ensures { Reads (λ x. x) result words.new (past_lef_form words.old) }
{
    if words.is_at(b"VIARULE") || words.is_at(b"NONDEFAULTRULE") {
        past_named(words)
    } else if words.is_at(b"UNITS") {
        past_section(b"UNITS", words)
    } else if words.is_at(b"PROPERTYDEFINITIONS") {
        past_section(b"PROPERTYDEFINITIONS", words)
    } else if words.is_at(b"SPACING") {
        past_section(b"SPACING", words)
    } else if words.is_at(b"BEGINEXT") {
        words.past_extension()
    } else {
        past_statement(words)
    }
}

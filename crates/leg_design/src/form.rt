//! The forms of a DEF text (LEF/DEF 5.8, "DEF Syntax").

ghost use Rattle.std.specs.Prelude.{◌≡◌, IfOk};
ghost use Rattle.leg_lex.specs.Words.{Reads, Means};
ghost use Rattle.leg_lex.specs.Until.{until};
ghost use Rattle.leg_lex.specs.Statements.{at_end};
ghost use Rattle.leg_design_records.specs.Records.{net_names};
ghost use Rattle.leg_grammar.specs.Def.Parts.{no_parts};
ghost use Rattle.leg_grammar.specs.Def.Form.{header_form, def_form_at, design_in};

use crate::parts::Parts;
use crate::skipped::past_form;
use leg_design_records::{Design, DesignFields};
use leg_grammar::Profile;
use leg_lex::{Cursor, Names, ReadFault};
use leg_lib_records::Library;
use std::alloc::Allocator;

/// A form that comes before the sections.
#[tactic(auto, unfolding(leg_grammar::specs::Def::Form::header_form))]
fn header_form<'a, A: Allocator + Copy>(
    alloc: A,
    parts: &mut Parts<'a, A>,
    words: &mut Cursor<'_, 'a>,
) -> Result<(), ReadFault>
    ensures { Reads (λ _. parts.new) result words.new (header_form parts.old words.old) }
{
    if words.is_at(b"DIVIDERCHAR") {
        parts.divider_form(words)
    } else if words.is_at(b"BUSBITCHARS") {
        parts.bus_form(words)
    } else if words.is_at(b"DESIGN") {
        parts.name_form(words)
    } else if words.is_at(b"UNITS") {
        parts.units_form(words)
    } else if words.is_at(b"DIEAREA") {
        parts.die_form(alloc, words)
    } else if words.is_at(b"ROW") {
        parts.row_form(alloc, words)
    } else if words.is_at(b"TRACKS") {
        parts.track_form(alloc, words)
    } else if words.is_at(b"NONDEFAULTRULES") {
        parts.rules_form(alloc, words)
    } else {
        past_form(parts.profile(), words)
    }
}

/// One form.
#[tactic(auto, unfolding(leg_grammar::specs::Def::Form::def_form_at))]
fn form<'a, A: Allocator + Copy>(
    alloc: A,
    parts: &mut Parts<'a, A>,
    words: &mut Cursor<'_, 'a>,
) -> Result<(), ReadFault>
    ensures { Reads (λ _. parts.new) result words.new (def_form_at parts.old words.old) }
{
    if words.is_at(b"VIAS") {
        parts.vias_form(alloc, words)
    } else if words.is_at(b"COMPONENTS") {
        parts.components_form(alloc, words)
    } else if words.is_at(b"PINS") {
        parts.pins_form(alloc, words)
    } else if words.is_at(b"BLOCKAGES") {
        parts.blockages_form(alloc, words)
    } else if words.is_at(b"SPECIALNETS") {
        parts.special_form(alloc, words)
    } else if words.is_at(b"NETS") {
        parts.nets_form(alloc, words)
    } else {
        header_form(alloc, parts, words)
    }
}

/// The forms of a DEF, up to the `END` in a form's place.
#[tactic(auto, using(crate::proofs::Forms::forms_end, crate::proofs::Forms::forms_on, crate::proofs::Forms::forms_fail, crate::proofs::FormsShorter::form_shorter))]
fn forms<'a, A: Allocator + Copy>(
    alloc: A,
    profile: Profile,
    library: &'a Library<'a, A>,
    words: &mut Cursor<'_, 'a>,
) -> Result<Parts<'a, A>, ReadFault>
    ensures { Reads (λ parts. parts) result words.new (until at_end def_form_at (no_parts profile library.now) words.old) }
{
    let mut parts = Parts::new(alloc, profile, library);
    'forms: while !words.is_at(b"END") {
        form(alloc, &mut parts, words)?;
    }
    Ok(parts)
}

/// The fields of the design that the words of a DEF denote in a profile under a library, and the names of its entries of `SPECIALNETS`.
#[tactic(auto, unfolding(leg_grammar::specs::Def::Form::design_in))]
fn design_fields<'a, A: Allocator + Copy>(
    alloc: A,
    profile: Profile,
    library: &'a Library<'a, A>,
    words: &mut Cursor<'_, 'a>,
) -> Result<(DesignFields<'a, A>, Names<'a, A>), ReadFault>
    ensures design { Means (λ d. d.0) result (design_in profile library.now words.old) }
    ensures names { IfOk result (λ d. d.1 ≡ net_names d.0.special) }
{
    let parts = forms(alloc, profile, library, words)?;
    let end = words.again();
    words.end(b"DESIGN")?;
    words.nothing_more()?;
    parts.design(&end)
}

/// The design that the words of a DEF denote in a profile under a library.
pub(crate) fn design_words<'a, A: Allocator + Copy>(
    alloc: A,
    profile: Profile,
    library: &'a Library<'a, A>,
    words: &mut Cursor<'_, 'a>,
) -> Result<Design<'a, A>, ReadFault>
    ensures { Means (λ d. d) result (design_in profile library.now words.old) }
{
    let (fields, special_names) = design_fields(alloc, profile, library, words)?;
    Ok(Design::new(fields, special_names))
}

//! The forms of a LEF text (LEF/DEF 5.8, "LEF Syntax").

ghost use Rattle.std.specs.Prelude.{◌≡◌};
ghost use Rattle.leg_lex.specs.Until.{until};
ghost use Rattle.leg_lex.specs.Words.{Reads, Means};
ghost use Rattle.leg_grammar.specs.Lef.Form.{no_lef_parts, library_form_at, lef_form_at, at_last, ended, lef_in};

use crate::layer::layer_form;
use crate::macro_skip::macro_form;
use crate::rule::{is_at_rule, rule_form};
use crate::site::site_form;
use crate::skipped::past_form;
use crate::via::via_form;
use leg_grammar::Profile;
use leg_lex::{Cursor, ReadFault};
use leg_lib_records::RawLibrary;
use std::alloc::Allocator;
use std::marker::Model;

/// What the forms before gave, and the profile in which they are read.
#[derive(Drop)]
pub(crate) struct Parts<'a, A: Allocator + Copy> {
    pub(crate) profile: Profile,
    pub(crate) library: RawLibrary<'a, A>,
}

impl<'a, A: Allocator + Copy> Model for Parts<'a, A> {
    ghost use Rattle.leg_grammar.specs.Lef.Form.{LefParts};

    ghost Value = { LefParts };

    ghost view = { λ p. record { profile = p.profile; library = p.library } };
}

impl<'a, A: Allocator + Copy> Parts<'a, A> {
    /// What no forms give.
    pub(crate) fn new(alloc: A, profile: Profile) -> Parts<'a, A>
        ensures { result ≡ no_lef_parts profile }
    {
        Parts {
            profile,
            library: RawLibrary::new(alloc),
        }
    }
}

/// One form of a library.
#[tactic(auto, unfolding(leg_grammar::specs::Lef::Form::library_form_at))]
fn library_form<'a, A: Allocator + Copy>(
    alloc: A,
    profile: Profile,
    library: &mut RawLibrary<'a, A>,
    words: &mut Cursor<'_, 'a>,
) -> Result<(), ReadFault>
    ensures { Reads (λ _. library.new) result words.new (library_form_at profile library.old words.old) }
{
    if words.is_at(b"LAYER") {
        layer_form(alloc, library, words)
    } else if words.is_at(b"VIA") {
        via_form(alloc, profile, library, words)
    } else if words.is_at(b"SITE") {
        site_form(alloc, library, words)
    } else if words.is_at(b"MACRO") {
        macro_form(alloc, profile, library, words)
    } else if is_at_rule(profile, words) {
        rule_form(alloc, profile, library, words)
    } else {
        past_form(words)
    }
}

/// One form.
#[tactic(auto, unfolding(leg_grammar::specs::Lef::Form::lef_form_at))]
pub(crate) fn form<'a, A: Allocator + Copy>(
    alloc: A,
    parts: &mut Parts<'a, A>,
    words: &mut Cursor<'_, 'a>,
) -> Result<(), ReadFault>
    ensures { Reads (λ _. parts.new) result words.new (lef_form_at parts.old words.old) }
{
    library_form(alloc, parts.profile, &mut parts.library, words)
}

/// The forms of a text, up to its end or to an `END` in a form's place.
#[tactic(auto, using(crate::proofs::Forms::last_at_end, crate::proofs::Forms::last_at_word, crate::proofs::Forms::not_last, crate::proofs::Forms::forms_end, crate::proofs::Forms::forms_on, crate::proofs::Forms::forms_fail, crate::proofs::Forms::form_shorter))]
fn forms<'a, A: Allocator + Copy>(
    alloc: A,
    parts: &mut Parts<'a, A>,
    words: &mut Cursor<'_, 'a>,
) -> Result<(), ReadFault>
    ensures { Reads (λ _. parts.new) result words.new (until at_last lef_form_at parts.old words.old) }
{
    'forms: while !words.is_at_end() && !words.is_at(b"END") {
        form(alloc, parts, words)?;
    }
    Ok(())
}

/// The end of a text: nothing, or `END LIBRARY` and nothing after it.
fn ended(words: &mut Cursor<'_, '_>) -> Result<(), ReadFault>
    ensures { Means (λ x. x) result (ended words.old) }
{
    if words.is_at_end() {
        return Ok(());
    }
    words.end(b"LIBRARY")?;
    words.nothing_more()
}

/// Adds the forms of a text to those of the texts before it.
#[tactic(auto, unfolding(leg_grammar::specs::Lef::Form::lef_in))]
pub(crate) fn lef_words<'a, A: Allocator + Copy>(
    alloc: A,
    parts: &mut Parts<'a, A>,
    words: &mut Cursor<'_, 'a>,
) -> Result<(), ReadFault>
    ensures { Means (λ _. parts.new) result (lef_in parts.old words.old) }
{
    forms(alloc, parts, words)?;
    ended(words)
}

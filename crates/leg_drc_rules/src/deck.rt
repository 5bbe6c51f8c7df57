//! The rules that the words of one LEF state.

ghost use Rattle.std.specs.Prelude.{◌≡◌, ◌≢◌, ◌-◌, ◌≤◌, [], length, take, drop, map, slice_get, None, IfOk, IfErr, OnOk};
ghost use Rattle.leg_lex.specs.Until.{until};
ghost use Rattle.leg_lex.specs.Words.{Reads, Means};
ghost use Rattle.leg_drc_rules.specs.Deck.{no_deck, with_layer, with_section, is_grid, word_form_at, form_at, deck_in};
ghost use Rattle.leg_drc_rules.specs.Fault.{IsNumberOrMemory};
ghost use Rattle.leg_drc_rules.specs.Section.{statements_in};
ghost use Rattle.leg_drc_rules.specs.Steps.Memory.{AreBehindEnd};
ghost use Rattle.leg_drc_rules.specs.Table.{at_no_word};

use crate::amount::amount;
use crate::raw::{RawDeckRules, RawLayerRules};
use crate::rules::rules_in;
use crate::section::{Section, section_from};
use crate::skip::{is_at_semicolon, skip};
use crate::statements::statements;
use leg_lex::{Cursor, ReadFault};
use leg_lib_records::{Layer, Library};
use std::alloc::{AllocError, Allocator};

/// A place for the rules of each layer.
fn no_sections<A: Allocator + Copy>(
    alloc: A,
    layers: &[Layer<'_>],
) -> Result<Vec<Option<RawLayerRules<A>>, A>, AllocError>
    ensures { IfOk result (λ v. v.items ≡ map (λ layer. None) layers.now) }
{
    layers.iter().map(|_layer| None).collect(alloc)
}

/// What no words state.
pub(crate) fn no_deck<A: Allocator + Copy>(
    alloc: A,
    library: &Library<'_, A>,
) -> Result<RawDeckRules<A>, AllocError>
    ensures { IfOk result (λ deck. deck ≡ no_deck library.now) }
{
    let layers = no_sections(alloc, library.layers())?;
    Ok(RawDeckRules { grid: None, layers })
}

/// The rules of the layer of this number, from its section.
#[tactic(auto, unfolding(crate::specs::Deck::with_layer))]
fn with_layer<A: Allocator + Copy>(
    alloc: A,
    library: &Library<'_, A>,
    deck: &mut RawDeckRules<A>,
    number: usize,
    section: &Section<'_, '_>,
) -> Result<(), ReadFault>
    requires { section.now.left ≤ length section.now.words }
    ensures means { Means (λ _. deck.new) result (with_layer deck.old number (slice_get library.now.layers number)
        (statements_in (take (length section.now.words - section.now.left) section.now.words))) }
    ensures number { IfErr result (λ fault. IsNumberOrMemory fault.kind) }
{
    let Some(layer) = library.layers().get(number) else {
        return Ok(());
    };
    if !deck.lacks_section(number) {
        return Ok(());
    }
    let statements = statements(alloc, &section.words, section.left)?;
    let rules = rules_in(alloc, layer.kind, &statements)?;
    deck.set_rules(number, rules);
    Ok(())
}

/// The rules of a layer, from its section.
#[tactic(auto, unfolding(crate::specs::Deck::with_section))]
fn with_section<A: Allocator + Copy>(
    alloc: A,
    library: &Library<'_, A>,
    deck: &mut RawDeckRules<A>,
    section: &Section<'_, '_>,
) -> Result<(), ReadFault>
    requires { section.now.left ≤ length section.now.words }
    ensures means { Means (λ _. deck.new) result (with_section library.now deck.old
        (record { name = section.now.name.now; words = take (length section.now.words - section.now.left) section.now.words })) }
    ensures number { IfErr result (λ fault. IsNumberOrMemory fault.kind) }
{
    match library.layer_named(section.name) {
        Some(number) => with_layer(alloc, library, deck, number, section),
        None => Ok(()),
    }
}

/// Whether a manufacturing grid is stated here.
fn is_grid(words: &Cursor<'_, '_>) -> bool
    ensures { result ≡ is_grid words.now }
{
    let mut mark = words.again();
    skip(&mut mark, 1);
    skip(&mut mark, 1);
    words.is_at(b"MANUFACTURINGGRID") && is_at_semicolon(&mark)
}

/// Reads the first manufacturing grid, or else one word. `behind` are the words behind an `END` that was looked for.
#[tactic(auto, using(crate::proofs::Decks::word_alone, crate::proofs::Decks::grid_there, crate::proofs::Decks::grid_bad, crate::proofs::Memories::kept_behind, crate::proofs::Memories::none_kept))]
fn word_form<'t, 'a, A: Allocator + Copy>(
    deck: &mut RawDeckRules<A>,
    words: &mut Cursor<'t, 'a>,
    behind: &mut Cursor<'t, 'a>,
) -> Result<(), ReadFault>
    requires some { words.old ≢ [] }
    requires kept { AreBehindEnd (drop 2 words.old) behind.old }
    ensures reads { Reads (λ _. deck.new) result words.new (word_form_at deck.old words.old) }
    ensures kept { OnOk result (AreBehindEnd (drop 2 words.new) behind.new) }
    ensures number { IfErr result (λ fault. IsNumberOrMemory fault.kind) }
{
    let is_first_grid = deck.grid.is_none() && is_grid(words);
    skip(words, 1);
    if is_first_grid {
        let grid = amount(words)?;
        deck.grid = Some(grid);
        *behind = words.again();
    }
    Ok(())
}

/// Reads a section, or else what is outside of sections. `behind` are the words behind an `END` that was looked for.
#[tactic(auto, using(crate::proofs::Memories::none_kept), unfolding(crate::specs::Deck::form_at))]
fn form<'t, 'a, A: Allocator + Copy>(
    alloc: A,
    library: &Library<'_, A>,
    deck: &mut RawDeckRules<A>,
    words: &mut Cursor<'t, 'a>,
    behind: &mut Cursor<'t, 'a>,
) -> Result<(), ReadFault>
    requires some { words.old ≢ [] }
    requires kept { AreBehindEnd (drop 2 words.old) behind.old }
    ensures reads { Reads (λ _. deck.new) result words.new (form_at library.now deck.old words.old) }
    ensures kept { OnOk result (AreBehindEnd (drop 2 words.new) behind.new) }
    ensures number { IfErr result (λ fault. IsNumberOrMemory fault.kind) }
{
    let Some(section) = section_from(words, behind) else {
        return word_form(deck, words, behind);
    };
    with_section(alloc, library, deck, &section)?;
    *words = section.rest;
    *behind = words.again();
    Ok(())
}

/// Reads all words of a text.
#[tactic(auto, using(crate::proofs::Decks::forms_end, crate::proofs::Decks::forms_on, crate::proofs::Decks::forms_fail, crate::proofs::Decks::form_shorter, crate::proofs::Memories::none_kept))]
fn forms<'t, 'a, A: Allocator + Copy>(
    alloc: A,
    library: &Library<'_, A>,
    deck: &mut RawDeckRules<A>,
    words: &mut Cursor<'t, 'a>,
) -> Result<(), ReadFault>
    ensures reads { Reads (λ _. deck.new) result words.new (until at_no_word (form_at library.now) deck.old words.old) }
    ensures number { IfErr result (λ fault. IsNumberOrMemory fault.kind) }
{
    let mut behind = words.again();
    'forms: while !words.is_at_end() {
        form(alloc, library, deck, words, &mut behind)?;
    }
    Ok(())
}

/// Adds the rules that the words of a text state to those of the texts before it.
#[tactic(auto, unfolding(crate::specs::Deck::deck_in))]
pub(crate) fn deck_words<A: Allocator + Copy>(
    alloc: A,
    library: &Library<'_, A>,
    deck: &mut RawDeckRules<A>,
    words: &mut Cursor<'_, '_>,
) -> Result<(), ReadFault>
    ensures means { Means (λ _. deck.new) result (deck_in library.now deck.old words.old) }
    ensures number { IfErr result (λ fault. IsNumberOrMemory fault.kind) }
{
    forms(alloc, library, deck, words)
}

//! The rules that LEF texts state together.

ghost use Rattle.std.specs.Prelude.{◌≡◌, ◌≢◌, ◌⊎◌, map, IfOk, IfErr, OnOk};
ghost use Rattle.std.specs.List.{Any};
ghost use Rattle.leg_lex.specs.declared.read_fault.FaultKind.TheVariants.{Memory};
ghost use Rattle.leg_lex.specs.Denotes.{Denotes, HasNoWords};
ghost use Rattle.leg_drc_rules.specs.Records.{RawDeckModel};
ghost use Rattle.leg_drc_rules.specs.Fault.{IsNumberOrMemory};
ghost use Rattle.leg_drc_rules.specs.Deck.{deck_in};
ghost use Rattle.leg_drc_rules.specs.Texts.{StateRules};

use crate::deck::{deck_words, no_deck};
use crate::raw::RawDeckRules;
use leg_lex::{Cursor, ReadFault, file_words};
use leg_lib_records::Library;
use std::alloc::Allocator;

/// Adds the rules that a LEF states to those of the LEFs before it.
fn add_lef<A: Allocator + Copy>(
    alloc: A,
    library: &Library<'_, A>,
    deck: &mut RawDeckRules<A>,
    file: u32,
    text: &[u8],
) -> Result<(), ReadFault>
    ensures found { OnOk result (Denotes (deck_in library.now deck.old) text.now deck.new) }
    ensures only { OnOk result ((said : RawDeckModel) → Denotes (deck_in library.now deck.old) text.now said → said ≡ deck.new) }
    ensures none { IfErr result (λ fault. fault.kind ≢ Memory
        → (said : RawDeckModel) → ¬ Denotes (deck_in library.now deck.old) text.now said) }
    ensures refused { IfErr result (λ fault. IsNumberOrMemory fault.kind ⊎ HasNoWords text.now) }
{
    let words = file_words(alloc, file, text)?;
    deck_words(alloc, library, deck, &mut Cursor::new(file, &words))
}

/// The rules that LEF texts, taken one after the other, state for the layers of a library, in millionths of a micron.
///
/// A word in the place of a rule's number is `BadNumber` where it is none, and `TooLarge` below 0 or beyond the limit of lengths. A
/// fault gives the text by its number from 0, and in it the line of the word. All other words are read past; a text that has no words
/// is refused as `leg_lex` refuses it.
pub fn read_rules<A: Allocator + Copy>(
    alloc: A,
    library: &Library<'_, A>,
    lefs: &[&[u8]],
) -> Result<RawDeckRules<A>, ReadFault>
    ensures found { IfOk result (λ deck. StateRules library.now (map (λ t. t.now) lefs.now) deck) }
    // The texts state no other rules.
    ensures only { IfOk result (λ deck. (said : RawDeckModel) → StateRules library.now (map (λ t. t.now) lefs.now) said → said ≡ deck) }
    ensures none { IfErr result (λ fault. fault.kind ≢ Memory
        → (said : RawDeckModel) → ¬ StateRules library.now (map (λ t. t.now) lefs.now) said) }
    // Nothing but a number, memory or a text that has no words is refused.
    ensures texts_are_read { IfErr result (λ fault. IsNumberOrMemory fault.kind ⊎ Any HasNoWords (map (λ t. t.now) lefs.now)) }
{
    let mut deck = no_deck(alloc, library)?;
    'lefs: for (number, lef) in lefs.iter().enumerate() {
        let file = u32::try_from(number).unwrap_or(u32::MAX);
        add_lef(alloc, library, &mut deck, file, lef)?;
    }
    Ok(deck)
}

//! Macros that the wide profile leaves out (lefdef's own rule).

ghost use Rattle.std.specs.Prelude.{◌≢◌, IfErr};
ghost use Rattle.std.specs.Option.{option_or};
ghost use Rattle.leg_lex.specs.Words.{Reads};
ghost use Rattle.leg_grammar.specs.Lef.Macro.{with_master};
ghost use Rattle.leg_grammar.specs.Lef.MacroSkip.{past_macro, without_macro, with_macro};

use crate::macros::master_form;
use crate::named::second_definition;
use leg_grammar::Profile;
use leg_lex::{Cursor, FaultKind, NameKind, ReadFault};
use leg_lib_records::RawLibrary;
use std::alloc::Allocator;

/// Reads past a macro, up to the first `END` with its name, and returns the name.
#[tactic(auto, unfolding(leg_grammar::specs::Lef::MacroSkip::past_macro))]
fn past_macro<'a>(words: &mut Cursor<'_, 'a>) -> Result<&'a [u8], ReadFault>
    ensures reads { Reads (λ name. name.now) result words.new (past_macro words.old) }
    ensures no_memory { IfErr result (λ fault. fault.kind ≢ FaultKind.Memory) }
{
    words.keyword(b"MACRO")?;
    let name = words.name()?;
    words.past_end_of(name)?;
    Ok(name)
}

/// Reads past a macro that cannot be read for this fault, which is reported where the macro doesn't end. Its name is new.
#[tactic(auto, unfolding(leg_grammar::specs::Lef::MacroSkip::without_macro))]
fn without_macro<A: Allocator + Copy>(
    library: &RawLibrary<'_, A>,
    words: &mut Cursor<'_, '_>,
    fault: ReadFault,
) -> Result<(), ReadFault>
    ensures { Reads (λ _. library.now) result words.new (without_macro library.now words.old) }
{
    let first = words.again();
    let Ok(name) = past_macro(words) else {
        return Err(fault);
    };
    if library.master_named(name).is_some() {
        return Err(second_definition(&first, NameKind::Macro));
    }
    Ok(())
}

/// Adds the macro that comes next, or leaves it out where it cannot be read. Its name is new.
fn macro_or_none<'a, A: Allocator + Copy>(
    alloc: A,
    profile: Profile,
    library: &mut RawLibrary<'a, A>,
    words: &mut Cursor<'_, 'a>,
) -> Result<(), ReadFault>
    ensures { Reads (λ _. library.new) result words.new (option_or (with_master profile library.old words.old) (without_macro library.old words.old)) }
{
    let first = words.again();
    match master_form(alloc, profile, library, words) {
        Ok(()) => Ok(()),
        Err(fault) if fault.kind == FaultKind::Memory => Err(fault),
        Err(fault) => {
            *words = first;
            without_macro(library, words, fault)
        }
    }
}

/// Adds the macro that comes next, whose name is new. In the wide profile one that cannot be read is left out.
#[tactic(auto, unfolding(leg_grammar::specs::Lef::MacroSkip::with_macro))]
pub(crate) fn macro_form<'a, A: Allocator + Copy>(
    alloc: A,
    profile: Profile,
    library: &mut RawLibrary<'a, A>,
    words: &mut Cursor<'_, 'a>,
) -> Result<(), ReadFault>
    ensures { Reads (λ _. library.new) result words.new (with_macro profile library.old words.old) }
{
    match profile {
        Profile::Narrow => master_form(alloc, profile, library, words),
        Profile::Wide { .. } => macro_or_none(alloc, profile, library, words),
    }
}

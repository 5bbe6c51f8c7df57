//! What LEF texts denote together.

ghost use Rattle.std.specs.Prelude.{◌≡◌, ◌≢◌, ◌<◌, ◌-◌, ◌^◌, min, length, map, IfOk, IfErr, OnOk};
ghost use Rattle.leg_lex.specs.declared.limits.TheConstants.{TEXT_LIMIT};
ghost use Rattle.leg_lex.specs.declared.read_fault.FaultKind.TheVariants.{Memory};
ghost use Rattle.leg_lex.specs.Denotes.{Denotes};
ghost use Rattle.leg_lib_records.specs.Records.{RawLibraryModel};
ghost use Rattle.leg_grammar.specs.declared.profile.Profile.TheVariants.{Narrow};
ghost use Rattle.leg_grammar.specs.Lef.Form.{LefParts, no_lef_parts, lef_in};
ghost use Rattle.leg_grammar.specs.Lef.Library.{Extend, DenoteLibrary};

use crate::first_form::with_first;
use crate::form::{Parts, lef_words};
use leg_grammar::Profile;
use leg_lex::{Cursor, ReadFault, file_words};
use leg_lib_records::RawLibrary;
use std::alloc::Allocator;

/// Adds what a LEF denotes to what the LEFs before it denote.
fn add_lef<'a, A: Allocator + Copy>(
    alloc: A,
    parts: &mut Parts<'a, A>,
    file: u32,
    text: &'a [u8],
) -> Result<(), ReadFault>
    ensures found { OnOk result (Denotes (lef_in parts.old) text.now parts.new) }
    ensures only { OnOk result ((said : LefParts) → Denotes (lef_in parts.old) text.now said → said ≡ parts.new) }
    // A text that is too long is never reported as out of memory.
    ensures too_long { IfErr result (λ fault. TEXT_LIMIT < length text.now → fault.kind ≢ Memory) }
    ensures none { IfErr result (λ fault. fault.kind ≢ Memory
        → (said : LefParts) → ¬ Denotes (lef_in parts.old) text.now said) }
{
    let words = file_words(alloc, file, text)?;
    lef_words(alloc, parts, &mut Cursor::new(file, &words))
}

/// What LEF texts denote, taken one after the other.
fn all_lefs<'a, A: Allocator + Copy>(
    alloc: A,
    profile: Profile,
    lefs: &[&'a [u8]],
) -> Result<Parts<'a, A>, ReadFault>
    ensures found { IfOk result (λ parts. Extend (no_lef_parts profile) (map (λ t. t.now) lefs.now) parts) }
    // The texts denote nothing else.
    ensures only { IfOk result (λ parts. (said : LefParts)
        → Extend (no_lef_parts profile) (map (λ t. t.now) lefs.now) said → said ≡ parts) }
    ensures none { IfErr result (λ fault. fault.kind ≢ Memory
        → (said : LefParts) → ¬ Extend (no_lef_parts profile) (map (λ t. t.now) lefs.now) said) }
{
    let mut parts = Parts::new(alloc, profile);
    'lefs: for (number, lef) in lefs.iter().enumerate() {
        add_lef(alloc, &mut parts, file_number(number), lef)?;
    }
    Ok(parts)
}

/// The library that LEF texts denote in a profile, taken one after the other, in millionths of a micron.
///
/// A fault gives the first text that adds nothing, by its number from 0, and in it the line of the word at
/// fault.
pub fn read_lefs_as<'a, A: Allocator + Copy>(
    alloc: A,
    profile: Profile,
    lefs: &[&'a [u8]],
) -> Result<RawLibrary<'a, A>, ReadFault>
    ensures found { IfOk result (λ library. DenoteLibrary profile (map (λ t. t.now) lefs.now) library) }
    // The texts denote no other library.
    ensures only { IfOk result (λ library. (said : RawLibraryModel)
        → DenoteLibrary profile (map (λ t. t.now) lefs.now) said → said ≡ library) }
    ensures none { IfErr result (λ fault. fault.kind ≢ Memory
        → (said : RawLibraryModel) → ¬ DenoteLibrary profile (map (λ t. t.now) lefs.now) said) }
{
    match all_lefs(alloc, profile, lefs) {
        Ok(parts) => Ok(parts.library),
        Err(fault) => Err(with_first(alloc, profile, lefs, fault)),
    }
}

/// The library that LEF texts denote in the narrow profile: `read_lefs_as` of `Profile::Narrow`.
pub fn read_lefs<'a, A: Allocator + Copy>(
    alloc: A,
    lefs: &[&'a [u8]],
) -> Result<RawLibrary<'a, A>, ReadFault>
    ensures found { IfOk result (λ library. DenoteLibrary Narrow (map (λ t. t.now) lefs.now) library) }
    // The texts denote no other library.
    ensures only { IfOk result (λ library. (said : RawLibraryModel)
        → DenoteLibrary Narrow (map (λ t. t.now) lefs.now) said → said ≡ library) }
    ensures none { IfErr result (λ fault. fault.kind ≢ Memory
        → (said : RawLibraryModel) → ¬ DenoteLibrary Narrow (map (λ t. t.now) lefs.now) said) }
{
    read_lefs_as(alloc, Profile::Narrow, lefs)
}

/// The number by which faults identify a file: its place among the files, from 0. Beyond a `u32` all have the
/// greatest.
pub fn file_number(place: usize) -> u32
    ensures { result ≡ min place (2 ^ 32 - 1) }
{
    u32::try_from(place).unwrap_or(u32::MAX)
}

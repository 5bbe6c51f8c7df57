//! What a DEF text denotes.

ghost use Rattle.std.specs.Prelude.{ℕ, ◌≡◌, ◌≢◌, ◌<◌, ◌≤◌, length, IfOk, IfErr};
ghost use Rattle.leg_lex.specs.declared.limits.TheConstants.{TEXT_LIMIT, UNITS_LIMIT};
ghost use Rattle.leg_lex.specs.declared.read_fault.FaultKind.TheVariants.{Memory};
ghost use Rattle.leg_lex.specs.Denotes.{Denotes};
ghost use Rattle.leg_design_records.specs.Records.{DesignModel};
ghost use Rattle.leg_grammar.specs.declared.profile.Profile.TheVariants.{Narrow};
ghost use Rattle.leg_grammar.specs.Def.Header.{units_in};
ghost use Rattle.leg_grammar.specs.Def.Form.{design_in};

use crate::def_text::DefText;
use leg_design_records::Design;
use leg_grammar::Profile;
use leg_lex::ReadFault;
use leg_lib_records::Library;
use std::alloc::Allocator;

/// The database units of a micron that a DEF denotes, from 1 to 20,000, at the first place where its `UNITS` appear.
///
/// A fault gives the text's number, 0, and the line of the word at fault.
pub fn def_units<A: Allocator + Copy>(alloc: A, text: &[u8]) -> Result<u32, ReadFault>
    ensures found { IfOk result (λ n. Denotes units_in text.now n) }
    ensures limits { IfOk result (λ n. (1 ≤ n) × (n ≤ UNITS_LIMIT)) }
    // The text denotes no other number.
    ensures only { IfOk result (λ n. (said : ℕ) → Denotes units_in text.now said → said ≡ n) }
    // A text that is too long is never reported as out of memory.
    ensures too_long { IfErr result (λ fault. TEXT_LIMIT < length text.now → fault.kind ≢ Memory) }
    ensures none { IfErr result (λ fault. fault.kind ≢ Memory → (said : ℕ) → ¬ Denotes units_in text.now said) }
{
    let def = DefText::new(alloc, text)?;
    def.units()
}

/// The design that a DEF denotes in a profile under a library.
///
/// A fault gives the text's number, 0, and the line of the word at fault.
pub fn read_def_as<'a, A: Allocator + Copy>(
    alloc: A,
    profile: Profile,
    library: &'a Library<'a, A>,
    text: &'a [u8],
) -> Result<Design<'a, A>, ReadFault>
    ensures found { IfOk result (λ design. Denotes (design_in profile library.now) text.now design) }
    // The text denotes no other design.
    ensures only { IfOk result (λ design. (said : DesignModel)
        → Denotes (design_in profile library.now) text.now said → said ≡ design) }
    // A text that is too long is never reported as out of memory.
    ensures too_long { IfErr result (λ fault. TEXT_LIMIT < length text.now → fault.kind ≢ Memory) }
    ensures none { IfErr result (λ fault. fault.kind ≢ Memory
        → (said : DesignModel) → ¬ Denotes (design_in profile library.now) text.now said) }
{
    let def = DefText::new(alloc, text)?;
    def.design_as(alloc, profile, library)
}

/// The design that a DEF denotes in the narrow profile under a library: `read_def_as` of `Profile::Narrow`.
pub fn read_def<'a, A: Allocator + Copy>(
    alloc: A,
    library: &'a Library<'a, A>,
    text: &'a [u8],
) -> Result<Design<'a, A>, ReadFault>
    ensures found { IfOk result (λ design. Denotes (design_in Narrow library.now) text.now design) }
    // The text denotes no other design.
    ensures only { IfOk result (λ design. (said : DesignModel)
        → Denotes (design_in Narrow library.now) text.now said → said ≡ design) }
    // A text that is too long is never reported as out of memory.
    ensures too_long { IfErr result (λ fault. TEXT_LIMIT < length text.now → fault.kind ≢ Memory) }
    ensures none { IfErr result (λ fault. fault.kind ≢ Memory
        → (said : DesignModel) → ¬ Denotes (design_in Narrow library.now) text.now said) }
{
    read_def_as(alloc, Profile::Narrow, library, text)
}

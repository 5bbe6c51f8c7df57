//! All violations of the design that texts denote.

ghost use Rattle.std.specs.Prelude.{◌≡◌, ◌≢◌, ◌<◌, ℕ, List, length, map, IfOk, IfErr};
ghost use Rattle.leg_design_records.specs.declared.limits.TheConstants.{PART_LIMIT};
ghost use Rattle.leg_rules.specs.Metal.Metal.{metal_of};
ghost use Rattle.leg_app.specs.TooManyShapes.{DenoteTooMany};
ghost use Rattle.leg_grammar.specs.declared.profile.Profile.TheVariants.{Narrow};
ghost use Rattle.leg_grammar.specs.declared.profile.Profile.{Profile};
ghost use Rattle.leg_grammar.specs.Texts.{DenoteDesign, DenoteNothing};
ghost use Rattle.leg_app.specs.Steps.OneLibrary.{DenotesJust};
ghost use Rattle.leg_rules.specs.Violations.{AreAllViolations};
ghost use Rattle.leg_app.specs.Violations.{AreViolationsOf};
ghost use Rattle.leg_app.specs.Refusal.{Refuses, IsOutOfMemory};
ghost use Rattle.leg_app.specs.declared.text_fault.TextFault.TheVariants.{Memory};

use crate::text_fault::TextFault;
use crate::texts::{behind_lefs, library_for};
use leg_check::check_design;
use leg_design::DefText;
use leg_design_records::{Design, Fault};
use leg_grammar::Profile;
use leg_lib_records::Library;
use std::alloc::Allocator;

/// Everything that is not legal about the design that the texts of the LEFs, in order, and of the DEF denote in a profile: all
/// violations that hold, each once, in order; so the block is legal if and only if there are none (lefdef's own rules).
///
/// `Read` and `Scale` are returned only where the texts denote no design; `TooMany` only where they denote one with more
/// than `leg_design::PART_LIMIT` shapes; `Memory` alone where an allocation failed.
pub fn check_texts_as<'a, A: Allocator + Copy>(
    alloc: A,
    profile: Profile,
    lefs: &[&'a [u8]],
    def: &[u8],
) -> Result<Vec<Fault, A>, TextFault<'a>>
    ensures found { IfOk result (λ found. AreViolationsOf profile (map (λ t. t.now) lefs.now) def.now found.items) }
    ensures refused { IfErr result (λ fault. Refuses (DenoteNothing profile (map (λ t. t.now) lefs.now) def.now)
        (DenoteTooMany profile (map (λ t. t.now) lefs.now) def.now) fault) }
    // Texts of a block with too many shapes are refused for no other reason, unless memory runs out.
    ensures many { IfErr result (λ fault. DenoteTooMany profile (map (λ t. t.now) lefs.now) def.now → fault ≢ Memory
        → fault ≡ TextFault.TooMany) }
    ensures memory { IfErr result (λ fault. IsOutOfMemory fault → fault ≡ Memory) }
{
    match violations_in(alloc, profile, lefs, def) {
        Ok(violations) => Ok(violations),
        Err(fault) if fault.is_out_of_memory() => Err(TextFault::Memory),
        Err(fault) => Err(fault),
    }
}

/// The same of texts that are read in the narrow profile: `check_texts_as` of `Profile::Narrow`.
pub fn check_texts<'a, A: Allocator + Copy>(
    alloc: A,
    lefs: &[&'a [u8]],
    def: &[u8],
) -> Result<Vec<Fault, A>, TextFault<'a>>
    ensures found { IfOk result (λ found. AreViolationsOf Narrow (map (λ t. t.now) lefs.now) def.now found.items) }
    ensures refused { IfErr result (λ fault. Refuses (DenoteNothing Narrow (map (λ t. t.now) lefs.now) def.now)
        (DenoteTooMany Narrow (map (λ t. t.now) lefs.now) def.now) fault) }
    // Texts of a block with too many shapes are refused for no other reason, unless memory runs out.
    ensures many { IfErr result (λ fault. DenoteTooMany Narrow (map (λ t. t.now) lefs.now) def.now → fault ≢ Memory
        → fault ≡ TextFault.TooMany) }
    ensures memory { IfErr result (λ fault. IsOutOfMemory fault → fault ≡ Memory) }
{
    check_texts_as(alloc, Profile::Narrow, lefs, def)
}

/// The violations of the design that the texts denote.
fn violations_in<'a, A: Allocator + Copy>(
    alloc: A,
    profile: Profile,
    lefs: &[&'a [u8]],
    def: &[u8],
) -> Result<Vec<Fault, A>, TextFault<'a>>
    ensures found { IfOk result (λ found. AreViolationsOf profile (map (λ t. t.now) lefs.now) def.now found.items) }
    ensures refused { IfErr result (λ fault. Refuses (DenoteNothing profile (map (λ t. t.now) lefs.now) def.now)
        (DenoteTooMany profile (map (λ t. t.now) lefs.now) def.now) fault) }
{
    let (library, text) = library_for(alloc, profile, lefs, def)?;
    check_def(alloc, profile, lefs.len(), &library, text)
}

/// The violations of the design that a DEF after this many LEFs denotes under the library.
fn check_def<'e, A: Allocator + Copy>(
    alloc: A,
    profile: Profile,
    count: usize,
    library: &Library<'_, A>,
    def: DefText<'_, A>,
) -> Result<Vec<Fault, A>, TextFault<'e>>
    ensures found { IfOk result (λ found. (lefs : List (List ℕ)) → DenotesJust profile lefs def.entry library.now
        → AreViolationsOf profile lefs def.entry found.items) }
    ensures refused { IfErr result (λ fault. (lefs : List (List ℕ)) → DenotesJust profile lefs def.entry library.now
        → Refuses (DenoteNothing profile lefs def.entry) (DenoteTooMany profile lefs def.entry) fault) }
{
    match def.design_as(alloc, profile, library) {
        Ok(design) => violations_of(alloc, &design),
        Err(fault) => Err(TextFault::Read(behind_lefs(count, fault))),
    }
}

/// The violations of the design.
fn violations_of<'e, A: Allocator + Copy>(
    alloc: A,
    design: &Design<'_, A>,
) -> Result<Vec<Fault, A>, TextFault<'e>>
    ensures found { IfOk result (λ found. AreAllViolations design.now found.items) }
    ensures refused { IfErr result (λ fault. (profile : Profile) (lefs : List (List ℕ)) (def : List ℕ)
        → DenoteDesign profile lefs def design.now.library design.now
        → Refuses (DenoteNothing profile lefs def) (DenoteTooMany profile lefs def) fault) }
    // Where there are too many shapes, it is never reported that memory ran out.
    ensures many { IfErr result (λ fault. PART_LIMIT < length (metal_of design.now) → fault ≡ TextFault.TooMany) }
{
    let checked = check_design(alloc, design)?;
    Ok(checked.violations)
}

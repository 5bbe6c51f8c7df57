//! What differs between two DEFs after the same LEFs.

ghost use Rattle.std.specs.Prelude.{◌≡◌, ◌≢◌, ◌↔◌, ℕ, false, List, map, Some, IsTrue, IfOk, IfErr};
ghost use Rattle.leg_lex.specs.Denotes.{Denotes};
ghost use Rattle.leg_lex.specs.declared.read_fault.FaultKind.TheVariants as kinds;
ghost use Rattle.leg_lib_records.specs.Records.{LibraryModel};
ghost use Rattle.leg_design_records.specs.Records.{DesignModel};
ghost use Rattle.leg_grammar.specs.declared.profile.Profile.TheVariants.{Narrow};
ghost use Rattle.leg_grammar.specs.declared.profile.Profile.{Profile};
ghost use Rattle.leg_grammar.specs.Def.Header.{units_in};
ghost use Rattle.leg_grammar.specs.Def.Form.{design_in};
ghost use Rattle.leg_rules.specs.declared.difference.Section.TheVariants.{Components, Nets};
ghost use Rattle.leg_rules.specs.Compare.EntryOrder.{HaveOtherOrder};
ghost use Rattle.leg_app.specs.declared.status.Status.TheVariants.{Success, Refused};
ghost use Rattle.leg_grammar.specs.Texts.{DenoteDesign, DenoteNothing};
ghost use Rattle.leg_app.specs.Refusal.{Refuses, HasUnitsOf};
ghost use Rattle.leg_app.specs.declared.text_fault.TextFault.TheVariants.{Read};
ghost use Rattle.leg_output.specs.Commands.Compare.{units_text};
ghost use Rattle.leg_app.specs.Comparison.{status_of, def_of, printed_number, HasOtherUnits, IsComparisonExplained};
ghost use Rattle.leg_app.specs.Steps.OneLibrary.{DenotesJust};
ghost use Rattle.leg_app.specs.Steps.FaultReasons.{IsOfMaster};

use crate::answer::needed_master;
use crate::compare_end::{ComparisonAnswer, ComparisonReason, Side, one_order};
use crate::status::Status;
use crate::text_fault::TextFault;
use crate::texts::{behind_lefs, library_for};
use leg_app_lines::{comparison_text, refused_line, scale_text};
use leg_app_reason::Reason;
use leg_compare::{OtherOrder, Verdict, differences, other_order, verdict_of};
use leg_design::DefText;
use leg_design_records::Design;
use leg_grammar::Profile;
use leg_lex::{FaultKind, ReadFault};
use leg_lib_records::{Items, Library, ScaleKind};
use std::alloc::{AllocError, Allocator};

// What is printed of designs at other units.
const OTHER_UNITS: &[u8] = b"DIFFERS UNITS\ndiffers 1\n";

/// What `compare` answers to the texts of the LEFs, in order, and of two DEFs, read in a profile: all that differs between the designs that
/// they denote.
pub fn compare_texts_as<'a, A: Allocator + Copy>(
    alloc: A,
    profile: Profile,
    lefs: &[&'a [u8]],
    before: &[u8],
    after: &[u8],
) -> Result<ComparisonAnswer<'a, A>, AllocError>
    ensures { IfOk result (λ answer. IsComparisonExplained profile (map (λ t. t.now) lefs.now) before.now after.now
        answer.reason answer.order answer.status answer.text.items) }
{
    match library_for(alloc, profile, lefs, before) {
        Ok((library, text)) => library_comparison(alloc, profile, lefs, &library, text, after),
        Err(fault) => refusal(alloc, Side::Before, fault, None),
    }
}

/// The same of texts that are read in the narrow profile: `compare_texts_as` of `Profile::Narrow`.
pub fn compare_texts<'a, A: Allocator + Copy>(
    alloc: A,
    lefs: &[&'a [u8]],
    before: &[u8],
    after: &[u8],
) -> Result<ComparisonAnswer<'a, A>, AllocError>
    ensures { IfOk result (λ answer. IsComparisonExplained Narrow (map (λ t. t.now) lefs.now) before.now after.now
        answer.reason answer.order answer.status answer.text.items) }
{
    compare_texts_as(alloc, Profile::Narrow, lefs, before, after)
}

// What is answered where the LEFs and the first DEF denote this library and no other.
fn library_comparison<'a, A: Allocator + Copy>(
    alloc: A,
    profile: Profile,
    lefs: &[&'a [u8]],
    library: &Library<'_, A>,
    before: DefText<'_, A>,
    after: &[u8],
) -> Result<ComparisonAnswer<'a, A>, AllocError>
    ensures { IfOk result (λ answer. DenotesJust profile (map (λ t. t.now) lefs.now) before.entry library.now
        → IsComparisonExplained profile (map (λ t. t.now) lefs.now) before.entry after.now answer.reason answer.order answer.status answer.text.items) }
{
    match before.design_as(alloc, profile, library) {
        Ok(first) => design_comparison(alloc, profile, lefs, library, &first, after),
        Err(fault) => unread(alloc, Side::Before, lefs.len(), library, fault),
    }
}

// What is answered where they denote this design under the library.
fn design_comparison<'a, A: Allocator + Copy>(
    alloc: A,
    profile: Profile,
    lefs: &[&'a [u8]],
    library: &Library<'_, A>,
    first: &Design<'_, A>,
    after: &[u8],
) -> Result<ComparisonAnswer<'a, A>, AllocError>
    requires { first.now.library ≡ library.now }
    ensures { IfOk result (λ answer. (before : List ℕ) → DenotesJust profile (map (λ t. t.now) lefs.now) before library.now
        → Denotes (design_in profile library.now) before first.now
        → IsComparisonExplained profile (map (λ t. t.now) lefs.now) before after.now answer.reason answer.order answer.status answer.text.items) }
{
    match text_and_units(alloc, after) {
        Ok((text, units)) => {
            if units == library.units() {
                second_comparison(alloc, profile, lefs.len(), library, first, text)
            } else {
                other_units(alloc, profile, lefs, library, after)
            }
        }
        Err(fault) => {
            let fault = TextFault::Read(behind_lefs(lefs.len(), fault));
            refusal(alloc, Side::After, fault, None)
        }
    }
}

// A DEF with its words, and the units that it denotes.
fn text_and_units<A: Allocator + Copy>(
    alloc: A,
    def: &[u8],
) -> Result<(DefText<'_, A>, u32), ReadFault>
    ensures text { IfOk result (λ both. both.0 ≡ def.now) }
    ensures units { IfOk result (λ both. Denotes units_in def.now both.1) }
    ensures none { IfErr result (λ fault. fault.kind ≢ kinds.Memory → (said : ℕ) → ¬ Denotes units_in def.now said) }
{
    let text = DefText::new(alloc, def)?;
    let units = text.units()?;
    Ok((text, units))
}

// What is answered where the second DEF, after this many LEFs, is at the units of the library.
fn second_comparison<'e, A: Allocator + Copy>(
    alloc: A,
    profile: Profile,
    count: usize,
    library: &Library<'_, A>,
    first: &Design<'_, A>,
    after: DefText<'_, A>,
) -> Result<ComparisonAnswer<'e, A>, AllocError>
    requires { first.now.library ≡ library.now }
    ensures { IfOk result (λ answer. (lefs : List (List ℕ)) (before : List ℕ) → DenotesJust profile lefs before library.now
        → Denotes (design_in profile library.now) before first.now → DenotesJust profile lefs after.entry library.now
        → IsComparisonExplained profile lefs before after.entry answer.reason answer.order answer.status answer.text.items) }
{
    match after.design_as(alloc, profile, library) {
        Ok(second) => comparison(alloc, first, &second),
        Err(fault) => unread(alloc, Side::After, count, library, fault),
    }
}

// What is answered where the texts denote these designs.
fn comparison<'e, A: Allocator + Copy>(
    alloc: A,
    first: &Design<'_, A>,
    second: &Design<'_, A>,
) -> Result<ComparisonAnswer<'e, A>, AllocError>
    requires { first.now.library ≡ second.now.library }
    ensures { IfOk result (λ answer. (profile : Profile) (lefs : List (List ℕ)) (before after : List ℕ)
        → DenotesJust profile lefs before first.now.library
        → Denotes (design_in profile first.now.library) before first.now → DenotesJust profile lefs after first.now.library
        → Denotes (design_in profile first.now.library) after second.now
        → IsComparisonExplained profile lefs before after answer.reason answer.order answer.status answer.text.items) }
{
    let list = differences(alloc, first, second)?;
    let verdict = verdict_of(first, &list);
    let text = comparison_text(alloc, first, second, &list, verdict)?;
    Ok(ComparisonAnswer {
        status: status_of(verdict),
        text,
        reason: None,
        order: told_order(first, second, verdict),
    })
}

// What is told of the order of the entries: only of designs that are the same.
fn told_order<A: Allocator + Copy>(
    first: &Design<'_, A>,
    second: &Design<'_, A>,
    verdict: Verdict,
) -> OtherOrder
    ensures components { IsTrue result.components ↔ ((status_of verdict ≡ Success) × HaveOtherOrder Components first.now second.now) }
    ensures nets { IsTrue result.nets ↔ ((status_of verdict ≡ Success) × HaveOtherOrder Nets first.now second.now) }
{
    match verdict {
        Verdict::Same => other_order(first, second),
        _ => one_order(),
    }
}

fn status_of(verdict: Verdict) -> Status
    ensures { result ≡ status_of verdict }
{
    match verdict {
        Verdict::Same => Status::Success,
        _ => Status::Violations,
    }
}

// What is answered where the second DEF is at other units than this library.
fn other_units<'a, A: Allocator + Copy>(
    alloc: A,
    profile: Profile,
    lefs: &[&'a [u8]],
    library: &Library<'_, A>,
    after: &[u8],
) -> Result<ComparisonAnswer<'a, A>, AllocError>
    ensures { IfOk result (λ answer. (before : List ℕ) (first : DesignModel) → DenoteDesign profile (map (λ t. t.now) lefs.now) before library.now first
        → ((units : ℕ) → Denotes units_in after.now units → units ≢ library.now.units)
        → IsComparisonExplained profile (map (λ t. t.now) lefs.now) before after.now answer.reason answer.order answer.status answer.text.items) }
{
    match library_for(alloc, profile, lefs, after) {
        Ok((other, text)) => other_library(alloc, profile, lefs.len(), &other, text),
        Err(fault) => refusal(alloc, Side::After, fault, None),
    }
}

// What is answered where the second DEF, after this many LEFs, is at the units of this library, and the first is not.
fn other_library<'e, A: Allocator + Copy>(
    alloc: A,
    profile: Profile,
    count: usize,
    other: &Library<'_, A>,
    after: DefText<'_, A>,
) -> Result<ComparisonAnswer<'e, A>, AllocError>
    ensures { IfOk result (λ answer. (lefs : List (List ℕ)) (before : List ℕ) (library : LibraryModel) (first : DesignModel)
        → DenoteDesign profile lefs before library first → library.units ≢ other.now.units → DenotesJust profile lefs after.entry other.now
        → IsComparisonExplained profile lefs before after.entry answer.reason answer.order answer.status answer.text.items) }
{
    match after.design_as(alloc, profile, other) {
        Ok(_second) => units_differ(alloc),
        Err(fault) => unread(alloc, Side::After, count, other, fault),
    }
}

// The answer to designs at other units.
fn units_differ<'e, A: Allocator + Copy>(alloc: A) -> Result<ComparisonAnswer<'e, A>, AllocError>
    ensures { IfOk result (λ answer. (profile : Profile) (lefs : List (List ℕ)) (before after : List ℕ) → HasOtherUnits profile lefs before after units_text
        → IsComparisonExplained profile lefs before after answer.reason answer.order answer.status answer.text.items) }
{
    let text = Vec::from_slice(alloc, OTHER_UNITS)?;
    Ok(ComparisonAnswer {
        status: Status::Violations,
        text,
        reason: None,
        order: one_order(),
    })
}

// What is answered where a DEF, after this many LEFs, has this fault under the one library that is denoted.
fn unread<'e, A: Allocator + Copy>(
    alloc: A,
    side: Side,
    count: usize,
    library: &Library<'_, A>,
    fault: ReadFault,
) -> Result<ComparisonAnswer<'e, A>, AllocError>
    ensures { IfOk result (λ answer. (profile : Profile) (lefs : List (List ℕ)) (before after : List ℕ)
        → DenotesJust profile lefs (def_of side before after) library.now
        → (fault.kind ≢ kinds.Memory → (said : DesignModel) → ¬ Denotes (design_in profile library.now) (def_of side before after) said)
        → IsComparisonExplained profile lefs before after answer.reason answer.order answer.status answer.text.items) }
{
    let master = needed_master(alloc, library, fault.need)?;
    let fault = TextFault::Read(behind_lefs(count, fault));
    refusal(alloc, side, fault, master)
}

// What is answered to texts of which the LEFs and this DEF are refused so, where a pin of this macro is needed, if one is.
fn refusal<'a, A: Allocator + Copy>(
    alloc: A,
    side: Side,
    fault: TextFault<'a>,
    master: Option<Items<u8, A>>,
) -> Result<ComparisonAnswer<'a, A>, AllocError>
    ensures { IfOk result (λ answer. (profile : Profile) (lefs : List (List ℕ)) (before after : List ℕ)
        → Refuses (DenoteNothing profile lefs (def_of side before after)) ⊥ fault.entry → HasUnitsOf (def_of side before after) fault.entry
        → IsOfMaster profile lefs (def_of side before after) fault.entry master
        → IsComparisonExplained profile lefs before after answer.reason answer.order answer.status answer.text.items) }
{
    match fault {
        TextFault::Read(fault) => not_read(alloc, side, fault, master),
        TextFault::Scale(fault, units) if fault.kind != ScaleKind::Memory => {
            let text = scale_text(alloc, &fault)?;
            Ok(refused(text, side, Reason::Scale(fault, units)))
        }
        _ => Err(AllocError),
    }
}

// What is answered to texts of which one is not read, for this fault, where a pin of this macro is needed, if one is.
fn not_read<'e, A: Allocator + Copy>(
    alloc: A,
    side: Side,
    fault: ReadFault,
    master: Option<Items<u8, A>>,
) -> Result<ComparisonAnswer<'e, A>, AllocError>
    ensures { IfOk result (λ answer. (profile : Profile) (lefs : List (List ℕ)) (before after : List ℕ)
        → Refuses (DenoteNothing profile lefs (def_of side before after)) ⊥ (Read fault)
        → IsOfMaster profile lefs (def_of side before after) (Read fault) master
        → IsComparisonExplained profile lefs before after answer.reason answer.order answer.status answer.text.items) }
{
    if fault.kind == FaultKind::Memory {
        return Err(AllocError);
    }
    let text = refused_line(alloc, printed_number(side, fault.file), &fault)?;
    Ok(refused(text, side, Reason::Read(fault, master)))
}

// The number that is printed of a text.
fn printed_number(side: Side, file: u32) -> u64
    ensures { result ≡ printed_number side file }
{
    match side {
        Side::Before => u64::from(file),
        Side::After => u64::from(file) + 1,
    }
}

// The answer where a comparison stops at this DEF.
fn refused<'e, A: Allocator>(
    text: Vec<u8, A>,
    side: Side,
    reason: Reason<'e, A>,
) -> ComparisonAnswer<'e, A>
    ensures { result ≡ record {
      status = Refused;
      text = text;
      reason = Some (record { side = side; reason = reason.entry });
      order = record { components = false; nets = false };
    } }
{
    ComparisonAnswer {
        status: Status::Refused,
        text,
        reason: Some(ComparisonReason { side, reason }),
        order: one_order(),
    }
}

//! What a command answers.

ghost use Rattle.std.specs.Prelude.{◌≡◌, ℕ, List, None, Some, map, option_map, IfOk};
ghost use Rattle.leg_app_input.specs.declared.command.Command.TheVariants.{PlaceCheck, Check, Measure};
ghost use Rattle.leg_app.specs.declared.status.Status.TheVariants.{Unsolved};
ghost use Rattle.leg_app.specs.declared.text_fault.TextFault.TheVariants.{Read};
ghost use Rattle.leg_grammar.specs.declared.profile.Profile.TheVariants.{Narrow};
ghost use Rattle.leg_grammar.specs.declared.profile.Profile.{Profile};
ghost use Rattle.leg_grammar.specs.Texts.{DenoteDesign, DenoteNothing};
ghost use Rattle.leg_app.specs.Steps.OneLibrary.{DenotesJust};
ghost use Rattle.leg_app.specs.Refusal.{Refuses, HasUnitsOf};
ghost use Rattle.leg_app.specs.Answer.{IsListing};
ghost use Rattle.leg_app.specs.Reason.{IsExplained, needed_master};
ghost use Rattle.leg_app.specs.Steps.FaultReasons.{IsOfMaster};

use crate::finish_answer::finish_answer;
use crate::flow_answer::flow_answer;
use crate::legalise_answer::legalise_answer;
use crate::print_answer::print_answer;
use crate::route_answer::route_answer;
use crate::status::Status;
use crate::text_fault::TextFault;
use crate::texts::{behind_lefs, library_for};
use leg_app_input::Command;
use leg_app_lines::{listing_text, refused_text, scale_text, wirelength_text};
use leg_app_reason::Reason;
use leg_check::check_design;
use leg_design::DefText;
use leg_design_records::{Design, Fault};
use leg_finish::Progress;
use leg_flat::{Flat, FlatFault};
use leg_grammar::Profile;
use leg_lex::{FaultKind, Need, ReadFault};
use leg_lib_records::{Items, Library, ScaleKind};
use leg_place::place_faults;
use leg_print::hpwl;
use std::alloc::{AllocError, Allocator};

/// What a command answers: a text to be written, the status that goes with it, and the reason where nothing else is written.
#[derive(Drop)]
pub struct Answer<'a, A: Allocator> {
    /// How the command ended. It is not `Memory`.
    pub status: Status,
    /// The whole text.
    pub text: Vec<u8, A>,
    /// Why the text is no design, list or length, if it is none.
    pub reason: Option<Reason<'a, A>>,
}

/// The answer of a command that makes no design, for this reason.
pub(crate) fn unsolved<'e, A: Allocator>(text: Vec<u8, A>, reason: Reason<'e, A>) -> Answer<'e, A>
    ensures { result ≡ record { status = Unsolved; text = text; reason = Some reason.entry } }
{
    Answer {
        status: Status::Unsolved,
        text,
        reason: Some(reason),
    }
}

/// What the command answers to the texts of the LEFs, in order, and of the DEF, read in a profile. The progress is told of each round of
/// `finish`.
pub fn answer_to_as<'a, A: Allocator + Copy, P: Progress>(
    alloc: A,
    command: Command,
    profile: Profile,
    lefs: &[&'a [u8]],
    def: &[u8],
    progress: &mut P,
) -> Result<Answer<'a, A>, AllocError>
    ensures { IfOk result (λ answer.
        IsExplained command profile (map (λ t. t.now) lefs.now) def.now answer.reason answer.status answer.text.items) }
{
    match library_for(alloc, profile, lefs, def) {
        Ok((library, text)) => {
            let count = lefs.len();
            library_answer(alloc, command, profile, count, &library, text, progress)
        }
        Err(fault) => refusal(alloc, command, fault, None),
    }
}

/// What the command answers to texts that are read in the narrow profile: `answer_to_as` of `Profile::Narrow`.
pub fn answer_to<'a, A: Allocator + Copy, P: Progress>(
    alloc: A,
    command: Command,
    lefs: &[&'a [u8]],
    def: &[u8],
    progress: &mut P,
) -> Result<Answer<'a, A>, AllocError>
    ensures { IfOk result (λ answer.
        IsExplained command Narrow (map (λ t. t.now) lefs.now) def.now answer.reason answer.status answer.text.items) }
{
    answer_to_as(alloc, command, Profile::Narrow, lefs, def, progress)
}

// What is answered to a DEF after this many LEFs, where the texts denote this library and no other.
fn library_answer<'e, A: Allocator + Copy, P: Progress>(
    alloc: A,
    command: Command,
    profile: Profile,
    count: usize,
    library: &Library<'_, A>,
    def: DefText<'_, A>,
    progress: &mut P,
) -> Result<Answer<'e, A>, AllocError>
    ensures { IfOk result (λ answer. (lefs : List (List ℕ)) → DenotesJust profile lefs def.entry library.now
        → IsExplained command profile lefs def.entry answer.reason answer.status answer.text.items) }
{
    match def.design_as(alloc, profile, library) {
        Ok(design) => design_answer(alloc, command, design, progress),
        Err(fault) => {
            let master = needed_master(alloc, library, fault.need)?;
            let fault = TextFault::Read(behind_lefs(count, fault));
            refusal(alloc, command, fault, master)
        }
    }
}

/// The name of the macro whose pin is needed, if one is.
pub(crate) fn needed_master<A: Allocator + Copy>(
    alloc: A,
    library: &Library<'_, A>,
    need: Need,
) -> Result<Option<Items<u8, A>>, AllocError>
    ensures { IfOk result (λ name. name ≡ needed_master library.now need) }
{
    match need {
        Need::KnownPin(number) => {
            let name = match library.masters().get(number) {
                Some(master) => master.name.bytes(),
                None => b"",
            };
            Ok(Some(copied(alloc, name)?))
        }
        _ => Ok(None),
    }
}

/// A copy of a name.
pub(crate) fn copied<A: Allocator + Copy>(alloc: A, name: &[u8]) -> Result<Items<u8, A>, AllocError>
    ensures { IfOk result (λ copy. copy ≡ name.now) }
{
    Ok(Items::from_vec(Vec::from_slice(alloc, name)?))
}

// What is answered to texts that denote this design.
fn design_answer<'e, A: Allocator + Copy, P: Progress>(
    alloc: A,
    command: Command,
    design: Design<'_, A>,
    progress: &mut P,
) -> Result<Answer<'e, A>, AllocError>
    ensures { IfOk result (λ answer. (profile : Profile) (lefs : List (List ℕ)) (def : List ℕ) →
        DenoteDesign profile lefs def design.entry.library design.entry →
        IsExplained command profile lefs def answer.reason answer.status answer.text.items) }
{
    match command {
        Command::Check => whole_answer(alloc, &design),
        Command::PlaceCheck => placement_answer(alloc, &design),
        Command::Measure => measure_answer(alloc, &design),
        Command::Print => print_answer(alloc, &design),
        Command::Legalise => legalise_answer(alloc, design),
        Command::Route => route_answer(alloc, design),
        Command::Flow => flow_answer(alloc, design),
        Command::Finish => finish_answer(alloc, design, progress),
    }
}

fn placement_answer<'e, A: Allocator + Copy>(
    alloc: A,
    design: &Design<'_, A>,
) -> Result<Answer<'e, A>, AllocError>
    ensures { IfOk result (λ answer. (profile : Profile) (lefs : List (List ℕ)) (def : List ℕ) →
        DenoteDesign profile lefs def design.now.library design.now →
        IsExplained PlaceCheck profile lefs def answer.reason answer.status answer.text.items) }
{
    let violations = place_faults(alloc, design.library(), design)?;
    let no_flat: Option<Flat<A>> = None;
    listing(alloc, design, no_flat.as_ref(), &violations)
}

fn whole_answer<'e, A: Allocator + Copy>(
    alloc: A,
    design: &Design<'_, A>,
) -> Result<Answer<'e, A>, AllocError>
    ensures { IfOk result (λ answer. (profile : Profile) (lefs : List (List ℕ)) (def : List ℕ) →
        DenoteDesign profile lefs def design.now.library design.now →
        IsExplained Check profile lefs def answer.reason answer.status answer.text.items) }
{
    match check_design(alloc, design) {
        Ok(checked) => listing(alloc, design, Some(&checked.flat), &checked.violations),
        Err(FlatFault::TooMany) => Ok(Answer {
            status: Status::Refused,
            text: Vec::from_slice(alloc, b"TOOMANY\n")?,
            reason: Some(Reason::TooMany),
        }),
        Err(FlatFault::Memory) => Err(AllocError),
    }
}

fn measure_answer<'e, A: Allocator + Copy>(
    alloc: A,
    design: &Design<'_, A>,
) -> Result<Answer<'e, A>, AllocError>
    ensures { IfOk result (λ answer. (profile : Profile) (lefs : List (List ℕ)) (def : List ℕ) →
        DenoteDesign profile lefs def design.now.library design.now →
        IsExplained Measure profile lefs def answer.reason answer.status answer.text.items) }
{
    let length = hpwl(design.library(), design);
    let text = wirelength_text(alloc, length)?;
    Ok(Answer {
        status: Status::Success,
        text,
        reason: None,
    })
}

// The violations are listed, or there are none.
fn listing<'e, A: Allocator + Copy>(
    alloc: A,
    design: &Design<'_, A>,
    flat: Option<&Flat<A>>,
    violations: &[Fault],
) -> Result<Answer<'e, A>, AllocError>
    ensures listed { IfOk result (λ answer.
        IsListing design.now (option_map (λ flat. flat.now) flat.entry) violations.now answer.status answer.text.items) }
    ensures no_reason { IfOk result (λ answer. answer.reason ≡ None) }
{
    if violations.is_empty() {
        let text = Vec::from_slice(alloc, b"legal\n")?;
        return Ok(Answer {
            status: Status::Success,
            text,
            reason: None,
        });
    }
    let text = listing_text(alloc, design, flat, violations)?;
    Ok(Answer {
        status: Status::Violations,
        text,
        reason: None,
    })
}

// What is answered to texts that are refused so, where a pin of this macro is needed, if one is.
fn refusal<'a, A: Allocator + Copy>(
    alloc: A,
    command: Command,
    fault: TextFault<'a>,
    master: Option<Items<u8, A>>,
) -> Result<Answer<'a, A>, AllocError>
    ensures { IfOk result (λ answer. (profile : Profile) (lefs : List (List ℕ)) (def : List ℕ) →
        Refuses (DenoteNothing profile lefs def) ⊥ fault.entry → HasUnitsOf def fault.entry → IsOfMaster profile lefs def fault.entry master →
        IsExplained command profile lefs def answer.reason answer.status answer.text.items) }
{
    match fault {
        TextFault::Read(fault) => unread(alloc, command, fault, master),
        TextFault::Scale(fault, units) if fault.kind != ScaleKind::Memory => {
            let text = scale_text(alloc, &fault)?;
            Ok(Answer {
                status: Status::Refused,
                text,
                reason: Some(Reason::Scale(fault, units)),
            })
        }
        _ => Err(AllocError),
    }
}

// What is answered to texts of which one is not read, for this fault, where a pin of this macro is needed, if one is.
fn unread<'e, A: Allocator + Copy>(
    alloc: A,
    command: Command,
    fault: ReadFault,
    master: Option<Items<u8, A>>,
) -> Result<Answer<'e, A>, AllocError>
    ensures { IfOk result (λ answer. (profile : Profile) (lefs : List (List ℕ)) (def : List ℕ) →
        Refuses (DenoteNothing profile lefs def) ⊥ (Read fault) → IsOfMaster profile lefs def (Read fault) master →
        IsExplained command profile lefs def answer.reason answer.status answer.text.items) }
{
    if fault.kind == FaultKind::Memory {
        return Err(AllocError);
    }
    let text = refused_text(alloc, &fault)?;
    Ok(Answer {
        status: Status::Refused,
        text,
        reason: Some(Reason::Read(fault, master)),
    })
}

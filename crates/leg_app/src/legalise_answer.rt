//! What `legalise` answers.

ghost use Rattle.std.specs.Prelude.{◌≡◌, IfOk};
ghost use Rattle.leg_design_records.specs.Records.{DesignModel};
ghost use Rattle.leg_legal.specs.Refusals.{IsLegaliseRefusal};
ghost use Rattle.leg_app_input.specs.declared.command.Command.{Command};
ghost use Rattle.leg_app_input.specs.declared.command.Command.TheVariants.{Legalise};
ghost use Rattle.leg_app.specs.declared.status.Status.TheVariants.{Unsolved};
ghost use Rattle.leg_app.specs.Reason.{Explains, IsSoOfDesign};
ghost use Rattle.leg_app.specs.LegaliseResult.{ReportsNotLegalised};
ghost use Rattle.leg_app.specs.Steps.Making.{IsMaking};

use crate::answer::{Answer, copied, unsolved};
use crate::status::Status;
use leg_app_lines::{fixed_illegal_text, legalised_text, name_line};
use leg_app_reason::Reason;
use leg_design_records::Design;
use leg_design_records::laws::design_is_sound;
use leg_legal::{LegalFault, legalise};
use std::alloc::{AllocError, Allocator};

/// What is answered where this design is to be legalised.
pub(crate) fn legalise_answer<'e, A: Allocator + Copy>(
    alloc: A,
    design: Design<'_, A>,
) -> Result<Answer<'e, A>, AllocError>
    ensures is { IfOk result (λ answer. IsMaking Legalise design.entry answer.status answer.text.items) }
    ensures explains { IfOk result (λ answer. Explains (IsSoOfDesign Legalise design.entry) answer.status answer.reason answer.text.items) }
{
    let library = design.library();
    match legalise(alloc, library, design) {
        Ok((legalised, moves)) => {
            design_is_sound(&legalised);
            let text = legalised_text(alloc, &legalised, &moves)?;
            Ok(Answer {
                status: Status::Success,
                text,
                reason: None,
            })
        }
        Err((kept, fault)) => not_legalised(alloc, &kept, &fault),
    }
}

/// Why the design is not legalised. It fails where memory was the reason.
pub(crate) fn not_legalised<'e, A: Allocator + Copy>(
    alloc: A,
    design: &Design<'_, A>,
    fault: &LegalFault<A>,
) -> Result<Answer<'e, A>, AllocError>
    ensures status { IfOk result (λ answer. answer.status ≡ Unsolved) }
    ensures tells { IfOk result (λ answer. IsLegaliseRefusal design.now fault.now → ReportsNotLegalised design.now answer.text.items) }
    ensures explains { IfOk result (λ answer. (command : Command) (before : DesignModel)
        → Explains (IsSoOfDesign command before) answer.status answer.reason answer.text.items) }
{
    match fault {
        LegalFault::FixedIllegal(violations) => {
            let text = fixed_illegal_text(alloc, design, violations.as_slice())?;
            Ok(unsolved(text, Reason::FixedIllegal))
        }
        LegalFault::NoSite(c) => {
            let component = copied(alloc, design.component_name(*c))?;
            let text = name_line(alloc, b"NOSITE ", component.as_slice())?;
            Ok(unsolved(text, Reason::NoSite(component)))
        }
        LegalFault::NoRoom(c) => {
            let component = copied(alloc, design.component_name(*c))?;
            let text = name_line(alloc, b"NOROOM ", component.as_slice())?;
            Ok(unsolved(text, Reason::NoRoom(component)))
        }
        LegalFault::Memory => Err(AllocError),
    }
}

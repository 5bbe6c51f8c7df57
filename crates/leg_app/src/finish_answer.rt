//! What `finish` answers.

ghost use Rattle.std.specs.Prelude.{◌≡◌, IfOk};
ghost use Rattle.leg_finish.specs.Refusal.{IsFinishRefusal};
ghost use Rattle.leg_app_input.specs.declared.command.Command.TheVariants.{Finish};
ghost use Rattle.leg_app.specs.declared.status.Status.TheVariants.{Unsolved};
ghost use Rattle.leg_app.specs.FinishResult.{ReportsNotFinished};
ghost use Rattle.leg_app.specs.Reason.{Explains, IsSoOfDesign};
ghost use Rattle.leg_app.specs.Steps.Making.{IsMaking};

use crate::answer::{Answer, copied, unsolved};
use crate::status::Status;
use leg_app_lines::{
    finished_text, flat_again, not_clean_text, piece_name, unfinished_text, unreachable_text,
};
use leg_app_reason::{Reason, Stage};
use leg_design_records::Design;
use leg_design_records::laws::design_is_sound;
use leg_finish::{FinishFault, Progress, finish};
use leg_route_grid::GREATEST_GRID;
use std::alloc::{AllocError, Allocator};

/// What is answered where this design is to be finished. The progress is told of each round.
pub(crate) fn finish_answer<'e, A: Allocator + Copy, P: Progress>(
    alloc: A,
    design: Design<'_, A>,
    progress: &mut P,
) -> Result<Answer<'e, A>, AllocError>
    ensures is { IfOk result (λ answer. IsMaking Finish design.entry answer.status answer.text.items) }
    ensures explains { IfOk result (λ answer. Explains (IsSoOfDesign Finish design.entry) answer.status answer.reason answer.text.items) }
{
    let library = design.library();
    match finish(alloc, library, design, progress) {
        Ok((finished, totals)) => {
            design_is_sound(&finished);
            let text = finished_text(alloc, &finished, totals.length, totals.vias)?;
            Ok(Answer {
                status: Status::Success,
                text,
                reason: None,
            })
        }
        Err((kept, fault)) => not_finished(alloc, &kept, &fault),
    }
}

/// Why the design is not finished. It fails where memory was the reason.
fn not_finished<'e, A: Allocator + Copy>(
    alloc: A,
    design: &Design<'_, A>,
    fault: &FinishFault<A>,
) -> Result<Answer<'e, A>, AllocError>
    requires { IsFinishRefusal design.now fault.now }
    ensures status { IfOk result (λ answer. answer.status ≡ Unsolved) }
    ensures tells { IfOk result (λ answer. ReportsNotFinished design.now answer.text.items) }
    ensures explains { IfOk result (λ answer. Explains (IsSoOfDesign Finish design.now) answer.status answer.reason answer.text.items) }
{
    match fault {
        FinishFault::NotClean(violations) => {
            let text = not_clean_text(alloc, design, violations.as_slice())?;
            Ok(unsolved(text, Reason::NotClean(Stage::Given)))
        }
        FinishFault::GridTooLarge => {
            let text = Vec::from_slice(alloc, b"GRIDTOOLARGE\n")?;
            Ok(unsolved(text, Reason::GridTooLarge(GREATEST_GRID)))
        }
        FinishFault::Unreachable(net, piece) => {
            let flat = flat_again(alloc, design)?;
            let piece = piece_name(alloc, design, &flat, *net, *piece)?;
            let net = copied(alloc, design.net_name(*net))?;
            let text = unreachable_text(alloc, net.as_slice(), piece.as_slice())?;
            Ok(unsolved(text, Reason::Unreachable(net, piece)))
        }
        FinishFault::Unfinished(nets) => {
            let text = unfinished_text(alloc, design, nets.as_slice())?;
            Ok(unsolved(text, Reason::Unfinished))
        }
        FinishFault::TooMany => {
            let text = Vec::from_slice(alloc, b"TOOMANY\n")?;
            Ok(unsolved(text, Reason::TooMany))
        }
        FinishFault::Memory => Err(AllocError),
    }
}

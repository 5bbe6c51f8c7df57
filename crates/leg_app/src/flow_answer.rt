//! What `flow` answers.

ghost use Rattle.std.specs.Prelude.{IfOk};
ghost use Rattle.leg_design_records.specs.Records.{DesignModel};
ghost use Rattle.leg_rules.specs.Legalise.Moves.{AreMoves};
ghost use Rattle.leg_app_input.specs.declared.command.Command.TheVariants.{Flow};
ghost use Rattle.leg_app.specs.LegaliseResult.{Legalises};
ghost use Rattle.leg_app.specs.Reason.{Explains, IsSoOfDesign};
ghost use Rattle.leg_app.specs.Steps.Making.{IsMaking};

use crate::answer::Answer;
use crate::legalise_answer::not_legalised;
use crate::route_answer::not_routed;
use crate::status::Status;
use leg_app_lines::legalised_text;
use leg_app_reason::Stage;
use leg_design_records::Design;
use leg_design_records::laws::design_is_sound;
use leg_legal::{Moves, legalise};
use leg_route::route;
use std::alloc::{AllocError, Allocator};

/// What is answered where this design is to be legalised, and what comes of it is to be routed.
pub(crate) fn flow_answer<'e, A: Allocator + Copy>(
    alloc: A,
    design: Design<'_, A>,
) -> Result<Answer<'e, A>, AllocError>
    ensures is { IfOk result (λ answer. IsMaking Flow design.entry answer.status answer.text.items) }
    ensures explains { IfOk result (λ answer. Explains (IsSoOfDesign Flow design.entry) answer.status answer.reason answer.text.items) }
{
    let library = design.library();
    match legalise(alloc, library, design) {
        Ok((legalised, moves)) => {
            design_is_sound(&legalised);
            routing_answer(alloc, legalised, &moves)
        }
        Err((kept, fault)) => not_legalised(alloc, &kept, &fault),
    }
}

/// What is answered where a design was legalised, so that its components made these moves, and is to be routed.
fn routing_answer<'e, A: Allocator + Copy>(
    alloc: A,
    legalised: Design<'_, A>,
    moves: &Moves<A>,
) -> Result<Answer<'e, A>, AllocError>
    ensures is { IfOk result (λ answer. (design : DesignModel) → Legalises design legalised.entry →
        AreMoves design legalised.entry moves.now.per_component moves.now.total moves.now.greatest →
        IsMaking Flow design answer.status answer.text.items) }
    ensures explains { IfOk result (λ answer. (design : DesignModel) → Legalises design legalised.entry →
        Explains (IsSoOfDesign Flow design) answer.status answer.reason answer.text.items) }
{
    let library = legalised.library();
    match route(alloc, library, legalised) {
        Ok(routed) => {
            design_is_sound(&routed);
            let text = legalised_text(alloc, &routed, moves)?;
            Ok(Answer {
                status: Status::Success,
                text,
                reason: None,
            })
        }
        Err((kept, fault)) => not_routed(alloc, Stage::Legalised, &kept, &fault),
    }
}

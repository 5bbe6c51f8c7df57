//! What `print` answers.

ghost use Rattle.std.specs.Prelude.{IfOk};
ghost use Rattle.leg_app_input.specs.declared.command.Command.TheVariants.{Print};
ghost use Rattle.leg_app.specs.Reason.{Explains, IsSoOfDesign};
ghost use Rattle.leg_app.specs.Steps.Making.{IsMaking};

use crate::answer::Answer;
use crate::status::Status;
use leg_design_records::Design;
use leg_design_records::laws::design_is_sound;
use leg_print::print_def;
use std::alloc::{AllocError, Allocator};

/// What is answered where this design is to be printed.
pub(crate) fn print_answer<'e, A: Allocator + Copy>(
    alloc: A,
    design: &Design<'_, A>,
) -> Result<Answer<'e, A>, AllocError>
    ensures is { IfOk result (λ answer. IsMaking Print design.now answer.status answer.text.items) }
    ensures explains { IfOk result (λ answer. Explains (IsSoOfDesign Print design.now) answer.status answer.reason answer.text.items) }
{
    design_is_sound(design);
    let text = print_def(alloc, design.library(), design)?;
    Ok(Answer {
        status: Status::Success,
        text,
        reason: None,
    })
}

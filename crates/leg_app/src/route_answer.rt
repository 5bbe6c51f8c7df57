//! What `route` answers.

ghost use Rattle.std.specs.Prelude.{◌≡◌, ◌≤◌, length, IfOk};
ghost use Rattle.leg_design_records.specs.declared.limits.TheConstants.{PART_LIMIT};
ghost use Rattle.leg_design_records.specs.Records.{DesignModel};
ghost use Rattle.leg_rules.specs.Metal.Metal.{metal_of};
ghost use Rattle.leg_rules.specs.declared.grid_limits.TheConstants.{GRID_LIMIT};
ghost use Rattle.leg_rules.specs.Route.GridSize.{IsGridTooLarge};
ghost use Rattle.leg_route.specs.Refusal.{IsRouteRefusal};
ghost use Rattle.leg_app_input.specs.declared.command.Command.{Command};
ghost use Rattle.leg_app_input.specs.declared.command.Command.TheVariants.{Route};
ghost use Rattle.leg_app.specs.declared.status.Status.TheVariants.{Unsolved};
ghost use Rattle.leg_app.specs.Reason.{Explains, IsSoOfDesign, IsCutOff, IsRoutedBy, stage_of, grid_limit};
ghost use Rattle.leg_app.specs.RouteResult.{ReportsNotRouted};
ghost use Rattle.leg_app.specs.Steps.Making.{IsMaking};

use crate::answer::{Answer, copied, unsolved};
use crate::status::Status;
use leg_app_lines::{flat_again, name_line, not_clean_text, piece_name};
use leg_app_reason::{Reason, Stage};
use leg_design_records::Design;
use leg_design_records::laws::design_is_sound;
use leg_finish::first_unreachable_piece;
use leg_lib_records::Items;
use leg_print::print_def;
use leg_route::{RouteFault, route};
use leg_route_grid::GRID_LIMIT;
use std::alloc::{AllocError, Allocator};

/// What is answered where this design is to be routed.
pub(crate) fn route_answer<'e, A: Allocator + Copy>(
    alloc: A,
    design: Design<'_, A>,
) -> Result<Answer<'e, A>, AllocError>
    ensures is { IfOk result (λ answer. IsMaking Route design.entry answer.status answer.text.items) }
    ensures explains { IfOk result (λ answer. Explains (IsSoOfDesign Route design.entry) answer.status answer.reason answer.text.items) }
{
    let library = design.library();
    match route(alloc, library, design) {
        Ok(routed) => {
            design_is_sound(&routed);
            let text = print_def(alloc, routed.library(), &routed)?;
            Ok(Answer {
                status: Status::Success,
                text,
                reason: None,
            })
        }
        Err((kept, fault)) => not_routed(alloc, Stage::Given, &kept, &fault),
    }
}

/// Why the design, which is the one of this stage, is not routed. It fails where memory was the reason.
pub(crate) fn not_routed<'e, A: Allocator + Copy>(
    alloc: A,
    stage: Stage,
    design: &Design<'_, A>,
    fault: &RouteFault<A>,
) -> Result<Answer<'e, A>, AllocError>
    requires { IsRouteRefusal design.now fault.now }
    ensures status { IfOk result (λ answer. answer.status ≡ Unsolved) }
    ensures tells { IfOk result (λ answer. ReportsNotRouted design.now answer.text.items) }
    ensures explains { IfOk result (λ answer. (command : Command) (before : DesignModel)
        → stage ≡ stage_of command → GRID_LIMIT ≡ grid_limit command → IsRoutedBy command before design.now
        → Explains (IsSoOfDesign command before) answer.status answer.reason answer.text.items) }
{
    match fault {
        RouteFault::NotClean(violations) => {
            let text = not_clean_text(alloc, design, violations.as_slice())?;
            Ok(unsolved(text, Reason::NotClean(stage)))
        }
        RouteFault::GridTooLarge => {
            let text = Vec::from_slice(alloc, b"GRIDTOOLARGE\n")?;
            Ok(unsolved(text, Reason::GridTooLarge(GRID_LIMIT)))
        }
        RouteFault::Unroutable(net) => {
            let piece = cut_off_piece(alloc, design, *net)?;
            let net = copied(alloc, design.net_name(*net))?;
            let text = name_line(alloc, b"UNROUTABLE ", net.as_slice())?;
            Ok(unsolved(text, Reason::Unroutable(net, piece)))
        }
        RouteFault::TooMany => {
            let text = Vec::from_slice(alloc, b"TOOMANY\n")?;
            Ok(unsolved(text, Reason::TooMany))
        }
        RouteFault::Memory => Err(AllocError),
    }
}

/// The name of the first piece of this net that cannot be reached whatever other nets do, if there is one.
fn cut_off_piece<A: Allocator + Copy>(
    alloc: A,
    design: &Design<'_, A>,
    net: u32,
) -> Result<Option<Items<u8, A>>, AllocError>
    requires few { length (metal_of design.now) ≤ PART_LIMIT }
    requires fits { ¬ IsGridTooLarge design.now }
    ensures { IfOk result (λ piece. IsCutOff design.now net piece) }
{
    let flat = flat_again(alloc, design)?;
    match first_unreachable_piece(alloc, design, &flat, net)? {
        Some(piece) => Ok(Some(piece_name(alloc, design, &flat, net, piece)?)),
        None => Ok(None),
    }
}

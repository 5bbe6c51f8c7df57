//! The design gets the wires of a run that has come to its end.

ghost use Rattle.std.specs.Prelude.{◌≡◌, ◌≤◌, false, All, length, map, IfOk, IfErr, OnOk};
ghost use Rattle.leg_design_records.specs.declared.limits.TheConstants.{PART_LIMIT};
ghost use Rattle.leg_design_records.specs.WellFormedNets.{IsWire};
ghost use Rattle.leg_rules.specs.Metal.Metal.{metal_of};
ghost use Rattle.leg_rules.specs.Route.GridSize.{IsGridTooLarge};
ghost use Rattle.leg_rules.specs.Legal.{IsLegal};
ghost use Rattle.leg_rules.specs.Route.SameButForWires.{IsSameButForWires};
ghost use Rattle.leg_rules.specs.Route.Result.{IsRouted};
ghost use Rattle.leg_route.specs.Refusal.{IsRouteRefusal};
ghost use Rattle.leg_route.specs.Steps.RunEnd.{IsFinishedRun};

use crate::fault::RouteFault;
use crate::laws::finished_run;
use leg_design_records::laws::design_is_sound;
use leg_design_records::{Design, Wire};
use leg_flat::laws::every_design_has_a_flat;
use std::alloc::Allocator;

/// Gives each entry of `NETS` the wires of its list. If an allocation fails, the design comes back as it was.
pub(crate) fn finish<'a, A: Allocator + Copy>(
    design: Design<'a, A>,
    lists: Vec<Vec<Wire, A>, A>,
) -> Result<Design<'a, A>, (Design<'a, A>, RouteFault<A>)>
    requires run { IsFinishedRun design (map (λ wires. wires.items) lists.items) }
    requires spelled { All (λ wires. All (IsWire design.library design.vias false) wires.items) lists.items }
    ensures legal { IfOk result (λ done. IsLegal done) }
    ensures same { IfOk result (λ done. IsSameButForWires design.entry done) }
    ensures run { IfOk result (λ done. IsRouted design.entry done) }
    ensures few { IfOk result (λ done. length (metal_of done) ≤ PART_LIMIT) }
    ensures fits { OnOk result (¬ IsGridTooLarge design.entry) }
    ensures unchanged { IfErr result (λ back. back.0 ≡ design.entry) }
    ensures refused { IfErr result (λ back. IsRouteRefusal design.entry back.1) }
{
    finished_run();
    design_is_sound(&design);
    match design.with_all_wires(lists) {
        Ok(done) => {
            design_is_sound(&done);
            every_design_has_a_flat(&done);
            Ok(done)
        }
        Err((design, _refusal)) => Err((design, RouteFault::Memory)),
    }
}

//! Laws of routed designs. Each function does nothing: its contract is the law.

ghost use Rattle.std.specs.Prelude.{◌≡◌, ◌≤◌, ◌+◌, ℕ, List, [], All, false, length};
ghost use Rattle.leg_lib_records.specs.Sound.{IsSound};
ghost use Rattle.leg_design_records.specs.declared.fault.Fault.{Fault};
ghost use Rattle.leg_design_records.specs.declared.records.Wire.{Wire};
ghost use Rattle.leg_design_records.specs.MoreWires.{with_more_wires};
ghost use Rattle.leg_design_records.specs.Records.{DesignModel, wire_count};
ghost use Rattle.leg_design_records.specs.WellFormed.{IsWellFormed};
ghost use Rattle.leg_design_records.specs.WellFormedNets.{IsWire};
ghost use Rattle.leg_rules.specs.Metal.Metal.{metal_of};
ghost use Rattle.leg_rules.specs.Metal.Flat.{FlatModel, IsFlatOf};
ghost use Rattle.leg_rules.specs.Route.Run.{NetWires, RouteRun, IsDone};
ghost use Rattle.leg_rules.specs.Joins.Violations.{IsOpenNet};
ghost use Rattle.leg_rules.specs.Violations.{IsViolation, IsOtherThanOpen};
ghost use Rattle.leg_route_laws.specs.CleanWire.{HasNoSpacingFault};
ghost use Rattle.leg_route_laws.specs.FinishedDesign.{finished};
ghost use Rattle.leg_rules.specs.Route.SameButForWires.{IsSameButForWires};
ghost use Rattle.leg_rules.specs.Route.Result.{IsRouted, wires_for};
ghost use Rattle.leg_route.specs.Steps.NetLists.{AreListsOf};

use leg_route_laws::laws::{
    clean_wires_stay_clean, finished_design_is_legal, finished_design_is_same, growth_goes_on,
    placement_stays, run_of_clean_wires_is_clean, shapes_stay_as_many,
};

/// A flat without shorts and without shapes too near one another stays so over a routing run.
pub fn runs_stay_clean()
    ensures { (design : DesignModel) (flat grown : FlatModel) (added : List NetWires) → IsSound design.library
        → HasNoSpacingFault design.library flat → RouteRun design flat added grown → HasNoSpacingFault design.library grown }
{
    run_of_clean_wires_is_clean();
    clean_wires_stay_clean();
}

/// A net that is open where a run has come to was open before the run.
pub fn open_nets_were_open()
    ensures { (design : DesignModel) (flat grown : FlatModel) (added : List NetWires) (net : ℕ) → RouteRun design flat added grown
        → IsOpenNet design grown net → IsOpenNet design flat net }
{}

/// A net that is not open before a run gets no wires.
pub fn joined_nets_get_no_wires()
    ensures { (design : DesignModel) (flat grown : FlatModel) (added : List NetWires) (net : ℕ) → RouteRun design flat added grown
        → ¬ IsOpenNet design flat net → wires_for net added ≡ [] }
{}

/// A design gets the wires of a run that has come to its end, each entry of `NETS` its own list of them.
///
/// It is then the same but for wires, and is routed. No violation of it holds if before the run none held but that nets were
/// open.
/// It has as many shapes as the flat has grown to, and no more wires than shapes.
pub fn finished_run()
    ensures same { (design : DesignModel) (lists : List (List Wire)) → IsSameButForWires design (finished design lists) }
    ensures routed { (design : DesignModel) (flat grown : FlatModel) (added : List NetWires) (lists : List (List Wire)) → IsFlatOf design flat
        → RouteRun design flat added grown → IsDone design grown → AreListsOf (length design.nets) added lists → IsRouted design (finished design lists) }
    ensures legal { (design : DesignModel) (flat grown : FlatModel) (added : List NetWires) (lists : List (List Wire))
        → IsSound design.library → IsWellFormed design → IsWellFormed (finished design lists) → IsFlatOf design flat
        → ((fault : Fault) → ¬ IsOtherThanOpen design flat fault) → RouteRun design flat added grown → IsDone design grown
        → AreListsOf (length design.nets) added lists → (fault : Fault) → ¬ IsViolation (finished design lists) fault }
    ensures shapes { (design : DesignModel) (flat grown : FlatModel) (added : List NetWires) (lists : List (List Wire)) → IsFlatOf design flat
        → RouteRun design flat added grown → AreListsOf (length design.nets) added lists → length (metal_of (finished design lists)) ≡ length grown.shapes }
    ensures wires { (design : DesignModel) (lists : List (List Wire)) → IsSound design.library → IsWellFormed design
        → All (All (IsWire design.library design.vias false)) lists
        → wire_count (with_more_wires design.nets lists) + wire_count design.special ≤ length (metal_of (finished design lists)) }
{
    finished_design_is_same();
    shapes_stay_as_many();
    run_of_clean_wires_is_clean();
    clean_wires_stay_clean();
    growth_goes_on();
    finished_design_is_legal();
    placement_stays();
}

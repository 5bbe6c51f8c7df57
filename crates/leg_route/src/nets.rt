//! All nets, one after another.

ghost use Rattle.std.specs.Prelude.{◌≡◌, false, All, length, map, IfOk, IfErr, OnOk};
ghost use Rattle.leg_design_records.specs.WellFormedNets.{IsWire};
ghost use Rattle.leg_flat.specs.Limits.{IsWithinLimits};
ghost use Rattle.leg_route.specs.Refusal.{IsRouteRefusal};
ghost use Rattle.leg_rules.specs.Route.Refusal.{ComesToRun};
ghost use Rattle.leg_route.specs.Steps.RunEnd.{IsFinishedRun};
ghost use Rattle.leg_route.specs.Steps.RunSoFar.{IsRunSoFar};
ghost use Rattle.leg_route.specs.Steps.Stops.{IsRunStop};

use crate::fault::RouteFault;
use crate::ground::Ground;
use crate::net_turn::route_net;
use leg_design_records::Wire;
use std::alloc::Allocator;

/// Gives each of this many nets its turn, in their order. For each there is a list of the wires that it got.
fn turns<A: Allocator + Copy, G: Ground<A>>(
    alloc: A,
    ground: &mut G,
    nets: u32,
) -> Result<Vec<Vec<Wire, A>, A>, RouteFault<A>>
    requires ready { G.IsReady ground.old }
    requires count { nets ≡ length (G.design ground.old).nets }
    requires within { IsWithinLimits (G.flat ground.old) }
    ensures run { IfOk result
        (λ lists. IsRunSoFar (G.design ground.old) (G.flat ground.old) nets (map (λ wires. wires.items) lists.items) (G.flat ground.new)) }
    ensures spelled { IfOk result
        (λ lists. All (λ wires. All (IsWire (G.design ground.old).library (G.design ground.old).vias false) wires.items) lists.items) }
    ensures within { OnOk result (IsWithinLimits (G.flat ground.new)) }
    ensures ready { OnOk result (G.IsReady ground.new) }
    ensures stop { IfErr result (λ fault. IsRunStop (G.design ground.old) (G.flat ground.old) fault) }
    ensures same_design { G.design ground.new ≡ G.design ground.old }
{
    let mut lists = Vec::new(alloc);
    for net in 0..nets {
        let wires = route_net(alloc, ground, net)?;
        lists.push(wires)?;
    }
    Ok(lists)
}

/// Routes the nets of `NETS`, of which there are `nets`, in their order: each gets the wires of one shortest walk after
/// another until it isn't open. For each net there is a list of the wires that it got, in their order.
///
/// The flat is that of the design, in which no violation of another kind than `OpenNet` holds, and whose grid isn't too
/// large. `Unroutable` and `TooMany` report where such a run stops before its end.
pub(crate) fn route_nets<A: Allocator + Copy, G: Ground<A>>(
    alloc: A,
    ground: &mut G,
    nets: u32,
) -> Result<Vec<Vec<Wire, A>, A>, RouteFault<A>>
    requires ready { G.IsReady ground.old }
    requires count { nets ≡ length (G.design ground.old).nets }
    requires comes { ComesToRun (G.design ground.old) (G.flat ground.old) }
    requires within { IsWithinLimits (G.flat ground.old) }
    ensures run { IfOk result (λ lists. IsFinishedRun (G.design ground.old) (map (λ wires. wires.items) lists.items)) }
    ensures spelled { IfOk result
        (λ lists. All (λ wires. All (IsWire (G.design ground.old).library (G.design ground.old).vias false) wires.items) lists.items) }
    ensures refused { IfErr result (λ fault. IsRouteRefusal (G.design ground.old) fault) }
    ensures same_design { G.design ground.new ≡ G.design ground.old }
{
    let lists = turns(alloc, ground, nets)?;
    Ok(lists)
}

//! The turn of a net: it gets wires until it isn't open any more.

ghost use Rattle.std.specs.Prelude.{◌≡◌, ◌<◌, false, All, length, IfOk, IfErr, OnOk};
ghost use Rattle.leg_design_records.specs.WellFormedNets.{IsWire};
ghost use Rattle.leg_flat.specs.declared.fault.FlatFault.TheVariants.{TooMany};
ghost use Rattle.leg_flat.specs.Limits.{IsWithinLimits};
ghost use Rattle.leg_rules.specs.Route.MoreWires.{HasMoreWires};
ghost use Rattle.leg_rules.specs.Joins.Violations.{IsOpenNet};
ghost use Rattle.leg_route.specs.Steps.NetRun.{NetRun};
ghost use Rattle.leg_route.specs.Steps.Stops.{PassesLimit, IsNetStop};

use crate::fault::RouteFault;
use crate::ground::{Ground, NextStep};
use leg_design_records::Wire;
use leg_flat::FlatFault;
use std::alloc::Allocator;

/// Adds wires to the net, one after another.
fn add_wires<A: Allocator + Copy, G: Ground<A>>(
    ground: &mut G,
    net: u32,
    wires: &[Wire],
) -> Result<(), FlatFault>
    requires ready { G.IsReady ground.old }
    requires in_range { net < length (G.design ground.old).nets }
    requires spelled { All (IsWire (G.design ground.old).library (G.design ground.old).vias false) wires.now }
    requires within { IsWithinLimits (G.flat ground.old) }
    ensures added { OnOk result (HasMoreWires (G.design ground.old) net wires.now (G.flat ground.old) (G.flat ground.new)) }
    ensures within { OnOk result (IsWithinLimits (G.flat ground.new)) }
    ensures ready { OnOk result (G.IsReady ground.new) }
    ensures many { IfErr result (λ fault. fault ≡ TooMany → PassesLimit (G.design ground.old) net (G.flat ground.old) wires.now) }
    ensures same_design { G.design ground.new ≡ G.design ground.old }
{
    for wire in wires {
        ground.add(net, *wire)?;
    }
    Ok(())
}

/// Routes the net: it gets the wires of one walk after another until it isn't open. They are handed out, in their order.
pub(crate) fn route_net<A: Allocator + Copy, G: Ground<A>>(
    alloc: A,
    ground: &mut G,
    net: u32,
) -> Result<Vec<Wire, A>, RouteFault<A>>
    requires ready { G.IsReady ground.old }
    requires in_range { net < length (G.design ground.old).nets }
    requires within { IsWithinLimits (G.flat ground.old) }
    ensures run { IfOk result (λ wires. NetRun (G.design ground.old) net (G.flat ground.old) wires.items (G.flat ground.new)) }
    ensures spelled { IfOk result (λ wires. All (IsWire (G.design ground.old).library (G.design ground.old).vias false) wires.items) }
    ensures joined { OnOk result (¬ IsOpenNet (G.design ground.old) (G.flat ground.new) net) }
    ensures within { OnOk result (IsWithinLimits (G.flat ground.new)) }
    ensures ready { OnOk result (G.IsReady ground.new) }
    ensures stop { IfErr result (λ fault. IsNetStop (G.design ground.old) (G.flat ground.old) net fault) }
    ensures same_design { G.design ground.new ≡ G.design ground.old }
{
    let mut wires = Vec::new(alloc);
    'walks: loop {
        match ground.next(alloc, net)? {
            NextStep::Joined => return Ok(wires),
            NextStep::NoWalk => return Err(RouteFault::Unroutable(net)),
            NextStep::Wires(more) => {
                add_wires(ground, net, &more)?;
                wires.extend_from_slice(&more)?;
            }
        }
    }
}

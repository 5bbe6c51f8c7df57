//! A flat that grows by the wires of nets.

ghost use Rattle.std.specs.Prelude.{◌≡◌, ◌<◌, false, All, length, OnOk};
ghost use Rattle.leg_design_records.specs.WellFormedNets.{IsWire};
ghost use Rattle.leg_route_laws.specs.Growth.{Grows, of_net};

use leg_design_records::{Design, Wire};
use leg_flat::{Flat, FlatFault};
use leg_route_laws::laws::growth_goes_on;
use std::alloc::Allocator;

/// Adds the wires to the net, one after another. `TooMany` is returned where the flat would have too many shapes.
pub(crate) fn add_wires<A: Allocator + Copy>(
    design: &Design<'_, A>,
    flat: &mut Flat<A>,
    net: u32,
    wires: &[Wire],
) -> Result<(), FlatFault>
    requires in_range { net < length flat.old.pieces }
    requires spelled { All (IsWire design.now.library design.now.vias false) wires.now }
    ensures grows { OnOk result (Grows design.now (of_net net wires.now) flat.old flat.new) }
    ensures nets { OnOk result (length flat.new.pieces ≡ length flat.old.pieces) }
{
    growth_goes_on();
    for wire in wires {
        flat.add_wire(design.library(), design, net, wire)?;
    }
    Ok(())
}

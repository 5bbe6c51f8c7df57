//! Nets that are open.

ghost use Rattle.std.specs.Prelude.{◌<◌, ◌^◌, length, IfOk, OnOk};
ghost use Rattle.leg_design_records.specs.Violation.{IsListOf};
ghost use Rattle.leg_rules.specs.Metal.Flat.{IsFlatOf};
ghost use Rattle.leg_rules.specs.Joins.Violations.{IsOpenViolation};
ghost use Rattle.leg_wire.specs.Steps.OpenViolations.{NamesOnlyUnmarked};
ghost use Rattle.leg_wire.specs.Steps.AddedFaults.{AreAdded};

use crate::join::joined_among;
use crate::net_shapes::numbers_by_net;
use leg_design_records::{Design, Fault};
use leg_flat::Flat;
use std::alloc::{AllocError, Allocator};

/// The pieces of the nets of `NETS` that aren't joined to the net's first piece: all of them, each once, in order
/// (lefdef's own rule).
///
/// The flat is that of the design. It fails only when out of memory.
pub fn open_faults<A: Allocator + Copy>(
    alloc: A,
    design: &Design<'_, A>,
    flat: &Flat<A>,
) -> Result<Vec<Fault, A>, AllocError>
    requires { IsFlatOf design.now flat.now }
    ensures { IfOk result (λ found. IsListOf (IsOpenViolation design.now flat.now) found.items) }
{
    let nets = design.nets().len() as u32;
    prove!(nets <= flat.net_count());
    let numbers = numbers_by_net(alloc, flat.shapes(), nets)?;
    let mut found = Vec::new(alloc);
    for net in 0..nets {
        let marks = joined_among(alloc, flat, net, numbers[net as usize].as_slice())?;
        push_open(net, &marks, &mut found)?;
    }
    Ok(found)
}

/// Adds the pieces of the net that aren't marked.
fn push_open<A: Allocator>(
    net: u32,
    marks: &[bool],
    found: &mut Vec<Fault, A>,
) -> Result<(), AllocError>
    requires { length marks.now < 2 ^ 32 }
    ensures { OnOk result (AreAdded (NamesOnlyUnmarked net marks.now) found.old.items found.new.items) }
{
    for (piece, joined) in marks.iter().enumerate() {
        if !joined {
            found.push(Fault::OpenNet(net, piece as u32))?;
        }
    }
    Ok(())
}

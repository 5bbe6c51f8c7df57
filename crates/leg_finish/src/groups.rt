//! Which pieces of nets are joined already, and which nets are open.

ghost use Rattle.std.specs.Prelude.{◌≢◌, ◌↔◌, ◌<◌, ◌≤◌, ◌+◌, ◌^◌, Any, length, IsTrue, IfOk, OnOk};
ghost use Rattle.leg_design_records.specs.declared.limits.TheConstants.{PART_LIMIT};
ghost use Rattle.leg_design_records.specs.Records.{DesignModel};
ghost use Rattle.leg_wire.specs.NetShapes.{AreNumbersOf};
ghost use Rattle.leg_finish.specs.Steps.OpenNets.{AreOpenNets, AreOpenNetsBelow};

use leg_design_records::Design;
use leg_flat::Flat;
use leg_lib_records::Items;
use leg_wire::laws::joined_both_ways;
use leg_wire::{groups_among, numbers_by_net};
use std::alloc::{AllocError, Allocator};

/// A net that is open.
#[derive(Drop)]
pub(crate) struct OpenNet<A: Allocator> {
    pub(crate) net: u32,
    /// The numbers of its shapes.
    pub(crate) shapes: Items<u32, A>,
    /// For each of its pieces the least one that it is joined to.
    pub(crate) firsts: Items<u32, A>,
}

/// Whether not all pieces are joined to the first one.
fn is_open(firsts: &[u32]) -> bool
    ensures { IsTrue result ↔ Any (λ first. first ≢ 0) firsts.now }
{
    firsts.iter().any(|first| *first != 0)
}

/// Adds the net, whose shapes have these numbers, if it is open.
fn push_if_open<A: Allocator + Copy>(
    alloc: A,
    flat: &Flat<A>,
    net: u32,
    shapes: Items<u32, A>,
    found: &mut Vec<OpenNet<A>, A>,
) -> Result<(), AllocError>
    requires net { net < length flat.now.pieces }
    requires shapes { AreNumbersOf flat.now.shapes net shapes }
    ensures { OnOk result ((design : DesignModel) → net < length design.nets
        → AreOpenNetsBelow net design flat.now found.old.items → AreOpenNetsBelow (net + 1) design flat.now found.new.items) }
{
    joined_both_ways();
    let firsts = groups_among(alloc, flat, net, shapes.as_slice())?;
    if !is_open(&firsts) {
        return Ok(());
    }
    found.push(OpenNet {
        net,
        shapes,
        firsts: Items::from_vec(firsts),
    })?;
    Ok(())
}

/// The nets of `NETS` that are open, in their order.
pub(crate) fn open_nets<A: Allocator + Copy>(
    alloc: A,
    design: &Design<'_, A>,
    flat: &Flat<A>,
) -> Result<Vec<OpenNet<A>, A>, AllocError>
    requires { length design.now.nets ≤ length flat.now.pieces }
    ensures are { IfOk result (λ found. AreOpenNets design.now flat.now found.items) }
    ensures few { IfOk result (λ found. length found.items < 2 ^ 32) }
    ensures within { OnOk result (length flat.now.shapes ≤ PART_LIMIT) }
{
    let nets = design.nets().len() as u32;
    let numbers = numbers_by_net(alloc, flat.shapes(), nets)?;
    let mut found = Vec::new(alloc);
    let mut net = 0;
    for shapes in numbers {
        push_if_open(alloc, flat, net, shapes, &mut found)?;
        net += 1;
    }
    Ok(found)
}

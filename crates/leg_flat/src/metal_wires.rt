//! The metal of the wires of a design.

ghost use Rattle.std.specs.Prelude.{◌≡◌, ◌+◌, ◌<◌, ◌^◌, length, All, OnOk};
ghost use Rattle.leg_design_records.specs.declared.records.Wire.TheVariants.{ViaAt};
ghost use Rattle.leg_design_records.specs.WellFormedParts.{IsPosition};
ghost use Rattle.leg_lib_records.specs.Sound.{IsSound};
ghost use Rattle.leg_rules.specs.Metal.Metal.{belonging, wire_outlines, wires_metal, nets_metal, specials_metal};
ghost use Rattle.leg_rules.specs.Metal.Nets.{entry_wires, regular_entry};
ghost use Rattle.leg_flat.specs.Steps.Places.{AreNetsOf};
ghost use Rattle.leg_flat.specs.Steps.AddedMetal.{AddsMetal, IsWireWithin};

use crate::metal_parts::{Belongs, add_shape, add_shifted};
use crate::nets::Nets;
use crate::outline::{line_rect, shifted_rect};
use leg_design_records::{Design, Wire};
use leg_geom::Point;
use leg_rules::{Owner, Shape};
use std::alloc::{AllocError, Allocator};

/// Adds the shapes of the via of this number, from a point.
fn add_via<A: Allocator + Copy>(
    shapes: &mut Vec<Shape, A>,
    design: &Design<'_, A>,
    number: usize,
    at: &Point,
    belongs: &Belongs,
) -> Result<(), AllocError>
    requires sound { IsSound design.now.library }
    requires at { IsPosition at.now }
    ensures { OnOk result (AddsMetal (belonging belongs.now (wire_outlines design.now (ViaAt number at.now))) shapes.old.items shapes.new.items) }
{
    match design.via_numbered(number) {
        Some(via) => add_shifted(shapes, at, via.shapes.as_slice(), belongs),
        None => Ok(()),
    }
}

/// Adds the shapes of a wire.
pub(crate) fn add_wire<A: Allocator + Copy>(
    shapes: &mut Vec<Shape, A>,
    design: &Design<'_, A>,
    wire: &Wire,
    belongs: &Belongs,
) -> Result<(), AllocError>
    requires sound { IsSound design.now.library }
    requires within { IsWireWithin wire.now }
    ensures { OnOk result (AddsMetal (belonging belongs.now (wire_outlines design.now wire.now)) shapes.old.items shapes.new.items) }
{
    match wire {
        Wire::Segment {
            layer,
            from,
            to,
            width,
            ext_from,
            ext_to,
        } => {
            let rect = line_rect(from, to, *width, *ext_from, *ext_to);
            add_shape(shapes, *layer, rect, belongs)
        }
        Wire::ViaAt { via, at } => add_via(shapes, design, *via, at, belongs),
        Wire::Patch { layer, at, rect } => {
            add_shape(shapes, *layer, shifted_rect(at, rect), belongs)
        }
    }
}

/// Adds wires of a net, of which the first is this piece of it.
fn add_wires<A: Allocator + Copy>(
    shapes: &mut Vec<Shape, A>,
    design: &Design<'_, A>,
    net: u32,
    first: u32,
    wires: &[Wire],
) -> Result<(), AllocError>
    requires sound { IsSound design.now.library }
    requires within { All IsWireWithin wires.now }
    requires few { first + length wires.now < 2 ^ 32 }
    ensures { OnOk result (AddsMetal (wires_metal design.now net first wires.now) shapes.old.items shapes.new.items) }
{
    for (i, wire) in wires.iter().enumerate() {
        let belongs = Belongs {
            owner: Owner::Net(net),
            component: None,
            piece: Some(first + i as u32),
        };
        add_wire(shapes, design, wire, &belongs)?;
    }
    Ok(())
}

/// Adds the wires of `NETS`, entry by entry.
pub(crate) fn add_nets<A: Allocator + Copy>(
    shapes: &mut Vec<Shape, A>,
    design: &Design<'_, A>,
    nets: &Nets<A>,
) -> Result<(), AllocError>
    requires nets { AreNetsOf design.now nets.now }
    requires sound { IsSound design.now.library }
    ensures { OnOk result (AddsMetal (nets_metal design.now 0 design.now.nets) shapes.old.items shapes.new.items) }
{
    for (n, net) in design.nets().iter().enumerate() {
        let first = nets.terminal_count(n);
        add_wires(shapes, design, n as u32, first, net.wires.as_slice())?;
    }
    Ok(())
}

/// How many wires the entry of `NETS` of this number has, if there is one.
fn regular_wire_count<A: Allocator + Copy>(design: &Design<'_, A>, n: usize) -> usize
    ensures { result ≡ length (entry_wires (regular_entry design.now n)) }
{
    match design.nets().get(n) {
        Some(net) => net.wires.as_slice().len(),
        None => 0,
    }
}

/// Adds the wires of `SPECIALNETS`, entry by entry.
pub(crate) fn add_specials<A: Allocator + Copy>(
    shapes: &mut Vec<Shape, A>,
    design: &Design<'_, A>,
    nets: &Nets<A>,
) -> Result<(), AllocError>
    requires nets { AreNetsOf design.now nets.now }
    requires sound { IsSound design.now.library }
    ensures { OnOk result (AddsMetal (specials_metal design.now 0 design.now.special) shapes.old.items shapes.new.items) }
{
    for (k, net) in design.special().iter().enumerate() {
        let n = nets.number_of_special(k);
        let before = regular_wire_count(design, n as usize) as u32;
        let first = nets.terminal_count(n as usize) + before;
        add_wires(shapes, design, n, first, net.wires.as_slice())?;
    }
    Ok(())
}

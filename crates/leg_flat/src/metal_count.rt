//! Whether a design has more shapes than a flat may have.

ghost use Rattle.std.specs.Prelude.{◌≡◌, ℕ, length, slice_get};
ghost use Rattle.leg_geom.specs.declared.place.Place.{Place};
ghost use Rattle.leg_lib_records.specs.Measure.{ExtentModel};
ghost use Rattle.leg_design_records.specs.Records.{DesignModel, blockage_said};
ghost use Rattle.leg_rules.specs.Metal.Metal.{wire_outlines, wires_metal, port_outlines, ports_outlines, pins_metal, component_metal, components_metal, design_pins_metal, blockage_metal, blockages_metal, nets_metal, specials_metal, metal_of};
ghost use Rattle.leg_flat.specs.Steps.ShapeCount.{counted};

use crate::metal::master_numbered;
use leg_design_records::{Blockage, Component, Design, Net, PART_LIMIT, Port, Wire};
use leg_lib_records::MasterPin;
use std::alloc::Allocator;

/// Adds, saturating at one above the limit.
fn counted(before: u64, more: usize) -> u64
    ensures { result ≡ counted before more }
{
    before.saturating_add(more as u64).min(PART_LIMIT + 1)
}

/// The shapes of pins of a macro, more than before.
fn count_pins<A: Allocator>(before: u64, pins: &[MasterPin<'_, A>]) -> u64
    ensures { (design : DesignModel) (c : ℕ) (place : Place) (size : ExtentModel)
        → result ≡ counted before (length (pins_metal design c place size 0 pins.now)) }
{
    let mut count = counted(before, 0);
    for pin in pins {
        count = counted(count, pin.shapes.as_slice().len());
    }
    count
}

/// The shapes of a component, more than before.
fn count_component<A: Allocator + Copy>(
    before: u64,
    design: &Design<'_, A>,
    component: &Component<'_>,
) -> u64
    ensures { (c : ℕ) → result ≡ counted before
        (length (component_metal design.now c component.now.place (slice_get design.now.library.masters component.now.master))) }
{
    let master = master_numbered(design, component.master);
    let (Some(_place), Some(master)) = (&component.place, master) else {
        return counted(before, 0);
    };
    let with_pins = count_pins(before, master.pins.as_slice());
    counted(with_pins, master.obstructions.as_slice().len())
}

/// The shapes of the components, more than before.
fn count_components<A: Allocator + Copy>(before: u64, design: &Design<'_, A>) -> u64
    ensures { result ≡ counted before (length (components_metal design.now 0 design.now.components)) }
{
    let mut count = counted(before, 0);
    for component in design.components() {
        count = count_component(count, design, component);
    }
    count
}

/// How many shapes a port has: none where it has no place.
fn port_shapes<A: Allocator>(port: &Port<A>) -> usize
    ensures { result ≡ length (port_outlines port.now.place port.now.shapes) }
{
    match &port.place {
        Some(_place) => port.shapes.as_slice().len(),
        None => 0,
    }
}

/// The shapes of ports, more than before.
fn count_ports<A: Allocator>(before: u64, ports: &[Port<A>]) -> u64
    ensures { result ≡ counted before (length (ports_outlines ports.now)) }
{
    let mut count = counted(before, 0);
    for port in ports {
        count = counted(count, port_shapes(port));
    }
    count
}

/// The shapes of the pins of the design, more than before.
fn count_design_pins<A: Allocator + Copy>(before: u64, design: &Design<'_, A>) -> u64
    ensures { result ≡ counted before (length (design_pins_metal design.now 0 design.now.pins)) }
{
    let mut count = counted(before, 0);
    for pin in design.pins() {
        count = count_ports(count, pin.ports.as_slice());
    }
    count
}

/// How many shapes a blockage has: its rectangles, if it is of a layer.
fn blockage_shapes<A: Allocator>(blockage: &Blockage<A>) -> usize
    ensures { (k : ℕ) → result ≡ length (blockage_metal k (blockage_said blockage.now).layer (blockage_said blockage.now).rects) }
{
    match blockage {
        Blockage::LayerRects { rects, .. } => rects.as_slice().len(),
        Blockage::Placement { .. } => 0,
    }
}

/// The shapes of the blockages, more than before.
fn count_blockages<A: Allocator + Copy>(before: u64, design: &Design<'_, A>) -> u64
    ensures { result ≡ counted before (length (blockages_metal 0 design.now.blockages)) }
{
    let mut count = counted(before, 0);
    for blockage in design.blockages() {
        count = counted(count, blockage_shapes(blockage));
    }
    count
}

/// How many shapes a wire has.
pub(crate) fn wire_shapes<A: Allocator + Copy>(design: &Design<'_, A>, wire: &Wire) -> usize
    ensures { result ≡ length (wire_outlines design.now wire.now) }
{
    match wire {
        Wire::Segment { .. } | Wire::Patch { .. } => 1,
        Wire::ViaAt { via, .. } => match design.via_numbered(*via) {
            Some(via) => via.shapes.as_slice().len(),
            None => 0,
        },
    }
}

/// The shapes of wires, more than before.
fn count_wires<A: Allocator + Copy>(before: u64, design: &Design<'_, A>, wires: &[Wire]) -> u64
    ensures { (n piece : ℕ) → result ≡ counted before (length (wires_metal design.now n piece wires.now)) }
{
    let mut count = counted(before, 0);
    for wire in wires {
        count = counted(count, wire_shapes(design, wire));
    }
    count
}

/// The shapes of the wires of entries of either section, more than before.
fn count_nets<A: Allocator + Copy>(before: u64, design: &Design<'_, A>, nets: &[Net<'_, A>]) -> u64
    ensures regular { result ≡ counted before (length (nets_metal design.now 0 nets.now)) }
    ensures special { result ≡ counted before (length (specials_metal design.now 0 nets.now)) }
{
    let mut count = counted(before, 0);
    for net in nets {
        count = count_wires(count, design, net.wires.as_slice());
    }
    count
}

/// How many shapes the design has; what is beyond `PART_LIMIT` is counted as one beyond it.
pub(crate) fn shape_count<A: Allocator + Copy>(design: &Design<'_, A>) -> u64
    ensures { result ≡ counted 0 (length (metal_of design.now)) }
{
    let count = count_components(0, design);
    let count = count_design_pins(count, design);
    let count = count_blockages(count, design);
    let count = count_nets(count, design, design.nets());
    count_nets(count, design, design.special())
}

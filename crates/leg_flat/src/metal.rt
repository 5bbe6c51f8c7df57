//! The metal of the components of a design, of its pins and of its blockages.

ghost use Rattle.std.specs.Prelude.{◌≡◌, All, OnOk, None, Some, map, option_map, slice_get};
ghost use Rattle.leg_design_records.specs.Records.{DesignModel, blockage_said};
ghost use Rattle.leg_design_records.specs.WellFormedParts.{IsArea, IsPosition};
ghost use Rattle.leg_rules.specs.declared.owner.Owner.TheVariants.{Obs};
ghost use Rattle.leg_lib_records.specs.Sound.{IsSoundMaster, IsSound};
ghost use Rattle.leg_rules.specs.Metal.Outline.Outline.{Rectangle};
ghost use Rattle.leg_rules.specs.Metal.Metal.{belonging, drawn, pins_metal, component_metal, components_metal, port_outlines, ports_outlines, design_pins_metal, blockage_metal, blockages_metal};
ghost use Rattle.leg_flat.specs.Steps.Places.{AreNetsOf};
ghost use Rattle.leg_flat.specs.Steps.AddedMetal.{AddsMetal, IsPlaceWithin, IsPortWithin, master_of};

use crate::metal_parts::{Belongs, add_drawn, add_shape, of_component_pin, of_design_pin};
use crate::nets::Nets;
use leg_design_records::{Blockage, Component, Design, Port};
use leg_geom::{Place, Rect};
use leg_lib_records::Master;
use leg_rules::{Owner, Shape};
use std::alloc::{AllocError, Allocator};

/// Adds the pins of a component of this macro.
fn add_pins<A: Allocator + Copy>(
    shapes: &mut Vec<Shape, A>,
    nets: &Nets<A>,
    component: u32,
    place: &Place,
    master: &Master<'_, A>,
) -> Result<(), AllocError>
    requires at { IsPosition place.now.at }
    requires within { IsSoundMaster master.now }
    ensures { (design : DesignModel) → AreNetsOf design nets.now → master_of design component ≡ Some master.now
        → OnOk result (AddsMetal (pins_metal design component place.now master.now.size 0 master.now.pins) shapes.old.items shapes.new.items) }
{
    let (width, height) = (master.size.width(), master.size.height());
    for (k, pin) in master.pins.as_slice().iter().enumerate() {
        let belongs = of_component_pin(nets, component, k, pin.supply);
        add_drawn(
            shapes,
            place,
            width,
            height,
            pin.shapes.as_slice(),
            &belongs,
        )?;
    }
    Ok(())
}

/// Adds the obstructions of a component of this macro.
fn add_obstructions<A: Allocator + Copy>(
    shapes: &mut Vec<Shape, A>,
    component: u32,
    place: &Place,
    master: &Master<'_, A>,
) -> Result<(), AllocError>
    requires at { IsPosition place.now.at }
    requires within { IsSoundMaster master.now }
    ensures { OnOk result (AddsMetal
        (belonging (record { owner = Obs component; component = Some component; piece = None })
        (drawn place.now master.now.size master.now.obstructions))
        shapes.old.items shapes.new.items) }
{
    let (width, height) = (master.size.width(), master.size.height());
    let belongs = Belongs {
        owner: Owner::Obs(component),
        component: Some(component),
        piece: None,
    };
    add_drawn(
        shapes,
        place,
        width,
        height,
        master.obstructions.as_slice(),
        &belongs,
    )
}

/// The macro of this number.
pub(crate) fn master_numbered<'d, 'a, A: Allocator + Copy>(
    design: &'d Design<'a, A>,
    number: usize,
) -> Option<&'d Master<'a, A>>
    ensures { option_map (λ master. master.now) result ≡ slice_get design.now.library.masters number }
{
    design.library().masters().get(number)
}

/// Adds a component, whose number this is: its pins, and then its obstructions, if it has a place.
fn add_component<A: Allocator + Copy>(
    shapes: &mut Vec<Shape, A>,
    design: &Design<'_, A>,
    nets: &Nets<A>,
    number: u32,
    component: &Component<'_>,
) -> Result<(), AllocError>
    requires nets { AreNetsOf design.now nets.now }
    requires sound { IsSound design.now.library }
    requires there { slice_get design.now.components number ≡ Some component.now }
    requires at { IsPlaceWithin component.now.place }
    ensures { OnOk result (AddsMetal
        (component_metal design.now number component.now.place (slice_get design.now.library.masters component.now.master))
        shapes.old.items shapes.new.items) }
{
    let master = master_numbered(design, component.master);
    let (Some(place), Some(master)) = (&component.place, master) else {
        return Ok(());
    };
    add_pins(shapes, nets, number, place, master)?;
    add_obstructions(shapes, number, place, master)
}

/// Adds the components, in file order.
pub(crate) fn add_components<A: Allocator + Copy>(
    shapes: &mut Vec<Shape, A>,
    design: &Design<'_, A>,
    nets: &Nets<A>,
) -> Result<(), AllocError>
    requires nets { AreNetsOf design.now nets.now }
    requires sound { IsSound design.now.library }
    ensures { OnOk result (AddsMetal (components_metal design.now 0 design.now.components) shapes.old.items shapes.new.items) }
{
    for (c, component) in design.components().iter().enumerate() {
        add_component(shapes, design, nets, c as u32, component)?;
    }
    Ok(())
}

/// Adds the shapes of a port, if it has a place.
fn add_port<A: Allocator + Copy>(
    shapes: &mut Vec<Shape, A>,
    port: &Port<A>,
    belongs: &Belongs,
) -> Result<(), AllocError>
    requires { IsPortWithin port.now }
    ensures { OnOk result (AddsMetal (belonging belongs.now (port_outlines port.now.place port.now.shapes)) shapes.old.items shapes.new.items) }
{
    match &port.place {
        Some(place) => add_drawn(shapes, place, 0, 0, port.shapes.as_slice(), belongs),
        None => Ok(()),
    }
}

/// Adds the shapes of the ports of a pin.
fn add_ports<A: Allocator + Copy>(
    shapes: &mut Vec<Shape, A>,
    ports: &[Port<A>],
    belongs: &Belongs,
) -> Result<(), AllocError>
    requires { All IsPortWithin ports.now }
    ensures { OnOk result (AddsMetal (belonging belongs.now (ports_outlines ports.now)) shapes.old.items shapes.new.items) }
{
    for port in ports {
        add_port(shapes, port, belongs)?;
    }
    Ok(())
}

/// Adds the pins of the design, in file order.
pub(crate) fn add_design_pins<A: Allocator + Copy>(
    shapes: &mut Vec<Shape, A>,
    design: &Design<'_, A>,
    nets: &Nets<A>,
) -> Result<(), AllocError>
    requires { AreNetsOf design.now nets.now }
    ensures { OnOk result (AddsMetal (design_pins_metal design.now 0 design.now.pins) shapes.old.items shapes.new.items) }
{
    for (p, pin) in design.pins().iter().enumerate() {
        let belongs = of_design_pin(nets, p as u32);
        add_ports(shapes, pin.ports.as_slice(), &belongs)?;
    }
    Ok(())
}

/// Adds rectangles of a layer, each as it is.
fn add_rects<A: Allocator + Copy>(
    shapes: &mut Vec<Shape, A>,
    layer: usize,
    rects: &[Rect],
    belongs: &Belongs,
) -> Result<(), AllocError>
    requires { All IsArea rects.now }
    ensures { OnOk result (AddsMetal (belonging belongs.now (map (λ rect. record { layer = layer; outline = Rectangle rect }) rects.now))
        shapes.old.items shapes.new.items) }
{
    for rect in rects {
        add_shape(shapes, layer, *rect, belongs)?;
    }
    Ok(())
}

/// Adds a blockage, whose number this is: its rectangles, if it is of a layer.
fn add_blockage<A: Allocator + Copy>(
    shapes: &mut Vec<Shape, A>,
    number: u32,
    blockage: &Blockage<A>,
) -> Result<(), AllocError>
    requires { All IsArea (blockage_said blockage.now).rects }
    ensures { OnOk result (AddsMetal (blockage_metal number (blockage_said blockage.now).layer (blockage_said blockage.now).rects)
        shapes.old.items shapes.new.items) }
{
    let belongs = Belongs {
        owner: Owner::Blocking(number),
        component: None,
        piece: None,
    };
    match blockage {
        Blockage::LayerRects { layer, rects } => {
            add_rects(shapes, *layer, rects.as_slice(), &belongs)
        }
        Blockage::Placement { .. } => Ok(()),
    }
}

/// Adds the blockages of layers, in file order. Those of placement count in the numbers, and have no metal.
pub(crate) fn add_blockages<A: Allocator + Copy>(
    shapes: &mut Vec<Shape, A>,
    design: &Design<'_, A>,
) -> Result<(), AllocError>
    ensures { OnOk result (AddsMetal (blockages_metal 0 design.now.blockages) shapes.old.items shapes.new.items) }
{
    for (k, blockage) in design.blockages().iter().enumerate() {
        add_blockage(shapes, k as u32, blockage)?;
    }
    Ok(())
}

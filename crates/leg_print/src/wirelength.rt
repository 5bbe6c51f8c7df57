//! The wirelength of a design.

ghost use Rattle.std.specs.Prelude.{◌≡◌, ◌≤◌, ◌*◌, ℕ, ℤ, All, Some, slice_get};
ghost use Rattle.leg_lex.specs.Number.{IsNumber};
ghost use Rattle.leg_geom.specs.declared.limits.TheConstants.{COORDINATE_LIMIT};
ghost use Rattle.leg_lib_records.specs.declared.records.Shape.{Shape};
ghost use Rattle.leg_design_records.specs.declared.records.Terminal.TheVariants.{Comp, Pin};
ghost use Rattle.leg_design_records.specs.Records.{PortModel};
ghost use Rattle.leg_design_records.specs.WellFormedParts.{IsPosition};
ghost use Rattle.leg_rules.specs.Metal.Nets.{special_named, entry_terminals};
ghost use Rattle.leg_flat.specs.Steps.AddedMetal.{AreDrawnWithin, IsPortWithin};
ghost use Rattle.leg_flat.specs.Steps.Bounds.{IsDrawnWithin};
ghost use Rattle.leg_rules.specs.Wirelength.{IsLeastBox, IsLeastBoxIfAny, HasTerminalPoint, IsTerminalCentre, IsCentreAmong, IsNetLength, IsWirelength};
ghost use Rattle.leg_print.specs.Steps.Wirelength.{IsOfSome, IsOfShape, IsOfPort};

use crate::wirelength_box::{Bounds, joined};
use leg_design_records::{Design, Net, Port, Terminal};
use leg_geom::Place;
use leg_lib_records::{Library, Shape};
use std::alloc::Allocator;

/// The half-perimeter wirelength of a design, in database units: over the nets of `NETS`, half of the way round the least
/// box that holds the centres of their terminals.
///
/// The design was read with this library. Takes no memory. The terminals of each entry are gone through once.
pub fn hpwl<A: Allocator + Copy>(library: &Library<'_, A>, design: &Design<'_, A>) -> i64
    requires { library.now ≡ design.now.library }
    ensures is { IsWirelength design.now result }
    // No other number is the design's wirelength.
    ensures only { (total : ℤ) → IsWirelength design.now total → total ≡ result }
{
    let mut total = 0;
    for net in design.nets() {
        total += net_length(design, net);
    }
    total as i64
}

/// The length of a net of `NETS`.
fn net_length<A: Allocator + Copy>(design: &Design<'_, A>, net: &Net<'_, A>) -> u64
    ensures is { (n : ℕ) → slice_get design.now.nets n ≡ Some net.now → IsNetLength design.now n result }
    ensures small { result ≤ 4 * COORDINATE_LIMIT }
{
    let regular = centres_box(design, net.terminals.as_slice());
    let special = centres_box(design, special_terminals(design, net.name.bytes()));
    match joined(regular, special) {
        Some(bounds) => bounds.half_perimeter(),
        None => 0,
    }
}

/// The terminals of the entry of `SPECIALNETS` of this name.
#[tactic(auto, using(crate::proofs::SpecialNames::terminals_found, crate::proofs::SpecialNames::nothing_there, crate::proofs::SpecialNames::nothing_named))]
fn special_terminals<'d, A: Allocator + Copy>(
    design: &'d Design<'_, A>,
    name: &[u8],
) -> &'d [Terminal]
    ensures { result.now ≡ entry_terminals (special_named design.now name.now) }
{
    let Some(number) = design.special_named(name) else {
        return &[];
    };
    match design.special().get(number) {
        Some(net) => net.terminals.as_slice(),
        None => &[],
    }
}

/// The least box that holds the centres of these terminals, where one of them has shapes.
fn centres_box<A: Allocator + Copy>(
    design: &Design<'_, A>,
    terminals: &[Terminal],
) -> Option<Bounds>
    ensures { IsLeastBoxIfAny (IsCentreAmong design.now terminals.now) result }
{
    let mut bounds = None;
    for terminal in terminals {
        bounds = joined(bounds, terminal_centre(design, terminal));
    }
    bounds
}

/// The centre of a terminal, as a box, where it has shapes.
fn terminal_centre<A: Allocator + Copy>(
    design: &Design<'_, A>,
    terminal: &Terminal,
) -> Option<Bounds>
    ensures { IsLeastBoxIfAny (IsTerminalCentre design.now terminal.now) result }
{
    let bounds = terminal_box(design, terminal)?;
    Some(bounds.centre())
}

/// The least box that holds a terminal's shapes, where it has some.
fn terminal_box<A: Allocator + Copy>(design: &Design<'_, A>, terminal: &Terminal) -> Option<Bounds>
    ensures { IsLeastBoxIfAny (HasTerminalPoint design.now terminal.now) result }
{
    match terminal {
        Terminal::Comp { component, pin } => component_pin_box(design, *component, *pin),
        Terminal::Pin(number) => design_pin_box(design, *number),
    }
}

/// The least box that holds the shapes of a component's pin, both by their numbers, where it has some.
fn component_pin_box<A: Allocator + Copy>(
    design: &Design<'_, A>,
    component: u32,
    pin: usize,
) -> Option<Bounds>
    ensures { IsLeastBoxIfAny (HasTerminalPoint design.now (Comp component pin)) result }
{
    let component = design.components().get(component as usize)?;
    let place = component.place?;
    let master = design.library().masters().get(component.master)?;
    let pin = master.pins.as_slice().get(pin)?;
    let (width, height) = (master.size.width(), master.size.height());
    drawn_box(&place, width, height, pin.shapes.as_slice())
}

/// The least box that holds the shapes of a pin of the design, where it has some.
fn design_pin_box<A: Allocator + Copy>(design: &Design<'_, A>, pin: u32) -> Option<Bounds>
    ensures { IsLeastBoxIfAny (HasTerminalPoint design.now (Pin pin)) result }
{
    let pin = design.pins().get(pin as usize)?;
    ports_box(pin.ports.as_slice())
}

/// The least box that holds the shapes of these ports, where there are some.
fn ports_box<A: Allocator + Copy>(ports: &[Port<A>]) -> Option<Bounds>
    requires { All IsPortWithin ports.now }
    ensures { IsLeastBoxIfAny (IsOfSome PortModel IsOfPort ports.now) result }
{
    let mut bounds = None;
    for port in ports {
        bounds = joined(bounds, port_box(port));
    }
    bounds
}

/// The least box that holds the shapes of a port, where it has some and a place.
fn port_box<A: Allocator + Copy>(port: &Port<A>) -> Option<Bounds>
    requires { IsPortWithin port.now }
    ensures { IsLeastBoxIfAny (IsOfPort port.now) result }
{
    let place = port.place?;
    drawn_box(&place, 0, 0, port.shapes.as_slice())
}

/// The least box that holds shapes of a box of this size, which is at a place, where there are some.
fn drawn_box(place: &Place, width: i64, height: i64, shapes: &[Shape]) -> Option<Bounds>
    requires at { IsPosition place.now.at }
    requires width { IsNumber width }
    requires height { IsNumber height }
    requires within { AreDrawnWithin shapes.now }
    ensures { IsLeastBoxIfAny (IsOfSome Shape (IsOfShape place.now (record { width = width; height = height })) shapes.now) result }
{
    let mut bounds = None;
    for shape in shapes {
        bounds = joined(bounds, Some(shape_box(place, width, height, shape)));
    }
    bounds
}

/// The box of one shape of a box of this size, which is at a place.
fn shape_box(place: &Place, width: i64, height: i64, shape: &Shape) -> Bounds
    requires at { IsPosition place.now.at }
    requires width { IsNumber width }
    requires height { IsNumber height }
    requires within { IsDrawnWithin shape.now.rect }
    ensures { IsLeastBox (IsOfShape place.now (record { width = width; height = height }) shape.now) result }
{
    Bounds::of(&place.rect(width, height, &shape.rect))
}

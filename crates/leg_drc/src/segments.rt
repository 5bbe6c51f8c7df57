//! Which shapes are metal of segments.

ghost use Rattle.std.specs.Prelude.{◌≡◌, ◌↔◌, ◌<◌, IsTrue, IsSome, option_map, slice_get, length};
ghost use Rattle.leg_rules.specs.Metal.Flat.{IsFlatOf};
ghost use Rattle.leg_rules.specs.Metal.Nets.{wires_of, entry_wires, special_named, special_entry};
ghost use Rattle.leg_drc.specs.Wires.{IsOfSegment};
ghost use Rattle.leg_drc.specs.Steps.Segments.{IsSegmentAt};

use crate::wire_shape::wire_of;
use leg_design_records::{Design, Net, Wire};
use leg_flat::{Flat, Shape};
use std::alloc::Allocator;

/// Whether the shape is a segment.
///
/// The flat is that of the design.
pub(crate) fn is_of_segment<A: Allocator + Copy>(
    design: &Design<'_, A>,
    flat: &Flat<A>,
    shape: &Shape,
) -> bool
    requires { IsFlatOf design.now flat.now }
    ensures { IsTrue result ↔ IsOfSegment design.now flat.now shape.now }
{
    match wire_of(flat, shape) {
        Some((net, wire)) => is_segment(wire_in(design, net as usize, wire as usize)),
        None => false,
    }
}

/// Whether it is a wire, and that a segment.
fn is_segment(wire: Option<&Wire>) -> bool
    ensures { IsTrue result ↔ IsSegmentAt (option_map (λ wire. wire.now) wire.entry) }
{
    matches!(wire, Some(Wire::Segment { .. }))
}

/// The wire of this number of the net of this number, which has one: those of its entry of `NETS` count first, and then those of its
/// entry of `SPECIALNETS`.
fn wire_in<'d, A: Allocator + Copy>(
    design: &'d Design<'_, A>,
    net: usize,
    number: usize,
) -> Option<&'d Wire>
    requires { number < length (wires_of design.now net) }
    ensures { option_map (λ wire. wire.now) result ≡ slice_get (wires_of design.now net) number }
{
    let regular = entry_wires(design.nets().get(net));
    if number < regular.len() {
        return regular.get(number);
    }
    entry_wires(special_entry(design, net)).get(number - regular.len())
}

/// The entry of `SPECIALNETS` of the net of this number, which has one: where the net has an entry of `NETS`, that of the same name.
fn special_entry<'d, 'a, A: Allocator + Copy>(
    design: &'d Design<'a, A>,
    net: usize,
) -> Option<&'d Net<'a, A>>
    requires { IsSome (special_entry design.now net) }
    ensures { option_map (λ entry. entry.now) result ≡ special_entry design.now net }
{
    let nets = design.nets();
    match nets.get(net) {
        Some(regular) => special_named(design, regular.name.bytes()),
        None => design.special().get(net - nets.len()),
    }
}

/// The entry of `SPECIALNETS` of this name.
fn special_named<'d, 'a, A: Allocator + Copy>(
    design: &'d Design<'a, A>,
    name: &[u8],
) -> Option<&'d Net<'a, A>>
    ensures { option_map (λ entry. entry.now) result ≡ special_named design.now name.now }
{
    let place = design.special_named(name)?;
    design.special().get(place)
}

/// The wires that an entry has.
fn entry_wires<'d, A: Allocator + Copy>(entry: Option<&'d Net<'_, A>>) -> &'d [Wire]
    ensures { result.now ≡ entry_wires (option_map (λ net. net.now) entry.entry) }
{
    match entry {
        Some(net) => net.wires.as_slice(),
        None => &[],
    }
}

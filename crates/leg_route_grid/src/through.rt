//! The vias from each routing layer to the next one above.

ghost use Rattle.std.specs.Prelude.{◌≡◌, ◌↔◌, ◌≤◌, ℕ, IsTrue, Any, All, Some, MatchOption, length, IfOk};
ghost use Rattle.std.specs.Option.{unwrap_or};
ghost use Rattle.leg_lib_records.specs.References.{IsViaOf};
ghost use Rattle.leg_rules.specs.Route.Between.{JoinsLayers};
ghost use Rattle.leg_route_grid.specs.Steps.Grid.{AreRoutingLayers, AreViasFrom};
ghost use Rattle.leg_route_grid.specs.Steps.Joining.{JoinsNodes, JoinsAt, AreFirstVias, AreRouting};

use crate::layers::{RoutingLayer, routing_layer_of};
use leg_lib_records::laws::good_vias_join_layers;
use leg_lib_records::{Library, Shape, Via};
use std::alloc::{AllocError, Allocator};

/// Whether one of the shapes lies on the layer of this number.
fn use_layer(shapes: &[Shape], layer: usize) -> bool
    ensures { IsTrue result ↔ Any (λ shape. shape.layer ≡ layer) shapes.now }
{
    shapes.iter().any(|shape| shape.layer == layer)
}

/// Whether shapes lie on both of these layers.
fn use_both(shapes: &[Shape], low: usize, high: usize) -> bool
    ensures { IsTrue result ↔ (Any (λ shape. shape.layer ≡ low) shapes.now × Any (λ shape. shape.layer ≡ high) shapes.now) }
{
    use_layer(shapes, low) && use_layer(shapes, high)
}

/// Whether the via is a good one that joins these routing layers, between which there is no other.
fn joins<A: Allocator + Copy>(
    library: &Library<'_, A>,
    via: &Via<'_, A>,
    low: usize,
    high: usize,
) -> bool
    requires of { IsViaOf library.now via.now }
    requires routing { AreRouting library.now low high }
    ensures { IsTrue result ↔ JoinsLayers library.now low high via.now }
{
    good_vias_join_layers();
    via.good && use_both(via.shapes.as_slice(), low, high)
}

/// The same, where only default vias are asked for if `only_default` is set.
fn joins_as<A: Allocator + Copy>(
    library: &Library<'_, A>,
    via: &Via<'_, A>,
    low: usize,
    high: usize,
    only_default: bool,
) -> bool
    requires of { IsViaOf library.now via.now }
    requires routing { AreRouting library.now low high }
    ensures { IsTrue result ↔ JoinsNodes library.now low high only_default via.now }
{
    (via.default_via || !only_default) && joins(library, via, low, high)
}

/// The lowest layer on which shapes lie, if there are shapes.
fn lowest_layer(shapes: &[Shape]) -> Option<usize>
    ensures { MatchOption result (length shapes.now ≡ 0)
        (λ lowest. Any (λ shape. shape.layer ≡ lowest) shapes.now × All (λ shape. lowest ≤ shape.layer) shapes.now) }
{
    shapes.iter().map(|shape| shape.layer).min()
}

/// From which of the routing layers the via leads to the next one above, if it joins two of them, and is a default via if
/// `only_default` is set. It is the one on which its lowest shape lies.
fn place_joined<A: Allocator + Copy>(
    library: &Library<'_, A>,
    layers: &[RoutingLayer],
    via: &Via<'_, A>,
    only_default: bool,
) -> Option<usize>
    requires of { IsViaOf library.now via.now }
    requires are { AreRoutingLayers library.now layers.now }
    ensures { (k : ℕ) → result ≡ Some k ↔ JoinsAt library.now layers.now only_default via.now k }
{
    let lowest = lowest_layer(via.shapes.as_slice())?;
    let place = routing_layer_of(layers, lowest)?;
    if place + 1 >= layers.len() {
        return None;
    }
    let (low, high) = (layers[place].number, layers[place + 1].number);
    if joins_as(library, via, low, high, only_default) {
        Some(place)
    } else {
        None
    }
}

/// Notes the via of this number, if none is noted yet.
fn note_via(first: &mut Option<usize>, number: usize)
    ensures { first.new ≡ Some (unwrap_or first.old number) }
{
    *first = Some(first.unwrap_or(number));
}

/// For each of the routing layers the first via that joins it and the next one above, by its number: of the default ones alone,
/// or of all. Each via is looked at once.
fn first_vias<A: Allocator + Copy>(
    alloc: A,
    library: &Library<'_, A>,
    layers: &[RoutingLayer],
    only_default: bool,
) -> Result<Vec<Option<usize>, A>, AllocError>
    requires { AreRoutingLayers library.now layers.now }
    ensures { IfOk result (λ firsts. AreFirstVias library.now layers.now only_default (length library.now.vias) firsts.items) }
{
    let mut firsts = Vec::from_elem(alloc, None, layers.len())?;
    for (number, via) in library.vias().iter().enumerate() {
        if let Some(place) = place_joined(library, layers, via, only_default) {
            note_via(&mut firsts[place], number);
        }
    }
    Ok(firsts)
}

/// For each of the routing layers the via to the next one above: the first default via that joins them, or where there is none
/// the first via that does.
pub(crate) fn vias_between<A: Allocator + Copy>(
    alloc: A,
    library: &Library<'_, A>,
    layers: &[RoutingLayer],
) -> Result<Vec<Option<usize>, A>, AllocError>
    requires { AreRoutingLayers library.now layers.now }
    ensures { IfOk result (λ vias. AreViasFrom library.now layers.now (length layers.now) vias.items) }
{
    let defaults = first_vias(alloc, library, layers, true)?;
    let others = first_vias(alloc, library, layers, false)?;
    let mut vias = Vec::with_capacity(alloc, layers.len())?;
    for k in 0..layers.len() {
        let default_via = defaults[k];
        let other = others[k];
        vias.push(default_via.or(other))?;
    }
    Ok(vias)
}

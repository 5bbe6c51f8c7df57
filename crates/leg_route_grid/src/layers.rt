//! The routing layers of a library.

ghost use Rattle.std.specs.Prelude.{◌≡◌, ◌<◌, ◌++◌, AllPairs, IfOk, OnOk};
ghost use Rattle.leg_route_grid.specs.Steps.LayerList.{routing_layer_at, routing_from};
ghost use Rattle.leg_route_grid.specs.Steps.SlotRanges.{IsLayerIfAny};

use leg_lib_records::{Direction, Layer, LayerKind};
use std::alloc::{AllocError, Allocator};

/// A routing layer, in database units.
#[derive(Clone, Copy, PartialEq, Eq, Debug)]
pub struct RoutingLayer {
    /// The layer's number in the library.
    pub number: usize,
    /// The direction of its wires.
    pub direction: Direction,
    /// The width of its wires.
    pub width: i64,
}

/// Adds the layer, if it is a routing layer.
fn add_routing<A: Allocator>(
    found: &mut Vec<RoutingLayer, A>,
    number: usize,
    kind: LayerKind,
) -> Result<(), AllocError>
    ensures { OnOk result (found.new.items ≡ found.old.items ++ routing_layer_at number kind) }
{
    match kind {
        LayerKind::Routing { direction, width } => {
            found.push(RoutingLayer {
                number,
                direction,
                width,
            })?;
            Ok(())
        }
        LayerKind::Cut => Ok(()),
        LayerKind::Other => Ok(()),
    }
}

/// The routing layers, bottom up.
pub(crate) fn routing_layers<A: Allocator>(
    alloc: A,
    layers: &[Layer<'_>],
) -> Result<Vec<RoutingLayer, A>, AllocError>
    ensures { IfOk result (λ found. found.items ≡ routing_from 0 layers.now) }
{
    let mut found = Vec::new(alloc);
    for (number, layer) in layers.iter().enumerate() {
        add_routing(&mut found, number, layer.kind)?;
    }
    Ok(found)
}

/// Which of the routing layers, bottom up, has this number in the library, if one has.
pub fn routing_layer_of(layers: &[RoutingLayer], number: usize) -> Option<usize>
    requires { AllPairs (λ a b. a.number < b.number) layers.now }
    ensures { IsLayerIfAny layers.now number result }
{
    let place = layers.partition_point(|own| own.number < number);
    if place >= layers.len() {
        return None;
    }
    let own = layers[place].number;
    if own == number { Some(place) } else { None }
}

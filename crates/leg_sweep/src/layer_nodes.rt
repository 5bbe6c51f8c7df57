//! The nodes of each layer's rectangles, in which those near one are found.

ghost use Rattle.std.specs.Prelude.{◌≡◌, ◌<◌, ◌^◌, ◌++◌, ◌∷◌, [], length, map, replicate, slice_set, slice_index_or, IfOk, OnOk};
ghost use Rattle.leg_sweep.specs.Steps.Layers.{AreKeysByLayer, AreNodesByLayer};

use crate::curve::curve_key;
use crate::groups::nodes_of;
use crate::node::Node;
use crate::rule::LayeredRule;
use leg_geom::Rect;
use std::alloc::{AllocError, Allocator};
use std::marker::Model;

/// The nodes of the rectangles of a layer.
#[derive(Drop)]
pub(crate) struct LayerNodes<A: Allocator> {
    pub(crate) nodes: Vec<Node, A>,
}

impl<A: Allocator> Model for LayerNodes<A> {
    ghost use Rattle.std.specs.Prelude.{List};
    ghost use Rattle.leg_sweep.specs.declared.node.Node.{Node};

    ghost Value = { List Node };

    ghost view = { λ of_layer. of_layer.nodes.items };
}

/// The keys of the rectangles of a layer, each with the number of its rectangle.
#[derive(Drop)]
struct LayerKeys<A: Allocator> {
    keys: Vec<(u64, u32), A>,
}

impl<A: Allocator> Model for LayerKeys<A> {
    ghost use Rattle.std.specs.Prelude.{ℕ, List};

    ghost Value = { List (ℕ × ℕ) };

    ghost view = { λ of_layer. of_layer.keys.items };
}

/// The nodes of each layer's rectangles. Those of the items go by the items' numbers.
pub(crate) fn nodes_by_layer<R: LayeredRule, A: Allocator + Copy>(
    alloc: A,
    items: &[R::Item],
    rule: &R,
    rects: &[Rect],
) -> Result<Vec<LayerNodes<A>, A>, AllocError>
    requires few { length items.now < 2 ^ 32 }
    requires all { length rects.now ≡ length items.now }
    ensures { let fixed = R.fixed rule.now in
        IfOk result (λ layers. AreNodesByLayer rects.now (map (R.layer_of fixed) items.now) (R.layers_of fixed) layers.items) }
{
    let keys = keys_by_layer(alloc, items, rule, rects)?;
    let mut layers = Vec::with_capacity(alloc, keys.len())?;
    for of_layer in keys {
        let nodes = nodes_of(alloc, rects, of_layer.keys)?;
        layers.push(LayerNodes { nodes })?;
    }
    Ok(layers)
}

/// The keys of each layer's rectangles.
fn keys_by_layer<R: LayeredRule, A: Allocator + Copy>(
    alloc: A,
    items: &[R::Item],
    rule: &R,
    rects: &[Rect],
) -> Result<Vec<LayerKeys<A>, A>, AllocError>
    requires few { length items.now < 2 ^ 32 }
    requires all { length rects.now ≡ length items.now }
    ensures { let fixed = R.fixed rule.now in
        IfOk result (λ layers. AreKeysByLayer (map (R.layer_of fixed) items.now) (R.layers_of fixed) (length items.now) layers.items) }
{
    let mut layers = empty_layers(alloc, rule.layers())?;
    for number in 0..items.len() {
        let key = (curve_key(&rects[number]), number as u32);
        push_key(&mut layers, rule.layer(&items[number]), key)?;
    }
    Ok(layers)
}

/// This many layers without keys.
fn empty_layers<A: Allocator + Copy>(
    alloc: A,
    count: usize,
) -> Result<Vec<LayerKeys<A>, A>, AllocError>
    ensures { IfOk result (λ layers. layers.items ≡ replicate count []) }
{
    let mut layers = Vec::with_capacity(alloc, count)?;
    for _ in 0..count {
        layers.push(LayerKeys {
            keys: Vec::new(alloc),
        })?;
    }
    Ok(layers)
}

/// Adds a key to the layer.
fn push_key<A: Allocator>(
    layers: &mut [LayerKeys<A>],
    number: usize,
    key: (u64, u32),
) -> Result<(), AllocError>
    requires { number < length layers.old }
    ensures { OnOk result (layers.new ≡ slice_set layers.old number (slice_index_or layers.old number [] ++ key ∷ [])) }
{
    let layer = &mut layers[number];
    layer.keys.push(key)?;
    Ok(())
}

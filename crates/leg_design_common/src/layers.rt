//! What the layers of a library are for (LEF/DEF 5.8, "Layer"; that only routing and cut layers carry metal is lefdef's
//! own rule).

ghost use Rattle.std.specs.Prelude.{◌≡◌, OnOk, ◌≢◌, IfErr};
ghost use Rattle.leg_lex.specs.declared.read_fault.FaultKind.TheVariants.{Memory};
ghost use Rattle.leg_lex.specs.Words.{Reads};
ghost use Rattle.leg_grammar.specs.Def.Layers.{layer_named_at, with_rect, with_rects};
ghost use Rattle.leg_design_records.specs.Layers.{width_of_layer, is_routing, has_metal};

use leg_design_records::wire_width;
use leg_geom::Rect;
use leg_lex::{Cursor, FaultKind, NameKind, Need, ReadFault};
use leg_lib_records::{LayerKind, Library, Shape, ShapeList};
use std::alloc::{AllocError, Allocator};

/// A layer of the library, by its number.
#[tactic(auto, unfolding(leg_grammar::specs::Def::Layers::layer_named_at))]
pub fn layer<A: Allocator + Copy>(
    library: &Library<'_, A>,
    words: &mut Cursor<'_, '_>,
) -> Result<usize, ReadFault>
    ensures reads { Reads (λ number. number) result words.new (layer_named_at library.now words.old) }
    ensures no_memory { IfErr result (λ fault. fault.kind ≢ Memory) }
{
    let first = words.again();
    let name = words.name()?;
    match library.layer_named(name) {
        Some(number) => Ok(number),
        None => Err(first.need(FaultKind::UnknownName, Need::Known(NameKind::Layer))),
    }
}

/// The width of the wires on the routing layer of this number.
pub fn width_of_layer<A: Allocator + Copy>(library: &Library<'_, A>, number: usize) -> Option<i64>
    ensures { result ≡ width_of_layer library.now number }
{
    wire_width(library.layers().get(number)?.kind)
}

/// Whether wires run on the layer of this number.
pub fn is_routing<A: Allocator + Copy>(library: &Library<'_, A>, number: usize) -> bool
    ensures { result ≡ is_routing library.now number }
{
    width_of_layer(library, number).is_some()
}

/// Whether the layer of this number carries metal.
pub fn has_metal<A: Allocator + Copy>(library: &Library<'_, A>, number: usize) -> bool
    ensures { result ≡ has_metal library.now number }
{
    match library.layers().get(number) {
        Some(layer) => matches!(layer.kind, LayerKind::Routing { .. } | LayerKind::Cut),
        None => false,
    }
}

/// Adds a rectangle, where its layer carries metal; on another layer it is dropped.
pub fn push_rect<A: Allocator + Copy>(
    library: &Library<'_, A>,
    layer: usize,
    rect: Rect,
    shapes: &mut ShapeList<A>,
) -> Result<(), AllocError>
    ensures { OnOk result (shapes.new ≡ with_rect library.now layer rect shapes.old) }
{
    if has_metal(library, layer) {
        shapes.push(Shape { layer, rect })?;
    }
    Ok(())
}

/// Adds rectangles on one layer, one after the other; on a layer without metal they are dropped.
#[tactic(auto, using(crate::proofs::MetalRects::one_rect_more, crate::proofs::MetalRects::all_rects))]
pub fn push_rects<A: Allocator + Copy>(
    library: &Library<'_, A>,
    layer: usize,
    rects: &[Rect],
    shapes: &mut ShapeList<A>,
) -> Result<(), AllocError>
    ensures { OnOk result (shapes.new ≡ with_rects library.now layer rects.now shapes.old) }
{
    for rect in rects {
        push_rect(library, layer, *rect, shapes)?;
    }
    Ok(())
}

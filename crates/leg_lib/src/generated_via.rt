//! Generated vias (LEF/DEF 5.8, "Via", VIARULE).

ghost use Rattle.std.specs.Prelude.{◌≡◌, slice_get, IfOk};
ghost use Rattle.leg_lex.specs.Words.{Reads, Means};
ghost use Rattle.leg_grammar.specs.Lef.Geometry.{is_routing_kind, is_cut_kind, is_layer_of};
ghost use Rattle.leg_grammar.specs.Lef.GeneratedVia.{raw_layer_at, raw_layers_at, are_via_kinds, raw_via_layers_in, raw_generated_in, raw_shapes, raw_generated_shapes};

use leg_generated_via::{after_keyword, array_shapes, none_drawn, pattern, rule, via_between};
use leg_geom::Rect;
use leg_grammar::{GeneratedVia, ViaLayers, ViaNumbers};
use leg_lex::{Cursor, FaultKind, Micron, ReadFault};
use leg_lib_records::{RawKind, RawLayer, RawLibrary, RawRect, RawShape, Shape};
use std::alloc::{AllocError, Allocator};

/// The number of the layer that comes next.
#[tactic(auto, unfolding(leg_grammar::specs::Lef::GeneratedVia::raw_layer_at))]
fn layer<A: Allocator + Copy>(
    library: &RawLibrary<'_, A>,
    words: &mut Cursor<'_, '_>,
) -> Result<usize, ReadFault>
    ensures { Reads (λ number. number) result words.new (raw_layer_at library.now words.old) }
{
    let first = words.again();
    let name = words.name()?;
    match library.layer_named(name) {
        Some(number) => Ok(number),
        None => Err(first.fault(FaultKind::UnknownName)),
    }
}

/// Three layers, from the lower plate to the upper one.
#[tactic(auto, unfolding(leg_grammar::specs::Lef::GeneratedVia::raw_layers_at))]
fn three_layers<A: Allocator + Copy>(
    library: &RawLibrary<'_, A>,
    words: &mut Cursor<'_, '_>,
) -> Result<ViaLayers, ReadFault>
    ensures { Reads (λ l. l) result words.new (raw_layers_at library.now words.old) }
{
    Ok(ViaLayers {
        low: layer(library, words)?,
        cut: layer(library, words)?,
        high: layer(library, words)?,
    })
}

/// Whether wires run on the layer of this number.
fn is_routing(layers: &[RawLayer<'_>], number: usize) -> bool
    ensures { result ≡ is_layer_of is_routing_kind (slice_get layers.now number) }
{
    match layers.get(number) {
        Some(layer) => matches!(layer.kind, RawKind::Routing { .. }),
        None => false,
    }
}

/// Whether the layer of this number is one of cuts.
fn is_cut(layers: &[RawLayer<'_>], number: usize) -> bool
    ensures { result ≡ is_layer_of is_cut_kind (slice_get layers.now number) }
{
    match layers.get(number) {
        Some(layer) => matches!(layer.kind, RawKind::Cut),
        None => false,
    }
}

/// Whether wires run on the layers of the plates, and that of the cuts is one of cuts.
fn are_via_kinds<A: Allocator + Copy>(library: &RawLibrary<'_, A>, layers: &ViaLayers) -> bool
    ensures { result ≡ are_via_kinds library.now layers.now }
{
    is_routing(library.layers(), layers.low)
        && is_cut(library.layers(), layers.cut)
        && is_routing(library.layers(), layers.high)
}

/// The layers of the statement `LAYERS`.
#[tactic(auto, unfolding(leg_grammar::specs::Lef::GeneratedVia::raw_via_layers_in))]
fn layers<A: Allocator + Copy>(
    library: &RawLibrary<'_, A>,
    statements: &[Cursor<'_, '_>],
    end: &Cursor<'_, '_>,
) -> Result<ViaLayers, ReadFault>
    ensures { Means (λ l. l) result (raw_via_layers_in library.now statements.now) }
{
    let mut words = after_keyword(statements, b"LAYERS", end)?;
    let layers = three_layers(library, &mut words)?;
    words.nothing_more()?;
    if are_via_kinds(library, &layers) {
        Ok(layers)
    } else {
        Err(words.fault(FaultKind::Unexpected))
    }
}

/// What the statements of a generated via say of its plates and its cuts, in millionths of a micron.
#[tactic(auto, unfolding(leg_grammar::specs::Lef::GeneratedVia::raw_generated_in))]
fn generated<A: Allocator + Copy>(
    library: &RawLibrary<'_, A>,
    statements: &[Cursor<'_, '_>],
    end: &Cursor<'_, '_>,
) -> Result<GeneratedVia, ReadFault>
    ensures { Means (λ v. v) result (raw_generated_in library.now statements.now) }
{
    rule(statements, end)?;
    let layers = layers(library, statements, end)?;
    via_between(ViaNumbers::Microns, &layers, statements, end)
}

/// A rectangle in millionths of a micron.
fn raw_rect(rect: &Rect) -> RawRect
    ensures { result ≡ rect.now }
{
    RawRect::new(
        Micron::of_millionths(rect.x1()),
        Micron::of_millionths(rect.y1()),
        Micron::of_millionths(rect.x2()),
        Micron::of_millionths(rect.y2()),
    )
}

/// Rectangles in millionths of a micron.
fn raw_shapes<A: Allocator + Copy>(
    alloc: A,
    shapes: &[Shape],
) -> Result<Vec<RawShape, A>, AllocError>
    ensures { IfOk result (λ v. v.items ≡ raw_shapes shapes.now) }
{
    shapes
        .iter()
        .map(|shape| RawShape {
            layer: shape.layer,
            rect: raw_rect(&shape.rect),
        })
        .collect(alloc)
}

/// The shapes that the statements of a generated via say; `end` is where these end. Every fault but `Memory` says that they say none.
#[tactic(auto, unfolding(leg_grammar::specs::Lef::GeneratedVia::raw_generated_shapes))]
pub(crate) fn generated_shapes<'a, A: Allocator + Copy>(
    alloc: A,
    library: &RawLibrary<'a, A>,
    statements: &[Cursor<'_, 'a>],
    end: &Cursor<'_, 'a>,
) -> Result<Vec<RawShape, A>, ReadFault>
    ensures { Means (λ v. v.items) result (raw_generated_shapes library.now statements.now) }
{
    none_drawn(statements)?;
    let via = generated(library, statements, end)?;
    let pattern = pattern(alloc, statements)?;
    let shapes = array_shapes(alloc, &pattern, &via, end)?;
    let shapes = raw_shapes(alloc, shapes.as_slice())?;
    Ok(shapes)
}

//! Good vias by their names and shapes: in millionths of a micron (raw), and in database units (lefdef's own rule).

ghost use Rattle.std.specs.Prelude.{◌≡◌, IfOk};
ghost use Rattle.leg_lib_records.specs.Joins.{join_layers};
ghost use Rattle.leg_lib_records.specs.GoodVia.{raw_use, use_of, raw_uses, holds_origin, raw_parts, parts_of, is_good_via};

use crate::joins::{LayerUse, ViaLayer, ViaPart, is_wiring_word, joins_layers};
use crate::library::Library;
use crate::measure::RawRect;
use crate::raw::{RawKind, RawLayer, RawShape};
use crate::raw_library::RawLibrary;
use crate::records::{Layer, LayerKind, Shape};
use leg_geom::Rect;
use std::alloc::{AllocError, Allocator};

/// What vias find on layers of this kind.
fn raw_use(kind: RawKind) -> LayerUse
    ensures { result ≡ raw_use kind }
{
    match kind {
        RawKind::Routing { .. } => LayerUse::Wires,
        RawKind::Cut => LayerUse::Cuts,
        RawKind::Other => LayerUse::Neither,
    }
}

/// What vias find on layers of this kind.
fn use_of(kind: LayerKind) -> LayerUse
    ensures { result ≡ use_of kind }
{
    match kind {
        LayerKind::Routing { .. } => LayerUse::Wires,
        LayerKind::Cut => LayerUse::Cuts,
        LayerKind::Other => LayerUse::Neither,
    }
}

/// Whether the point 0 0 lies inside the rectangle, and not on its border.
fn raw_holds_origin(rect: &RawRect) -> bool
    ensures { result ≡ holds_origin rect.now }
{
    rect.x1().millionths() < 0
        && 0 < rect.x2().millionths()
        && rect.y1().millionths() < 0
        && 0 < rect.y2().millionths()
}

/// Whether the point 0 0 lies inside the rectangle, and not on its border.
fn holds_origin(rect: &Rect) -> bool
    ensures { result ≡ holds_origin rect.now }
{
    rect.x1() < 0 && 0 < rect.x2() && rect.y1() < 0 && 0 < rect.y2()
}

impl ViaLayer for RawLayer<'_> {
    ghost use_of = { λ layer. raw_use layer.kind };

    fn layer_use(&self) -> LayerUse {
        raw_use(self.kind)
    }
}

impl ViaLayer for Layer<'_> {
    ghost use_of = { λ layer. use_of layer.kind };

    fn layer_use(&self) -> LayerUse {
        use_of(self.kind)
    }
}

/// What the shapes are to a via.
fn raw_parts<A: Allocator + Copy>(
    alloc: A,
    shapes: &[RawShape],
) -> Result<Vec<ViaPart, A>, AllocError>
    ensures { IfOk result (λ parts. parts.items ≡ raw_parts shapes.now) }
{
    shapes
        .iter()
        .map(|shape| ViaPart {
            layer: shape.layer,
            holds_origin: raw_holds_origin(&shape.rect),
        })
        .collect(alloc)
}

/// What the shapes are to a via.
fn parts_of<A: Allocator + Copy>(alloc: A, shapes: &[Shape]) -> Result<Vec<ViaPart, A>, AllocError>
    ensures { IfOk result (λ parts. parts.items ≡ parts_of shapes.now) }
{
    shapes
        .iter()
        .map(|shape| ViaPart {
            layer: shape.layer,
            holds_origin: holds_origin(&shape.rect),
        })
        .collect(alloc)
}

impl<'a, A: Allocator + Copy> RawLibrary<'a, A> {
    /// Whether shapes, in millionths of a micron, join two routing layers of the library by cuts, as those of a good via
    /// do.
    pub fn shapes_join(&self, alloc: A, shapes: &[RawShape]) -> Result<bool, AllocError>
        ensures { IfOk result (λ joined. joined ≡ join_layers (raw_uses self.now.layers) (raw_parts shapes.now)) }
    {
        let parts = raw_parts(alloc, shapes)?;
        Ok(joins_layers(self.layers(), &parts))
    }
}

impl<'a, A: Allocator + Copy> Library<'a, A> {
    /// Whether a via of this name with these shapes, in database units, is good: a wire may name it. Such a via joins
    /// two routing layers of the library.
    #[tactic(auto, unfolding(crate::specs::GoodVia::is_good_via))]
    pub fn is_good_via(&self, alloc: A, name: &[u8], shapes: &[Shape]) -> Result<bool, AllocError>
        ensures { IfOk result (λ good. good ≡ is_good_via self.now name.now shapes.now) }
    {
        if is_wiring_word(name) {
            return Ok(false);
        }
        let parts = parts_of(alloc, shapes)?;
        Ok(joins_layers(self.layers(), &parts))
    }
}

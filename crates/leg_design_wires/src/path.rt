//! The wires that a path denotes (LEF/DEF 5.8, "Regular Wiring Statement", "Special Wiring Statement").

ghost use Rattle.std.specs.Prelude.{◌≡◌, ◌==◌};
ghost use Rattle.std.specs.List.{list_any};
ghost use Rattle.leg_lex.specs.Words.{Means};
ghost use Rattle.leg_grammar.specs.Def.Path.{next_spot, is_same_spot, last_given, extension_at, other_layer, across, path_wires};
ghost use Rattle.leg_design_wires.specs.Steps.Walk.{behind, wires_with, walked_to, walked_past_array, walked_past};

use crate::coordinate::coordinate_or;
use crate::segment::{PathStep, segment_to};
use crate::via_array::push_array;
use leg_design_common::NetScope;
use leg_design_common::layers::is_routing;
use leg_design_records::Wire;
use leg_geom::{Point, Rect};
use leg_grammar::{Coordinate, Item, PathWidth, ViaArray};
use leg_lex::{FaultKind, FaultPlace, NameKind, Need, ReadFault};
use leg_lib_records::{Library, Shape};
use std::alloc::Allocator;
use std::marker::Model;

/// An item and where it begins, for faults. Contracts see it as the item.
#[derive(Drop)]
pub(crate) struct ItemAt<'t> {
    item: Item,
    place: FaultPlace<'t>,
}

impl<'t> Model for ItemAt<'t> {
    ghost use Rattle.leg_grammar.specs.declared.path_item.Item.{Item};

    ghost Value = { Item };

    ghost view = { λ i. i.item };
}

impl<'t> ItemAt<'t> {
    /// The item that begins at this place.
    pub(crate) fn new(item: Item, place: FaultPlace<'t>) -> ItemAt<'t>
        ensures { result ≡ item }
    {
        ItemAt { item, place }
    }

    /// The item.
    fn item(&self) -> Item
        ensures { result ≡ self.now }
    {
        self.item
    }

    /// Where it is.
    fn place(&self) -> FaultPlace<'t> {
        self.place
    }
}

/// The point to which an item leads from this one.
fn next_spot(at: Point, x: Option<Coordinate>, y: Option<Coordinate>) -> Point
    ensures { result ≡ next_spot at x y }
{
    Point::new(coordinate_or(x, at.x()), coordinate_or(y, at.y())).unwrap()
}

fn is_same_spot(p: Point, q: Point) -> bool
    ensures { result ≡ is_same_spot p q }
{
    p.x() == q.x() && p.y() == q.y()
}

/// An extension that is given replaces the one before.
fn last_given(before: Option<i64>, given: Option<i64>) -> Option<i64>
    ensures { result ≡ last_given before given }
{
    given.or(before)
}

/// The extension that is given last before the path leaves the point.
#[tactic(auto, using(crate::proofs::Paths::extension_ends, crate::proofs::Paths::extension_leaves, crate::proofs::Paths::extension_stays, crate::proofs::Paths::extension_at_virtual, crate::proofs::Paths::extension_at_via, crate::proofs::Paths::extension_at_array, crate::proofs::Paths::extension_at_rect))]
fn extension_at(at: Point, given: Option<i64>, items: &[ItemAt<'_>]) -> Option<i64>
    ensures { result ≡ extension_at at given items.now }
{
    let mut extension = given;
    for next in items {
        match next.item() {
            Item::ToPoint {
                x,
                y,
                extension: written,
            } => {
                if !is_same_spot(at, next_spot(at, x, y)) {
                    return extension;
                }
                extension = last_given(extension, written);
            }
            Item::ToVirtual { .. } => return extension,
            Item::AtVia(_) | Item::AtArray(..) | Item::AtRect(_) => {}
        }
    }
    extension
}

/// The layer of the first shape on another routing layer than this.
#[tactic(auto, using(crate::proofs::ViaLayers::other_here, crate::proofs::ViaLayers::other_later, crate::proofs::ViaLayers::other_nowhere))]
fn other_layer<A: Allocator + Copy>(
    library: &Library<'_, A>,
    layer: usize,
    shapes: &[Shape],
) -> Option<usize>
    ensures { result ≡ other_layer library.now layer shapes.now }
{
    for shape in shapes {
        if is_routing(library, shape.layer) && shape.layer != layer {
            return Some(shape.layer);
        }
    }
    None
}

/// Whether one of the shapes lies on this layer.
fn has_layer(layer: usize, shapes: &[Shape]) -> bool
    ensures { result ≡ list_any (λ shape. shape.layer == layer) shapes.now }
{
    shapes.iter().any(|shape| shape.layer == layer)
}

/// The routing layer to which a via leads from this one. A via that isn't good is `BadVia`, and one that
/// hasn't this layer `ViaLayer`.
#[inline(always)]
#[tactic(auto, using(crate::proofs::ViaLayers::across_lacks, crate::proofs::ViaLayers::across_is), unfolding(leg_grammar::specs::Def::Path::across))]
fn across<A: Allocator + Copy>(
    scope: &NetScope<'_, '_, A>,
    number: usize,
    layer: usize,
    place: FaultPlace<'_>,
) -> Result<usize, ReadFault>
    ensures { Means (λ other. other) result (across scope.now number layer) }
{
    let Some(via) = scope.via_numbered(number) else {
        return Err(place.need(FaultKind::UnknownName, Need::Known(NameKind::Via)));
    };
    if !via.good {
        return Err(place.fault(FaultKind::BadVia));
    }
    let shapes = via.shapes.as_slice();
    if !has_layer(layer, shapes) {
        return Err(place.fault(FaultKind::ViaLayer));
    }
    match other_layer(scope.library, layer, shapes) {
        Some(other) => Ok(other),
        None => Err(place.fault(FaultKind::ViaLayer)),
    }
}

/// Where a path is after some of its items: its layer, its point with the extension there, and its
/// wires so far.
#[derive(Drop)]
struct Walk<A: Allocator> {
    layer: usize,
    at: Point,
    extension: Option<i64>,
    wires: Vec<Wire, A>,
}

impl<A: Allocator> Model for Walk<A> {
    ghost use Rattle.leg_design_wires.specs.Steps.Walk.{PathState};

    ghost Value = { PathState };

    ghost view = { λ w. record { layer = w.layer; at = w.at; extension = w.extension; wires = w.wires.items } };
}

impl<A: Allocator + Copy> Walk<A> {
    /// Goes on to another point with this extension.
    #[tactic(auto, unfolding(crate::specs::Steps::Walk::walked_to))]
    fn go_to(
        &mut self,
        scope: &NetScope<'_, '_, A>,
        width: PathWidth,
        to: Point,
        extension: Option<i64>,
        place: FaultPlace<'_>,
    ) -> Result<(), ReadFault>
        ensures { Means (λ _. self.new) result (walked_to scope.now width to extension self.old) }
    {
        let step = PathStep {
            layer: self.layer,
            from: self.at,
            to,
            ext_from: self.extension,
            ext_to: extension,
        };
        let segment = segment_to(scope, width, step, place)?;
        self.wires.push(segment)?;
        self.at = to;
        self.extension = extension;
        Ok(())
    }

    /// Goes on past an array of a via.
    #[tactic(auto, unfolding(crate::specs::Steps::Walk::walked_past_array))]
    fn go_past_array(
        &mut self,
        scope: &NetScope<'_, '_, A>,
        via: usize,
        array: &ViaArray,
        place: FaultPlace<'_>,
    ) -> Result<(), ReadFault>
        ensures { Means (λ _. self.new) result (walked_past_array scope.now via array.now self.old) }
    {
        let other = across(scope, via, self.layer, place)?;
        push_array(via, array, self.at, place, &mut self.wires)?;
        self.layer = other;
        Ok(())
    }

    /// Goes on past one more item, after which `later` come.
    #[tactic(auto, unfolding(crate::specs::Steps::Walk::walked_past))]
    fn go_past(
        &mut self,
        scope: &NetScope<'_, '_, A>,
        width: PathWidth,
        item: &ItemAt<'_>,
        later: &[ItemAt<'_>],
    ) -> Result<(), ReadFault>
        ensures { Means (λ _. self.new) result (walked_past scope.now width item.now later.now self.old) }
    {
        match item.item() {
            Item::ToPoint { x, y, extension } => {
                let to = next_spot(self.at, x, y);
                if is_same_spot(self.at, to) {
                    return Ok(());
                }
                self.go_to(
                    scope,
                    width,
                    to,
                    extension_at(to, extension, later),
                    item.place(),
                )
            }
            Item::ToVirtual { x, y } => {
                let to = next_spot(self.at, x, y);
                self.extension = extension_at(to, None, later);
                self.at = to;
                Ok(())
            }
            Item::AtVia(via) => {
                let other = across(scope, via, self.layer, item.place())?;
                self.wires.push(Wire::ViaAt { via, at: self.at })?;
                self.layer = other;
                Ok(())
            }
            Item::AtArray(via, array) => self.go_past_array(scope, via, &array, item.place()),
            Item::AtRect(rect) => {
                self.wires.push(Wire::Patch {
                    layer: self.layer,
                    at: self.at,
                    rect,
                })?;
                Ok(())
            }
        }
    }

    /// Goes on past all items.
    #[tactic(auto, using(crate::proofs::Walks::walk_on, crate::proofs::Walks::walk_fails, crate::proofs::Walks::walk_ends))]
    fn go_past_all(
        &mut self,
        scope: &NetScope<'_, '_, A>,
        width: PathWidth,
        items: &[ItemAt<'_>],
    ) -> Result<(), ReadFault>
        ensures { Means (λ _. self.new.wires) result (wires_with scope.now width self.old items.now) }
    {
        for (i, item) in items.iter().enumerate() {
            self.go_past(scope, width, item, &items[i + 1..])?;
        }
        Ok(())
    }
}

/// These wires and those of a path that begins at this point with this extension.
pub(crate) fn path_wires<A: Allocator + Copy>(
    wires: Vec<Wire, A>,
    scope: &NetScope<'_, '_, A>,
    width: PathWidth,
    layer: usize,
    first: Point,
    given: Option<i64>,
    items: &[ItemAt<'_>],
) -> Result<Vec<Wire, A>, ReadFault>
    ensures { Means (λ v. v.items) result (behind wires.items (path_wires scope.now width layer first given items.now)) }
{
    let mut walk = Walk {
        layer,
        at: first,
        extension: extension_at(first, given, items),
        wires,
    };
    walk.go_past_all(scope, width, items)?;
    Ok(walk.wires)
}

//! The shapes of ports and of obstructions (LEF/DEF 5.8, "Layer Geometries").

ghost use Rattle.std.specs.Prelude.{◌≡◌, ◌≢◌, ◌++◌, Some, OnOk, IfOk};
ghost use Rattle.leg_lex.specs.declared.read_fault.FaultKind.TheVariants.{Memory};
ghost use Rattle.leg_lex.specs.Words.{Reads, Means};
ghost use Rattle.leg_lex.specs.Until.{over};
ghost use Rattle.leg_grammar.specs.Lef.Geometry.{draws_metal, is_off_metal, is_other_shape, nothing_drawn, on_layer, drawn_rect, shapes_on, drawn_polygon, drawn_copies, width_of_path, drawn_path, drawn_via, written_width, geometry_part, geometry_at};

use crate::copies::{copies, is_iterated, push_copies};
use crate::geometry_layer::layer_of_geometry;
use crate::layer::width;
use crate::path::{half_of, is_read_path, path, path_width};
use crate::placed_via::{is_placed_via, push_placed_via};
use crate::point::rect;
use crate::polygon::{is_read_polygon, polygon};
use leg_grammar::Profile;
use leg_grammar::mask::past_mask;
use leg_lex::{Cursor, FaultKind, Keyword, Micron, Need, ReadFault};
use leg_lib_records::{RawKind, RawLayer, RawLibrary, RawPoint, RawRect, RawShape};
use std::alloc::{AllocError, Allocator};
use std::marker::Model;

/// Whether the layer of this number has metal.
fn has_metal(layers: &[RawLayer<'_>], number: usize) -> bool
    ensures { result ≡ draws_metal layers.now number }
{
    match layers.get(number) {
        Some(layer) => matches!(layer.kind, RawKind::Routing { .. } | RawKind::Cut),
        None => false,
    }
}

/// Whether a statement is a shape that isn't a rectangle.
fn is_other_shape(statement: &Cursor<'_, '_>) -> bool
    ensures { result ≡ is_other_shape statement.now }
{
    statement.is_at(b"POLYGON") || statement.is_at(b"PATH") || statement.is_at(b"VIA")
}

// The fault of a statement that isn't read: of a shape it is `Unsupported`.
fn no_shape(statement: &Cursor<'_, '_>) -> ReadFault {
    if is_other_shape(statement) {
        statement.fault(FaultKind::Unsupported)
    } else {
        statement.need(FaultKind::Unexpected, Need::Form)
    }
}

// Whether `MASK` or `ITERATE` follows the first word, or a mask that is dropped.
fn is_masked_or_iterated(profile: Profile, statement: &Cursor<'_, '_>) -> bool {
    let mut words = statement.again();
    let _rect = words.any();
    let _mask = past_mask(profile, &mut words);
    words.is_at(b"MASK") || words.is_at(b"ITERATE")
}

/// The fault of a shape whose statement begins here: `Unsupported` where `ITERATE`, or `MASK` unless masks are dropped, stands in a
/// number's place.
fn fault_of_shape(profile: Profile, statement: &Cursor<'_, '_>, fault: ReadFault) -> ReadFault
    ensures { result.kind ≢ Memory → fault.kind ≢ Memory }
{
    if fault.kind == FaultKind::BadNumber && is_masked_or_iterated(profile, statement) {
        fault.of_kind(FaultKind::Unsupported)
    } else {
        fault
    }
}

/// Adds rectangles as shapes of the layer.
#[tactic(auto, using(crate::proofs::DrawnShapes::no_shape_more, crate::proofs::DrawnShapes::one_shape_more, crate::proofs::DrawnShapes::all_shapes))]
fn add_rects<A: Allocator>(
    shapes: &mut Vec<RawShape, A>,
    layer: usize,
    rects: &[RawRect],
) -> Result<(), AllocError>
    ensures { OnOk result (shapes.new.items ≡ shapes.old.items ++ shapes_on layer rects.now) }
{
    'rects: for rect in rects {
        shapes.push(RawShape { layer, rect: *rect })?;
    }
    Ok(())
}

/// Rectangles as shapes of the layer.
fn shapes_of<A: Allocator + Copy>(
    alloc: A,
    layer: usize,
    rects: &[RawRect],
) -> Result<Vec<RawShape, A>, AllocError>
    ensures { IfOk result (λ v. v.items ≡ shapes_on layer rects.now) }
{
    let mut shapes = Vec::new(alloc);
    add_rects(&mut shapes, layer, rects)?;
    Ok(shapes)
}

/// The width that a `WIDTH` statement gives paths: where it is malformed 0, a width that no path has.
fn written_width(statement: &mut Cursor<'_, '_>) -> Result<Micron, ReadFault>
    ensures { Means (λ w. w) result (Some (written_width statement.old)) }
{
    match width(statement) {
        Err(fault) if fault.kind != FaultKind::Memory => Ok(Micron::zero()),
        width => width,
    }
}

/// The width of a path on the layer of this number.
#[tactic(auto, unfolding(leg_grammar::specs::Lef::Geometry::width_of_path))]
fn width_of_path<A: Allocator + Copy>(
    library: &RawLibrary<'_, A>,
    written: Option<Micron>,
    number: usize,
) -> Option<Micron>
    ensures { result ≡ width_of_path library.now written number }
{
    let layer = library.layers().get(number)?;
    path_width(written, layer.kind)
}

/// The shapes of the statements that were read, the number of the layer that the next one is on, and the width of paths on it where
/// `WIDTH` gives one.
#[derive(Drop)]
pub(crate) struct Drawing<A: Allocator> {
    pub(crate) on: Option<usize>,
    pub(crate) width: Option<Micron>,
    pub(crate) shapes: Vec<RawShape, A>,
}

impl<A: Allocator> Model for Drawing<A> {
    ghost use Rattle.leg_grammar.specs.Lef.Geometry.{Drawn};

    ghost Value = { Drawn };

    ghost view = { λ d. record { on = d.on; width = d.width; shapes = d.shapes.items } };
}

impl<A: Allocator + Copy> Drawing<A> {
    /// No shapes, and no layer.
    pub(crate) fn new(alloc: A) -> Drawing<A>
        ensures { result ≡ nothing_drawn }
    {
        Drawing {
            on: None,
            width: None,
            shapes: Vec::new(alloc),
        }
    }

    /// Goes to the layer of this number.
    pub(crate) fn go_to(&mut self, layer: usize)
        ensures { self.new ≡ on_layer self.old layer }
    {
        self.on = Some(layer);
        self.width = None;
    }

    /// Adds the rectangle of a `RECT` statement, where the layer has metal.
    #[tactic(auto, unfolding(leg_grammar::specs::Lef::Geometry::drawn_rect))]
    pub(crate) fn draw_rect(
        &mut self,
        profile: Profile,
        library: &RawLibrary<'_, A>,
        statement: &mut Cursor<'_, '_>,
    ) -> Result<(), ReadFault>
        ensures { Means (λ _. self.new) result (drawn_rect profile library.now self.old statement.old) }
    {
        let Some(layer) = self.on else {
            return Err(statement.need(
                FaultKind::Unexpected,
                Need::Keyword(Keyword::new(b"LAYER")),
            ));
        };
        if has_metal(library.layers(), layer) {
            let rect = rect(profile, statement)?;
            self.shapes.push(RawShape { layer, rect })?;
        }
        Ok(())
    }

    /// The same in a port or in obstructions, where a rectangle with `MASK`, unless masks are dropped, or with `ITERATE` is
    /// `Unsupported`.
    fn draw_plain_rect(
        &mut self,
        profile: Profile,
        library: &RawLibrary<'_, A>,
        statement: &mut Cursor<'_, '_>,
    ) -> Result<(), ReadFault>
        ensures { Means (λ _. self.new) result (drawn_rect profile library.now self.old statement.old) }
    {
        let first = statement.again();
        match self.draw_rect(profile, library, statement) {
            Err(fault) => Err(fault_of_shape(profile, &first, fault)),
            drawn => drawn,
        }
    }

    /// Adds the slabs of a `POLYGON` statement, where the layer has metal.
    #[tactic(auto, unfolding(leg_grammar::specs::Lef::Geometry::drawn_polygon))]
    pub(crate) fn draw_polygon(
        &mut self,
        alloc: A,
        profile: Profile,
        library: &RawLibrary<'_, A>,
        statement: &mut Cursor<'_, '_>,
    ) -> Result<(), ReadFault>
        ensures { Means (λ _. self.new) result (drawn_polygon profile library.now self.old statement.old) }
    {
        let Some(number) = self.on else {
            return Err(statement.need(
                FaultKind::Unexpected,
                Need::Keyword(Keyword::new(b"LAYER")),
            ));
        };
        if has_metal(library.layers(), number) {
            let rects = polygon(alloc, profile, statement)?;
            add_rects(&mut self.shapes, number, &rects)?;
        }
        Ok(())
    }

    /// The same, where a polygon with `MASK`, unless masks are dropped, or with `ITERATE` is `Unsupported`.
    fn draw_plain_polygon(
        &mut self,
        alloc: A,
        profile: Profile,
        library: &RawLibrary<'_, A>,
        statement: &mut Cursor<'_, '_>,
    ) -> Result<(), ReadFault>
        ensures { Means (λ _. self.new) result (drawn_polygon profile library.now self.old statement.old) }
    {
        let first = statement.again();
        match self.draw_polygon(alloc, profile, library, statement) {
            Err(fault) => Err(fault_of_shape(profile, &first, fault)),
            drawn => drawn,
        }
    }

    /// Adds the copies of a `RECT` or `POLYGON` statement with `ITERATE`, where the layer has metal.
    #[tactic(auto, unfolding(leg_grammar::specs::Lef::Geometry::drawn_copies))]
    fn draw_copies(
        &mut self,
        alloc: A,
        profile: Profile,
        library: &RawLibrary<'_, A>,
        statement: &Cursor<'_, '_>,
    ) -> Result<(), ReadFault>
        ensures { Means (λ _. self.new) result (drawn_copies profile library.now self.old statement.now) }
    {
        let Some(number) = self.on else {
            return Err(statement.need(
                FaultKind::Unexpected,
                Need::Keyword(Keyword::new(b"LAYER")),
            ));
        };
        if has_metal(library.layers(), number) {
            let copies = copies(alloc, profile, statement)?;
            let figure = shapes_of(alloc, number, &copies.rects)?;
            let no_way = RawPoint::new(Micron::zero(), Micron::zero());
            push_copies(
                &figure,
                &copies.pattern,
                &no_way,
                statement.place(),
                &mut self.shapes,
            )?;
        }
        Ok(())
    }

    /// Adds the rectangles of a `PATH` statement. A path of an odd width is `Unsupported`, and so is one on a cut layer without a width.
    #[tactic(auto, unfolding(leg_grammar::specs::Lef::Geometry::drawn_path))]
    fn draw_path(
        &mut self,
        alloc: A,
        profile: Profile,
        library: &RawLibrary<'_, A>,
        statement: &mut Cursor<'_, '_>,
    ) -> Result<(), ReadFault>
        ensures { Means (λ _. self.new) result (drawn_path profile library.now self.old statement.old) }
    {
        let Some(number) = self.on else {
            return Err(statement.need(
                FaultKind::Unexpected,
                Need::Keyword(Keyword::new(b"LAYER")),
            ));
        };
        let Some(width) = width_of_path(library, self.width, number) else {
            return Err(statement.fault(FaultKind::Unsupported));
        };
        let Some(half) = half_of(width) else {
            return Err(statement.fault(FaultKind::Unsupported));
        };
        let rects = path(alloc, profile, half, statement)?;
        add_rects(&mut self.shapes, number, &rects)?;
        Ok(())
    }

    /// The same, where a path with `MASK`, unless masks are dropped, or with `ITERATE` is `Unsupported`.
    fn draw_plain_path(
        &mut self,
        alloc: A,
        profile: Profile,
        library: &RawLibrary<'_, A>,
        statement: &mut Cursor<'_, '_>,
    ) -> Result<(), ReadFault>
        ensures { Means (λ _. self.new) result (drawn_path profile library.now self.old statement.old) }
    {
        let first = statement.again();
        match self.draw_path(alloc, profile, library, statement) {
            Err(fault) => Err(fault_of_shape(profile, &first, fault)),
            drawn => drawn,
        }
    }

    /// Adds the rectangles of the via of a `VIA` statement.
    #[tactic(auto, unfolding(leg_grammar::specs::Lef::Geometry::drawn_via))]
    fn draw_via(
        &mut self,
        profile: Profile,
        library: &RawLibrary<'_, A>,
        statement: &mut Cursor<'_, '_>,
    ) -> Result<(), ReadFault>
        ensures { Means (λ _. self.new) result (drawn_via profile library.now self.old statement.old) }
    {
        push_placed_via(profile, library, &mut self.shapes, statement)
    }

    /// Whether the last layer that was named has no metal.
    fn is_off_metal(&self, library: &RawLibrary<'_, A>) -> bool
        ensures { result ≡ is_off_metal library.now self.now.on }
    {
        match self.on {
            Some(layer) => !has_metal(library.layers(), layer),
            None => false,
        }
    }

    /// One more statement.
    #[tactic(auto, unfolding(leg_grammar::specs::Lef::Geometry::geometry_part))]
    fn draw(
        &mut self,
        alloc: A,
        profile: Profile,
        library: &RawLibrary<'_, A>,
        statement: &mut Cursor<'_, '_>,
    ) -> Result<(), ReadFault>
        ensures { Means (λ _. self.new) result (geometry_part profile library.now self.old statement.old) }
    {
        if statement.is_at(b"LAYER") {
            let number = layer_of_geometry(profile, library, statement)?;
            self.go_to(number);
            Ok(())
        } else if profile.is_wide() && is_iterated(profile, statement)? {
            self.draw_copies(alloc, profile, library, statement)
        } else if statement.is_at(b"RECT") {
            self.draw_plain_rect(profile, library, statement)
        } else if statement.is_at(b"WIDTH") {
            self.width = Some(written_width(statement)?);
            Ok(())
        } else if statement.is_at(b"CLASS") {
            Ok(())
        } else if is_read_polygon(profile, statement) {
            self.draw_plain_polygon(alloc, profile, library, statement)
        } else if is_other_shape(statement) && self.is_off_metal(library) {
            Ok(())
        } else if is_read_path(profile, statement) {
            self.draw_plain_path(alloc, profile, library, statement)
        } else if is_placed_via(profile, statement) {
            self.draw_via(profile, library, statement)
        } else {
            Err(no_shape(statement))
        }
    }

    /// The statements one after the other.
    #[tactic(auto, using(leg_lex::proofs::EachElement::over_ends, leg_lex::proofs::EachElement::over_goes_on, leg_lex::proofs::EachElement::over_fails))]
    fn draw_all(
        &mut self,
        alloc: A,
        profile: Profile,
        library: &RawLibrary<'_, A>,
        statements: &[Cursor<'_, '_>],
    ) -> Result<(), ReadFault>
        ensures { Means (λ _. self.new) result (over (geometry_part profile library.now) self.old statements.now) }
    {
        for statement in statements {
            self.draw(alloc, profile, library, &mut statement.again())?;
        }
        Ok(())
    }
}

/// The shapes of all statements, up to the `END`.
#[tactic(auto, unfolding(leg_grammar::specs::Lef::Geometry::geometry_at))]
pub(crate) fn geometry<'a, A: Allocator + Copy>(
    alloc: A,
    profile: Profile,
    library: &RawLibrary<'a, A>,
    words: &mut Cursor<'_, 'a>,
) -> Result<Vec<RawShape, A>, ReadFault>
    ensures { Reads (λ v. v.items) result words.new (geometry_at profile library.now words.old) }
{
    let statements = words.statements(alloc)?;
    let mut drawing = Drawing::new(alloc);
    drawing.draw_all(alloc, profile, library, &statements)?;
    Ok(drawing.shapes)
}

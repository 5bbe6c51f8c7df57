//! Shapes, pins, macros and vias in database units.

ghost use Rattle.std.specs.Prelude.{◌≡◌, ◌≢◌, ◌≤◌, ℤ, ◌-ℤ◌, List, [], IfOk, IfErr};
ghost use Rattle.leg_geom.specs.Plane.{PointModel, RectModel, IsCoordinate};
ghost use Rattle.leg_lib_records.specs.declared.scale_fault.ScaleKind.TheVariants.{Memory};
ghost use Rattle.leg_lib_records.specs.declared.records.Shape.{Shape};
ghost use Rattle.leg_lib_records.specs.Records.{ViaModel, MasterPinModel, MasterModel};
ghost use Rattle.leg_lib_records.specs.Scale.{IsLengthAt, IsSpotAt, IsRectAt, IsShapeAt, IsViaAt, IsPinAt, IsMasterAt, OneForOne};

use crate::items::Items;
use crate::measure::{RawPoint, RawRect};
use crate::raw::{RawMaster, RawPin, RawShape, RawVia};
use crate::records::{Master, MasterPin, Shape, Via};
use crate::scale::{length_at, size_at};
use crate::scale_fault::{ScaleFault, ScaleKind};
use crate::shape_list::ShapeList;
use leg_geom::Rect;
use leg_lex::{Micron, Name, NamedList, UNITS_LIMIT};
use std::alloc::Allocator;
use std::marker::Model;

/// How far shapes are moved, in database units, within the limit of numbers.
#[derive(Clone, Copy)]
struct Shift {
    x: i64,
    y: i64,
}

impl Model for Shift {
    ghost use Rattle.leg_geom.specs.Plane.{PointModel};
    ghost use Rattle.leg_lex.specs.Number.{IsNumber};

    ghost Value = { PointModel };

    ghost view = { λ s. record { x = s.x; y = s.y } };

    ghost invariant = { λ s. IsNumber s.x × IsNumber s.y };

    ghost inverse = { λ s. record { x = s.x; y = s.y } };
}

impl Shift {
    /// No shift.
    const NONE: Shift = Shift { x: 0, y: 0 };

    /// An x coordinate in database units, moved.
    fn x_at(&self, x: Micron, n: u32) -> Result<i64, ScaleKind>
        requires above { 1 ≤ n }
        requires within { n ≤ UNITS_LIMIT }
        ensures ok { IfOk result (λ u. IsLengthAt n x (u -ℤ self.now.x)) }
        ensures within { IfOk result (λ u. IsCoordinate u) }
        ensures none { IfErr result (λ kind. (u : ℤ) → ¬ IsLengthAt n x (u -ℤ self.now.x)) }
    {
        Ok(length_at(x, n)? + self.x)
    }

    /// A y coordinate in database units, moved.
    fn y_at(&self, y: Micron, n: u32) -> Result<i64, ScaleKind>
        requires above { 1 ≤ n }
        requires within { n ≤ UNITS_LIMIT }
        ensures ok { IfOk result (λ u. IsLengthAt n y (u -ℤ self.now.y)) }
        ensures within { IfOk result (λ u. IsCoordinate u) }
        ensures none { IfErr result (λ kind. (u : ℤ) → ¬ IsLengthAt n y (u -ℤ self.now.y)) }
    {
        Ok(length_at(y, n)? + self.y)
    }
}

/// The origin of a macro in database units.
fn shift_at(origin: &RawPoint, n: u32) -> Result<Shift, ScaleKind>
    requires above { 1 ≤ n }
    requires within { n ≤ UNITS_LIMIT }
    ensures ok { IfOk result (λ shift. IsSpotAt n origin.now shift) }
    ensures none { IfErr result (λ kind. (shift : PointModel) → ¬ IsSpotAt n origin.now shift) }
{
    let x = length_at(origin.x(), n)?;
    let y = length_at(origin.y(), n)?;
    Ok(Shift { x, y })
}

/// A rectangle in database units, moved by the shift.
fn rect_at(raw: &RawRect, n: u32, shift: &Shift) -> Result<Rect, ScaleKind>
    requires above { 1 ≤ n }
    requires within { n ≤ UNITS_LIMIT }
    ensures ok { IfOk result (λ rect. IsRectAt n shift.now raw.now rect) }
    ensures none { IfErr result (λ kind. (rect : RectModel) → ¬ IsRectAt n shift.now raw.now rect) }
{
    let x1 = shift.x_at(raw.x1(), n)?;
    let y1 = shift.y_at(raw.y1(), n)?;
    let x2 = shift.x_at(raw.x2(), n)?;
    let y2 = shift.y_at(raw.y2(), n)?;
    Ok(Rect::new(x1, y1, x2, y2).unwrap())
}

/// A shape in database units, moved by the shift.
fn shape_at(raw: &RawShape, n: u32, shift: &Shift) -> Result<Shape, ScaleKind>
    requires above { 1 ≤ n }
    requires within { n ≤ UNITS_LIMIT }
    ensures ok { IfOk result (λ shape. IsShapeAt n shift.now raw.now shape) }
    ensures none { IfErr result (λ kind. (shape : Shape) → ¬ IsShapeAt n shift.now raw.now shape) }
{
    let rect = rect_at(&raw.rect, n, shift)?;
    Ok(Shape {
        layer: raw.layer,
        rect,
    })
}

/// Shapes in database units, moved by the shift.
fn shapes_at<A: Allocator + Copy>(
    alloc: A,
    raw: &[RawShape],
    n: u32,
    shift: &Shift,
) -> Result<ShapeList<A>, ScaleKind>
    requires above { 1 ≤ n }
    requires within { n ≤ UNITS_LIMIT }
    ensures ok { IfOk result (λ shapes. OneForOne (IsShapeAt n shift.now) raw.now shapes) }
    ensures none { IfErr result (λ kind. kind ≢ Memory → (shapes : List Shape) → ¬ OneForOne (IsShapeAt n shift.now) raw.now shapes) }
{
    let mut shapes = ShapeList::with_capacity(alloc, raw.len())?;
    for shape in raw {
        shapes.push(shape_at(shape, n, shift)?)?;
    }
    Ok(shapes)
}

/// A via in database units. Its shapes lie about the point 0 0.
fn via_at<'a, A: Allocator + Copy>(
    alloc: A,
    via: &RawVia<'a, A>,
    n: u32,
) -> Result<Via<'a, A>, ScaleFault<'a>>
    requires above { 1 ≤ n }
    requires within { n ≤ UNITS_LIMIT }
    ensures ok { IfOk result (λ scaled. IsViaAt n via.now scaled) }
    ensures none { IfErr result (λ fault. fault.kind ≢ Memory → (scaled : ViaModel) → ¬ IsViaAt n via.now scaled) }
    ensures nameless { IfErr result (λ fault. fault.kind ≡ Memory → fault.name ≡ []) }
{
    let name = Name::new(via.name.bytes());
    match shapes_at(alloc, via.shapes.as_slice(), n, &Shift::NONE) {
        Ok(shapes) => Ok(Via {
            name,
            default_via: via.default_via,
            good: via.good,
            shapes,
        }),
        Err(kind) => Err(ScaleFault::of(name, kind)),
    }
}

/// The vias in database units.
pub(crate) fn vias_at<'a, A: Allocator + Copy>(
    alloc: A,
    raw: &NamedList<'a, RawVia<'a, A>, A>,
    n: u32,
) -> Result<NamedList<'a, Via<'a, A>, A>, ScaleFault<'a>>
    requires above { 1 ≤ n }
    requires within { n ≤ UNITS_LIMIT }
    ensures ok { IfOk result (λ vias. OneForOne (IsViaAt n) raw.now vias) }
    ensures none { IfErr result (λ fault. fault.kind ≢ Memory → (vias : List ViaModel) → ¬ OneForOne (IsViaAt n) raw.now vias) }
    ensures nameless { IfErr result (λ fault. fault.kind ≡ Memory → fault.name ≡ []) }
{
    let mut vias = Vec::new(alloc);
    for via in raw.as_slice() {
        vias.push(via_at(alloc, via, n)?)?;
    }
    Ok(raw.with_items(alloc, vias)?)
}

/// A pin of a macro in database units, with its shapes moved by the shift.
fn pin_at<'a, A: Allocator + Copy>(
    alloc: A,
    pin: &RawPin<'a, A>,
    n: u32,
    shift: &Shift,
) -> Result<MasterPin<'a, A>, ScaleKind>
    requires above { 1 ≤ n }
    requires within { n ≤ UNITS_LIMIT }
    ensures ok { IfOk result (λ scaled. IsPinAt n shift.now pin.now scaled) }
    ensures none { IfErr result (λ kind. kind ≢ Memory → (scaled : MasterPinModel) → ¬ IsPinAt n shift.now pin.now scaled) }
{
    let shapes = shapes_at(alloc, pin.shapes.as_slice(), n, shift)?;
    Ok(MasterPin {
        name: Name::new(pin.name.bytes()),
        supply: pin.supply,
        shapes,
    })
}

/// The pins of a macro in database units, with their shapes moved by the shift.
fn pins_at<'a, A: Allocator + Copy>(
    alloc: A,
    raw: &[RawPin<'a, A>],
    n: u32,
    shift: &Shift,
) -> Result<Items<MasterPin<'a, A>, A>, ScaleKind>
    requires above { 1 ≤ n }
    requires within { n ≤ UNITS_LIMIT }
    ensures ok { IfOk result (λ pins. OneForOne (IsPinAt n shift.now) raw.now pins) }
    ensures none { IfErr result (λ kind. kind ≢ Memory → (pins : List MasterPinModel) → ¬ OneForOne (IsPinAt n shift.now) raw.now pins) }
{
    let mut pins = Vec::new(alloc);
    for pin in raw {
        pins.push(pin_at(alloc, pin, n, shift)?)?;
    }
    Ok(Items::from_vec(pins))
}

/// A macro in database units, with its origin added to its shapes.
fn scaled_master<'a, A: Allocator + Copy>(
    alloc: A,
    master: &RawMaster<'a, A>,
    n: u32,
) -> Result<Master<'a, A>, ScaleKind>
    requires above { 1 ≤ n }
    requires within { n ≤ UNITS_LIMIT }
    ensures ok { IfOk result (λ scaled. IsMasterAt n master.now scaled) }
    ensures none { IfErr result (λ kind. kind ≢ Memory → (scaled : MasterModel) → ¬ IsMasterAt n master.now scaled) }
{
    let size = size_at(&master.size, n)?;
    let shift = shift_at(&master.origin, n)?;
    let pins = pins_at(alloc, master.pins.as_slice(), n, &shift)?;
    let obstructions = shapes_at(alloc, master.obstructions.as_slice(), n, &shift)?;
    Ok(Master {
        name: Name::new(master.name.bytes()),
        size,
        y_symmetric: master.y_symmetric,
        site: master.site,
        pins,
        obstructions,
    })
}

/// A macro in database units; a fault has its name.
fn master_at<'a, A: Allocator + Copy>(
    alloc: A,
    master: &RawMaster<'a, A>,
    n: u32,
) -> Result<Master<'a, A>, ScaleFault<'a>>
    requires above { 1 ≤ n }
    requires within { n ≤ UNITS_LIMIT }
    ensures ok { IfOk result (λ scaled. IsMasterAt n master.now scaled) }
    ensures none { IfErr result (λ fault. fault.kind ≢ Memory → (scaled : MasterModel) → ¬ IsMasterAt n master.now scaled) }
    ensures nameless { IfErr result (λ fault. fault.kind ≡ Memory → fault.name ≡ []) }
{
    let name = Name::new(master.name.bytes());
    match scaled_master(alloc, master, n) {
        Ok(scaled) => Ok(scaled),
        Err(kind) => Err(ScaleFault::of(name, kind)),
    }
}

/// The macros in database units.
pub(crate) fn masters_at<'a, A: Allocator + Copy>(
    alloc: A,
    raw: &NamedList<'a, RawMaster<'a, A>, A>,
    n: u32,
) -> Result<NamedList<'a, Master<'a, A>, A>, ScaleFault<'a>>
    requires above { 1 ≤ n }
    requires within { n ≤ UNITS_LIMIT }
    ensures ok { IfOk result (λ masters. OneForOne (IsMasterAt n) raw.now masters) }
    ensures none { IfErr result (λ fault. fault.kind ≢ Memory → (masters : List MasterModel) → ¬ OneForOne (IsMasterAt n) raw.now masters) }
    ensures nameless { IfErr result (λ fault. fault.kind ≡ Memory → fault.name ≡ []) }
{
    let mut masters = Vec::new(alloc);
    for master in raw.as_slice() {
        masters.push(master_at(alloc, master, n)?)?;
    }
    Ok(raw.with_items(alloc, masters)?)
}

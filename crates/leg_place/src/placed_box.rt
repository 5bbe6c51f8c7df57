//! The boxes of placed components.

ghost use Rattle.std.specs.Prelude.{◌≡◌, ◌≤◌, ◌<◌, length, IfOk, IfSome};
ghost use Rattle.leg_geom.specs.Plane.{IsRect};
ghost use Rattle.leg_design_records.specs.declared.limits.TheConstants.{ENTRY_LIMIT};
ghost use Rattle.leg_design_records.specs.WellFormedParts.{IsPosition, IsComponent};
ghost use Rattle.leg_rules.specs.Placement.Box.{placed_box, box_of};
ghost use Rattle.leg_place.specs.Steps.ListPrefix.{AreBoxesBelow, IsMarkedBox};

use crate::marks::is_marked;
use leg_design_records::{Component, Design};
use leg_geom::{Place, Rect};
use leg_lib_records::{Extent, Library};
use std::alloc::{AllocError, Allocator};

/// A component that has a place, by its number, and its box.
#[derive(Clone, Copy)]
pub(crate) struct PlacedBox {
    pub component: u32,
    pub rect: Rect,
}

/// The box of a component of a macro of this size that has this place.
pub fn placed_size(place: &Place, size: &Extent) -> Rect
    requires { IsPosition place.now.at }
    ensures is { result ≡ placed_box size.now place.now }
    ensures proper { IsRect result }
{
    let (width, height) = (size.width(), size.height());
    let drawn = Rect::new(0, 0, width, height).unwrap();
    place.rect(width, height, &drawn)
}

/// The box of the component, where it has a place.
pub fn box_of<A: Allocator + Copy>(
    library: &Library<'_, A>,
    component: &Component<'_>,
) -> Option<Rect>
    requires { IsComponent library.now component.now }
    ensures is { result ≡ box_of library.now component.now }
    ensures proper { IfSome result IsRect }
{
    let master = library.masters().get(component.master)?;
    let place = component.place?;
    Some(placed_size(&place, &master.size))
}

/// The box of the component, where it is marked and has a place.
fn marked_box<A: Allocator + Copy>(
    design: &Design<'_, A>,
    marks: &[bool],
    number: usize,
) -> Option<Rect>
    requires { number < length design.now.components }
    ensures { IsMarkedBox design.now marks.now number result }
{
    if !is_marked(marks, number) {
        return None;
    }
    box_of(design.library(), &design.components()[number])
}

/// The boxes of the marked components that are placed, in file order.
pub(crate) fn placed_boxes<A: Allocator + Copy>(
    alloc: A,
    design: &Design<'_, A>,
    marks: &[bool],
) -> Result<Vec<PlacedBox, A>, AllocError>
    ensures boxes { IfOk result (λ boxes. AreBoxesBelow design.now marks.now (length design.now.components) boxes.items) }
    ensures few { IfOk result (λ boxes. length boxes.items ≤ ENTRY_LIMIT) }
{
    let mut boxes = Vec::new(alloc);
    for i in 0..design.components().len() {
        if let Some(rect) = marked_box(design, marks, i) {
            boxes.push(PlacedBox {
                component: i as u32,
                rect,
            })?;
        }
    }
    Ok(boxes)
}

//! Calls that take no memory, with each allocation refused.

ghost use Rattle.std.specs.Prelude.{◌≡◌, map, IfOk};

use leg_design::read_def;
use leg_design_records::{Component, Design, Status};
use leg_flat::{Flat, Shape, flatten};
use leg_geom::{Orient, Place, Point, Rect};
use leg_lib_records::Library;
use leg_print::hpwl;
use leg_sweep::BinIndex;
use leg_wire::{clean, clean_indexed};
use std::alloc::{AllocError, Allocator, Global};
use test_alloc::{Refused, RefusingAlloc};

/// Whether no allocation was asked for since each was to be refused. From now on none is refused.
fn took_no_memory(refusing: &RefusingAlloc<Global>) -> bool {
    let growths = refusing.growths();
    refusing.refuse(Refused::Nothing);
    growths == 0
}

fn has_its_lists<A: Allocator + Copy>(library: &Library<'_, A>) -> bool {
    library.units() == 1000
        && library.layers().len() == 3
        && library.sites().len() == 1
        && library.vias().len() == 1
        && library.masters().len() == 3
}

fn finds_names<A: Allocator + Copy>(library: &Library<'_, A>) -> bool {
    library.layer_named(b"m2") == Some(2)
        && library.site_named(b"core") == Some(0)
        && library.via_named(b"V12") == Some(0)
        && library.master_named(b"BLK2") == Some(2)
        && library.master_named(b"m2").is_none()
}

fn has_its_header<A: Allocator + Copy>(design: &Design<'_, A>) -> bool {
    let die = design.die();
    design.library().units() == 1000
        && design.name() == b"top".as_slice()
        && design.divider().is_none()
        && design.bus().is_none()
        && [die.x1(), die.y1(), die.x2(), die.y2()] == [0, 0, 800, 2000]
}

fn has_its_parts<A: Allocator + Copy>(design: &Design<'_, A>) -> bool {
    design.rows().len() == 1
        && design.tracks().len() == 2
        && design.vias().is_empty()
        && design.components().len() == 2
        && design.pins().is_empty()
        && design.blockages().is_empty()
        && design.nets().len() == 1
        && design.special().is_empty()
}

fn has_its_metal<A: Allocator + Copy>(flat: &Flat<A>) -> bool {
    if flat.net_count() != 1 {
        return false;
    }
    flat.shapes().len() == 9 && flat.pieces(0).len() == 3 && flat.pieces_of_net(0) == 3
}

/// Whether another net's metal may lie from there on, beside the last pin, which ends at 750.
fn is_clean_from<A: Allocator + Copy>(library: &Library<'_, A>, flat: &Flat<A>, x1: i64) -> bool {
    match Rect::new(x1, 900, 2000, 1000) {
        Some(rect) => clean(library, flat, 1, 0, rect),
        None => false,
    }
}

/// The same, by an index of the flat's rectangles.
fn is_clean_by_index_from<A: Allocator + Copy>(
    library: &Library<'_, A>,
    flat: &Flat<A>,
    index: &BinIndex<A>,
    x1: i64,
) -> bool
    requires { index.now ≡ map (λ shape. shape.rect) flat.now.shapes }
{
    match Rect::new(x1, 900, 2000, 1000) {
        Some(rect) => clean_indexed(library, flat, index, 1, 0, rect),
        None => false,
    }
}

/// Whether metal is clean from the spacing on, 100 beside the pin.
fn is_clean_at_the_spacing<A: Allocator + Copy>(
    library: &Library<'_, A>,
    flat: &Flat<A>,
    index: &BinIndex<A>,
) -> bool
    requires { index.now ≡ map (λ shape. shape.rect) flat.now.shapes }
{
    is_clean_from(library, flat, 850)
        && !is_clean_from(library, flat, 849)
        && is_clean_by_index_from(library, flat, index, 850)
        && !is_clean_by_index_from(library, flat, index, 849)
}

/// The rectangles of the shapes.
fn rects_of<A: Allocator>(alloc: A, shapes: &[Shape]) -> Result<Vec<Rect, A>, AllocError>
    ensures { IfOk result (λ rects. rects.items ≡ map (λ shape. shape.rect) shapes.now) }
{
    let mut rects = Vec::new(alloc);
    for shape in shapes {
        rects.push(shape.rect)?;
    }
    Ok(rects)
}

fn index_of<A: Allocator + Copy>(alloc: A, flat: &Flat<A>) -> Result<BinIndex<A>, AllocError>
    ensures { IfOk result (λ index. index ≡ map (λ shape. shape.rect) flat.now.shapes) }
{
    let rects = rects_of(alloc, flat.shapes())?;
    BinIndex::build(alloc, &rects)
}

fn reads_metal<A: Allocator + Copy>(
    alloc: A,
    refusing: &RefusingAlloc<Global>,
    library: &Library<'_, A>,
    flat: &Flat<A>,
) -> bool {
    match index_of(alloc, flat) {
        Ok(index) => {
            refusing.refuse(Refused::Every);
            let is_right = has_its_metal(flat) && is_clean_at_the_spacing(library, flat, &index);
            took_no_memory(refusing) && is_right
        }
        Err(_refusal) => false,
    }
}

fn reads_records<A: Allocator + Copy>(
    refusing: &RefusingAlloc<Global>,
    library: &Library<'_, A>,
    design: &Design<'_, A>,
) -> bool {
    refusing.refuse(Refused::Every);
    let is_right = has_its_lists(library)
        && finds_names(library)
        && has_its_header(design)
        && has_its_parts(design)
        && design.fits(library)
        && hpwl(design.library(), design) == 200;
    took_no_memory(refusing) && is_right
}

fn is_placed_at_200(component: &Component<'_>) -> bool {
    match component.place {
        Some(place) => {
            component.status == Status::Placed
                && place.at.x() == 200
                && place.at.y() == 0
                && place.orient == Orient::FN
        }
        None => false,
    }
}

/// Whether the first of the two components gets a place.
fn moves<A: Allocator + Copy>(refusing: &RefusingAlloc<Global>, design: Design<'_, A>) -> bool {
    if design.components().len() != 2 {
        return false;
    }
    let at = Point::new(200, 0).unwrap();
    refusing.refuse(Refused::Every);
    let design = design.with_place(
        0,
        Place {
            at,
            orient: Orient::FN,
        },
    );
    let is_right = match design.components() {
        [first, _second] => is_placed_at_200(first),
        _ => false,
    };
    took_no_memory(refusing) && is_right
}

fn goes_right_in<A: Allocator + Copy>(
    alloc: A,
    refusing: &RefusingAlloc<Global>,
    library: &Library<'_, A>,
    design: Design<'_, A>,
) -> bool {
    match flatten(alloc, design.library(), &design) {
        Ok(flat) => {
            reads_records(refusing, library, &design)
                && reads_metal(alloc, refusing, library, &flat)
                && moves(refusing, design)
        }
        Err(_fault) => false,
    }
}

/// Whether these calls answer rightly about the block with two inverters and a wire, whichever allocation is refused.
pub(super) fn goes_right<A: Allocator + Copy>(
    alloc: A,
    refusing: &RefusingAlloc<Global>,
    library: &Library<'_, A>,
    def: &[u8],
) -> bool {
    match read_def(alloc, library, def) {
        Ok(design) => goes_right_in(alloc, refusing, library, design),
        Err(_fault) => false,
    }
}

//! Wires, each as a path of its own.

ghost use Rattle.std.specs.Prelude.{◌≡◌, ◌++◌, ◌∷◌, OnOk};
ghost use Rattle.leg_output.specs.Words.{spaced};
ghost use Rattle.leg_design_records.specs.Wires.{default_extension};
ghost use Rattle.leg_design_records.specs.WellFormedNets.{written};
ghost use Rattle.leg_output.specs.Names.{layer_name};
ghost use Rattle.leg_output.specs.Text.Wires.{width_words, point_words, given_extension, lowest_layer, lower_layer_of_via, via_wire_words, patch_words, wire_words};

use crate::name::layer_name;
use crate::points::push_spot;
use itoa::Buffer;
use leg_design_records::{Design, Wire};
use leg_geom::{Point, Rect};
use leg_lib_records::{LayerKind, Shape};
use leg_print_words::{push_number, push_word, push_words};
use std::alloc::{AllocError, Allocator};

/// Adds what a path begins with: its layer, and its width, which is written in `SPECIALNETS` only.
fn push_path_start<A: Allocator + Copy>(
    text: &mut Vec<u8, A>,
    design: &Design<'_, A>,
    special: bool,
    layer: usize,
    width: i64,
) -> Result<(), AllocError>
    ensures { OnOk result (text.new.items ≡ text.old.items ++ spaced (layer_name design.now layer ∷ width_words special width)) }
{
    push_word(text, layer_name(design, layer))?;
    if special {
        push_number(text, width)
    } else {
        Ok(())
    }
}

/// How far a segment on this layer reaches past an end whose extension is not written.
#[tactic(auto, unfolding(leg_design_records::specs::Wires::default_extension))]
fn default_extension<A: Allocator + Copy>(
    design: &Design<'_, A>,
    special: bool,
    layer: usize,
) -> i64
    ensures { result ≡ default_extension design.now.library (written special) layer }
{
    if special {
        return 0;
    }
    match design.library().layers().get(layer) {
        Some(layer) => match layer.kind {
            LayerKind::Routing { width, .. } => width.div_euclid(2),
            LayerKind::Cut => 0,
            LayerKind::Other => 0,
        },
        None => 0,
    }
}

/// Adds an end of a segment on this layer, with its extension where that isn't the one that holds without.
fn push_segment_end<A: Allocator + Copy>(
    text: &mut Vec<u8, A>,
    design: &Design<'_, A>,
    special: bool,
    layer: usize,
    spot: &Point,
    extension: i64,
) -> Result<(), AllocError>
    ensures { OnOk result (text.new.items ≡ text.old.items ++ spaced (point_words spot.now (given_extension design.now.library special layer extension))) }
{
    let default = default_extension(design, special, layer);
    if extension == default {
        return push_spot(text, spot);
    }
    let mut x = Buffer::new();
    let mut y = Buffer::new();
    let mut past = Buffer::new();
    push_words(
        text,
        &[
            b"(",
            x.format(spot.x()).as_bytes(),
            y.format(spot.y()).as_bytes(),
            past.format(extension).as_bytes(),
            b")",
        ],
    )
}

/// The lowest layer that the shapes lie on; 0 where there are none.
fn lowest_layer(shapes: &[Shape]) -> usize
    ensures { result ≡ lowest_layer shapes.now }
{
    let Some((first, others)) = shapes.split_first() else {
        return 0;
    };
    let mut lowest = first.layer;
    for shape in others {
        lowest = lowest.min(shape.layer);
    }
    lowest
}

/// The lower routing layer of the via of this number.
fn layer_of_via<A: Allocator + Copy>(design: &Design<'_, A>, via: usize) -> usize
    ensures { result ≡ lower_layer_of_via design.now via }
{
    match design.via_numbered(via) {
        Some(via) => lowest_layer(via.shapes.as_slice()),
        None => 0,
    }
}

/// Adds the path of a via.
fn push_via<A: Allocator + Copy>(
    text: &mut Vec<u8, A>,
    design: &Design<'_, A>,
    special: bool,
    via: usize,
    at: &Point,
) -> Result<(), AllocError>
    ensures { OnOk result (text.new.items ≡ text.old.items ++ spaced (via_wire_words design.now special via at.now)) }
{
    push_path_start(text, design, special, layer_of_via(design, via), 0)?;
    push_spot(text, at)?;
    push_word(text, design.via_name(via))
}

/// Adds the path of a rectangle, which is given from a point.
fn push_patch<A: Allocator + Copy>(
    text: &mut Vec<u8, A>,
    design: &Design<'_, A>,
    layer: usize,
    at: &Point,
    rect: &Rect,
) -> Result<(), AllocError>
    ensures { OnOk result (text.new.items ≡ text.old.items ++ spaced (patch_words design.now layer at.now rect.now)) }
{
    let (mut x, mut y) = (Buffer::new(), Buffer::new());
    let (mut left, mut bottom) = (Buffer::new(), Buffer::new());
    let (mut right, mut top) = (Buffer::new(), Buffer::new());
    push_words(
        text,
        &[
            layer_name(design, layer),
            b"(",
            x.format(at.x()).as_bytes(),
            y.format(at.y()).as_bytes(),
            b")",
            b"RECT",
            b"(",
            left.format(rect.x1()).as_bytes(),
            bottom.format(rect.y1()).as_bytes(),
            right.format(rect.x2()).as_bytes(),
            top.format(rect.y2()).as_bytes(),
            b")",
        ],
    )
}

/// Adds the path of a wire.
pub(crate) fn push_wire<A: Allocator + Copy>(
    text: &mut Vec<u8, A>,
    design: &Design<'_, A>,
    special: bool,
    wire: &Wire,
) -> Result<(), AllocError>
    ensures { OnOk result (text.new.items ≡ text.old.items ++ spaced (wire_words design.now special wire.now)) }
{
    match wire {
        Wire::Segment {
            layer,
            from,
            to,
            width,
            ext_from,
            ext_to,
        } => {
            push_path_start(text, design, special, *layer, *width)?;
            push_segment_end(text, design, special, *layer, from, *ext_from)?;
            push_segment_end(text, design, special, *layer, to, *ext_to)
        }
        Wire::ViaAt { via, at } => push_via(text, design, special, *via, at),
        Wire::Patch { layer, at, rect } => push_patch(text, design, *layer, at, rect),
    }
}

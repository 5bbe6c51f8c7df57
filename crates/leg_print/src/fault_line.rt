//! The lines of violations.

ghost use Rattle.std.specs.Prelude.{◌≡◌, ◌++◌, ◌∷◌, [], None, IfOk, OnOk, option_map, codes};
ghost use Rattle.std.specs.Fmt.{signed_decimal};
ghost use Rattle.leg_output.specs.Words.{spaced};
ghost use Rattle.leg_design_records.specs.declared.fault.Fault.TheVariants.{Overlap};
ghost use Rattle.leg_design_records.specs.Names.{component_name};
ghost use Rattle.leg_output.specs.Lines.{shape_text, shape_at, piece_at, pair_line, open_line, violation_line, violations_text};

use crate::name::{layer_name, push_owner, push_piece};
use itoa::Buffer;
use leg_design_records::{Design, Fault};
use leg_flat::{Flat, Piece, Shape};
use leg_geom::Rect;
use leg_lib_records::Library;
use leg_print_words::{push_first, push_line_feed, push_parts, push_words};
use std::alloc::{AllocError, Allocator};

/// A line for each violation, in their order.
///
/// The design was read with this library. The flat is given where a violation speaks of shapes or of a net's pieces, and is
/// then the one that they are of: without it, such a violation has no line. It fails only when out of memory.
pub fn print_faults<A: Allocator + Copy>(
    alloc: A,
    library: &Library<'_, A>,
    design: &Design<'_, A>,
    flat: Option<&Flat<A>>,
    violations: &[Fault],
) -> Result<Vec<u8, A>, AllocError>
    requires { library.now ≡ design.now.library }
    ensures { IfOk result (λ text. text.items ≡ violations_text design.now (option_map (λ flat. flat.now) flat.entry) violations.now) }
{
    let mut text = Vec::new(alloc);
    for violation in violations {
        push_violation(&mut text, design, flat, *violation)?;
    }
    Ok(text)
}

/// Adds the line of a violation.
fn push_violation<A: Allocator + Copy>(
    text: &mut Vec<u8, A>,
    design: &Design<'_, A>,
    flat: Option<&Flat<A>>,
    violation: Fault,
) -> Result<(), AllocError>
    ensures { OnOk result (text.new.items ≡ text.old.items ++ violation_line design.now (option_map (λ flat. flat.now) flat.entry) violation) }
{
    match violation {
        Fault::Unplaced(c) => push_component(text, design, b"UNPLACED ", c),
        Fault::Outside(c) => push_component(text, design, b"OUTSIDE ", c),
        Fault::OffSite(c) => push_component(text, design, b"OFFSITE ", c),
        Fault::Overlap(a, b) => push_overlap(text, design, a, b),
        Fault::Blocked(c) => push_component(text, design, b"BLOCKED ", c),
        Fault::Short(i, j) => push_pair(
            text,
            design,
            b"SHORT",
            shape_at(flat, i),
            shape_at(flat, j),
        ),
        Fault::TooNear(i, j) => push_pair(
            text,
            design,
            b"TOONEAR",
            shape_at(flat, i),
            shape_at(flat, j),
        ),
        Fault::OpenNet(net, piece) => push_open(text, design, net, piece_at(flat, net, piece)),
    }
}

/// The shape of this number, where a flat is given that has it.
fn shape_at<'f, A: Allocator + Copy>(flat: Option<&'f Flat<A>>, number: u32) -> Option<&'f Shape>
    ensures { option_map (λ shape. shape.now) result ≡ shape_at (option_map (λ flat. flat.now) flat.entry) number }
{
    flat?.shapes().get(number as usize)
}

/// The piece of this number of a net, where a flat is given that has it.
fn piece_at<'f, A: Allocator + Copy>(
    flat: Option<&'f Flat<A>>,
    net: u32,
    piece: u32,
) -> Option<&'f Piece>
    ensures { option_map (λ piece. piece.now) result ≡ piece_at (option_map (λ flat. flat.now) flat.entry) net piece }
{
    let flat = flat?;
    if net >= flat.net_count() {
        return None;
    }
    flat.pieces(net).get(piece as usize)
}

/// Adds the line of a violation that speaks of one component.
fn push_component<A: Allocator + Copy>(
    text: &mut Vec<u8, A>,
    design: &Design<'_, A>,
    word: &[u8],
    component: u32,
) -> Result<(), AllocError>
    ensures { OnOk result (text.new.items ≡ text.old.items ++ word.now ++ component_name design.now component ++ codes "\n") }
{
    push_parts(text, &[word, design.component_name(component), b"\n"])
}

/// Adds the line of two overlapping components.
fn push_overlap<A: Allocator + Copy>(
    text: &mut Vec<u8, A>,
    design: &Design<'_, A>,
    first: u32,
    second: u32,
) -> Result<(), AllocError>
    ensures { OnOk result (text.new.items ≡ text.old.items ++ violation_line design.now None (Overlap first second)) }
{
    let first = design.component_name(first);
    let second = design.component_name(second);
    push_parts(text, &[b"OVERLAP ", first, b" ", second, b"\n"])
}

/// Adds the line of a violation that speaks of two shapes, if there are both.
fn push_pair<A: Allocator + Copy>(
    text: &mut Vec<u8, A>,
    design: &Design<'_, A>,
    word: &[u8],
    first: Option<&Shape>,
    second: Option<&Shape>,
) -> Result<(), AllocError>
    ensures { OnOk result (text.new.items ≡ text.old.items ++ pair_line design.now word.now
        (option_map (λ shape. shape.now) first.entry) (option_map (λ shape. shape.now) second.entry)) }
{
    let (Some(first), Some(second)) = (first, second) else {
        return Ok(());
    };
    push_parts(text, &[word, b" ", layer_name(design, first.layer)])?;
    push_shape(text, design, first)?;
    push_shape(text, design, second)?;
    push_line_feed(text)
}

/// Adds whose a shape is and where it lies, after a blank.
fn push_shape<A: Allocator + Copy>(
    text: &mut Vec<u8, A>,
    design: &Design<'_, A>,
    shape: &Shape,
) -> Result<(), AllocError>
    ensures { OnOk result (text.new.items ≡ text.old.items ++ (codes " " ++ shape_text design.now shape.now)) }
{
    push_first(text, b" ")?;
    push_owner(text, design, &shape.owner)?;
    push_sides(text, &shape.rect)
}

/// Adds the sides of a rectangle, each after a blank: left, lower, right, upper.
fn push_sides<A: Allocator>(text: &mut Vec<u8, A>, rect: &Rect) -> Result<(), AllocError>
    ensures { OnOk result (text.new.items ≡ text.old.items ++ spaced
        (signed_decimal rect.now.x1 ∷ signed_decimal rect.now.y1 ∷ signed_decimal rect.now.x2 ∷ signed_decimal rect.now.y2 ∷ [])) }
{
    let mut left = Buffer::new();
    let mut lower = Buffer::new();
    let mut right = Buffer::new();
    let mut upper = Buffer::new();
    push_words(
        text,
        &[
            left.format(rect.x1()).as_bytes(),
            lower.format(rect.y1()).as_bytes(),
            right.format(rect.x2()).as_bytes(),
            upper.format(rect.y2()).as_bytes(),
        ],
    )
}

/// Adds the line of a piece of a net that isn't joined to the first one, if there is such a piece.
fn push_open<A: Allocator + Copy>(
    text: &mut Vec<u8, A>,
    design: &Design<'_, A>,
    net: u32,
    piece: Option<&Piece>,
) -> Result<(), AllocError>
    ensures { OnOk result (text.new.items ≡ text.old.items ++ open_line design.now net (option_map (λ piece. piece.now) piece.entry)) }
{
    let Some(piece) = piece else {
        return Ok(());
    };
    push_parts(text, &[b"OPEN ", design.net_name(net), b" "])?;
    push_piece(text, design, piece)?;
    push_line_feed(text)
}

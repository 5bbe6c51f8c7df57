//! The section of blockages.

ghost use Rattle.std.specs.Prelude.{◌≡◌, ◌++◌, OnOk, codes, map};
ghost use Rattle.std.specs.List.{flat_map};
ghost use Rattle.leg_output.specs.Words.{spaced, line};
ghost use Rattle.leg_design_records.specs.Records.{blockage_said};
ghost use Rattle.leg_output.specs.Text.Blockages.{blocked_layer_words, rect_words, blockage_words};
ghost use Rattle.leg_output.specs.Text.Whole.{blockages_text};

use crate::name::layer_name;
use crate::points::push_corners;
use crate::sections::{push_section_end, push_section_start};
use crate::words::push_start;
use leg_design_records::{Blockage, Design};
use leg_geom::Rect;
use leg_print_words::{push_end, push_word};
use std::alloc::{AllocError, Allocator};

/// Adds rectangles, each after its keyword.
fn push_rects<A: Allocator>(text: &mut Vec<u8, A>, rects: &[Rect]) -> Result<(), AllocError>
    ensures { OnOk result (text.new.items ≡ text.old.items ++ spaced (flat_map rect_words rects.now)) }
{
    for rect in rects {
        push_word(text, b"RECT")?;
        push_corners(text, rect)?;
    }
    Ok(())
}

/// Adds what the entry of a blockage begins with: its layer, where one is named, and else `PLACEMENT`.
fn push_blocked_layer<A: Allocator + Copy>(
    text: &mut Vec<u8, A>,
    design: &Design<'_, A>,
    layer: Option<usize>,
) -> Result<(), AllocError>
    ensures { OnOk result (text.new.items ≡ text.old.items ++ (codes "-" ++ spaced (blocked_layer_words design.now layer))) }
{
    match layer {
        Some(layer) => push_start(text, b"-", &[b"LAYER", layer_name(design, layer)]),
        None => push_start(text, b"-", &[b"PLACEMENT".as_slice()]),
    }
}

/// Adds the entry of rectangles that are to be kept free, on a layer or of components.
fn push_entry<A: Allocator + Copy>(
    text: &mut Vec<u8, A>,
    design: &Design<'_, A>,
    layer: Option<usize>,
    rects: &[Rect],
) -> Result<(), AllocError>
    ensures { OnOk result (text.new.items ≡ text.old.items ++ line (blockage_words design.now (record { layer = layer; rects = rects.now }))) }
{
    push_blocked_layer(text, design, layer)?;
    push_rects(text, rects)?;
    push_end(text)
}

/// Adds the entry of a blockage.
fn push_blockage<A: Allocator + Copy>(
    text: &mut Vec<u8, A>,
    design: &Design<'_, A>,
    blockage: &Blockage<A>,
) -> Result<(), AllocError>
    ensures { OnOk result (text.new.items ≡ text.old.items ++ line (blockage_words design.now (blockage_said blockage.now))) }
{
    match blockage {
        Blockage::LayerRects { layer, rects } => {
            push_entry(text, design, Some(*layer), rects.as_slice())
        }
        Blockage::Placement { rects } => push_entry(text, design, None, rects.as_slice()),
    }
}

/// Adds the section of blockages, where there are any.
#[tactic(auto, using(crate::proofs::SectionText::no_section_of))]
pub(crate) fn push_blockages<A: Allocator + Copy>(
    text: &mut Vec<u8, A>,
    design: &Design<'_, A>,
    blockages: &[Blockage<A>],
) -> Result<(), AllocError>
    ensures { OnOk result (text.new.items ≡ text.old.items ++ blockages_text design.now (map blockage_said blockages.now)) }
{
    if blockages.is_empty() {
        return Ok(());
    }
    push_section_start(text, b"BLOCKAGES", blockages.len())?;
    for blockage in blockages {
        push_blockage(text, design, blockage)?;
    }
    push_section_end(text, b"BLOCKAGES")
}

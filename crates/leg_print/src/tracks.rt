//! The lines of tracks.

ghost use Rattle.std.specs.Prelude.{◌≡◌, ◌++◌, OnOk};
ghost use Rattle.leg_output.specs.Words.{spaced, line};
ghost use Rattle.leg_output.specs.Text.Tracks.{axis_word, layer_words, track_words};
ghost use Rattle.leg_output.specs.Text.Whole.{tracks_text};

use crate::name::layer_name;
use crate::words::push_start;
use itoa::Buffer;
use leg_design_records::{Axis, Design, Track};
use leg_print_words::{push_end, push_word};
use std::alloc::{AllocError, Allocator};

/// The word of an axis.
fn axis_word(axis: Axis) -> &'static [u8]
    ensures { result.now ≡ axis_word axis }
{
    match axis {
        Axis::X => b"X",
        Axis::Y => b"Y",
    }
}

/// Adds the layers that tracks are for, where any are given.
fn push_layers<A: Allocator + Copy>(
    text: &mut Vec<u8, A>,
    design: &Design<'_, A>,
    layers: &[usize],
) -> Result<(), AllocError>
    ensures { OnOk result (text.new.items ≡ text.old.items ++ spaced (layer_words design.now layers.now)) }
{
    if layers.is_empty() {
        return Ok(());
    }
    push_word(text, b"LAYER")?;
    for layer in layers {
        push_word(text, layer_name(design, *layer))?;
    }
    Ok(())
}

/// Adds the line of tracks.
fn push_track<A: Allocator + Copy>(
    text: &mut Vec<u8, A>,
    design: &Design<'_, A>,
    track: &Track<A>,
) -> Result<(), AllocError>
    ensures { OnOk result (text.new.items ≡ text.old.items ++ line (track_words design.now track.now)) }
{
    let mut start = Buffer::new();
    let mut count = Buffer::new();
    let mut step = Buffer::new();
    push_start(
        text,
        b"TRACKS",
        &[
            axis_word(track.axis),
            start.format(track.start).as_bytes(),
            b"DO",
            count.format(track.count).as_bytes(),
            b"STEP",
            step.format(track.step).as_bytes(),
        ],
    )?;
    push_layers(text, design, track.layers.as_slice())?;
    push_end(text)
}

/// Adds a line for each of the tracks.
pub(crate) fn push_tracks<A: Allocator + Copy>(
    text: &mut Vec<u8, A>,
    design: &Design<'_, A>,
    tracks: &[Track<A>],
) -> Result<(), AllocError>
    ensures { OnOk result (text.new.items ≡ text.old.items ++ tracks_text design.now tracks.now) }
{
    for track in tracks {
        push_track(text, design, track)?;
    }
    Ok(())
}

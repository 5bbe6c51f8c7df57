//! Points, corners and orientations as words.

ghost use Rattle.std.specs.Prelude.{◌≡◌, ◌++◌, OnOk};
ghost use Rattle.leg_output.specs.Words.{spaced};
ghost use Rattle.leg_output.specs.Text.Points.{spot_words, corner_words, orient_word};

use itoa::Buffer;
use leg_geom::{Orient, Point, Rect};
use leg_print_words::push_words;
use std::alloc::{AllocError, Allocator};

/// Adds a point, in its parentheses.
pub(crate) fn push_spot<A: Allocator>(text: &mut Vec<u8, A>, spot: &Point) -> Result<(), AllocError>
    ensures { OnOk result (text.new.items ≡ text.old.items ++ spaced (spot_words spot.now)) }
{
    let mut x = Buffer::new();
    let mut y = Buffer::new();
    push_words(
        text,
        &[
            b"(",
            x.format(spot.x()).as_bytes(),
            y.format(spot.y()).as_bytes(),
            b")",
        ],
    )
}

/// Adds the lower left corner of a rectangle and the upper right one.
pub(crate) fn push_corners<A: Allocator>(
    text: &mut Vec<u8, A>,
    rect: &Rect,
) -> Result<(), AllocError>
    ensures { OnOk result (text.new.items ≡ text.old.items ++ spaced (corner_words rect.now)) }
{
    let mut left = Buffer::new();
    let mut bottom = Buffer::new();
    let mut right = Buffer::new();
    let mut top = Buffer::new();
    push_words(
        text,
        &[
            b"(",
            left.format(rect.x1()).as_bytes(),
            bottom.format(rect.y1()).as_bytes(),
            b")",
            b"(",
            right.format(rect.x2()).as_bytes(),
            top.format(rect.y2()).as_bytes(),
            b")",
        ],
    )
}

/// The word of an orientation.
pub(crate) fn orient_word(orient: Orient) -> &'static [u8]
    ensures { result.now ≡ orient_word orient }
{
    match orient {
        Orient::N => b"N",
        Orient::S => b"S",
        Orient::W => b"W",
        Orient::E => b"E",
        Orient::FN => b"FN",
        Orient::FS => b"FS",
        Orient::FW => b"FW",
        Orient::FE => b"FE",
    }
}

//! The lines that a design text begins with.

ghost use Rattle.std.specs.Prelude.{◌≡◌, ◌++◌, OnOk, option_map};
ghost use Rattle.leg_output.specs.Words.{line};
ghost use Rattle.leg_output.specs.Text.Header.{kept_line, units_words, die_words, header_text};

use crate::points::push_corners;
use crate::words::push_line;
use itoa::Buffer;
use leg_design_records::Design;
use leg_geom::Rect;
use leg_print_words::{push_end, push_first};
use std::alloc::{AllocError, Allocator};

/// Adds the line of a keyword and a word, where the word was kept.
fn push_kept_line<A: Allocator>(
    text: &mut Vec<u8, A>,
    keyword: &[u8],
    word: Option<&[u8]>,
) -> Result<(), AllocError>
    ensures { OnOk result (text.new.items ≡ text.old.items ++ kept_line keyword.now (option_map (λ word. word.now) word.entry)) }
{
    match word {
        Some(word) => push_line(text, keyword, &[word, b";"]),
        None => Ok(()),
    }
}

/// Adds the line of the database units of a micron.
fn push_units<A: Allocator>(text: &mut Vec<u8, A>, units: u32) -> Result<(), AllocError>
    ensures { OnOk result (text.new.items ≡ text.old.items ++ line (units_words units)) }
{
    let mut digits = Buffer::new();
    push_line(
        text,
        b"UNITS",
        &[
            b"DISTANCE",
            b"MICRONS",
            digits.format(units).as_bytes(),
            b";",
        ],
    )
}

/// Adds the line of the die area.
fn push_die<A: Allocator>(text: &mut Vec<u8, A>, die: &Rect) -> Result<(), AllocError>
    ensures { OnOk result (text.new.items ≡ text.old.items ++ line (die_words die.now)) }
{
    push_first(text, b"DIEAREA")?;
    push_corners(text, die)?;
    push_end(text)
}

/// Adds the lines that a design text begins with.
pub(crate) fn push_header<A: Allocator + Copy>(
    text: &mut Vec<u8, A>,
    design: &Design<'_, A>,
) -> Result<(), AllocError>
    ensures { OnOk result (text.new.items ≡ text.old.items ++ header_text design.now) }
{
    push_line(text, b"VERSION", &[b"5.8", b";"])?;
    push_kept_line(text, b"DIVIDERCHAR", design.divider())?;
    push_kept_line(text, b"BUSBITCHARS", design.bus())?;
    push_line(text, b"DESIGN", &[design.name(), b";"])?;
    push_units(text, design.library().units())?;
    push_die(text, &design.die())
}

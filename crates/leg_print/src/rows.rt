//! The lines of rows.

ghost use Rattle.std.specs.Prelude.{◌≡◌, ◌++◌, OnOk};
ghost use Rattle.leg_output.specs.Words.{line};
ghost use Rattle.leg_output.specs.Text.Rows.{width_of_site, row_words};
ghost use Rattle.leg_output.specs.Text.Whole.{rows_text};

use crate::name::site_name;
use crate::points::orient_word;
use crate::words::push_start;
use itoa::Buffer;
use leg_design_records::{Design, Row};
use leg_print_words::{push_end, push_words};
use std::alloc::{AllocError, Allocator};

/// How wide the site of this number is; 0 where there is none.
fn width_of_site<A: Allocator + Copy>(design: &Design<'_, A>, site: usize) -> i64
    ensures { result ≡ width_of_site design.now site }
{
    match design.library().sites().get(site) {
        Some(site) => site.size.width(),
        None => 0,
    }
}

/// Adds the line of a row.
fn push_row<A: Allocator + Copy>(
    text: &mut Vec<u8, A>,
    design: &Design<'_, A>,
    row: &Row<'_>,
) -> Result<(), AllocError>
    ensures { OnOk result (text.new.items ≡ text.old.items ++ line (row_words design.now row.now)) }
{
    let mut x = Buffer::new();
    let mut y = Buffer::new();
    let mut count = Buffer::new();
    let mut step = Buffer::new();
    push_start(
        text,
        b"ROW",
        &[row.name.bytes(), site_name(design, row.site)],
    )?;
    push_words(
        text,
        &[
            x.format(row.at.x()).as_bytes(),
            y.format(row.at.y()).as_bytes(),
            orient_word(row.orient),
            b"DO",
            count.format(row.count).as_bytes(),
            b"BY",
            b"1",
            b"STEP",
            step.format(width_of_site(design, row.site)).as_bytes(),
            b"0",
        ],
    )?;
    push_end(text)
}

/// Adds a line for each row.
pub(crate) fn push_rows<A: Allocator + Copy>(
    text: &mut Vec<u8, A>,
    design: &Design<'_, A>,
    rows: &[Row<'_>],
) -> Result<(), AllocError>
    ensures { OnOk result (text.new.items ≡ text.old.items ++ rows_text design.now rows.now) }
{
    for row in rows {
        push_row(text, design, row)?;
    }
    Ok(())
}

//! The lines around the entries of a section.

ghost use Rattle.std.specs.Prelude.{◌≡◌, ◌++◌, OnOk};
ghost use Rattle.leg_output.specs.Words.{line};
ghost use Rattle.leg_output.specs.Text.Sections.{section_start_words, end_words};

use crate::words::push_line;
use itoa::Buffer;
use std::alloc::{AllocError, Allocator};

/// Adds the line that begins a section of this many entries.
pub(crate) fn push_section_start<A: Allocator>(
    text: &mut Vec<u8, A>,
    keyword: &[u8],
    count: usize,
) -> Result<(), AllocError>
    ensures { OnOk result (text.new.items ≡ text.old.items ++ line (section_start_words keyword.now count)) }
{
    let mut digits = Buffer::new();
    push_line(text, keyword, &[digits.format(count).as_bytes(), b";"])
}

/// Adds the line that ends a section, or the whole text.
pub(crate) fn push_section_end<A: Allocator>(
    text: &mut Vec<u8, A>,
    keyword: &[u8],
) -> Result<(), AllocError>
    ensures { OnOk result (text.new.items ≡ text.old.items ++ line (end_words keyword.now)) }
{
    push_line(text, b"END", &[keyword])
}

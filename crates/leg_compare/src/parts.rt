//! What a design has once.

ghost use Rattle.std.specs.Prelude.{◌↔◌, IsTrue};
ghost use Rattle.leg_rules.specs.Compare.Differences.{DiffersInPart};

use crate::equal::is_same_word;
use crate::lists::{are_same_blockages, are_same_rows, are_same_tracks};
use leg_design_records::Design;
use leg_rules::Part;
use std::alloc::Allocator;

/// Whether the designs differ in this part.
pub(crate) fn differ_in<A: Allocator + Copy>(
    first: &Design<'_, A>,
    second: &Design<'_, A>,
    part: Part,
) -> bool
    ensures { IsTrue result ↔ DiffersInPart part first.now second.now }
{
    match part {
        Part::Name => first.name() != second.name(),
        Part::Divider => !is_same_word(first.divider(), second.divider()),
        Part::BusBits => !is_same_word(first.bus(), second.bus()),
        Part::Die => first.die() != second.die(),
        Part::Rows => !are_same_rows(first.rows(), second.rows()),
        Part::Tracks => !are_same_tracks(first.tracks(), second.tracks()),
        Part::Blockages => !are_same_blockages(first.blockages(), second.blockages()),
    }
}

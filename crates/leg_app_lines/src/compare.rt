//! The lines that `compare` prints.

ghost use Rattle.std.specs.Prelude.{◌≡◌, ◌++◌, IfOk, OnOk, decimal};
ghost use Rattle.leg_output.specs.Commands.Compare.{
  part_word,
  section_word,
  change_word,
  entry_text,
  difference_line,
  verdict_line,
  comparison_text,
};

use leg_compare::{Change, Difference, Part, Section, Verdict, entry_name};
use leg_design_records::Design;
use leg_print_words::push_count;
use std::alloc::{AllocError, Allocator};

/// A line for each difference, and one on all of them.
pub fn comparison_text<A: Allocator + Copy>(
    alloc: A,
    first: &Design<'_, A>,
    second: &Design<'_, A>,
    list: &[Difference],
    verdict: Verdict,
) -> Result<Vec<u8, A>, AllocError>
    ensures { IfOk result (λ text. text.items ≡ comparison_text first.now second.now list.now verdict) }
{
    let mut text = Vec::new(alloc);
    for difference in list {
        push_difference(&mut text, first, second, *difference)?;
    }
    push_verdict(&mut text, verdict)?;
    Ok(text)
}

/// Adds the line of a difference.
fn push_difference<A: Allocator + Copy>(
    text: &mut Vec<u8, A>,
    first: &Design<'_, A>,
    second: &Design<'_, A>,
    difference: Difference,
) -> Result<(), AllocError>
    ensures { OnOk result (text.new.items ≡ text.old.items ++ difference_line first.now second.now difference) }
{
    match difference {
        Difference::Whole(part) => {
            text.extend_from_slice(b"DIFFERS ")?;
            text.extend_from_slice(part_word(part))?;
        }
        Difference::Gone(section, i) => {
            text.extend_from_slice(b"GONE ")?;
            push_entry(text, first, section, i)?;
        }
        Difference::Changed(section, change, i) => {
            text.extend_from_slice(b"CHANGED ")?;
            push_entry(text, first, section, i)?;
            text.extend_from_slice(b" ")?;
            text.extend_from_slice(change_word(change))?;
        }
        Difference::Added(section, j) => {
            text.extend_from_slice(b"ADDED ")?;
            push_entry(text, second, section, j)?;
        }
    }
    text.extend_from_slice(b"\n")
}

/// Adds the word of a section, and the name of its entry of this number.
fn push_entry<A: Allocator + Copy>(
    text: &mut Vec<u8, A>,
    design: &Design<'_, A>,
    section: Section,
    number: usize,
) -> Result<(), AllocError>
    ensures { OnOk result (text.new.items ≡ text.old.items ++ entry_text design.now section number) }
{
    text.extend_from_slice(section_word(section))?;
    text.extend_from_slice(b" ")?;
    text.extend_from_slice(entry_name(design, section, number))
}

/// Adds the last line.
fn push_verdict<A: Allocator>(text: &mut Vec<u8, A>, verdict: Verdict) -> Result<(), AllocError>
    ensures { OnOk result (text.new.items ≡ text.old.items ++ verdict_line verdict) }
{
    match verdict {
        Verdict::Same => text.extend_from_slice(b"same")?,
        Verdict::Places(moves) => push_with_count(text, b"places ", moves)?,
        Verdict::Wires(growths) => push_with_count(text, b"wires ", growths)?,
        Verdict::PlacesAndWires(moves, growths) => {
            push_with_count(text, b"places ", moves)?;
            push_with_count(text, b" wires ", growths)?;
        }
        Verdict::Differs(count) => push_with_count(text, b"differs ", count)?,
    }
    text.extend_from_slice(b"\n")
}

/// Adds a word and a number.
fn push_with_count<A: Allocator>(
    text: &mut Vec<u8, A>,
    word: &[u8],
    count: usize,
) -> Result<(), AllocError>
    ensures { OnOk result (text.new.items ≡ text.old.items ++ word.now ++ decimal count) }
{
    text.extend_from_slice(word)?;
    push_count(text, count as u64)
}

fn part_word(part: Part) -> &'static [u8]
    ensures { result.now ≡ part_word part }
{
    match part {
        Part::Name => b"DESIGN",
        Part::Divider => b"DIVIDERCHAR",
        Part::BusBits => b"BUSBITCHARS",
        Part::Die => b"DIEAREA",
        Part::Rows => b"ROWS",
        Part::Tracks => b"TRACKS",
        Part::Blockages => b"BLOCKAGES",
    }
}

fn section_word(section: Section) -> &'static [u8]
    ensures { result.now ≡ section_word section }
{
    match section {
        Section::Vias => b"VIA",
        Section::Components => b"COMPONENT",
        Section::Pins => b"PIN",
        Section::SpecialNets => b"SPECIALNET",
        Section::Nets => b"NET",
    }
}

fn change_word(change: Change) -> &'static [u8]
    ensures { result.now ≡ change_word change }
{
    match change {
        Change::Shapes => b"SHAPES",
        Change::Macro => b"MACRO",
        Change::Status => b"STATUS",
        Change::Place => b"PLACE",
        Change::NetName => b"NET",
        Change::Direction => b"DIRECTION",
        Change::Usage => b"USE",
        Change::Ports => b"PORTS",
        Change::Terminals => b"TERMINALS",
        Change::LostWires => b"LOSTWIRES",
        Change::MoreWires => b"MOREWIRES",
    }
}

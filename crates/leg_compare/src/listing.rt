//! The list of all differences.

ghost use Rattle.std.specs.Prelude.{◌≡◌, ◌+◌, [], IfOk, OnOk};
ghost use Rattle.leg_rules.specs.Compare.Sections.{names_of, AreOfOneName};
ghost use Rattle.leg_rules.specs.Compare.Order.{part_number, section_number, change_number, AreAllDifferences};
ghost use Rattle.leg_compare.specs.Steps.Listing.{AreListedTo, at};

use crate::changes::has_changed;
use crate::parts::differ_in;
use crate::section::{count_of, name_at, names_of};
use leg_design_records::Design;
use leg_lex::Names;
use leg_rules::{Change, Difference, Part, Section};
use std::alloc::{AllocError, Allocator};

/// All differences between the designs, each once, in order. The designs are of one library. It fails only when out of memory.
pub fn differences<A: Allocator + Copy>(
    alloc: A,
    first: &Design<'_, A>,
    second: &Design<'_, A>,
) -> Result<Vec<Difference, A>, AllocError>
    requires { first.now.library ≡ second.now.library }
    ensures { IfOk result (λ list. AreAllDifferences first.now second.now list.items) }
{
    let mut list = Vec::new(alloc);
    push_parts(&mut list, first, second)?;
    push_section(alloc, &mut list, first, second, Section::Vias)?;
    push_section(alloc, &mut list, first, second, Section::Components)?;
    push_section(alloc, &mut list, first, second, Section::Pins)?;
    push_section(alloc, &mut list, first, second, Section::SpecialNets)?;
    push_section(alloc, &mut list, first, second, Section::Nets)?;
    Ok(list)
}

/// Adds what differs of the designs as a whole.
fn push_parts<A: Allocator + Copy>(
    list: &mut Vec<Difference, A>,
    first: &Design<'_, A>,
    second: &Design<'_, A>,
) -> Result<(), AllocError>
    requires { list.old.items ≡ [] }
    ensures { OnOk result (AreListedTo first.now second.now (at 1 0 0) list.new.items) }
{
    push_part(list, first, second, Part::Name)?;
    push_part(list, first, second, Part::Divider)?;
    push_part(list, first, second, Part::BusBits)?;
    push_part(list, first, second, Part::Die)?;
    push_part(list, first, second, Part::Rows)?;
    push_part(list, first, second, Part::Tracks)?;
    push_part(list, first, second, Part::Blockages)
}

/// Adds the part if the designs differ in it.
fn push_part<A: Allocator + Copy>(
    list: &mut Vec<Difference, A>,
    first: &Design<'_, A>,
    second: &Design<'_, A>,
    part: Part,
) -> Result<(), AllocError>
    requires { AreListedTo first.now second.now (at 0 (part_number part) 0) list.old.items }
    ensures { OnOk result (AreListedTo first.now second.now (at 0 (part_number part + 1) 0) list.new.items) }
{
    if differ_in(first, second, part) {
        list.push(Difference::Whole(part))?;
    }
    Ok(())
}

/// Adds what differs in the section.
fn push_section<A: Allocator + Copy>(
    alloc: A,
    list: &mut Vec<Difference, A>,
    first: &Design<'_, A>,
    second: &Design<'_, A>,
    section: Section,
) -> Result<(), AllocError>
    requires { AreListedTo first.now second.now (at (section_number section) 0 0) list.old.items }
    ensures { OnOk result (AreListedTo first.now second.now (at (section_number section + 2) 0 0) list.new.items) }
{
    let later = names_of(alloc, second, section)?;
    push_entries(alloc, list, first, second, section, &later)?;
    let earlier = names_of(alloc, first, section)?;
    push_added(list, first, second, section, &earlier)
}

/// Adds what differs of the entries of the first design in the section. Of the second the names are given.
fn push_entries<A: Allocator + Copy>(
    alloc: A,
    list: &mut Vec<Difference, A>,
    first: &Design<'_, A>,
    second: &Design<'_, A>,
    section: Section,
    later: &Names<'_, A>,
) -> Result<(), AllocError>
    requires names { later.now ≡ names_of section second.now }
    requires listed { AreListedTo first.now second.now (at (section_number section) 0 0) list.old.items }
    ensures { OnOk result (AreListedTo first.now second.now (at (section_number section + 1) 0 0) list.new.items) }
{
    for i in 0..count_of(first, section) {
        match later.place_of(name_at(first, section, i)) {
            None => list.push(Difference::Gone(section, i))?,
            Some(j) => push_changes(alloc, list, first, second, section, i, j)?,
        }
    }
    Ok(())
}

/// Adds each change of an entry of the first design, which has entry `j` of the second one's name.
fn push_changes<A: Allocator + Copy>(
    alloc: A,
    list: &mut Vec<Difference, A>,
    first: &Design<'_, A>,
    second: &Design<'_, A>,
    section: Section,
    i: usize,
    j: usize,
) -> Result<(), AllocError>
    requires one_name { AreOfOneName section first.now second.now i j }
    requires listed { AreListedTo first.now second.now (at (section_number section) i 0) list.old.items }
    ensures { OnOk result (AreListedTo first.now second.now (at (section_number section) (i + 1) 0) list.new.items) }
{
    push_change(alloc, list, first, second, section, Change::Shapes, i, j)?;
    push_change(alloc, list, first, second, section, Change::Macro, i, j)?;
    push_change(alloc, list, first, second, section, Change::Status, i, j)?;
    push_change(alloc, list, first, second, section, Change::Place, i, j)?;
    push_change(alloc, list, first, second, section, Change::NetName, i, j)?;
    push_change(alloc, list, first, second, section, Change::Direction, i, j)?;
    push_change(alloc, list, first, second, section, Change::Usage, i, j)?;
    push_change(alloc, list, first, second, section, Change::Ports, i, j)?;
    push_change(alloc, list, first, second, section, Change::Terminals, i, j)?;
    push_change(alloc, list, first, second, section, Change::LostWires, i, j)?;
    push_change(alloc, list, first, second, section, Change::MoreWires, i, j)
}

/// Adds the change of an entry of the first design if it differs so from entry `j` of the second, which has its name.
fn push_change<A: Allocator + Copy>(
    alloc: A,
    list: &mut Vec<Difference, A>,
    first: &Design<'_, A>,
    second: &Design<'_, A>,
    section: Section,
    change: Change,
    i: usize,
    j: usize,
) -> Result<(), AllocError>
    requires one_name { AreOfOneName section first.now second.now i j }
    requires listed { AreListedTo first.now second.now (at (section_number section) i (change_number change)) list.old.items }
    ensures { OnOk result (AreListedTo first.now second.now (at (section_number section) i (change_number change + 1)) list.new.items) }
{
    let differs = has_changed(alloc, first, second, section, change, i, j)?;
    if differs {
        list.push(Difference::Changed(section, change, i))?;
    }
    Ok(())
}

/// Adds the entries of the second design in the section whose names the first does not have. Those of the first are given.
fn push_added<A: Allocator + Copy>(
    list: &mut Vec<Difference, A>,
    first: &Design<'_, A>,
    second: &Design<'_, A>,
    section: Section,
    earlier: &Names<'_, A>,
) -> Result<(), AllocError>
    requires names { earlier.now ≡ names_of section first.now }
    requires listed { AreListedTo first.now second.now (at (section_number section + 1) 0 0) list.old.items }
    ensures { OnOk result (AreListedTo first.now second.now (at (section_number section + 2) 0 0) list.new.items) }
{
    for j in 0..count_of(second, section) {
        if earlier.place_of(name_at(second, section, j)).is_none() {
            list.push(Difference::Added(section, j))?;
        }
    }
    Ok(())
}

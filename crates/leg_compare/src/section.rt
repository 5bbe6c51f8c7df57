//! The named entries of a section.

ghost use Rattle.std.specs.Prelude.{◌≡◌, ◌<◌, [], length, get_or, IfOk};
ghost use Rattle.leg_lex.specs.NameLookup.{AreApart};
ghost use Rattle.leg_rules.specs.Compare.Sections.{names_of};

use leg_design_records::Design;
use leg_lex::Names;
use leg_rules::Section;
use std::alloc::{AllocError, Allocator};

/// How many entries the section has. No two have one name.
pub(crate) fn count_of<A: Allocator + Copy>(design: &Design<'_, A>, section: Section) -> usize
    ensures is { result ≡ length (names_of section design.now) }
    ensures apart { AreApart (names_of section design.now) }
{
    match section {
        Section::Vias => design.vias().len(),
        Section::Components => design.components().len(),
        Section::Pins => design.pins().len(),
        Section::SpecialNets => design.special().len(),
        Section::Nets => design.nets().len(),
    }
}

/// The name of the entry of this number.
pub(crate) fn name_at<'a, A: Allocator + Copy>(
    design: &Design<'a, A>,
    section: Section,
    number: usize,
) -> &'a [u8]
    requires { number < length (names_of section design.now) }
    ensures { result.now ≡ get_or (names_of section design.now) number [] }
{
    match section {
        Section::Vias => {
            let via = &design.vias()[number];
            via.name.bytes()
        }
        Section::Components => {
            let component = &design.components()[number];
            component.name.bytes()
        }
        Section::Pins => {
            let pin = &design.pins()[number];
            pin.name.bytes()
        }
        Section::SpecialNets => {
            let net = &design.special()[number];
            net.name.bytes()
        }
        Section::Nets => {
            let net = &design.nets()[number];
            net.name.bytes()
        }
    }
}

/// The name of the entry of this number; empty beyond the last.
pub fn entry_name<'a, A: Allocator + Copy>(
    design: &Design<'a, A>,
    section: Section,
    number: usize,
) -> &'a [u8]
    ensures { result.now ≡ get_or (names_of section design.now) number [] }
{
    if number < count_of(design, section) {
        name_at(design, section, number)
    } else {
        b""
    }
}

/// The names of the entries, with an index.
pub(crate) fn names_of<'a, A: Allocator + Copy>(
    alloc: A,
    design: &Design<'a, A>,
    section: Section,
) -> Result<Names<'a, A>, AllocError>
    ensures { IfOk result (λ names. names ≡ names_of section design.now) }
{
    let mut names = Names::new(alloc);
    for number in 0..count_of(design, section) {
        names.push(name_at(design, section, number))?;
    }
    Ok(names)
}

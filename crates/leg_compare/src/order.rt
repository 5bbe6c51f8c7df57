//! In which order the entries of two designs stand.

ghost use Rattle.std.specs.Prelude.{◌≡◌, ◌↔◌, IsTrue};
ghost use Rattle.leg_rules.specs.declared.difference.Section.TheVariants.{Components, Nets};
ghost use Rattle.leg_rules.specs.Compare.EntryOrder.{HaveOtherOrder};
ghost use Rattle.leg_rules.specs.Compare.Sections.{names_of};

use crate::section::{count_of, name_at};
use leg_design_records::Design;
use leg_rules::{OtherOrder, Section};
use std::alloc::Allocator;

/// Whether the names of the section are the same, in one order.
fn are_in_one_order<A: Allocator + Copy>(
    first: &Design<'_, A>,
    second: &Design<'_, A>,
    section: Section,
) -> bool
    ensures { IsTrue result ↔ (names_of section first.now ≡ names_of section second.now) }
{
    if count_of(first, section) != count_of(second, section) {
        return false;
    }
    for number in 0..count_of(first, section) {
        if name_at(first, section, number) != name_at(second, section, number) {
            return false;
        }
    }
    true
}

/// Whether the names of `COMPONENTS`, and those of `NETS`, are not one list in both designs: where nothing differs they are the same names,
/// in another order.
pub fn other_order<A: Allocator + Copy>(first: &Design<'_, A>, second: &Design<'_, A>) -> OtherOrder
    ensures components { IsTrue result.components ↔ HaveOtherOrder Components first.now second.now }
    ensures nets { IsTrue result.nets ↔ HaveOtherOrder Nets first.now second.now }
{
    OtherOrder {
        components: !are_in_one_order(first, second, Section::Components),
        nets: !are_in_one_order(first, second, Section::Nets),
    }
}

//! Violations by their kinds and by the components that they name.

ghost use Rattle.std.specs.Prelude.{◌≡◌, ◌||◌, ℕ, IfOk, OnOk, count_by};
ghost use Rattle.std.specs.List.{list_any};
ghost use Rattle.std.specs.Ordering.{nat_cmp};
ghost use Rattle.std.specs.BTreeSet.{contains};
ghost use Rattle.example_report.specs.Kinds.{kind_of, is_of, names};

use leg_app::Fault;
use std::alloc::{AllocError, Allocator};
use std::collections::BTreeSet;

/// The kinds of violations, in the order in which they are listed.
pub const KINDS: [&str; 8] = [
    "UNPLACED", "OUTSIDE", "OFFSITE", "OVERLAP", "BLOCKED", "SHORT", "TOONEAR", "OPEN",
];

/// The kind of a violation: the first word of its line.
pub fn kind_of(violation: &Fault) -> &'static str
    ensures { result.now ≡ kind_of violation.now }
{
    match violation {
        Fault::Unplaced(_) => "UNPLACED",
        Fault::Outside(_) => "OUTSIDE",
        Fault::OffSite(_) => "OFFSITE",
        Fault::Overlap(..) => "OVERLAP",
        Fault::Blocked(_) => "BLOCKED",
        Fault::Short(..) => "SHORT",
        Fault::TooNear(..) => "TOONEAR",
        Fault::OpenNet(..) => "OPEN",
    }
}

/// How many of the violations are of a kind.
pub fn count_of(violations: &[Fault], kind: &str) -> usize
    ensures { result ≡ count_by (is_of kind.now) violations.now }
{
    violations
        .iter()
        .filter(|violation| kind_of(violation) == kind)
        .count()
}

/// The components, by their numbers, that are not legally placed: those that are named by a violation of placement.
#[tactic(auto, using(std::proofs::lemmas::List::Folds::list_any_more))]
pub fn misplaced<A: Allocator + Copy>(
    alloc: A,
    violations: &[Fault],
) -> Result<BTreeSet<u32, A>, AllocError>
    ensures { IfOk result (λ found. (c : ℕ) → contains nat_cmp found c ≡ list_any (names c) violations.now) }
{
    let mut found = BTreeSet::new(alloc);
    for violation in violations {
        add_named(&mut found, violation)?;
    }
    Ok(found)
}

// Adds the components that a violation of placement names.
fn add_named<A: Allocator + Copy>(
    found: &mut BTreeSet<u32, A>,
    violation: &Fault,
) -> Result<(), AllocError>
    ensures { OnOk result ((c : ℕ) → contains nat_cmp found.new c ≡ (contains nat_cmp found.old c || names c violation.now)) }
{
    match *violation {
        Fault::Unplaced(c) | Fault::Outside(c) | Fault::OffSite(c) | Fault::Blocked(c) => {
            found.insert(c)?;
        }
        Fault::Overlap(a, b) => {
            found.insert(a)?;
            found.insert(b)?;
        }
        Fault::Short(..) | Fault::TooNear(..) | Fault::OpenNet(..) => {}
    }
    Ok(())
}

//! Terminals and wires of two designs, compared by the names of the entries that they speak of.
//! The order of terminals means nothing: where they don't stand in one order, both lists are sorted by their words, and each is looked
//! up in the other.

ghost use Rattle.std.specs.Prelude.{◌≡◌, ◌↔◌, IsTrue, IfOk, map, Contains, IsPermutation, IsSorted};
ghost use Rattle.leg_compare.specs.Steps.Words.{words_cmp, words_now, AreAmong};
ghost use Rattle.leg_rules.specs.Compare.Differences.{GoesOn, NetGrows};
ghost use Rattle.leg_rules.specs.Compare.Spelling.SpelledWire.{via};
ghost use Rattle.leg_rules.specs.Compare.Spelling.{AreSameTerminals, spelled_terminals, spelled_wire, spelled_wires};
ghost use Rattle.leg_design_records.specs.Names.{via_name, terminal_names};

use leg_design_records::{Design, Terminal, Wire};
use leg_geom::Point;
use std::alloc::{AllocError, Allocator};

/// The words of the terminals in increasing order, by their bytes.
fn sorted_words<'d, A: Allocator + Copy>(
    alloc: A,
    design: &'d Design<'_, A>,
    terminals: &[Terminal],
) -> Result<Vec<(&'d [u8], &'d [u8]), A>, AllocError>
    ensures sorted { IfOk result (λ words. IsSorted words_cmp words.items) }
    ensures all { IfOk result (λ words. IsPermutation (spelled_terminals design.now terminals.now) (map words_now words.items)) }
{
    let mut words = Vec::new(alloc);
    for number in 0..terminals.len() {
        words.push(design.terminal_names(&terminals[number]))?;
    }
    words.sort_unstable();
    Ok(words)
}

/// Whether the words are among the others, which are in increasing order.
fn is_among<'d>(words: &(&'d [u8], &'d [u8]), others: &[(&'d [u8], &'d [u8])]) -> bool
    requires { IsSorted words_cmp others.now }
    ensures { IsTrue result ↔ Contains (map words_now others.now) (words_now words.now) }
{
    others.binary_search(words).is_ok()
}

/// Whether each of these words is among the others, which are in increasing order.
fn are_among<'d>(list: &[(&'d [u8], &'d [u8])], others: &[(&'d [u8], &'d [u8])]) -> bool
    requires { IsSorted words_cmp others.now }
    ensures { IsTrue result ↔ AreAmong (map words_now list.now) (map words_now others.now) }
{
    for number in 0..list.len() {
        if !is_among(&list[number], others) {
            return false;
        }
    }
    true
}

/// Whether both have the same words, in whatever number. Both are in increasing order.
fn have_same_words<'d>(a: &[(&'d [u8], &'d [u8])], b: &[(&'d [u8], &'d [u8])]) -> bool
    requires first { IsSorted words_cmp a.now }
    requires second { IsSorted words_cmp b.now }
    ensures { IsTrue result ↔ (AreAmong (map words_now a.now) (map words_now b.now) × AreAmong (map words_now b.now) (map words_now a.now)) }
{
    are_among(a, b) && are_among(b, a)
}

/// Whether both terminals are spelled alike, each in its own design.
fn is_same_terminal<A: Allocator + Copy>(
    first: &Design<'_, A>,
    second: &Design<'_, A>,
    a: &Terminal,
    b: &Terminal,
) -> bool
    ensures { IsTrue result ↔ (terminal_names first.now a.now ≡ terminal_names second.now b.now) }
{
    let before = first.terminal_names(a);
    let after = second.terminal_names(b);
    before.0 == after.0 && before.1 == after.1
}

/// Whether the terminals are spelled alike in one order, each in its own design.
fn are_in_one_order<A: Allocator + Copy>(
    first: &Design<'_, A>,
    second: &Design<'_, A>,
    a: &[Terminal],
    b: &[Terminal],
) -> bool
    ensures { IsTrue result ↔ (spelled_terminals first.now a.now ≡ spelled_terminals second.now b.now) }
{
    if a.len() != b.len() {
        return false;
    }
    for i in 0..a.len() {
        if !is_same_terminal(first, second, &a[i], &b[i]) {
            return false;
        }
    }
    true
}

/// Whether the terminals are the same by their names, each in its own design, in whatever order. It fails only when out of memory.
pub(crate) fn are_same_terminals<A: Allocator + Copy>(
    alloc: A,
    first: &Design<'_, A>,
    second: &Design<'_, A>,
    a: &[Terminal],
    b: &[Terminal],
) -> Result<bool, AllocError>
    ensures { IfOk result (λ same. IsTrue same ↔ AreSameTerminals (spelled_terminals first.now a.now) (spelled_terminals second.now b.now)) }
{
    if are_in_one_order(&*first, &*second, a, b) {
        return Ok(true);
    }
    let before = sorted_words(alloc, &*first, a)?;
    let after = sorted_words(alloc, &*second, b)?;
    Ok(have_same_words(&before, &after))
}

/// Whether the wire of the second design is spelled as a via of the first one at a point.
fn is_same_via<A: Allocator + Copy>(
    first: &Design<'_, A>,
    second: &Design<'_, A>,
    number: usize,
    at: &Point,
    wire: &Wire,
) -> bool
    ensures { IsTrue result ↔ (via (via_name first.now number) at.now ≡ spelled_wire second.now wire.now) }
{
    match wire {
        Wire::ViaAt { via, at: to } => {
            first.via_name(number) == second.via_name(*via) && *at == *to
        }
        _ => false,
    }
}

/// Whether the wires are spelled alike, each in its own design.
fn is_same_wire<A: Allocator + Copy>(
    first: &Design<'_, A>,
    second: &Design<'_, A>,
    a: &Wire,
    b: &Wire,
) -> bool
    ensures { IsTrue result ↔ (spelled_wire first.now a.now ≡ spelled_wire second.now b.now) }
{
    match a {
        Wire::ViaAt { via, at } => is_same_via(first, second, *via, at, b),
        Wire::Segment {
            layer: _,
            from: _,
            to: _,
            width: _,
            ext_from: _,
            ext_to: _,
        } => *a == *b,
        Wire::Patch {
            layer: _,
            at: _,
            rect: _,
        } => *a == *b,
    }
}

/// Whether the second wires begin with the first, each spelled in its own design.
pub(crate) fn go_on<A: Allocator + Copy>(
    first: &Design<'_, A>,
    second: &Design<'_, A>,
    a: &[Wire],
    b: &[Wire],
) -> bool
    ensures { IsTrue result ↔ GoesOn (spelled_wires first.now a.now) (spelled_wires second.now b.now) }
{
    if a.len() > b.len() {
        return false;
    }
    for i in 0..a.len() {
        if !is_same_wire(first, second, &a[i], &b[i]) {
            return false;
        }
    }
    true
}

/// Whether the second wires begin with the first and have more, each spelled in its own design.
pub(crate) fn grow<A: Allocator + Copy>(
    first: &Design<'_, A>,
    second: &Design<'_, A>,
    a: &[Wire],
    b: &[Wire],
) -> bool
    ensures { IsTrue result ↔ NetGrows (spelled_wires first.now a.now) (spelled_wires second.now b.now) }
{
    a.len() < b.len() && go_on(first, second, a, b)
}

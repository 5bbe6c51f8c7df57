//! The lines that `legalise` prints.

ghost use Rattle.std.specs.Prelude.{◌≡◌, ◌++◌, IfOk, OnOk};
ghost use Rattle.leg_output.specs.Commands.Legalise.{length_line, move_line, total_lines, legalised_text, fixed_illegal_text};

use leg_design_records::{Component, Design, Fault};
use leg_flat::Flat;
use leg_legal::Moves;
use leg_print::{print_def, print_faults};
use leg_print_words::{push_count, push_decimal};
use std::alloc::{AllocError, Allocator};

/// The text of a legalised design, and how far its components have moved.
pub fn legalised_text<A: Allocator + Copy>(
    alloc: A,
    design: &Design<'_, A>,
    moves: &Moves<A>,
) -> Result<Vec<u8, A>, AllocError>
    ensures { IfOk result (λ text. text.items ≡ legalised_text design.now moves.now.per_component moves.now.total moves.now.greatest) }
{
    let mut text = print_def(alloc, design.library(), design)?;
    for (component, distance) in design
        .components()
        .iter()
        .zip(moves.per_component.as_slice())
    {
        push_move(&mut text, component, *distance)?;
    }
    push_totals(&mut text, moves.total, moves.greatest)?;
    Ok(text)
}

/// Adds how far the component has moved, if it has.
fn push_move<A: Allocator>(
    text: &mut Vec<u8, A>,
    component: &Component<'_>,
    distance: i64,
) -> Result<(), AllocError>
    ensures { OnOk result (text.new.items ≡ text.old.items ++ move_line component.now distance) }
{
    if distance <= 0 {
        return Ok(());
    }
    text.extend_from_slice(b"# move ")?;
    text.extend_from_slice(component.name.bytes())?;
    text.extend_from_slice(b" ")?;
    push_decimal(text, distance)?;
    text.extend_from_slice(b"\n")
}

/// Adds the sum of the distances, and the greatest of them.
fn push_totals<A: Allocator>(
    text: &mut Vec<u8, A>,
    total: i64,
    greatest: i64,
) -> Result<(), AllocError>
    ensures { OnOk result (text.new.items ≡ text.old.items ++ total_lines total greatest) }
{
    push_length_line(text, b"# total ", total)?;
    push_length_line(text, b"# greatest ", greatest)
}

/// Adds a line of a word and a length.
fn push_length_line<A: Allocator>(
    text: &mut Vec<u8, A>,
    word: &[u8],
    length: i64,
) -> Result<(), AllocError>
    ensures { OnOk result (text.new.items ≡ text.old.items ++ length_line word.now length) }
{
    text.extend_from_slice(word)?;
    push_decimal(text, length)?;
    text.extend_from_slice(b"\n")
}

/// The lines of violations of components that stay, and their number.
pub fn fixed_illegal_text<A: Allocator + Copy>(
    alloc: A,
    design: &Design<'_, A>,
    violations: &[Fault],
) -> Result<Vec<u8, A>, AllocError>
    ensures { IfOk result (λ text. text.items ≡ fixed_illegal_text design.now violations.now) }
{
    let no_flat: Option<Flat<A>> = None;
    let mut text = print_faults(
        alloc,
        design.library(),
        design,
        no_flat.as_ref(),
        violations,
    )?;
    text.extend_from_slice(b"FIXEDILLEGAL ")?;
    push_count(&mut text, violations.len() as u64)?;
    text.extend_from_slice(b"\n")?;
    Ok(text)
}

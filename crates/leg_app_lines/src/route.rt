//! The lines that `route` prints where a design is not routed.

ghost use Rattle.std.specs.Prelude.{◌≡◌, ◌≤◌, length, IfOk};
ghost use Rattle.leg_design_records.specs.declared.limits.TheConstants.{PART_LIMIT};
ghost use Rattle.leg_rules.specs.Metal.Flat.{FlatModel, IsFlatOf};
ghost use Rattle.leg_rules.specs.Metal.Metal.{metal_of};
ghost use Rattle.leg_output.specs.Commands.Route.{not_clean_text};

use leg_design_records::{Design, Fault};
use leg_flat::{Flat, flatten};
use leg_print::print_faults;
use leg_print_words::push_count;
use std::alloc::{AllocError, Allocator};

/// The lines of violations of a design that keeps the limit of shapes, and their number. The violations speak of the
/// design's flat, which is made anew.
pub fn not_clean_text<A: Allocator + Copy>(
    alloc: A,
    design: &Design<'_, A>,
    violations: &[Fault],
) -> Result<Vec<u8, A>, AllocError>
    requires { length (metal_of design.now) ≤ PART_LIMIT }
    ensures { IfOk result (λ text. (flat : FlatModel) → IsFlatOf design.now flat → text.items ≡ not_clean_text design.now flat violations.now) }
{
    let flat = flat_again(alloc, design)?;
    shown_text(alloc, design, &flat, violations)
}

/// The flat of a design that keeps the limit of shapes, made anew.
pub fn flat_again<A: Allocator + Copy>(
    alloc: A,
    design: &Design<'_, A>,
) -> Result<Flat<A>, AllocError>
    requires { length (metal_of design.now) ≤ PART_LIMIT }
    ensures { IfOk result (λ flat. IsFlatOf design.now flat) }
{
    match flatten(alloc, design.library(), design) {
        Ok(flat) => Ok(flat),
        // There are not too many shapes, so an allocation failed.
        Err(_refusal) => Err(AllocError),
    }
}

/// The lines of violations that speak of shapes of the flat, and their number.
fn shown_text<A: Allocator + Copy>(
    alloc: A,
    design: &Design<'_, A>,
    flat: &Flat<A>,
    violations: &[Fault],
) -> Result<Vec<u8, A>, AllocError>
    ensures { IfOk result (λ text. text.items ≡ not_clean_text design.now flat.now violations.now) }
{
    let mut text = print_faults(alloc, design.library(), design, Some(flat), violations)?;
    text.extend_from_slice(b"NOTCLEAN ")?;
    push_count(&mut text, violations.len() as u64)?;
    text.extend_from_slice(b"\n")?;
    Ok(text)
}

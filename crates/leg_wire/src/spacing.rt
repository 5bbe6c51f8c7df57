//! Shorts, and shapes that are too near one another.

ghost use Rattle.std.specs.Prelude.{◌<◌, length, All, AllPairs, IfOk, OnOk};
ghost use Rattle.leg_sweep.specs.Pairs.{Before};
ghost use Rattle.leg_design_records.specs.Violation.{IsListOf};
ghost use Rattle.leg_rules.specs.Spacing.Violations.{IsSpacingViolation};
ghost use Rattle.leg_wire.specs.Steps.PairViolations.{IsPairViolationOf};
ghost use Rattle.leg_wire.specs.Steps.AddedFaults.{AreAdded};

use crate::close_pairs::close_pairs;
use crate::pair_kind::PairKind;
use crate::too_close::TooClose;
use leg_design_records::Fault;
use leg_flat::{Flat, Shape};
use leg_lib_records::Library;
use std::alloc::{AllocError, Allocator};

/// The pairs of comparable shapes that share a point, and those that share none and lie nearer than the spacing that is required of them:
/// all that hold, each once, in order (lefdef's own rules). Shapes are given by their numbers in the flat, the lower
/// one first.
///
/// The flat is of a design that was read with this library. It fails only when out of memory.
pub fn spacing_faults<A: Allocator + Copy>(
    alloc: A,
    library: &Library<'_, A>,
    flat: &Flat<A>,
) -> Result<Vec<Fault, A>, AllocError>
    ensures { IfOk result (λ found. IsListOf (IsSpacingViolation library.now flat.now) found.items) }
{
    let shapes = flat.shapes();
    let mut rule = TooClose::new(library);
    let close = close_pairs(alloc, shapes, &mut rule)?;
    let mut found = Vec::new(alloc);
    push_pairs(PairKind::Short, shapes, &close, &mut found)?;
    push_pairs(PairKind::TooNear, shapes, &close, &mut found)?;
    Ok(found)
}

/// Adds the violations of this kind of those of the pairs that are of this kind.
fn push_pairs<A: Allocator>(
    kind: PairKind,
    shapes: &[Shape],
    close: &[(u32, u32)],
    found: &mut Vec<Fault, A>,
) -> Result<(), AllocError>
    requires increasing { AllPairs Before close.now }
    requires first { All (λ p. p.0 < length shapes.now) close.now }
    requires second { All (λ p. p.1 < length shapes.now) close.now }
    ensures { OnOk result (AreAdded (IsPairViolationOf kind shapes.now close.now) found.old.items found.new.items) }
{
    for (i, j) in close {
        if kind.holds(&shapes[*i as usize], &shapes[*j as usize]) {
            found.push(kind.fault(*i, *j))?;
        }
    }
    Ok(())
}

//! All violations of a design, with its flat.

ghost use Rattle.std.specs.Prelude.{◌≡◌, ◌↔◌, ◌<◌, length, IfOk, IfErr};
ghost use Rattle.leg_design_records.specs.declared.limits.TheConstants.{PART_LIMIT};
ghost use Rattle.leg_design_records.specs.Violation.{IsListOf};
ghost use Rattle.leg_flat.specs.declared.fault.FlatFault.TheVariants.{TooMany};
ghost use Rattle.leg_rules.specs.Metal.Metal.{metal_of};
ghost use Rattle.leg_rules.specs.Metal.Flat.{IsJudgedBy};
ghost use Rattle.leg_rules.specs.Violations.{IsViolation};

use crate::but_open::faults_but_open;
use leg_design_records::{Design, Fault};
use leg_flat::{Flat, FlatFault, flatten};
use leg_wire::open_faults;
use std::alloc::Allocator;

/// The flat of a design, and the design's violations in order.
#[derive(Drop)]
pub struct Checked<A: Allocator> {
    /// The metal that was judged. Violations name its shapes, nets and pieces by their numbers.
    pub flat: Flat<A>,
    /// Everything that is not legal, each once, in order; empty where the design is legal.
    pub violations: Vec<Fault, A>,
}

/// The flat of the design, and everything that is not legal about it: all violations that hold, each once, in order
/// (lefdef's own rules). `leg_print::print_faults` has a line for each.
///
/// `TooMany` means that the design has more than `leg_design::PART_LIMIT` shapes.
pub fn check_design<A: Allocator + Copy>(
    alloc: A,
    design: &Design<'_, A>,
) -> Result<Checked<A>, FlatFault>
    ensures flat { IfOk result (λ checked. IsJudgedBy design.now checked.flat) }
    ensures list { IfOk result (λ checked. IsListOf (IsViolation design.now) checked.violations.items) }
    ensures many { IfErr result (λ fault. fault ≡ TooMany ↔ PART_LIMIT < length (metal_of design.now)) }
{
    let flat = flatten(alloc, design.library(), design)?;
    let mut violations = faults_but_open(alloc, design, &flat)?;
    violations.append(&mut open_faults(alloc, design, &flat)?)?;
    Ok(Checked { flat, violations })
}

//! The violations of all kinds but open nets.

ghost use Rattle.std.specs.Prelude.{IfOk};
ghost use Rattle.leg_design_records.specs.Violation.{IsListOf};
ghost use Rattle.leg_rules.specs.Violations.{IsOtherThanOpen};

use leg_design_records::{Design, Fault};
use leg_flat::Flat;
use leg_place::place_faults;
use leg_wire::spacing_faults;
use std::alloc::{AllocError, Allocator};

/// The violations of all kinds but `OpenNet`, of the design and its flat: all of them, each once, in order.
///
/// It fails only when out of memory.
pub fn faults_but_open<A: Allocator + Copy>(
    alloc: A,
    design: &Design<'_, A>,
    flat: &Flat<A>,
) -> Result<Vec<Fault, A>, AllocError>
    ensures { IfOk result (λ faults. IsListOf (IsOtherThanOpen design.now flat.now) faults.items) }
{
    let library = design.library();
    let mut faults = place_faults(alloc, library, design)?;
    faults.append(&mut spacing_faults(alloc, library, flat)?)?;
    Ok(faults)
}

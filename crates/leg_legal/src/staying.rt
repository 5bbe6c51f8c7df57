//! The violations that name only components that stay.

ghost use Rattle.std.specs.Prelude.{◌≡◌, length, IfOk};
ghost use Rattle.leg_design_records.specs.Violation.{IsListOf};
ghost use Rattle.leg_rules.specs.Legalise.Refusals.{IsStayingViolation};
ghost use Rattle.leg_legal.specs.Steps.Marks.{AreMarksBelow};

use leg_design_records::{Design, Fault};
use leg_lib_records::Library;
use leg_place::place_faults_among;
use std::alloc::{AllocError, Allocator};

/// A mark for each component: whether it stays.
fn marks_of_staying<A: Allocator + Copy>(
    alloc: A,
    design: &Design<'_, A>,
) -> Result<Vec<bool, A>, AllocError>
    ensures { IfOk result (λ marks. AreMarksBelow design.now (length design.now.components) marks.items) }
{
    let mut marks = Vec::with_capacity(alloc, design.components().len())?;
    for i in 0..design.components().len() {
        marks.push(!design.is_movable(i))?;
    }
    Ok(marks)
}

/// The violations of placement that name only components that stay.
pub(crate) fn staying_faults<A: Allocator + Copy>(
    alloc: A,
    library: &Library<'_, A>,
    design: &Design<'_, A>,
) -> Result<Vec<Fault, A>, AllocError>
    requires { library.now ≡ design.now.library }
    ensures { IfOk result (λ staying. IsListOf (IsStayingViolation design.now) staying.items) }
{
    let marks = marks_of_staying(alloc, design)?;
    let faults = place_faults_among(alloc, library, design, &marks)?;
    Ok(faults)
}

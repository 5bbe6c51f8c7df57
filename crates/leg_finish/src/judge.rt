//! Whether anything is wrong with a flat that has grown.

ghost use Rattle.std.specs.Prelude.{◌↔◌, ◌≤◌, IsTrue, length, IfOk};
ghost use Rattle.leg_design_records.specs.declared.limits.TheConstants.{PART_LIMIT};
ghost use Rattle.leg_finish.specs.Steps.Judgement.{HasNoMetalFault};

use crate::groups::open_nets;
use leg_design_records::Design;
use leg_flat::Flat;
use leg_wire::spacing_faults;
use std::alloc::{AllocError, Allocator};

/// Whether the flat has no shorts and no shapes too near one another, and no net of `NETS` is open in it.
pub(crate) fn is_finished<A: Allocator + Copy>(
    alloc: A,
    design: &Design<'_, A>,
    flat: &Flat<A>,
) -> Result<bool, AllocError>
    requires { length design.now.nets ≤ length flat.now.pieces }
    ensures is { IfOk result (λ finished. IsTrue finished ↔ HasNoMetalFault design.now flat.now) }
    ensures within { IfOk result (λ finished. IsTrue finished → length flat.now.shapes ≤ PART_LIMIT) }
{
    let faults = spacing_faults(alloc, design.library(), flat)?;
    if !faults.is_empty() {
        return Ok(false);
    }
    let found = open_nets(alloc, design, flat)?;
    Ok(found.is_empty())
}

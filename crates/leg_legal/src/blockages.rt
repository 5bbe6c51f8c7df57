//! Placement blockages, which leave no room for movable components.

ghost use Rattle.std.specs.Prelude.{[], ◌++◌, List, length, OnOk};
ghost use Rattle.leg_geom.specs.Plane.{RectModel};
ghost use Rattle.leg_legal_sites.specs.Steps.FreeLists.{AreFreeLists};
ghost use Rattle.leg_legal.specs.Steps.Boxes.{KnowStaying, KnowTaken};

use leg_design_records::{Blockage, Design};
use leg_geom::Rect;
use leg_legal_sites::FreeRows;
use std::alloc::{AllocError, Allocator};

/// Takes these rectangles away.
fn take_rects<A: Allocator + Copy>(
    design: &Design<'_, A>,
    free: &mut FreeRows<A>,
    rects: &[Rect],
) -> Result<(), AllocError>
    requires { (boxes : List RectModel) × AreFreeLists design.now boxes free.old }
    ensures { OnOk result ((boxes : List RectModel) → AreFreeLists design.now boxes free.old → AreFreeLists design.now (boxes ++ rects.now) free.new) }
{
    for rect in rects {
        free.take_box(design, rect)?;
    }
    Ok(())
}

/// Takes the rectangles of all placement blockages away, where the boxes of all components that stay are taken away.
pub(crate) fn take_blockages<A: Allocator + Copy>(
    design: &Design<'_, A>,
    free: &mut FreeRows<A>,
) -> Result<(), AllocError>
    requires { KnowStaying design.now (length design.now.components) free.old }
    ensures { OnOk result (KnowTaken design.now design.now [] free.new) }
{
    for blockage in design.blockages() {
        if let Blockage::Placement { rects } = blockage {
            take_rects(design, free, rects.as_slice())?;
        }
    }
    Ok(())
}

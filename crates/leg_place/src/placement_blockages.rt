//! Components in placement blockages (LEF/DEF 5.8, "Blockages").

ghost use Rattle.std.specs.Prelude.{◌≡◌, ◌<◌, ◌≤◌, ◌↔◌, length, IsTrue, IfOk};
ghost use Rattle.leg_design_records.specs.declared.limits.TheConstants.{PART_LIMIT};
ghost use Rattle.leg_design_records.specs.Records.{placement_rects};
ghost use Rattle.leg_rules.specs.Placement.Violations.{IsBlocked};
ghost use Rattle.leg_place.specs.Steps.Floorplan.{IsMet};

use crate::placed_box::box_of;
use leg_design_records::{Blockage, Design};
use leg_geom::Rect;
use leg_sweep::BinIndex;
use std::alloc::{AllocError, Allocator};
use std::marker::Model;

/// The rectangles of the placement blockages of a design, with an index that finds those near a box. Contracts see it as
/// their list.
#[derive(Drop)]
pub(crate) struct PlacementBlockages<A: Allocator> {
    rects: Vec<Rect, A>,
    index: BinIndex<A>,
}

impl<A: Allocator> Model for PlacementBlockages<A> {
    ghost use Rattle.std.specs.Prelude.{◌≡◌, List};
    ghost use Rattle.leg_geom.specs.Plane.{RectModel};

    ghost Value = { List RectModel };

    ghost view = { λ blockages. blockages.rects.items };

    ghost invariant = { λ blockages. blockages.index ≡ blockages.rects.items };
}

impl<A: Allocator + Copy> PlacementBlockages<A> {
    /// Those of a design. It fails only when out of memory.
    pub(crate) fn of_design(
        alloc: A,
        design: &Design<'_, A>,
    ) -> Result<PlacementBlockages<A>, AllocError>
        ensures { IfOk result (λ blockages. blockages ≡ placement_rects design.now.blockages) }
    {
        let rects = placement_rects(alloc, design)?;
        let index = BinIndex::build(alloc, &rects)?;
        Ok(PlacementBlockages { rects, index })
    }

    /// Whether there are none.
    fn is_empty(&self) -> bool
        ensures { IsTrue result ↔ (length self.now ≡ 0) }
    {
        self.rects.is_empty()
    }

    /// Whether one of them shares a unit square with this rectangle. Only those near it are looked at.
    fn meet(&self, rect: &Rect) -> bool
        ensures { IsTrue result ↔ IsMet self.now rect.now }
    {
        for number in self.index.near(rect, 0) {
            if rect.overlaps(&self.rects[number as usize]) {
                return true;
            }
        }
        false
    }
}

/// The rectangles of all placement blockages, in file order.
fn placement_rects<A: Allocator + Copy>(
    alloc: A,
    design: &Design<'_, A>,
) -> Result<Vec<Rect, A>, AllocError>
    ensures is { IfOk result (λ rects. rects.items ≡ placement_rects design.now.blockages) }
    ensures few { IfOk result (λ rects. length rects.items ≤ PART_LIMIT) }
{
    let mut rects = Vec::new(alloc);
    for blockage in design.blockages() {
        if let Blockage::Placement { rects: more } = blockage {
            rects.extend_from_slice(more.as_slice())?;
        }
    }
    Ok(rects)
}

/// Whether the component may be moved, and has a place where it shares a unit square with a rectangle of a placement
/// blockage. The rectangles are those of the design.
pub(crate) fn is_blocked<A: Allocator + Copy>(
    design: &Design<'_, A>,
    blockages: &PlacementBlockages<A>,
    number: usize,
) -> bool
    requires there { number < length design.now.components }
    requires blockages { blockages.now ≡ placement_rects design.now.blockages }
    ensures { IsTrue result ↔ IsBlocked design.now number }
{
    if blockages.is_empty() || !design.is_movable(number) {
        return false;
    }
    match box_of(design.library(), &design.components()[number]) {
        Some(rect) => blockages.meet(&rect),
        None => false,
    }
}

//! The parts of a design that say where its components may stand.

ghost use Rattle.std.specs.Prelude.{IfOk};
ghost use Rattle.leg_place.specs.Steps.Floorplan.{IsFloorplan};

use crate::placement_blockages::PlacementBlockages;
use crate::row_spans::row_spans;
use crate::site_span::SiteSpan;
use leg_design_records::Design;
use std::alloc::{AllocError, Allocator};

/// The sites and the placement blockages of a design, in orders by which they are found.
#[derive(Drop)]
pub(crate) struct Floorplan<A: Allocator> {
    /// The sites of the rows, as `row_spans` gives them.
    pub rows: Vec<SiteSpan, A>,
    /// The placement blockages.
    pub blockages: PlacementBlockages<A>,
}

impl<A: Allocator + Copy> Floorplan<A> {
    /// That of a design. It fails only when out of memory.
    pub(crate) fn of_design(alloc: A, design: &Design<'_, A>) -> Result<Floorplan<A>, AllocError>
        ensures { IfOk result (IsFloorplan design.now) }
    {
        let rows = row_spans(alloc, design)?;
        let blockages = PlacementBlockages::of_design(alloc, design)?;
        Ok(Floorplan { rows, blockages })
    }
}

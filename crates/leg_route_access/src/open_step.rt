//! Which nets may take a step beside a shape.

ghost use Rattle.std.specs.Prelude.{◌≡◌, ◌<◌, IfSome};
ghost use Rattle.leg_rules.specs.declared.side.Side.TheVariants.{Above};
ghost use Rattle.leg_wire_spacing.specs.Access.{alone};
ghost use Rattle.leg_route_grid.specs.Steps.Grid.{IsDesignGrid, slot_total};
ghost use Rattle.leg_route_grid.specs.Steps.NodeNumbers.{IsOpenStepAt};
ghost use Rattle.leg_route_access.specs.Steps.AccessTable.{AdmitsJust, IsOpenAlong};
ghost use Rattle.leg_route_access.specs.Steps.AccessUpdates.{IsNextIfAny};

use crate::strip::strip_beside;
use crate::via_patches::via_beside;
use leg_design_records::Design;
use leg_route_grid::Grid;
use leg_route_search::Side;
use leg_rules::Shape;
use leg_wire_spacing::Access;
use std::alloc::Allocator;

/// The slot to the east of this one or to the north, whichever way its layer's wires run.
pub(crate) fn next_along<A: Allocator + Copy>(grid: &Grid<'_, '_, A>, number: u32) -> Option<u32>
    requires { number < slot_total grid.now }
    ensures is { IsNextIfAny grid.now number result }
    ensures within { IfSome result (λ next. next < slot_total grid.now) }
    ensures proper { IsDesignGrid grid.now }
{
    let east = grid.beside(number, Side::East);
    east.or(grid.beside(number, Side::North))
}

/// To which nets the step along the slot's layer is open, to the east or to the north, where this shape alone lies; to none where
/// there is no such step.
pub(crate) fn along_beside<A: Allocator + Copy>(
    grid: &Grid<'_, '_, A>,
    design: &Design<'_, A>,
    shape: &Shape,
    number: u32,
) -> Access
    requires of_design { grid.now.design ≡ design.now }
    requires within { number < slot_total grid.now }
    ensures { AdmitsJust result (λ net. IsOpenAlong grid.now (alone shape.now) net number) }
{
    let Some(next) = next_along(grid, number) else {
        return Access::Blocked;
    };
    let a = grid.node(number);
    let b = grid.node(next);
    strip_beside(design, shape, a.layer, &a.at, &b.at, grid.width_at(number))
}

/// To which nets the step up from the slot is open, where this shape alone lies; to none where there is no such step.
pub(crate) fn above_beside<A: Allocator + Copy>(
    grid: &Grid<'_, '_, A>,
    design: &Design<'_, A>,
    shape: &Shape,
    number: u32,
) -> Access
    requires of_design { grid.now.design ≡ design.now }
    requires within { number < slot_total grid.now }
    ensures { AdmitsJust result (λ net. IsOpenStepAt grid.now (alone shape.now) net Above number) }
{
    if grid.beside(number, Side::Above).is_none() {
        return Access::Blocked;
    }
    let slot = grid.slot(number);
    match grid.via_at(slot.layer) {
        Some(via) => via_beside(design, shape, via, &grid.node(number).at),
        None => Access::Blocked,
    }
}

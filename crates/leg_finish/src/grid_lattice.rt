//! The grid of a design as the lattice on which nets are routed together.

ghost use Rattle.std.specs.Prelude.{◌≡◌, ◌<◌, ℕ, All, length, IfOk, OnOk};
ghost use Rattle.leg_route_grid.specs.Steps.Grid.{slot_total};

use leg_design_records::Design;
use leg_finish_search::{Element, GridPoint, Lattice, Part};
use leg_lib_records::Direction;
use leg_route_access::{SlotAccess, square};
use leg_route_grid::{Grid, Slot, grid_is_sound};
use leg_wire_spacing::greatest_spacing_on;
use std::alloc::{AllocError, Allocator};

/// A grid, and to which nets each of its nodes and steps is open.
#[derive(Drop)]
pub(crate) struct GridLattice<'s, 'g, 'a, A: Allocator + Copy> {
    pub(crate) grid: &'s Grid<'g, 'a, A>,
    pub(crate) slots: &'s [SlotAccess],
    ghost count: { length slots.now ≡ slot_total grid.now },
}

impl<'s, 'g, 'a, A: Allocator + Copy> Lattice for GridLattice<'s, 'g, 'a, A> {
    ghost use Rattle.std.specs.Prelude.{length};
    ghost use Rattle.leg_route_grid.specs.Steps.Grid.{slot_total};

    ghost size_of = { λ l. slot_total l.grid.now };

    ghost levels_of = { λ l. length l.grid.now.layers };

    ghost xs_of = { λ l. l.grid.now.xs };

    ghost ys_of = { λ l. l.grid.now.ys };

    fn size(&self) -> u32 {
        self.grid.size()
    }

    fn levels(&self) -> usize {
        self.grid.layer_count()
    }

    fn xs(&self) -> &[i64] {
        self.grid.xs()
    }

    fn ys(&self) -> &[i64] {
        self.grid.ys()
    }

    fn direction(&self, level: usize) -> Direction {
        self.grid.layer_at(level).direction
    }

    fn point(&self, slot: u32) -> GridPoint {
        let Slot { layer, row, column } = self.grid.slot(slot);
        GridPoint {
            level: layer,
            row,
            column,
        }
    }

    fn slot(&self, point: GridPoint) -> u32 {
        let GridPoint { level, row, column } = point;
        self.grid.number_at(Slot {
            layer: level,
            row,
            column,
        })
    }

    fn is_open_node(&self, slot: u32, net: u32) -> bool {
        self.slots[slot as usize].node.admits(net)
    }

    fn is_open_along(&self, slot: u32, net: u32) -> bool {
        self.slots[slot as usize].along.admits(net)
    }

    fn is_open_above(&self, slot: u32, net: u32) -> bool {
        self.slots[slot as usize].above.admits(net)
    }
}

/// Adds the rectangles of the via of this number, where there is one, as those of the steps up from this level.
fn push_via<A: Allocator + Copy>(
    design: &Design<'_, A>,
    level: usize,
    via: Option<usize>,
    parts: &mut Vec<Part, A>,
) -> Result<(), AllocError>
    ensures { OnOk result ((levels : ℕ) → level < levels → All (λ part. part.level < levels) parts.old.items
        → All (λ part. part.level < levels) parts.new.items) }
{
    let library = design.library();
    let Some(number) = via else {
        return Ok(());
    };
    let Some(via) = library.vias().get(number) else {
        return Ok(());
    };
    for shape in via.shapes.as_slice() {
        parts.push(Part {
            element: Element::Via,
            level,
            layer: shape.layer,
            rect: shape.rect,
            spacing: greatest_spacing_on(library, shape.layer) as i64,
        })?;
    }
    Ok(())
}

/// The rectangles that nodes and steps up of the grid have.
pub(crate) fn parts_of<A: Allocator + Copy>(
    alloc: A,
    grid: &Grid<'_, '_, A>,
    design: &Design<'_, A>,
) -> Result<Vec<Part, A>, AllocError>
    ensures { IfOk result (λ parts. All (λ part. part.level < length grid.now.layers) parts.items) }
{
    grid_is_sound(grid);
    let mut parts = Vec::new(alloc);
    for level in 0..grid.layer_count() {
        let layer = grid.layer_at(level);
        parts.push(Part {
            element: Element::Node,
            level,
            layer: layer.number,
            rect: square(layer.width),
            spacing: greatest_spacing_on(design.library(), layer.number) as i64,
        })?;
        push_via(design, level, grid.via_at(level), &mut parts)?;
    }
    Ok(parts)
}

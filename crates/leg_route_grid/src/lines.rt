//! The values of the grid along its axes, by the tracks of the design.

ghost use Rattle.std.specs.Prelude.{◌≡◌, ◌↔◌, ◌⊎◌, ◌<ℤ◌, ◌+ℤ◌, ◌*ℤ◌, ℤ, pos, IsTrue, AllPairs, Contains, IfOk, OnOk, unsigned_abs};
ghost use Rattle.leg_lib_records.specs.declared.records.LayerKind.TheVariants.{Routing};
ghost use Rattle.leg_rules.specs.Route.Tracks.{AreFor, IsLineOf, IsGridX, IsGridY};
ghost use Rattle.leg_rules.specs.Route.GridSize.{AreValues};
ghost use Rattle.leg_route_grid.specs.Steps.Lines.{Serve, HasLines, IsLineFor, IsLineAlong};

use leg_design_records::{Axis, Design, Track};
use leg_lib_records::{Direction, LayerKind, Library};
use std::alloc::{AllocError, Allocator};

/// Whether wires of this direction run on layers of this kind.
pub(crate) fn runs(kind: LayerKind, direction: Direction) -> bool
    ensures { IsTrue result ↔ ((width : ℤ) × (kind ≡ Routing direction width)) }
{
    match kind {
        LayerKind::Routing {
            direction: own,
            width: _width,
        } => own == direction,
        LayerKind::Cut => false,
        LayerKind::Other => false,
    }
}

/// Whether the tracks are for the layer of this number, which is a routing layer.
pub(crate) fn are_for<A: Allocator>(track: &Track<A>, number: usize) -> bool
    ensures { IsTrue result ↔ AreFor track.now number }
{
    let layers = track.layers.as_slice();
    layers.is_empty() || layers.contains(&number)
}

/// Whether the tracks lie along this axis.
pub(crate) fn is_along<A: Allocator>(track: &Track<A>, axis: Axis) -> bool
    ensures { IsTrue result ↔ (track.now.axis ≡ axis) }
{
    track.axis == axis
}

/// Whether the tracks are for some layer on which wires of this direction run.
fn serve<A: Allocator + Copy>(
    library: &Library<'_, A>,
    track: &Track<A>,
    direction: Direction,
) -> bool
    ensures { IsTrue result ↔ Serve library.now track.now direction }
{
    for (number, layer) in library.layers().iter().enumerate() {
        if runs(layer.kind, direction) && are_for(track, number) {
            return true;
        }
    }
    false
}

/// How many tracks these are.
pub(crate) fn count_of<A: Allocator>(track: &Track<A>) -> u64
    ensures { result ≡ unsigned_abs track.now.count }
{
    track.count.unsigned_abs()
}

/// Line k of the tracks.
pub(crate) fn line<A: Allocator>(track: &Track<A>, k: u64) -> i64
    requires within { pos k <ℤ track.now.count }
    requires lines { HasLines track.now }
    ensures { result ≡ track.now.start +ℤ (pos k *ℤ track.now.step) }
{
    track.start + k as i64 * track.step
}

/// Adds the lines of the tracks.
fn add_lines<A: Allocator, B: Allocator>(
    values: &mut Vec<i64, B>,
    track: &Track<A>,
) -> Result<(), AllocError>
    requires { HasLines track.now }
    ensures { OnOk result ((z : ℤ) → Contains values.new.items z ↔ (Contains values.old.items z ⊎ IsLineOf track.now z)) }
{
    for k in 0..count_of(track) {
        values.push(line(track, k))?;
    }
    Ok(())
}

/// Adds the lines of the tracks, if they lie along this axis and are for some layer of this direction.
fn add_lines_for<A: Allocator + Copy, B: Allocator>(
    values: &mut Vec<i64, B>,
    library: &Library<'_, A>,
    track: &Track<A>,
    direction: Direction,
    axis: Axis,
) -> Result<(), AllocError>
    requires { HasLines track.now }
    ensures { OnOk result ((z : ℤ) → Contains values.new.items z ↔ (Contains values.old.items z ⊎ IsLineFor library.now direction axis track.now z)) }
{
    if is_along(track, axis) && serve(library, track, direction) {
        add_lines(values, track)?;
        Ok(())
    } else {
        Ok(())
    }
}

/// The lines along this axis of the tracks that are for some layer of this direction.
fn lines_along<A: Allocator + Copy>(
    alloc: A,
    design: &Design<'_, A>,
    direction: Direction,
    axis: Axis,
) -> Result<Vec<i64, A>, AllocError>
    ensures { IfOk result (λ values. (z : ℤ) → Contains values.items z ↔ IsLineAlong design.now.library design.now.tracks direction axis z) }
{
    let library = design.library();
    let mut values = Vec::new(alloc);
    for track in design.tracks() {
        add_lines_for(&mut values, library, track, direction, axis)?;
    }
    Ok(values)
}

/// Puts the values in increasing order, each once.
fn put_in_order<A: Allocator>(values: &mut Vec<i64, A>)
    ensures rising { AllPairs (λ a b. a <ℤ b) values.new.items }
    ensures same { (z : ℤ) → Contains values.new.items z ↔ Contains values.old.items z }
{
    values.sort_unstable();
    values.dedup();
}

/// The x values of the grid.
pub(crate) fn grid_xs<A: Allocator + Copy>(
    alloc: A,
    design: &Design<'_, A>,
) -> Result<Vec<i64, A>, AllocError>
    ensures { IfOk result (λ xs. AreValues (IsGridX design.now) xs.items) }
{
    let mut xs = lines_along(alloc, design, Direction::Vertical, Axis::X)?;
    put_in_order(&mut xs);
    Ok(xs)
}

/// The y values of the grid.
pub(crate) fn grid_ys<A: Allocator + Copy>(
    alloc: A,
    design: &Design<'_, A>,
) -> Result<Vec<i64, A>, AllocError>
    ensures { IfOk result (λ ys. AreValues (IsGridY design.now) ys.items) }
{
    let mut ys = lines_along(alloc, design, Direction::Horizontal, Axis::Y)?;
    put_in_order(&mut ys);
    Ok(ys)
}

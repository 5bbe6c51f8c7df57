//! Which values of the grid are tracks of a layer.

ghost use Rattle.std.specs.Prelude.{◌≡◌, ◌<ℤ◌, AllPairs, length, IfOk};
ghost use Rattle.leg_rules.specs.Route.Tracks.{IsLineOf};
ghost use Rattle.leg_route_grid.specs.Steps.Lines.{HasLines, IsTrackAt, HaveMarked};
ghost use Rattle.leg_route_grid.specs.Steps.TrackMarks.{AreTrackMarks};

use crate::lines::{are_for, count_of, is_along, line};
use leg_design_records::{Axis, Design, Track};
use leg_geom::places_within;
use std::alloc::{AllocError, Allocator};

/// Sets the mark of this value, if it is one of the values.
fn mark_value(values: &[i64], marks: &mut [bool], value: i64)
    requires rising { AllPairs (λ a b. a <ℤ b) values.now }
    requires count { length marks.old ≡ length values.now }
    ensures { HaveMarked values.now (λ z. z ≡ value) marks.old marks.new }
{
    let (first, end) = places_within(values, value, value);
    if first < end {
        marks[first] = true;
    }
}

/// Sets the marks of the values at which one of the tracks lies.
fn mark_lines<A: Allocator>(values: &[i64], marks: &mut [bool], track: &Track<A>)
    requires rising { AllPairs (λ a b. a <ℤ b) values.now }
    requires count { length marks.old ≡ length values.now }
    requires lines { HasLines track.now }
    ensures { HaveMarked values.now (IsLineOf track.now) marks.old marks.new }
{
    for k in 0..count_of(track) {
        mark_value(values, marks, line(track, k));
    }
}

/// The same, if the tracks lie along this axis and are for the layer of this number.
fn mark_lines_for<A: Allocator>(
    values: &[i64],
    marks: &mut [bool],
    track: &Track<A>,
    number: usize,
    axis: Axis,
)
    requires rising { AllPairs (λ a b. a <ℤ b) values.now }
    requires count { length marks.old ≡ length values.now }
    requires lines { HasLines track.now }
    ensures { HaveMarked values.now (λ z. IsTrackAt number axis z track.now) marks.old marks.new }
{
    if is_along(track, axis) && are_for(track, number) {
        mark_lines(values, marks, track);
    }
}

/// For each of the values, which are in increasing order, whether the layer of this number has a track there.
pub(crate) fn track_marks<A: Allocator + Copy>(
    alloc: A,
    design: &Design<'_, A>,
    number: usize,
    axis: Axis,
    values: &[i64],
) -> Result<Vec<bool, A>, AllocError>
    requires { AllPairs (λ a b. a <ℤ b) values.now }
    ensures { IfOk result (λ marks. AreTrackMarks design.now number axis values.now marks.items) }
{
    let mut marks = Vec::from_elem(alloc, false, values.len())?;
    for track in design.tracks() {
        mark_lines_for(values, &mut marks, track, number, axis);
    }
    Ok(marks)
}

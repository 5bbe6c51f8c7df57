//! How far the columns and the rows of a grid are from its first ones, as walks pay for it.

ghost use Rattle.std.specs.Prelude.{◌≡◌, length, IfOk};

use crate::price::PITCH;
use std::alloc::{AllocError, Allocator};

// No step along a line of the grid costs more than this.
const GREATEST_PLACE: u64 = 1 << 30;

/// How far the values are from each other, each from the one before it.
fn steps_of<A: Allocator>(alloc: A, values: &[i64]) -> Result<Vec<u64, A>, AllocError> {
    let mut steps = Vec::new(alloc);
    for (low, high) in values.iter().zip(values.iter().skip(1)) {
        steps.push(high.abs_diff(*low))?;
    }
    Ok(steps)
}

/// The commonest of the distances from one value to the next, the least of several; 1 where there is none.
pub(crate) fn pitch_of<A: Allocator>(alloc: A, values: &[i64]) -> Result<u64, AllocError> {
    let mut steps = steps_of(alloc, values)?;
    steps.sort_unstable();
    let mut commonest = 1;
    let mut most = 0u64;
    let mut last = 0;
    let mut count = 0u64;
    for step in &steps {
        count = if *step == last {
            count.saturating_add(1)
        } else {
            1
        };
        last = *step;
        if count > most {
            most = count;
            commonest = *step;
        }
    }
    Ok(commonest.max(1))
}

/// How far each value is from the first, in hundredths of this pitch.
pub(crate) fn places_of<A: Allocator>(
    alloc: A,
    values: &[i64],
    pitch: u64,
) -> Result<Vec<u32, A>, AllocError>
    ensures { IfOk result (λ places. length places.items ≡ length values.now) }
{
    let mut places = Vec::with_capacity(alloc, values.len())?;
    for value in values {
        places.push(place_of(values[0], *value, pitch))?;
    }
    Ok(places)
}

/// How far a value is from the first.
fn place_of(first: i64, value: i64, pitch: u64) -> u32 {
    let distance = value.abs_diff(first).saturating_mul(u64::from(PITCH));
    (distance / pitch.max(1)).min(GREATEST_PLACE) as u32
}

//! Numbers in rising order.

ghost use Rattle.std.specs.Prelude.{◌≡◌, [], false, ◌<ℤ◌, ◌≤ℤ◌, All, AllPairs, fold, IfOk, IsTrue, OnOk};
ghost use Rattle.leg_polygon.specs.Slab.{put_once, toggle};
ghost use Rattle.leg_polygon.specs.Steps.Numbers.{ListEndsWith};

use std::alloc::{AllocError, Allocator};

/// The numbers in rising order, each once.
pub(crate) fn in_order<A: Allocator>(mut numbers: Vec<i64, A>) -> Vec<i64, A>
    ensures { result.items ≡ fold put_once [] numbers.items }
{
    numbers.sort_unstable();
    numbers.dedup();
    numbers
}

/// Whether the last of the numbers is this one.
fn ends_with(numbers: &[i64], number: i64) -> bool
    ensures yes { IsTrue result → ListEndsWith numbers.now number }
    ensures no { result ≡ false → ListEndsWith numbers.now number → ⊥ }
{
    match numbers {
        [.., last] => *last == number,
        [] => false,
    }
}

/// Adds a number that is not below the others, or takes it away if it stands there.
fn toggle_last<A: Allocator>(numbers: &mut Vec<i64, A>, number: i64) -> Result<(), AllocError>
    requires rising { AllPairs (λ a b. a <ℤ b) numbers.old.items }
    requires upto { All (λ a. a ≤ℤ number) numbers.old.items }
    ensures { OnOk result (numbers.new.items ≡ toggle numbers.old.items number) }
{
    if ends_with(numbers, number) {
        numbers.pop();
    } else {
        numbers.push(number)?;
    }
    Ok(())
}

/// The numbers that stand an odd number of times in the list, in rising order. The list is sorted.
pub(crate) fn odd_numbers<A: Allocator + Copy>(
    alloc: A,
    numbers: &mut [i64],
) -> Result<Vec<i64, A>, AllocError>
    ensures { IfOk result (λ v. v.items ≡ fold toggle [] numbers.old) }
{
    numbers.sort_unstable();
    let mut odd = Vec::new(alloc);
    'numbers: for number in &*numbers {
        toggle_last(&mut odd, *number)?;
    }
    Ok(odd)
}

/// The numbers that stand in just one of two lists in rising order, in rising order.
pub(crate) fn in_one_alone<A: Allocator>(
    alloc: A,
    some: &[i64],
    others: &[i64],
) -> Result<Vec<i64, A>, AllocError>
    requires rising { AllPairs (λ a b. a <ℤ b) others.now }
    ensures { IfOk result (λ v. v.items ≡ fold toggle some.now others.now) }
{
    let mut alone = Vec::new(alloc);
    let mut first = some;
    let mut second = others;
    'numbers: while let [a, after_a @ ..] = first {
        if let [b, after_b @ ..] = second {
            if *a < *b {
                alone.push(*a)?;
                first = after_a;
            } else if *b < *a {
                alone.push(*b)?;
                second = after_b;
            } else {
                first = after_a;
                second = after_b;
            }
        } else {
            alone.push(*a)?;
            first = after_a;
        }
    }
    alone.extend_from_slice(second)?;
    Ok(alone)
}

//! Searches and an index of which each growth is refused in turn.

use super::crowded::of_two_classes;
use super::rules::{Shape, Within};
use super::scattered;
use leg_geom::Rect;
use leg_sweep::{BinIndex, PairRule, pairs, pairs_counted, pairs_in_bands};
use std::alloc::{AllocError, Allocator, Global};
use std::test::Fail;
use test_alloc::{Refused, RefusingAlloc, Turn, in_turn};

/// An allocator that a test lends.
type Lent<'r> = &'r RefusingAlloc<Global>;

/// The reach of the rule, in database units.
const REACH: u32 = 30;

fn ensure(holds: bool, message: &'static str) -> Result<(), Fail> {
    if holds {
        Ok(())
    } else {
        Err(Fail::new(message))
    }
}

fn pairs_in_turn(alloc: Lent<'_>, shapes: &[Shape], number: u64) -> Result<Turn, Fail> {
    if shapes.len() > 100 {
        return Err(Fail::new("too many shapes"));
    }
    let ample = pairs(alloc, shapes, &mut Within::new(REACH, 0, &[]))?;
    alloc.refuse(Refused::Growth(number));
    let found = pairs(alloc, shapes, &mut Within::new(REACH, 0, &[]));
    let turn = alloc.turn_ended(found.is_err());
    if let Ok(found) = found {
        ensure(found.as_slice() == ample.as_slice(), "other pairs")?;
    }
    Ok(turn)
}

fn pairs_counted_in_turn(alloc: Lent<'_>, shapes: &[Shape], number: u64) -> Result<Turn, Fail> {
    if shapes.len() > 100 {
        return Err(Fail::new("too many shapes"));
    }
    let ample = pairs_counted(alloc, shapes, &mut Within::new(REACH, 0, &[]))?;
    let mut rule = Within::new(REACH, 0, &[]);
    alloc.refuse(Refused::Growth(number));
    let found = pairs_counted(alloc, shapes, &mut rule);
    let turn = alloc.turn_ended(found.is_err());
    if let Ok(found) = found {
        let same = found.pairs.as_slice() == ample.pairs.as_slice();
        ensure(same && !ample.pairs.as_slice().is_empty(), "other pairs")?;
        let counts = (found.tests, found.looks);
        ensure(counts == (ample.tests, ample.looks), "other counts")?;
        ensure(counts == (rule.tests(), rule.looks()), "not the counts")?;
    }
    Ok(turn)
}

fn pairs_in_bands_in_turn(alloc: Lent<'_>, shapes: &[Shape], number: u64) -> Result<Turn, Fail> {
    if shapes.len() > 300 {
        return Err(Fail::new("too many shapes"));
    }
    let ample = pairs_in_bands(alloc, shapes, &mut Within::new(REACH, 0, &[]))?;
    alloc.refuse(Refused::Growth(number));
    let found = pairs_in_bands(alloc, shapes, &mut Within::new(REACH, 0, &[]));
    let turn = alloc.turn_ended(found.is_err());
    if let Ok(found) = found {
        ensure(found.as_slice() == ample.as_slice(), "other pairs")?;
    }
    Ok(turn)
}

#[test]
fn searches_without_memory(rt: HostRuntime) -> Result<(), Fail> {
    let owned = RefusingAlloc::new(rt.alloc());
    let alloc = &owned;
    let shapes = scattered(&rt, rt.alloc(), 90, 3);
    in_turn!(number => pairs_in_turn(alloc, &shapes, number)?);
    in_turn!(number => pairs_counted_in_turn(alloc, &shapes, number)?);
    in_turn!(number => pairs_in_bands_in_turn(alloc, &shapes, number)?);
    let crowded = of_two_classes(&rt, rt.alloc(), 300, 1);
    in_turn!(number => pairs_in_bands_in_turn(alloc, &crowded, number)?);
    Ok(())
}

/// The numbers of what is near, each once, in order.
fn near_numbers<A: Allocator + Copy>(
    held: Global,
    index: &BinIndex<A>,
    rect: &Rect,
) -> Result<Vec<u32>, AllocError> {
    let mut numbers = Vec::new(held);
    for number in index.near(rect, REACH) {
        numbers.push(number)?;
    }
    numbers.sort_unstable();
    numbers.dedup();
    Ok(numbers)
}

/// Fails unless the index finds near each of these rectangles what an index made of them finds.
fn is_index_of(held: Global, index: &BinIndex<Lent<'_>>, rects: &[Rect]) -> Result<(), Fail> {
    if rects.len() > 100 {
        return Err(Fail::new("too many rectangles"));
    }
    let wanted = BinIndex::build(held, rects)?;
    ensure(index.len() == rects.len(), "another count")?;
    for rect in rects {
        let near = near_numbers(held, index, rect)?;
        let wanted = near_numbers(held, &wanted, rect)?;
        ensure(near.as_slice() == wanted.as_slice(), "others are near")?;
    }
    Ok(())
}

fn build_in_turn(alloc: Lent<'_>, held: Global, rects: &[Rect], number: u64) -> Result<Turn, Fail> {
    if rects.len() > 100 {
        return Err(Fail::new("too many rectangles"));
    }
    alloc.refuse(Refused::Growth(number));
    let found = BinIndex::build(alloc, rects);
    let turn = alloc.turn_ended(found.is_err());
    if let Ok(index) = found {
        is_index_of(held, &index, rects)?;
    }
    Ok(turn)
}

/// Adds these rectangles.
fn add_all(index: &mut BinIndex<Lent<'_>>, rects: &[Rect]) -> Result<(), Fail> {
    for rect in rects {
        if index.len() > 100 {
            return Err(Fail::new("too many rectangles"));
        }
        index.add(*rect)?;
    }
    Ok(())
}

/// Fails unless the index is that of the first 84 of the 85 rectangles.
fn is_index_of_the_others(
    held: Global,
    index: &BinIndex<Lent<'_>>,
    rects: &[Rect],
) -> Result<(), Fail> {
    match rects.get(..84) {
        Some(others) => is_index_of(held, index, others),
        None => Err(Fail::new("too few rectangles")),
    }
}

/// Adds the 85th rectangle to an index of the others, of which the last 64 are not grouped yet.
fn add_in_turn(alloc: Lent<'_>, held: Global, rects: &[Rect], number: u64) -> Result<Turn, Fail> {
    if rects.len() != 85 {
        return Err(Fail::new("not 85 rectangles"));
    }
    let mut index = BinIndex::build(alloc, &rects[..20])?;
    add_all(&mut index, &rects[20..84])?;
    if index.len() > 100 {
        return Err(Fail::new("too many rectangles"));
    }
    alloc.refuse(Refused::Growth(number));
    let found = index.add(rects[84]);
    let turn = alloc.turn_ended(found.is_err());
    match found {
        Ok(place) => {
            ensure(place == 84, "another number")?;
            is_index_of(held, &index, rects)?;
        }
        Err(_refusal) => is_index_of_the_others(held, &index, rects)?,
    }
    Ok(turn)
}

#[test]
fn an_index_without_memory(rt: HostRuntime) -> Result<(), Fail> {
    let owned = RefusingAlloc::new(rt.alloc());
    let alloc = &owned;
    let mut rects = Vec::new(rt.alloc());
    for shape in &scattered(&rt, rt.alloc(), 85, 1) {
        rects.push(shape.rect)?;
    }
    in_turn!(number => build_in_turn(alloc, rt.alloc(), &rects, number)?);
    in_turn!(number => add_in_turn(alloc, rt.alloc(), &rects, number)?);
    Ok(())
}

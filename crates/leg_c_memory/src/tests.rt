//! What a heap gives, takes back and refuses.

use crate::tests::lent::lent;
use crate::{LentHeap, Memory};
use std::alloc::AllocError;
use std::test::Fail;

mod lent;

// How many bytes come back if no block is out.
fn given_back(heap: LentHeap) -> Option<usize> {
    let (size, _memory) = heap.into_memory()?.with_size();
    Some(size)
}

// The bytes of one third of a heap of 96 bytes.
fn third(heap: &LentHeap) -> Result<Vec<u8, &LentHeap>, AllocError> {
    Vec::with_capacity(heap, 32)
}

#[test]
fn lists_grow_and_shrink(rt: HostRuntime) -> Result<(), Fail> {
    let heap = LentHeap::new(lent(&rt.alloc(), 1 << 16).expect(&rt, "memory"));
    let mut squares = Vec::new(&heap);
    let mut cubes = Vec::new(&heap);
    for n in 0..1000u64 {
        squares.push(n * n)?;
        cubes.push(n * n * n)?;
    }
    squares.truncate(10);
    squares.shrink_to_fit();
    cubes.truncate(3);
    assert_eq!(rt;
        squares.as_slice(),
        [0, 1, 4, 9, 16, 25, 36, 49, 64, 81].as_slice()
    );
    assert_eq!(rt; cubes.as_slice(), [0, 1, 8].as_slice());
    drop(squares);
    drop(cubes);
    assert_eq!(rt; given_back(heap), Some(1 << 16));
    Ok(())
}

#[test]
fn what_is_freed_is_used_again(rt: HostRuntime) -> Result<(), Fail> {
    let heap = LentHeap::new(lent(&rt.alloc(), 96).expect(&rt, "memory"));
    for round in 0..100u8 {
        let two_thirds: Vec<u8, &LentHeap> = Vec::with_capacity(&heap, 64)?;
        let boxed = Box::new(&heap, round)?;
        assert_eq!(rt; (*boxed, two_thirds.len()), (round, 0));
    }
    assert_eq!(rt; given_back(heap), Some(96));
    Ok(())
}

#[test]
fn freed_blocks_are_joined(rt: HostRuntime) -> Result<(), Fail> {
    let heap = LentHeap::new(lent(&rt.alloc(), 96).expect(&rt, "memory"));
    for order in 0..3u8 {
        let (low, middle, high) = (third(&heap)?, third(&heap)?, third(&heap)?);
        assert!(rt; third(&heap).is_err());
        let last = match order {
            0 => {
                drop(low);
                drop(high);
                middle
            }
            1 => {
                drop(low);
                drop(middle);
                high
            }
            _ => {
                drop(high);
                drop(middle);
                low
            }
        };
        let two_thirds: Result<Vec<u8, &LentHeap>, AllocError> = Vec::with_capacity(&heap, 64);
        assert_eq!(rt; two_thirds.is_ok(), order > 0);
        drop(two_thirds);
        drop(last);
        let whole: Vec<u8, &LentHeap> = Vec::with_capacity(&heap, 96)?;
        assert!(rt; Box::new(&heap, 0u8).is_err());
        drop(whole);
    }
    assert_eq!(rt; given_back(heap), Some(96));
    Ok(())
}

#[test]
fn more_than_there_is_is_refused(rt: HostRuntime) -> Result<(), Fail> {
    let heap = LentHeap::new(lent(&rt.alloc(), 16).expect(&rt, "memory"));
    let more: Result<Vec<u8, &LentHeap>, AllocError> = Vec::with_capacity(&heap, 17);
    assert!(rt; more.is_err());
    let all: Vec<u8, &LentHeap> = Vec::with_capacity(&heap, 16)?;
    assert!(rt; Box::new(&heap, ()).is_err());
    drop(more);
    drop(all);
    assert_eq!(rt; *Box::new(&heap, 7u8)?, 7);
    Ok(())
}

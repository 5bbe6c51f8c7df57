//! What is refused, and what is counted.

use crate::{Refused, RefusingAlloc};
use std::alloc::{AllocError, Allocator};
use std::test::Fail;

// Nine bytes in a list that grows as it is filled.
fn filled<A: Allocator>(alloc: A) -> Result<Vec<u8, A>, AllocError> {
    let mut list = Vec::new(alloc);
    for byte in 0..9u8 {
        list.push(byte)?;
    }
    Ok(list)
}

#[test]
fn the_growth_that_is_named_is_refused(rt: HostRuntime) -> Result<(), Fail> {
    let alloc = RefusingAlloc::new(rt.alloc());
    let whole = filled(&alloc)?;
    let growths = alloc.growths();
    assert!(rt; 1 < growths && growths < 10, "{growths} growths");
    for number in 1..10 {
        alloc.refuse(Refused::Growth(number));
        let list = filled(&alloc);
        assert_eq!(rt; list.is_ok(), growths < number, "growth {number}");
        assert_eq!(rt; alloc.growths(), growths.min(number));
        if list.is_err() {
            // It is refused once.
            assert_eq!(rt; filled(&alloc)?.as_slice(), whole.as_slice());
        }
    }
    alloc.refuse(Refused::Every);
    for asked in 1..4 {
        assert!(rt; filled(&alloc).is_err());
        assert_eq!(rt; alloc.growths(), asked);
    }
    alloc.refuse(Refused::Nothing);
    assert_eq!(rt;
        filled(&alloc)?.as_slice(),
        [0, 1, 2, 3, 4, 5, 6, 7, 8].as_slice()
    );
    assert_eq!(rt; alloc.growths(), growths);
    Ok(())
}

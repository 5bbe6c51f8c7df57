//! The free parts of the memory that was lent, in the order of their places.

ghost use Rattle.std.specs.Prelude.{◌≡◌, IfSome, IfOk, IfErr};
ghost use denote.RawPtr.{block_of};
ghost use Rattle.leg_c_memory.specs.Sizes.{IsSize};

use crate::holes::Holes;
use crate::memory::Memory;

/// The free parts of one object's memory. No two of them touch. They are split at a place, from which the last search ended or the
/// last part was put back, so that the next one begins near it.
#[derive(Drop)]
pub(crate) struct FreeParts {
    // Nearest to the place first, in both.
    pub(crate) below: Holes,
    pub(crate) above: Holes,
    ghost one_object: { below.object ≡ above.object },
}

impl FreeParts {
    /// `memory` alone.
    pub(crate) fn of(memory: Memory) -> FreeParts
        ensures { result.above.object ≡ block_of memory.ptr }
    {
        let below = Holes::beside(&memory);
        let above = Holes::beside(&memory);
        FreeParts {
            below,
            above: above.push(memory),
        }
    }

    /// The same, split below all parts.
    pub(crate) fn rewound(self) -> FreeParts
        ensures { result.above.object ≡ self.above.object }
    {
        let FreeParts {
            mut below,
            mut above,
        } = self;
        loop {
            match below.pop() {
                Ok((part, rest)) => {
                    below = rest;
                    above = above.push(part);
                }
                Err(empty) => {
                    return FreeParts {
                        below: empty,
                        above,
                    };
                }
            }
        }
    }

    /// Takes `size` bytes from the lowest part that has them.
    pub(crate) fn take(self, size: usize) -> (FreeParts, Option<Memory>)
        requires { IsSize size }
        ensures object { result.0.above.object ≡ self.above.object }
        ensures memory { IfSome result.1 (λ m. (m.size ≡ size) × (block_of m.ptr ≡ self.above.object)) }
    {
        let FreeParts {
            mut below,
            mut above,
        } = self.rewound();
        loop {
            match above.pop() {
                Ok((part, rest)) => match cut(part, size) {
                    Ok((front, left)) => {
                        let above = with_left(rest, left);
                        return (FreeParts { below, above }, Some(front));
                    }
                    Err(small) => {
                        below = below.push(small);
                        above = rest;
                    }
                },
                Err(empty) => {
                    return (
                        FreeParts {
                            below,
                            above: empty,
                        },
                        None,
                    );
                }
            }
        }
    }

    /// All of the memory, if it is one part of `size` bytes.
    pub(crate) fn into_whole(self, size: usize) -> Option<Memory>
        ensures { IfSome result (λ m. m.size ≡ size) }
    {
        let FreeParts { below: _, above } = self.rewound();
        match above.pop() {
            Ok((part, _rest)) => {
                let (has, part) = part.with_size();
                if has == size { Some(part) } else { None }
            }
            Err(_empty) => None,
        }
    }

    /// One more part, joined to those that it touches.
    pub(crate) fn give(self, memory: Memory) -> FreeParts
        requires { block_of memory.ptr ≡ self.above.object }
        ensures { result.above.object ≡ self.above.object }
    {
        let (parts, memory) = self.lowered(memory);
        let (parts, memory) = parts.raised(memory);
        let FreeParts { below, above } = parts;
        let (below, memory) = joined_below(below, memory);
        let (above, memory) = joined_above(above, memory);
        FreeParts {
            below,
            above: above.push(memory),
        }
    }

    /// The same, split so that no part below the place lies above `memory`.
    fn lowered(self, memory: Memory) -> (FreeParts, Memory)
        requires { block_of memory.ptr ≡ self.above.object }
        ensures object { result.0.above.object ≡ self.above.object }
        ensures memory { result.1 ≡ memory }
    {
        let FreeParts {
            mut below,
            mut above,
        } = self;
        let mut memory = memory;
        loop {
            match below.pop() {
                Ok((part, rest)) => {
                    let (is_below, (part, back)) = part.is_below(memory);
                    memory = back;
                    if is_below {
                        let below = rest.push(part);
                        return (FreeParts { below, above }, memory);
                    }
                    below = rest;
                    above = above.push(part);
                }
                Err(empty) => {
                    return (
                        FreeParts {
                            below: empty,
                            above,
                        },
                        memory,
                    );
                }
            }
        }
    }

    /// The same, split so that no part above the place lies below `memory`.
    fn raised(self, memory: Memory) -> (FreeParts, Memory)
        requires { block_of memory.ptr ≡ self.above.object }
        ensures object { result.0.above.object ≡ self.above.object }
        ensures memory { result.1 ≡ memory }
    {
        let FreeParts {
            mut below,
            mut above,
        } = self;
        let mut memory = memory;
        loop {
            match above.pop() {
                Ok((part, rest)) => {
                    let (is_below, (part, back)) = part.is_below(memory);
                    memory = back;
                    if !is_below {
                        let above = rest.push(part);
                        return (FreeParts { below, above }, memory);
                    }
                    above = rest;
                    below = below.push(part);
                }
                Err(empty) => {
                    return (
                        FreeParts {
                            below,
                            above: empty,
                        },
                        memory,
                    );
                }
            }
        }
    }
}

/// The first `size` bytes of the part, if it has them, and what is left of it.
fn cut(part: Memory, size: usize) -> Result<(Memory, Option<Memory>), Memory>
    requires { IsSize size }
    ensures front { IfOk result (λ r. (r.0.size ≡ size) × (block_of r.0.ptr ≡ block_of part.ptr)) }
    ensures left { IfOk result (λ r. IfSome r.1 (λ m. block_of m.ptr ≡ block_of part.ptr)) }
    ensures small { IfErr result (λ m. m ≡ part) }
{
    let (has, part) = part.with_size();
    if has < size {
        return Err(part);
    }
    if has == size {
        return Ok((part, None));
    }
    let (front, left) = part.split(size);
    Ok((front, Some(left)))
}

/// The list with what was left of a part, if anything was.
fn with_left(above: Holes, left: Option<Memory>) -> Holes
    requires { IfSome left (λ m. block_of m.ptr ≡ above.object) }
    ensures { result.object ≡ above.object }
{
    match left {
        Some(left) => above.push(left),
        None => above,
    }
}

/// `memory` with the first part below it, if they touch.
fn joined_below(below: Holes, memory: Memory) -> (Holes, Memory)
    requires { block_of memory.ptr ≡ below.object }
    ensures object { result.0.object ≡ below.object }
    ensures memory { block_of result.1.ptr ≡ below.object }
{
    match below.pop() {
        Ok((part, rest)) => match part.join(memory) {
            Ok(joined) => (rest, joined),
            Err((part, memory)) => (rest.push(part), memory),
        },
        Err(empty) => (empty, memory),
    }
}

/// `memory` with the first part above it, if they touch.
fn joined_above(above: Holes, memory: Memory) -> (Holes, Memory)
    requires { block_of memory.ptr ≡ above.object }
    ensures object { result.0.object ≡ above.object }
    ensures memory { block_of result.1.ptr ≡ above.object }
{
    match above.pop() {
        Ok((part, rest)) => match memory.join(part) {
            Ok(joined) => (rest, joined),
            Err((memory, part)) => (rest.push(part), memory),
        },
        Err(empty) => (empty, memory),
    }
}

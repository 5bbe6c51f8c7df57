//! Bytes of files and of standard input.

ghost use Rattle.std.specs.Prelude.{◌≡◌, ◌≤◌, take, IfOk, IfSome, vec_len};

use std::alloc::{AllocError, Allocator};
use std::io;
use std::io::Read;

// How many bytes are asked for at once. They are on the stack, and where the stack can't grow the program ends.
const CHUNK: usize = 8_192;

/// Why an input has no bytes.
#[derive(Debug, Drop)]
pub enum InputFault {
    /// It can't be read, for this cause.
    Unreadable(io::Error),
    /// An allocation failed.
    Memory,
}

impl From<AllocError> for InputFault {
    fn from(_e: AllocError) -> InputFault {
        InputFault::Memory
    }
}

/// The bytes that a reader gives, up to `limit` of them. Any error ends it.
pub fn read_all<R: Read, A: Allocator>(
    alloc: A,
    reader: &mut R,
    limit: usize,
) -> Result<Vec<u8, A>, InputFault>
    ensures all { IfOk result (λ v. IfSome (R.remaining reader.old) (λ bytes. v.items ≡ take limit bytes)) }
    ensures few { IfOk result (λ v. vec_len v ≤ limit) }
{
    let mut bytes = Vec::new(alloc);
    let mut chunk = [0u8; CHUNK];
    while bytes.len() < limit {
        let room = CHUNK.min(limit - bytes.len());
        match reader.read(&mut chunk[..room]) {
            Ok(0) => break,
            Ok(count) => bytes.extend_from_slice(&chunk[..count])?,
            Err(cause) => return Err(InputFault::Unreadable(cause)),
        }
    }
    Ok(bytes)
}

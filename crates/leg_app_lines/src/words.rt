//! A line of a word and a name.

ghost use Rattle.std.specs.Prelude.{◌≡◌, ◌++◌, IfOk, codes};

use std::alloc::{AllocError, Allocator};

/// A line of a word and a name.
pub fn name_line<A: Allocator + Copy>(
    alloc: A,
    word: &[u8],
    name: &[u8],
) -> Result<Vec<u8, A>, AllocError>
    ensures { IfOk result (λ text. text.items ≡ word.now ++ name.now ++ codes "\n") }
{
    let mut text = Vec::from_slice(alloc, word)?;
    text.extend_from_slice(name)?;
    text.extend_from_slice(b"\n")?;
    Ok(text)
}

//! The words of one text among several.

ghost use Rattle.std.specs.Prelude.{◌≢◌, ◌<◌, length, IfOk, IfErr};
ghost use Rattle.leg_lex.specs.declared.limits.TheConstants.{TEXT_LIMIT};
ghost use Rattle.leg_lex.specs.declared.read_fault.FaultKind.TheVariants.{Memory};
ghost use Rattle.leg_lex.specs.Denotes.{HasWords, HasNoWords};

use crate::read_fault::ReadFault;
use crate::words::Words;
use std::alloc::Allocator;

/// The words of the text of this number, in order.
///
/// `TooLarge` at line 1 where the text is too long, and `UnclosedString` at the line of an opening quote.
pub fn file_words<'a, A: Allocator + Copy>(
    alloc: A,
    file: u32,
    text: &'a [u8],
) -> Result<Words<'a, A>, ReadFault>
    ensures found { IfOk result (λ words. HasWords text.now words) }
    // A text that is too long is never reported as out of memory.
    ensures too_long { IfErr result (λ fault. TEXT_LIMIT < length text.now → fault.kind ≢ Memory) }
    ensures none { IfErr result (λ fault. fault.kind ≢ Memory → HasNoWords text.now) }
{
    match Words::new(alloc, text) {
        Ok(words) => Ok(words),
        Err(fault) => Err(ReadFault::of_text(file, fault)),
    }
}

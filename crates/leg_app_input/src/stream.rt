//! LEF and DEF in one stream of bytes.

ghost use Rattle.std.specs.Prelude.{IfSome, IfNone};
ghost use Rattle.leg_app_input.specs.Stream.{IsSplit, HasEndLibrary};

use memchr::memmem;

// How a LEF text ends.
const END_LIBRARY: [u8; 11] = *b"END LIBRARY";

/// The LEF and the DEF of a stream, which is cut directly after the first place of the eleven bytes
/// `END LIBRARY`. None where they appear nowhere.
pub fn split_stream(stream: &[u8]) -> Option<(&[u8], &[u8])>
    ensures found { IfSome result (λ parts. IsSplit stream.now parts.0.now parts.1.now) }
    ensures none { IfNone result (¬ HasEndLibrary stream.now) }
{
    let at = memmem::find(stream, &END_LIBRARY)?;
    Some(stream.split_at(at + END_LIBRARY.len()))
}

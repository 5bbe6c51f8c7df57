//! How much of an input is read (lefdef's own rules).

use leg_lex::TEXT_LIMIT;

/// How many bytes of a file are read: one more than a text may have, so that a file beyond the limit is refused as the
/// text that it is.
pub const FILE_LIMIT: usize = TEXT_LIMIT as usize + 1;

/// How many bytes of a stream are read: one more than two texts may have.
pub const STREAM_LIMIT: usize = 2 * TEXT_LIMIT as usize + 1;

//! What a run is given: the words of a command line, the bytes of an input, and a LEF and a DEF in one stream.
#![tactic(auto)]

mod command;
mod input;
mod line;
mod options;
mod stream;

pub use command::Command;
pub use input::{InputFault, read_all};
pub use line::{Asked, CompareLine, Line, asked_by, compare_line_of, line_of};
pub use stream::split_stream;

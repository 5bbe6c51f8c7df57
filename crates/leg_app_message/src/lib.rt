//! Messages on standard error: where a text is refused and why, and what to do where a command stops without a design.
//!
//! They are made of the texts of a run and of the reason for which it stopped, or of what a comparison tells of the order of entries.
#![tactic(auto)]

mod advice;
mod conversion;
mod entry_order;
mod limits;
mod note;
mod noting_writer;
mod refused;
mod remedy;
mod run_message;
mod scaling;
mod sentence;
mod text_line;
mod texts;

pub use entry_order::order_message;
pub use noting_writer::NotingWriter;
pub use run_message::{message, stream_message};
pub use texts::{Paths, Texts};

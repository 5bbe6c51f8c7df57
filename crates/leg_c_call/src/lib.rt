//! lefdef's commands as one call that other languages can make: commands and profiles by numbers, and the memory, the texts and the
//! buffers for the answer and the message lent by the caller.
#![tactic(auto)]

mod explained_call;
mod lent_call;
mod number;

pub use explained_call::call_explained;
pub use lent_call::call;
pub use number::request_of;

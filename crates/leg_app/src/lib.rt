//! lefdef's commands, over the bytes of their texts: what a program needs but for words, files and status.
#![tactic(auto)]

mod answer;
mod check;
mod compare;
mod compare_end;
mod compare_output;
mod end;
mod finish_answer;
mod flow_answer;
pub mod laws;
mod legalise_answer;
mod limits;
mod print_answer;
mod route_answer;
mod run_command;
mod status;
mod text_fault;
mod texts;

// What a tool needs to read a block and to print what is not legal about it.
pub use answer::{Answer, answer_to, answer_to_as};
pub use check::{check_texts, check_texts_as};
pub use compare::{compare_texts, compare_texts_as};
pub use compare_end::{ComparisonAnswer, ComparisonEnd, ComparisonReason, Side};
pub use compare_output::{run_compare, run_compare_as};
pub use end::Halt;
pub use leg_app_input::{
    Asked, Command, CompareLine, InputFault, Line, asked_by, compare_line_of, line_of, read_all,
    split_stream,
};
pub use leg_app_reason::{Reason, Stage};
pub use leg_check::{Checked, check_design};
pub use leg_compare::OtherOrder;
pub use leg_design::DefText;
pub use leg_design_records::{Design, Fault};
pub use leg_finish::Progress;
pub use leg_flat::{Flat, FlatFault};
pub use leg_grammar::{Masks, Profile, Soft};
pub use leg_lex::ReadFault;
pub use leg_lib::{read_lefs, read_lefs_as};
pub use leg_lib_records::{Library, ScaleFault};
pub use leg_print::print_faults;
pub use limits::{FILE_LIMIT, STREAM_LIMIT};
pub use run_command::{
    Ended, RunFault, run, run_as, run_explained, run_explained_as, run_help, run_out, run_stream,
    run_stream_explained, run_with_progress,
};
pub use status::Status;
pub use text_fault::TextFault;

//! The words of LEF and DEF texts, the numbers that words denote, and reading forms from words.
#![tactic(auto)]

mod block;
mod cursor;
mod cursor_fault;
mod fault;
pub mod laws;
mod length;
mod limits;
mod name;
mod named_list;
mod number;
mod past;
mod pieces;
mod read_fault;
mod token;
mod word;
mod word_place;
mod words;
mod words_of_file;

pub use block::{clauses, only, the};
pub use cursor::Cursor;
pub use cursor_fault::FaultPlace;
pub use fault::{LexFault, NumFault};
pub use length::Micron;
pub use limits::{MILLIONTHS_LIMIT, NUMBER_LIMIT, TEXT_LIMIT, UNITS_LIMIT};
pub use name::{Name, Names};
pub use named_list::{Named, NamedList};
pub use number::{micron, whole};
pub use pieces::is_white;
pub use read_fault::{Entry, FaultKind, Keyword, NameKind, Need, ReadFault};
pub use token::Token;
pub use word::{is_keyword, is_mark, is_name, is_word};
pub use words::{Words, tokens};
pub use words_of_file::file_words;

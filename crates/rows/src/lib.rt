//! Rows of tables that programs print with their results: the words of a row, and the table.
#![tactic(auto)]

mod bytes;
mod fault;
mod hex;
mod outcome;
mod table;
mod words;

pub use bytes::{bytes_of, text_of};
pub use fault::RowFault;
pub use hex::hex_bytes;
pub use outcome::shown;
pub use table::{Answers, print_table, run_table};
pub use words::{Word, Words, cut};

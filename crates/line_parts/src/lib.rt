//! The parts that lines of the program's files have in common.
#![tactic(auto)]

mod parts;

pub use parts::{
    cut_at, has_text_length, read_client, read_floor, read_names, read_number, read_request,
    text_after,
};

//! What is printed of what a client gets: one text for each form of reply.
#![tactic(auto)]

mod print;

pub use print::{answer_text, behind_text, elsewhere_text, reply_text};

//! Strings of an evaluation, which have at most 65,536 bytes.
//!
//! Contracts speak of the definition of what expressions mean.
#![tactic(auto)]

mod item_texts;
mod limited_string;
mod tests;
mod texts;

pub use item_texts::{item_length, item_text, printed_item};
pub use limited_string::LimitedString;
pub use tests::{TextTest, after_spaces, ends_in_hyphen, holds};
pub use texts::{all_printed, characters, one_text, printed, separated, spaced, text_in};

//! Items whose texts are looked at more than once: the text of a typed value is compared and counted where it lies, or taken out of the trees once.
#![tactic(auto)]

mod compared;
mod read_item;
mod text_pairs;

pub use compared::{compare_each, compare_items};
pub use read_item::{ReadItem, TakenText, pay_text};

//! Copied content, and what constructors and updates make of it (XQuery 1.0, section 3.7.1.3).
//!
//! Contracts speak of the definition of what expressions mean. New trees stand nowhere yet, but their nodes have taken identities.
#![tactic(auto)]

mod adjacent;
mod copied;
mod copies;
mod copying;
mod kinds;
mod texts;

pub use copied::CopiedContent;
pub use copying::content;
pub use kinds::SplitContent;
pub use texts::new_text;

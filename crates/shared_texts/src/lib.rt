//! Texts and names as nodes and values have them: short texts in place, longer ones and names shared by their clones.
#![tactic(auto)]

mod name;
mod short_text;
mod text;

pub use name::{Name, Names};
pub use text::Text;

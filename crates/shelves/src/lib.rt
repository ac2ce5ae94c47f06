//! A lent forest and an own one seen as one: what evaluation makes stands beside the stored trees, which are never copied.
#![tactic(auto)]

mod changes;
mod cursor;
pub mod laws;
mod shelf;

pub use cursor::ShelfCursor;
pub use shelf::Shelf;

//! What a forest keeps so that its nodes need not be walked through: its elements by name, and the sizes of its trees.
#![tactic(auto)]

mod index;
pub mod name_lists;

pub use index::{ForestIndex, Sizes, plan_size, prepare, settle, single_sizes};

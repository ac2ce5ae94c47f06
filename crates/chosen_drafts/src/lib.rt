//! Drafts of forests in which all trees are to be seen, or those of some roots alone.
#![tactic(auto)]

mod draft;
mod some_trees;

pub use draft::ChosenDraft;

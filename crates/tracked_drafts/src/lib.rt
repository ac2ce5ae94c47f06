//! Drafts of forests that know which nodes were touched, so that what an update leaves is seen to at these alone.
#![tactic(auto)]

mod nodes;
mod tracked;

pub use tracked::TrackedDraft;

//! What update primitives do to a draft of a store, stage by stage.
//!
//! Every primitive rewrites one list or says something new of one node, in the draft as the primitives before it left it. Texts are not merged
//! here, and the result is not judged.
#![tactic(auto)]

mod lists;
mod primitives;
mod sites;
mod stages;

pub use stages::run_stages;

//! `copy .. modify .. return` (XQuery Update Facility 1.0, section 2.4.5), over a function that evaluates its parts.
//!
//! The contract speaks of the definition of what the form means. Copies stand among the trees that an evaluation makes, and only they are changed: what stood
//! before them is as it was, so that the environment of the form holds afterwards too.
#![tactic(auto)]

mod changes;
mod copies;
mod made;
mod roots;
mod sources;
mod targets;

pub use copies::Copies;

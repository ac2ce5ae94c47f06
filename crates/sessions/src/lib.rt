//! Requests run once, in order, over a store, and questions answered from it.
//!
//! What a request does to a store is a definition of its own (`specs/Requests.antt`); the meaning of a list of values (`specs/Meaning.antt`) is a
//! fold over the list. `State` keeps a table of replies and reads no earlier value again.
#![tactic(auto)]

mod applying;
pub mod laws;
mod running;
mod state;

pub use state::{NoMemory, State};

//! A state that one thread changes and others read without waiting: what the readers are shown are beginnings of one list of values.
#![tactic(auto)]

mod copies;
mod fault;
mod laws;
mod reader;
mod serving;
mod store;

pub use copies::{Copies, Entry, Opening, Replica, StateCopy};
pub use fault::ReadFault;
pub use laws::every_sight_was_published;
pub use reader::{Board, Note, Reader};
pub use serving::{Gate, serve};
pub use store::{Known, Published, Store, StoreOver};

//! What writes an acceptor's record into its tables in a SQLite database, each write in one transaction.
#![tactic(auto)]

mod fault;
mod group;
mod keep;
mod promise;
mod vote;

pub use fault::WriteFault;
pub use group::put_all;
pub use keep::put_learnt;
pub use promise::{is_memory, put_promise};
pub use vote::put_vote;

//! An acceptor's record in a SQLite database.
#![tactic(auto)]

mod creation;
mod docs;
mod learnt;
mod load;
mod migration;
mod opening;
mod reading;
mod rows;
mod store;
mod votes;

pub use reading::OpenFault;
pub use store::SqlRecords;

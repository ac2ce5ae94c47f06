//! The tables of an acceptor's record in a SQLite database, by version.
#![tactic(auto)]

mod layout;
mod version;

pub use layout::{has_tables, is_empty};
pub use version::Version;

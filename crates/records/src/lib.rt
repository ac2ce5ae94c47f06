//! The records that an acceptor keeps over stops: what a store for them has to keep, and such stores in memory.
#![tactic(auto)]

mod group;
mod kept;
mod memory;
mod records;
mod script;
mod staged;

pub use group::{GroupRecords, Write};
pub use kept::Record;
pub use memory::MemRecords;
pub use records::{FlushRecords, PlannedRecords, Records, RecordsFault};
pub use script::ScriptRecords;
pub use staged::Staged;

//! The records that a member is opened over.

use records::{MemRecords, PlannedRecords, ScriptRecords};
use std::alloc::{AllocError, Global};

/// Records that may say how many writes they had.
pub(super) trait Counted: PlannedRecords {
    /// How many writes there were, where they are counted.
    fn count(&self) -> Option<u64>;
}

impl Counted for MemRecords {
    fn count(&self) -> Option<u64> {
        None
    }
}

impl Counted for ScriptRecords {
    fn count(&self) -> Option<u64> {
        Some(self.writes())
    }
}

/// What records say of their writes.
pub(super) fn writes_text<R: Counted>(alloc: Global, records: &R) -> Result<String, AllocError> {
    match records.count() {
        Some(writes) => {
            let failures = records.failures();
            format!(in alloc; "{writes} writes, {failures} failed")
        }
        None => String::from_str(alloc, "opened"),
    }
}

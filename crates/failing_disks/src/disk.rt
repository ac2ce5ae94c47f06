//! Disks that fail from some call on.

use super::watched::Watched;
use rows::RowFault;
use sqlite_disk::{Crash, Disk, Fuse, Memory};
use std::alloc::Global;

/// A disk that passes so many calls on, and fails each one after.
pub trait FailingDisk: Crash + Drop {
    /// A disk with these bytes, which has so many calls left. Fault: `Memory`.
    fn failing_after(alloc: Global, calls: u64, bytes: &[u8]) -> Result<Self, RowFault>
    where
        Self: Sized;

    /// Its bytes.
    fn bytes(&self) -> &[u8];

    /// Whether one of its calls failed since memory was refused to it.
    fn lacked_memory(&self) -> bool;
}

impl FailingDisk for Fuse<Watched<Memory>> {
    fn failing_after(
        alloc: Global,
        calls: u64,
        bytes: &[u8],
    ) -> Result<Fuse<Watched<Memory>>, RowFault> {
        let mut memory = Memory::new(alloc);
        if memory.write_at(0, bytes).is_err() || memory.sync().is_err() {
            return Err(RowFault::Memory);
        }
        Ok(Fuse::new(Watched::new(memory), calls))
    }

    fn bytes(&self) -> &[u8] {
        self.inner().inner().bytes()
    }

    fn lacked_memory(&self) -> bool {
        self.inner().lacked_memory()
    }
}

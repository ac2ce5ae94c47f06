//! The files of a database: its log and the database itself, each on a disk that fails from some call on.

use super::disk::FailingDisk;
use rows::RowFault;
use sqlite::Files;
use sqlite_disk::Crash;
use std::alloc::Global;

/// The bytes of a log and of its database.
#[derive(Drop)]
pub struct Written {
    /// The log's.
    pub log: Vec<u8>,
    /// The database's.
    pub database: Vec<u8>,
}

/// Empty files, of which each passes so many calls on. Fault: `Memory`.
pub fn empty_files<D: FailingDisk>(
    alloc: Global,
    log: u64,
    database: u64,
) -> Result<Files<D>, RowFault> {
    on_disks(
        D::failing_after(alloc, log, b"".as_slice()),
        D::failing_after(alloc, database, b"".as_slice()),
    )
}

/// Files with these bytes, of which each passes so many calls on. Fault: `Memory`.
pub fn files_with<D: FailingDisk>(
    alloc: Global,
    written: &Written,
    log: u64,
    database: u64,
) -> Result<Files<D>, RowFault> {
    on_disks(
        D::failing_after(alloc, log, written.log.as_slice()),
        D::failing_after(alloc, database, written.database.as_slice()),
    )
}

/// The files on two disks. Fault: `Memory` where one of these was not made.
fn on_disks<D: FailingDisk>(
    log: Result<D, RowFault>,
    database: Result<D, RowFault>,
) -> Result<Files<D>, RowFault> {
    match (log, database) {
        (Ok(log), Ok(db)) => Ok(Files { log, db }),
        _ => Err(RowFault::Memory),
    }
}

/// The bytes of files. Fault: `Memory`.
pub fn bytes_of<D: FailingDisk>(alloc: Global, files: &Files<D>) -> Result<Written, RowFault> {
    let mut log = Vec::new(alloc);
    log.extend_from_slice(files.log.bytes())?;
    let mut database = Vec::new(alloc);
    database.extend_from_slice(files.db.bytes())?;
    Ok(Written { log, database })
}

/// Whether memory was refused to one of the files.
pub fn lacked_memory<D: FailingDisk>(files: &Files<D>) -> bool {
    files.log.lacked_memory() || files.db.lacked_memory()
}

/// The files after a crash, which takes what was not synced. They fail no more.
pub fn crashed<D: Crash>(mut files: Files<D>) -> Files<D> {
    files.log.crash();
    files.db.crash();
    files
}

//! Files that are read whole, and the reports of a program that end it.

ghost use Rattle.std.specs.Prelude.{◌≡◌, ◌⊎◌, ℕ, List, ◌++◌, Option, IfOk, IfSome, codes};
ghost use Rattle.std.specs.Fmt.{decimal};
ghost use Rattle.std.specs.Io.KnownBytes.{Appends};
ghost use Rattle.program_reports.specs.Reports.{unreadable_run, Ran, line_feed};

use std::alloc::Global;
use std::io;
use std::io::{Read, Write};

/// Reports a file that cannot be read: status 1. Where memory is refused, it reports that: status 4. An `Err` says that `errors` could not
/// be written.
pub fn cannot_read<E: Write>(alloc: Global, file: &str, errors: &mut E) -> io::Result<u8>
    ensures { IfOk result (λ status. (known : Option (List ℕ)) →
        Ran (known, known) (E.contents errors.old, E.contents errors.new) (unreadable_run file.now) status) }
{
    match format!(in alloc; "paxq: cannot read {file}\n") {
        Ok(report) => {
            errors.write_all(report.as_bytes())?;
            Ok(1)
        }
        Err(_) => no_memory(errors),
    }
}

/// Why a file was not read.
#[derive(Clone, Copy, PartialEq, Eq, Debug)]
pub enum ReadFault {
    /// Memory was refused.
    Memory,
    /// The reader failed.
    Failed,
}

/// Reads all that a reader gives. Faults: `Memory` where memory is refused, here or to the reader; `Failed` where the reader fails
/// otherwise. What was read is dropped then.
pub fn read_all<R: Read>(alloc: Global, reader: &mut R) -> Result<Vec<u8>, ReadFault>
    ensures { IfOk result (λ bytes. IfSome (R.remaining reader.old) (λ known. bytes.items ≡ known)) }
{
    let mut bytes = Vec::new(alloc);
    match reader.read_to_end(&mut bytes) {
        Ok(_) => Ok(bytes),
        Err(error) if error.kind() == io::ErrorKind::OutOfMemory => Err(ReadFault::Memory),
        Err(_) => Err(ReadFault::Failed),
    }
}

/// Reports a wrong line: status 1. Where memory is refused, it reports that: status 4. An `Err` says that `errors` could not be written.
pub fn wrong_line<E: Write>(alloc: Global, number: u64, errors: &mut E) -> io::Result<u8>
    ensures { IfOk result (λ status.
        ((status ≡ 1) × Appends (E.contents errors.old) (E.contents errors.new) (codes "paxq: line " ++ decimal number ++ line_feed))
        ⊎ ((status ≡ 4) × Appends (E.contents errors.old) (E.contents errors.new) (codes "paxq: no memory" ++ line_feed))) }
{
    match format!(in alloc; "paxq: line {number}\n") {
        Ok(report) => {
            errors.write_all(report.as_bytes())?;
            Ok(1)
        }
        Err(_) => no_memory(errors),
    }
}

/// Reports that memory was refused: status 4. An `Err` says that `errors` could not be written.
pub fn no_memory<E: Write>(errors: &mut E) -> io::Result<u8>
    ensures { IfOk result (λ status.
        (status ≡ 4) × Appends (E.contents errors.old) (E.contents errors.new) (codes "paxq: no memory" ++ line_feed)) }
{
    errors.write_all(b"paxq: no memory\n")?;
    Ok(4)
}

/// Reports a configuration that is none: status 1. An `Err` says that `errors` could not be written.
pub fn wrong_config<E: Write>(errors: &mut E) -> io::Result<u8>
    ensures { IfOk result (λ status.
        (status ≡ 1) × Appends (E.contents errors.old) (E.contents errors.new) (codes "paxq: config" ++ line_feed)) }
{
    errors.write_all(b"paxq: config\n")?;
    Ok(1)
}

/// Reports that the store of a node's records failed, or that its records were refused: status 4. An `Err` says that `errors` could not be
/// written.
pub fn store_failed<E: Write>(errors: &mut E) -> io::Result<u8>
    ensures { IfOk result (λ status.
        (status ≡ 4) × Appends (E.contents errors.old) (E.contents errors.new) (codes "paxq: store failed" ++ line_feed)) }
{
    errors.write_all(b"paxq: store failed\n")?;
    Ok(4)
}

/// Reports an address that can't be resolved, or at which no socket opens: status 4. An `Err` says that `errors` could not be written.
pub fn no_network<E: Write>(errors: &mut E) -> io::Result<u8>
    ensures { IfOk result (λ status.
        (status ≡ 4) × Appends (E.contents errors.old) (E.contents errors.new) (codes "paxq: network" ++ line_feed)) }
{
    errors.write_all(b"paxq: network\n")?;
    Ok(4)
}

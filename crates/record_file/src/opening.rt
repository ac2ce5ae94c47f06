//! Opening a database as a member's record.

use ballots::Setup;
use sql_records::{OpenFault, SqlRecords};
use sqlite::{Alter, Connection, Error};
use std::alloc::Global;

/// Why a file is not opened as a member's record.
#[derive(Clone, Copy)]
pub(super) enum Refusal {
    /// There is no connection.
    Connection,
    /// The fault of that number.
    Fault(u8),
}

/// The record of that member over a connection.
pub(super) fn opened<S: Alter + Drop>(
    alloc: Global,
    connection: Result<Connection<S>, Error>,
    setup: &Setup,
) -> Result<SqlRecords<S>, Refusal> {
    match connection {
        Ok(connection) => taken(alloc, connection, setup),
        Err(_) => Err(Refusal::Connection),
    }
}

/// The record of that member in a database.
fn taken<S: Alter + Drop>(
    alloc: Global,
    connection: Connection<S>,
    setup: &Setup,
) -> Result<SqlRecords<S>, Refusal> {
    match SqlRecords::open(alloc, connection, setup) {
        Ok(records) => Ok(records),
        Err((fault, _connection)) => Err(Refusal::Fault(number_of(fault))),
    }
}

/// The number of a fault.
fn number_of(fault: OpenFault) -> u8 {
    match fault {
        OpenFault::Memory => 1,
        OpenFault::Store => 2,
        OpenFault::Other => 3,
        OpenFault::Damaged => 4,
    }
}

//! A node's service: it opens, leads where it is told to, and serves.

ghost use Rattle.std.specs.Prelude.{◌≡◌, ◌≢◌, ◌≤◌, Err, false, IfOk, if◌then◌else◌};
ghost use Rattle.node.specs.Nodes.{HasStarted};
ghost use Rattle.paxos.specs.WellFormed.{IsRecord};
ghost use Rattle.server_steps.specs.Going.{Passed, has_brought_beside, told_to_lead, was_given_or_held};
ghost use Rattle.server_steps.specs.Moves.{AreTurns};
ghost use Rattle.serving.specs.Serves.{WritesFirst};

use applications::Application;
use ballots::Setup;
use node::{Node, OpenFault};
use records::{FlushRecords, RecordsFault, Staged};
use serving::{MOST_BYTES, ServeFault, Server};
use sql_records::{OpenFault as DatabaseFault, SqlRecords};
use sqlite::{Alter, Connection};
use std::alloc::Global;
use wires::Wire;

/// How a node's service ended.
#[derive(Clone, Copy, PartialEq, Eq, Debug)]
pub enum End {
    /// All its turns were taken.
    Done,
    /// Memory was refused before it served.
    Memory,
    /// The store of its records failed.
    Store,
}

/// Opens a node over the records of this member in a database. What its steps write is taken in memory, and goes into the database in one write.
///
/// Whatever stands in the database: the node that it gives has started from a record that a member of so many may keep, since all else is refused
/// when the records are opened. What no memory was found for to apply, a later call applies, where the answer says that it stopped short.
///
/// Refusals: memory was refused; the store failed, or holds no records of this member.
pub fn open_in_database<S: Alter + Drop, A: Application + Drop>(
    alloc: Global,
    connection: Connection<S>,
    setup: Setup,
) -> Result<(Node<Staged<SqlRecords<S>>, A>, bool), End>
    ensures setup { IfOk result (λ o. o.0.setup ≡ setup) }
    ensures started { IfOk result (λ o. HasStarted A.has_applied o.0 o.1) }
    ensures sound { IfOk result (λ o. IsRecord setup.members o.0.member.acceptor.kept) }
    ensures running { IfOk result (λ o. o.0.member.acceptor.is_stopped ≡ false) }
    ensures refused { result ≢ Err End.Done }
{
    let records = staged(alloc, connection, &setup)?;
    match Node::<Staged<SqlRecords<S>>, A>::open(alloc, setup, records) {
        Ok(opened) => Ok(opened),
        Err((OpenFault::Memory, _, _)) => Err(End::Memory),
        Err((OpenFault::Store, _, _)) => Err(End::Store),
    }
}

/// The records of this member in a database, which are written once a round.
fn staged<S: Alter + Drop>(
    alloc: Global,
    connection: Connection<S>,
    setup: &Setup,
) -> Result<Staged<SqlRecords<S>>, End>
    ensures sound { IfOk result (λ s. IsRecord setup.now.members s.taken) }
    ensures refused { result ≢ Err End.Done }
{
    match SqlRecords::open(alloc, connection, setup) {
        Ok(records) => match Staged::open(alloc, records) {
            Ok(records) => Ok(records),
            Err((RecordsFault::Memory, _)) => Err(End::Memory),
            Err((RecordsFault::Store, _)) => Err(End::Store),
        },
        Err((DatabaseFault::Memory, _)) => Err(End::Memory),
        Err((_, _)) => Err(End::Store),
    }
}

/// Serves as `serve_over` does, over the records of a database that is written once a round: what the steps of a round write to the node's record
/// goes there in one write, before anything is sent that rests on it.
pub fn serve_in_database<S: Alter + Drop, A: Application + Drop, W: Wire>(
    alloc: Global,
    setup: Setup,
    connection: Connection<S>,
    wire: &mut W,
    peers: Vec<W::Address>,
    leads: bool,
    turns: u64,
) -> End {
    match open_in_database::<S, A>(alloc, connection, setup) {
        Ok((node, _)) => serve_node(alloc, node, wire, peers, leads, turns),
        Err(end) => end,
    }
}

/// Opens a node over its records, which stands at the first end of a wire among members at these addresses, tells it to lead where it is to, and
/// serves for so many turns.
pub fn serve_over<R: FlushRecords + Drop, A: Application + Drop, W: Wire>(
    alloc: Global,
    setup: Setup,
    records: R,
    wire: &mut W,
    peers: Vec<W::Address>,
    leads: bool,
    turns: u64,
) -> End {
    match Node::<R, A>::open(alloc, setup, records) {
        // What no memory was found for at the start, a later call applies.
        Ok((node, _)) => serve_node(alloc, node, wire, peers, leads, turns),
        Err((OpenFault::Memory, _, _)) => End::Memory,
        Err((OpenFault::Store, _, _)) => End::Store,
    }
}

/// Serves with a node that is open.
fn serve_node<R: FlushRecords + Drop, A: Application + Drop, W: Wire>(
    alloc: Global,
    node: Node<R, A>,
    wire: &mut W,
    peers: Vec<W::Address>,
    leads: bool,
    turns: u64,
) -> End {
    let Ok(mut buffer) = vec![in alloc; 0u8; MOST_BYTES] else {
        return End::Memory;
    };
    let server = Server::new(alloc, node, 0, peers);
    serve_to_the_end(alloc, server, wire, leads, turns, &mut buffer)
}

/// Serves, and ends.
fn serve_to_the_end<R: FlushRecords + Drop, A: Application + Drop, W: Wire>(
    alloc: Global,
    mut server: Server<R, A, W::Address>,
    wire: &mut W,
    leads: bool,
    turns: u64,
    buffer: &mut [u8],
) -> End {
    match serve_from_the_start(alloc, &mut server, wire, leads, turns, buffer) {
        Ok(_) => End::Done,
        Err(ServeFault::Store) => End::Store,
    }
}

/// Has a server lead where it is to, and serve for so many turns. Says how many it took.
fn serve_from_the_start<R: FlushRecords + Drop, A: Application + Drop, W: Wire>(
    alloc: Global,
    server: &mut Server<R, A, W::Address>,
    wire: &mut W,
    leads: bool,
    turns: u64,
    buffer: &mut [u8],
) -> Result<u64, ServeFault>
    ensures took { let start = (if leads then told_to_lead server.old.server else server.old.server) in
        Passed A.has_applied A.meaning R.failed W.Address.eq (was_given_or_held W.was_given) (has_brought_beside W.has_brought) R.stands R.is_kept R.base R.leaves AreTurns result start server.new.server (start.held, wire.old) (server.new.server.held, wire.new) }
    ensures most { IfOk result (λ taken. taken ≤ turns) }
    ensures acknowledged { WritesFirst A.has_applied A.meaning R.failed W.Address.eq W.was_given W.has_brought R.is_kept R.leaves (if leads then told_to_lead server.old.server else server.old.server) wire.old wire.new }
{
    lead_if(server, leads);
    server.serve(alloc, wire, buffer, turns)
}

/// Tells a server to lead, if it is to.
fn lead_if<R: FlushRecords + Drop, A: Application + Drop, D: Copy + Eq + Drop>(
    server: &mut Server<R, A, D>,
    leads: bool,
)
    ensures server { server.new.server ≡ (if leads then told_to_lead server.old.server else server.old.server) }
    ensures lags { server.new.lags ≡ server.old.lags }
{
    if leads {
        server.lead();
    }
}

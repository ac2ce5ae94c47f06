//! The members of a group in one program.

ghost use Rattle.std.specs.Prelude.{◌≡◌, ◌≤◌, ◌<◌, true, false, List, [], IfSome, length, take};
ghost use Rattle.paxq_local.specs.Asking.{GivesNothing};
ghost use Rattle.paxq_local.specs.Told.{Brings, HasComeFrom};
ghost use Rattle.wires.specs.Wires.{Carried};

use applications::Application;
use ballots::{Setup, SetupFault};
use document_names::Names;
use node::{Node, OpenFault};
use records::MemRecords;
use serving::Server;
use std::alloc::{AllocError, Global};
use wires::{Arrival, Wire};

/// The group's number. Its sockets are its own, so no other group's datagrams come to it.
pub(super) const GROUP: u32 = 0;

/// How many datagrams a try takes at least, however long that is: more than the members of a group send one another at one try. So a try of a slow
/// group does not end before what the try before it sent was taken, and each brings the group on.
const LEAST: u32 = 1_024;

/// The members, by their numbers from 1: member m stands at end m of the wire, and end 0 is the client's.
#[derive(Drop)]
pub(super) struct Group<A: Application + Drop, D: Copy + Eq + Drop> {
    members: Vec<Member<A, D>>,
    /// How many datagrams this try has taken.
    taken: u32,
}

/// A member, with its records in memory. Where it serves, it stands at an end that is not the client's.
#[derive(Drop)]
struct Member<A: Application + Drop, D: Copy + Eq + Drop> {
    server: Server<MemRecords, A, D>,
    /// Whether its records failed, which those in memory never do.
    has_stopped: bool,
    ghost placed: { has_stopped ≡ false → ¬ (server.server.place.end ≡ 0) },
}

impl<A: Application + Drop, D: Copy + Eq + Drop> Member<A, D> {
    /// Whether it serves: where its records failed, or were not written yet though it sent something, it does nothing more.
    fn serves(&self) -> bool
        ensures placed { result ≡ true → ¬ (self.now.server.server.place.end ≡ 0) }
        ensures holds_nothing { result ≡ true → self.now.server.server.held ≡ [] }
    {
        !self.has_stopped && !self.server.lags()
    }

    /// Whether memory was refused to something that came to it, or it serves no more.
    fn has_lost(&self) -> bool {
        self.server.has_lost() || !self.serves()
    }

    /// Begins a ballot.
    fn begin<W: Wire<Address = D>>(&mut self, alloc: Global, wire: &mut W)
        ensures given { GivesNothing W.was_given wire.old wire.new }
        ensures brought { (ds : List (Carried D)) → W.has_brought wire.old ds → W.has_brought wire.new ds }
    {
        if !self.serves() {
            return;
        }
        match self.server.begin(alloc, wire) {
            Ok(()) => {}
            Err(_) => self.has_stopped = true,
        }
    }

    /// Ticks.
    fn tick<W: Wire<Address = D>>(&mut self, alloc: Global, wire: &mut W)
        ensures given { GivesNothing W.was_given wire.old wire.new }
        ensures brought { (ds : List (Carried D)) → W.has_brought wire.old ds → W.has_brought wire.new ds }
    {
        if !self.serves() {
            return;
        }
        match self.server.tick(alloc, wire) {
            Ok(()) => {}
            Err(_) => self.has_stopped = true,
        }
    }

    /// Takes a datagram that came to it.
    fn take<W: Wire<Address = D>>(
        &mut self,
        alloc: Global,
        wire: &mut W,
        arrival: Arrival<D>,
        bytes: &[u8],
    )
        ensures given { GivesNothing W.was_given wire.old wire.new }
        ensures brought { (ds : List (Carried D)) → W.has_brought wire.old ds → W.has_brought wire.new ds }
    {
        if !self.serves() {
            return;
        }
        match self.server.take(alloc, wire, arrival, bytes) {
            Ok(()) => {}
            Err(_) => self.has_stopped = true,
        }
    }
}

/// A member that has done nothing, counted from 1. It fails where memory is refused.
fn member_of<A: Application + Drop, D: Copy + Eq + Drop>(
    alloc: Global,
    member: u8,
    members: u8,
    names: &Names,
    peers: &[D],
) -> Result<Member<A, D>, AllocError>
    requires { 0 < member }
{
    let peers = peers.to_vec(alloc)?;
    let setup = match Setup::new(alloc, GROUP, member, members, names) {
        Ok(setup) => setup,
        Err(SetupFault::Memory | SetupFault::Numbers) => return Err(AllocError),
    };
    match Node::open(alloc, setup, MemRecords::new(alloc)) {
        Ok((node, _)) => Ok(Member {
            server: Server::new(alloc, node, usize::from(member), peers),
            has_stopped: false,
        }),
        Err((OpenFault::Memory | OpenFault::Store, _, _)) => Err(AllocError),
    }
}

/// The list with one more, if it was made. What is held is dropped here, over any type, where it was not.
fn with_one<S: Drop>(mut held: Vec<S>, made: Result<S, AllocError>) -> Result<Vec<S>, AllocError> {
    held.push(made?)?;
    Ok(held)
}

/// The addresses of so many members: of those of them that the wire has ends for.
pub(super) fn addresses<W: Wire>(
    alloc: Global,
    wire: &W,
    members: u8,
) -> Result<Vec<W::Address>, AllocError> {
    let mut peers = Vec::new(alloc);
    for before in 0..members {
        match wire.address(usize::from(before) + 1) {
            Some(address) => peers.push(address)?,
            None => return Ok(peers),
        }
    }
    Ok(peers)
}

impl<A: Application + Drop, D: Copy + Eq + Drop> Group<A, D> {
    /// So many members that have done nothing, 1 to 15, at those addresses. It fails where memory is refused.
    pub(super) fn new(
        alloc: Global,
        members: u8,
        names: &Names,
        peers: &[D],
    ) -> Result<Group<A, D>, AllocError> {
        let mut all = Vec::new(alloc);
        for before in 0..members {
            all = with_one(all, member_of(alloc, before + 1, members, names, peers))?;
        }
        Ok(Group {
            members: all,
            taken: 0,
        })
    }

    /// Has the first member begin a ballot.
    pub(super) fn begin<W: Wire<Address = D>>(&mut self, alloc: Global, wire: &mut W)
        ensures given { GivesNothing W.was_given wire.old wire.new }
        ensures brought { (ds : List (Carried D)) → W.has_brought wire.old ds → W.has_brought wire.new ds }
    {
        if let Some(first) = self.members.first_mut() {
            first.begin(alloc, wire);
        }
    }

    /// A try begins.
    pub(super) fn start_try(&mut self) {
        self.taken = 0;
    }

    /// Counts a datagram of this try, and says whether the try is over: it has taken as many as it does at least, and the wire's while has passed.
    pub(super) fn is_over<W: Wire<Address = D>>(&mut self, wire: &mut W) -> bool
        ensures given { (ds : List (Carried D)) → W.was_given wire.old ds → W.was_given wire.new ds }
        ensures brought { (ds : List (Carried D)) → W.has_brought wire.old ds → W.has_brought wire.new ds }
    {
        self.taken = self.taken.saturating_add(1);
        if self.taken < LEAST {
            return false;
        }
        wire.has_while_passed()
    }

    /// What was lost is sent again: the member that leads says again what it waits for, and each asks for what it has not learnt.
    pub(super) fn tick<W: Wire<Address = D>>(&mut self, alloc: Global, wire: &mut W)
        ensures given { GivesNothing W.was_given wire.old wire.new }
        ensures brought { (ds : List (Carried D)) → W.has_brought wire.old ds → W.has_brought wire.new ds }
    {
        for member in self.members.iter_mut() {
            member.tick(alloc, wire);
        }
    }

    /// Whether memory was refused to something that came to a member.
    pub(super) fn has_lost(&self) -> bool {
        for member in &self.members {
            if member.has_lost() {
                return true;
            }
        }
        false
    }

    /// Hands a datagram to the member that it came to.
    fn hand<W: Wire<Address = D>>(
        &mut self,
        alloc: Global,
        wire: &mut W,
        arrival: Arrival<D>,
        bytes: &[u8],
    )
        ensures given { GivesNothing W.was_given wire.old wire.new }
        ensures brought { (ds : List (Carried D)) → W.has_brought wire.old ds → W.has_brought wire.new ds }
    {
        if arrival.end == 0 {
            return;
        }
        if let Some(member) = self.members.get_mut(arrival.end - 1) {
            member.take(alloc, wire, arrival, bytes);
        }
    }

    /// Has the members work until something comes to the client, and says from where, and how many bytes that has, at the front of the buffer; or
    /// nothing, where nothing more comes to anybody, or the try is over.
    pub(super) fn work<W: Wire<Address = D>>(
        &mut self,
        alloc: Global,
        wire: &mut W,
        buffer: &mut [u8],
    ) -> Option<Arrival<D>>
        ensures fits { IfSome result (λ a. a.length ≤ length buffer.new) }
        ensures given { GivesNothing W.was_given wire.old wire.new }
        ensures brought { Brings W.has_brought wire.old wire.new (λ brought. IfSome result (λ a. HasComeFrom brought a.from (take a.length buffer.new))) }
    {
        for _datagram in 0..u64::MAX {
            let Ok(Some(arrival)) = wire.receive(buffer) else {
                return None;
            };
            if arrival.end == 0 {
                return Some(arrival);
            }
            self.hand(alloc, wire, arrival, &buffer[..arrival.length]);
            if self.is_over(wire) {
                return None;
            }
        }
        None
    }
}

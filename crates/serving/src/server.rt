//! A server: a node that serves over a wire.

ghost use Rattle.std.specs.Prelude.{◌≡◌, ℕ, ◌≤◌, false, List, [], ◌∷◌, IfOk, OnErr, OnOk};
ghost use Rattle.server_steps.specs.Going.{IsGivenNothing, IsWritten, Passed, Went, has_brought_beside, started, told_to_lead, was_given_or_held};
ghost use Rattle.server_steps.specs.Keeping.{LearntIsKept};
ghost use Rattle.serving.specs.Serves.{GoesByRounds, IsEnded, IsWrittenFirst, TakesAll, WentJustBy, WritesFirst};
ghost use Rattle.server_steps.specs.Moves.{AreTurns, Ticked, Took};
ghost use Rattle.wires.specs.Wires.{Carried};

use applications::Application;
use member::Tick;
use node::Node;
use records::FlushRecords;
use server_steps::{ServeFault, State};
use std::alloc::Global;
use std::marker::Model;
use wires::{Arrival, Wire};

/// How many bytes a server's buffer has: those of the longest message, and one more, so that what is cut off can be no message.
pub const MOST_BYTES: usize = 33_029;

/// How many datagrams a round takes at most. So many share one write of the records, which costs as much as many steps; and what is sent for the
/// first of them waits for the steps of so many, and for no more.
const MOST_A_ROUND: u64 = 64;

/// A node that serves at an end of a wire, for the members of its group and for clients.
///
/// A request that the node proposes, or has no place for, waits for its reply: its datagram is taken again when its value was applied, and when
/// a place is free. So a client gets its reply when its request is applied, and not when it asks again. At most 1,024 requests wait; of each
/// client and number the newest datagram; past that the oldest one is dropped, and its client asks again as ever.
#[derive(Drop)]
pub struct Server<R: FlushRecords + Drop, A: Application + Drop, D: Copy + Eq + Drop> {
    pub(super) state: State<R, A, D>,
    /// Whether what was sent since the last write that went well is held: where it is false, nothing is.
    pub(super) lags: bool,
}

impl<R: FlushRecords + Drop, A: Application + Drop, D: Copy + Eq + Drop> Model for Server<R, A, D> {
    ghost use Rattle.std.specs.Prelude.{◌≡◌, [], false};
    ghost use Rattle.server_steps.specs.Going.{shown};
    ghost use Rattle.serving.specs.Serves.{Rounds};

    ghost Value = { Rounds R A D };

    ghost view = { λ x. record { server = shown x.state; lags = x.lags } };

    ghost invariant = { λ x. x.lags ≡ false → (shown x.state).held ≡ [] };
}

impl<R: FlushRecords + Drop, A: Application + Drop, D: Copy + Eq + Drop> Server<R, A, D> {
    /// A server over a node, at an end of its wire, with the addresses of all members in member order.
    pub fn new(alloc: Global, node: Node<R, A>, end: usize, peers: Vec<D>) -> Server<R, A, D>
        ensures server { result.server ≡ started node (record { end = end; peers = peers.items }) }
        ensures lags { result.lags ≡ false }
    {
        Server {
            state: State::new(alloc, node, end, peers),
            lags: false,
        }
    }

    /// Its node.
    pub fn node(&self) -> &Node<R, A>
        ensures { result.now ≡ self.now.server.seat.node }
    {
        self.state.node()
    }

    /// Whether memory was ever refused to something that came, or to a tick, so that it was lost.
    pub fn has_lost(&self) -> bool
        ensures { result ≡ self.now.server.seat.has_lost }
    {
        self.state.has_lost()
    }

    /// From now on it is to lead: its ticks begin ballots. It first learns what the others tell it, and begins at the first tick before which a while
    /// brought it nothing new; while nobody follows it, it begins again after 10 ticks, and then after 20, 40 and each further 64. Once it is followed, or
    /// has yielded to another member, that is over, until it is told again. Nothing is done at once.
    pub fn lead(&mut self)
        ensures server { self.new.server ≡ told_to_lead self.old.server }
        ensures lags { self.new.lags ≡ self.old.lags }
    {
        self.state.lead();
    }

    /// Whether what its node's steps sent since the last write of the records that went well is held, so that the wire was not given it yet: memory was
    /// refused to that write, or the store failed. A server that does not lag holds nothing.
    pub fn lags(&self) -> bool
        ensures lags { result ≡ self.now.lags }
        ensures held { result ≡ false → self.now.server.held ≡ [] }
    {
        self.lags
    }

    /// Begins a ballot, so that the node leads once a majority has promised it; nothing happens where positions or rounds are spent. Then its records
    /// are written, and what it sends, and what was held before, is given to the wire: it is held on where memory was refused to that write.
    ///
    /// The fault: the store failed, and the node has stopped. Nothing was sent.
    pub fn begin<W: Wire<Address = D>>(
        &mut self,
        alloc: Global,
        wire: &mut W,
    ) -> Result<(), ServeFault>
        ensures went { WentJustBy A.has_applied A.meaning R.failed D.eq (was_given_or_held W.was_given) (has_brought_beside W.has_brought) R.stands R.is_kept R.base R.leaves result (Ticked Tick.Begin ∷ []) self.old.server self.new.server (self.old.server.held, wire.old) (self.new.server.held, wire.new) }
        ensures acknowledged { OnOk result (IsWrittenFirst R.is_kept R.leaves W.was_given self.new.server wire.old wire.new) }
        ensures written { OnOk result (self.new.lags ≡ false → IsWritten R.is_kept R.leaves self.new.server) }
        ensures ended { OnOk result (IsEnded R.is_kept R.leaves W.was_given self.new wire.old wire.new) }
        ensures unsent { OnErr result (IsGivenNothing W.was_given wire.old wire.new) }
        ensures brought { (ds : List (Carried D)) → W.has_brought wire.old ds → W.has_brought wire.new ds }
    {
        self.lags = true;
        self.state.begin(alloc)?;
        self.close(alloc, wire)
    }

    /// Ticks: the node sends again what it waits for where it leads, and asks the others for what it has not learnt. Where another member leads
    /// now, clients whose requests wait are told so. Where it was told to lead, a ballot may begin. At last what was learnt before is kept in its record.
    /// Then its records are written, and what it sends, and what was held before, is given to the wire: it is held on where memory was refused to that write.
    ///
    /// The fault: the store failed, and the node has stopped. Nothing was sent.
    pub fn tick<W: Wire<Address = D>>(
        &mut self,
        alloc: Global,
        wire: &mut W,
    ) -> Result<(), ServeFault>
        ensures went { Went A.has_applied A.meaning R.failed D.eq (was_given_or_held W.was_given) (has_brought_beside W.has_brought) R.stands R.is_kept R.base R.leaves result (Ticked Tick.Resend ∷ Ticked Tick.CatchUp ∷ []) [] [] self.old.server self.new.server (self.old.server.held, wire.old) (self.new.server.held, wire.new) }
        ensures kept { OnOk result (self.new.server.seat.has_lost ≡ false → LearntIsKept A.has_applied self.old.server.seat.node self.new.server.seat.node) }
        ensures acknowledged { OnOk result (IsWrittenFirst R.is_kept R.leaves W.was_given self.new.server wire.old wire.new) }
        ensures written { OnOk result (self.new.lags ≡ false → IsWritten R.is_kept R.leaves self.new.server) }
        ensures ended { OnOk result (IsEnded R.is_kept R.leaves W.was_given self.new wire.old wire.new) }
        ensures unsent { OnErr result (IsGivenNothing W.was_given wire.old wire.new) }
        ensures brought { (ds : List (Carried D)) → W.has_brought wire.old ds → W.has_brought wire.new ds }
        ensures waited { (vain failures : ℕ) → W.has_waited wire.old vain failures → W.has_waited wire.new vain failures }
    {
        self.lags = true;
        self.state.tick_and_keep(alloc)?;
        self.close(alloc, wire)
    }

    /// Takes a datagram that a wire has brought: the node takes the step of its message, and then what was learnt before is kept in its record. Then its records
    /// are written, and what it sends, and what was held before, is given to the wire: it is held on where memory was refused to that write.
    ///
    /// The fault: the store failed, and the node has stopped. Nothing was sent.
    pub fn take<W: Wire<Address = D>>(
        &mut self,
        alloc: Global,
        wire: &mut W,
        arrival: Arrival<D>,
        bytes: &[u8],
    ) -> Result<(), ServeFault>
        ensures went { Went A.has_applied A.meaning R.failed D.eq (was_given_or_held W.was_given) (has_brought_beside W.has_brought) R.stands R.is_kept R.base R.leaves result (Took (record { end = arrival.end; peer = arrival.from; bytes = bytes.now }) ∷ []) (record { end = arrival.end; peer = arrival.from; bytes = bytes.now } ∷ []) [] self.old.server self.new.server (self.old.server.held, wire.old) (self.new.server.held, wire.new) }
        ensures kept { OnOk result (self.new.server.seat.has_lost ≡ false → LearntIsKept A.has_applied self.old.server.seat.node self.new.server.seat.node) }
        ensures acknowledged { OnOk result (IsWrittenFirst R.is_kept R.leaves W.was_given self.new.server wire.old wire.new) }
        ensures written { OnOk result (self.new.lags ≡ false → IsWritten R.is_kept R.leaves self.new.server) }
        ensures ended { OnOk result (IsEnded R.is_kept R.leaves W.was_given self.new wire.old wire.new) }
        ensures unsent { OnErr result (IsGivenNothing W.was_given wire.old wire.new) }
        ensures brought { (ds : List (Carried D)) → W.has_brought wire.old ds → W.has_brought wire.new ds }
    {
        self.lags = true;
        self.state.take_and_keep(alloc, arrival, bytes)?;
        self.close(alloc, wire)
    }

    /// Serves for so many turns: in each it takes one datagram, or ticks where the wire brought none for a while. It goes by rounds: it waits for a datagram and
    /// takes it, and what waits behind it already, at most 64 in all; it ticks too where a while has passed since it last did; and what was learnt before is kept
    /// in its record, where it ticks or a vote is written. Then its records are written in one, and what was sent is given to the wire: it is held on where memory
    /// was refused to that write, and given at the end of a later round. Says how many turns it took: all of them, unless the wire fails to say what came more
    /// often than can be.
    ///
    /// The buffer holds one datagram, [`MOST_BYTES`] of it. The fault: the store failed, and the node has stopped. Nothing was sent in that round.
    pub fn serve<W: Wire<Address = D>>(
        &mut self,
        alloc: Global,
        wire: &mut W,
        buffer: &mut [u8],
        turns: u64,
    ) -> Result<u64, ServeFault>
        ensures took { Passed A.has_applied A.meaning R.failed D.eq (was_given_or_held W.was_given) (has_brought_beside W.has_brought) R.stands R.is_kept R.base R.leaves AreTurns result self.old.server self.new.server (self.old.server.held, wire.old) (self.new.server.held, wire.new) }
        ensures most { IfOk result (λ taken. taken ≤ turns) }
        ensures all { IfOk result (λ taken. TakesAll W.has_brought W.has_waited turns taken wire.old wire.new) }
        ensures rounds { OnOk result (GoesByRounds A.has_applied A.meaning R.failed D.eq W.was_given W.has_brought R.is_kept R.leaves self.old wire.old self.new wire.new) }
        ensures acknowledged { WritesFirst A.has_applied A.meaning R.failed D.eq W.was_given W.has_brought R.is_kept R.leaves self.old.server wire.old wire.new }
    {
        let mut taken = 0u64;
        // What the wire fails to say is no turn.
        for _try in 0..u64::MAX {
            if taken >= turns {
                break;
            }
            taken += self.round(alloc, wire, buffer, MOST_A_ROUND.min(turns - taken))?;
        }
        Ok(taken)
    }
}

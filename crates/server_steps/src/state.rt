//! A server's state, and the steps by which it goes on. What they send is held: no step touches the wire, which `give` gives all of it.

ghost use Rattle.std.specs.Prelude.{◌≡◌, ℕ, ◌<◌, ◌≤◌, ◌⊎◌, ◌++◌, [], ◌∷◌, List, true, false, IfOk, OnErr, OnOk};
ghost use Rattle.paxos.specs.Lists.{Has};
ghost use Rattle.server_steps.specs.Held.{held_in};
ghost use Rattle.server_steps.specs.Keeping.{FirstAreKept, LearntIsKept, kept_by};
ghost use Rattle.server_steps.specs.Leading.{is_told};
ghost use Rattle.server_steps.specs.Going.{IsWritten, WentByHolding, WentHolding, shown, started, told_to_lead};
ghost use Rattle.server_steps.specs.Moves.{Halts, Stays, Ticked, Took};
ghost use Rattle.wires.specs.Wires.{Carried};

use super::fault::ServeFault;
use super::hold::Hold;
use super::leading::Word;
use super::place::Place;
use super::requests::request_in;
use super::seat::{Seat, Told};
use super::waiting::{Held, MOST_WAITING, Waiting};
use applications::Application;
use ballots::limits::POSITIONS;
use ballots::{RequestId, Value};
use member::Tick;
use node::Node;
use records::FlushRecords;
use std::alloc::Global;
use wires::{Arrival, Wire};

/// How far a message has to bring a member on for it to ask at once for what comes next: as many positions as one message tells.
const AT_ONCE: u32 = 8;

/// A node at its seat, its place and what is held there for the wire, the requests that wait for replies, up to which position these were told of
/// what was applied, and the word to lead.
#[derive(Drop)]
pub struct State<R: FlushRecords + Drop, A: Application + Drop, D: Copy + Eq + Drop> {
    pub(super) seat: Seat<R, A>,
    pub(super) hold: Hold<D>,
    pub(super) waiting: Waiting<D>,
    pub(super) told: u32,
    pub(super) word: Word,
}

impl<R: FlushRecords + Drop, A: Application + Drop, D: Copy + Eq + Drop> State<R, A, D> {
    /// A server's state over a node, at an end of its wire, with the addresses of all members in member order.
    pub fn new(alloc: Global, node: Node<R, A>, end: usize, peers: Vec<D>) -> State<R, A, D>
        ensures { shown result ≡ started node (record { end = end; peers = peers.items }) }
    {
        State {
            told: 0,
            word: Word::Unsaid,
            seat: Seat {
                node,
                has_lost: false,
            },
            hold: Hold::new(alloc, Place { end, peers }),
            waiting: Waiting::new(alloc),
        }
    }

    /// Its node.
    pub fn node(&self) -> &Node<R, A>
        ensures { result.now ≡ (shown self.now).seat.node }
    {
        &self.seat.node
    }

    /// Whether memory was ever refused to something that came, or to a tick, so that it was lost.
    pub fn has_lost(&self) -> bool
        ensures { result ≡ (shown self.now).seat.has_lost }
    {
        self.seat.has_lost
    }

    /// It is told to lead: from now on its ticks begin ballots, as the word to lead says. Nothing is done at once.
    pub fn lead(&mut self)
        ensures { shown self.new ≡ told_to_lead (shown self.old) }
    {
        self.word = Word::Said;
    }

    /// Writes in one what its node's records hold back. Says whether they have it: they have not where memory was refused, and hold all of it on.
    ///
    /// The fault: the store failed, and the node has stopped.
    pub fn write(&mut self, alloc: Global) -> Result<bool, ServeFault>
        ensures stays { OnOk result (Stays A.has_applied A.meaning R.failed (shown self.old).seat (shown self.new).seat) }
        ensures written { IfOk result (λ is. is ≡ true → IsWritten R.is_kept R.leaves (shown self.new)) }
        ensures halted { OnErr result (Halts A.has_applied A.meaning R.failed R.stands R.is_kept R.base R.leaves (shown self.old).seat (shown self.new).seat) }
        ensures place { (shown self.new).place ≡ (shown self.old).place }
        ensures held { (shown self.new).held ≡ (shown self.old).held }
        ensures waiting { (shown self.new).waiting ≡ (shown self.old).waiting }
        ensures word { (shown self.new).word ≡ (shown self.old).word }
    {
        self.seat.write(alloc)
    }

    /// Gives the wire all that is held, in order: a datagram that it does not take is lost, as one may be on its way. Nothing is held then.
    pub fn give<W: Wire<Address = D>>(&mut self, wire: &mut W)
        ensures given { (ds : List (Carried D)) → W.was_given wire.old ds → W.was_given wire.new (ds ++ (shown self.old).held) }
        ensures brought { (ds : List (Carried D)) → W.has_brought wire.old ds → W.has_brought wire.new ds }
        ensures waited { (vain failures : ℕ) → W.has_waited wire.old vain failures → W.has_waited wire.new vain failures }
        ensures seat { (shown self.new).seat ≡ (shown self.old).seat }
        ensures place { (shown self.new).place ≡ (shown self.old).place }
        ensures empty { (shown self.new).held ≡ [] }
        ensures waiting { (shown self.new).waiting ≡ (shown self.old).waiting }
        ensures word { (shown self.new).word ≡ (shown self.old).word }
    {
        self.hold.give(wire);
    }

    /// Takes a datagram as it comes. A request that gets no reply waits for it.
    fn take_first(
        &mut self,
        alloc: Global,
        arrival: Arrival<D>,
        bytes: &[u8],
    ) -> Result<(), ServeFault>
        ensures { WentHolding A.has_applied A.meaning R.failed D.eq R.stands R.is_kept R.base R.leaves result (Took (record { end = arrival.end; peer = arrival.from; bytes = bytes.now }) ∷ []) (record { end = arrival.end; peer = arrival.from; bytes = bytes.now } ∷ []) (shown self.old) (shown self.new) }
    {
        match self.seat.hear(alloc, &mut self.hold, arrival.from, bytes)? {
            Told::Client | Told::Unheard => {}
            Told::Members => self.keep(alloc, arrival, bytes, true),
            Told::Nobody => self.keep(alloc, arrival, bytes, false),
        }
        Ok(())
    }

    /// A datagram waits, if it makes a request. It does not where memory is refused.
    fn keep(&mut self, alloc: Global, arrival: Arrival<D>, bytes: &[u8], has_place: bool)
        ensures seat { self.new.seat ≡ self.old.seat }
        ensures hold { self.new.hold ≡ self.old.hold }
        ensures word { self.new.word ≡ self.old.word }
        ensures waiting { (d : Carried D) → Has (held_in self.new.waiting.requests.entries) d → Has (held_in self.old.waiting.requests.entries) d ⊎ (record { end = arrival.end; peer = arrival.from; bytes = bytes.now } ≡ d) }
    {
        let Some(id) = request_in(bytes) else {
            return;
        };
        let Ok(copied) = bytes.to_vec(alloc) else {
            return;
        };
        let held = Held {
            end: arrival.end,
            from: arrival.from,
            bytes: copied,
        };
        self.waiting.hold(id, held, has_place);
    }

    /// Takes a request again that waits, if it does, and says what that sent. It waits no more if its client was answered.
    fn take_again(&mut self, alloc: Global, id: RequestId) -> Result<Option<Told>, ServeFault>
        ensures { WentHolding A.has_applied A.meaning R.failed D.eq R.stands R.is_kept R.base R.leaves result [] [] (shown self.old) (shown self.new) }
    {
        let Some(held) = self.waiting.get(id) else {
            return Ok(None);
        };
        let told = self
            .seat
            .hear(alloc, &mut self.hold, held.from, held.bytes.as_slice())?;
        if told == Told::Client {
            self.waiting.drop_request(id);
        }
        Ok(Some(told))
    }

    /// Ticks.
    fn tick_once(&mut self, alloc: Global, tick: Tick) -> Result<(), ServeFault>
        ensures { WentByHolding A.has_applied A.meaning R.failed D.eq R.stands R.is_kept R.base R.leaves result (Ticked tick ∷ []) (shown self.old) (shown self.new) }
    {
        match self.seat.tick(alloc, &mut self.hold, tick) {
            Ok(()) => Ok(()),
            Err(fault) => Err(fault),
        }
    }

    /// Takes the request again whose value was applied next, if it waits: it has a reply now. Says whether there was such a value.
    fn tell_next(&mut self, alloc: Global) -> Result<bool, ServeFault>
        ensures { WentHolding A.has_applied A.meaning R.failed D.eq R.stands R.is_kept R.base R.leaves result [] [] (shown self.old) (shown self.new) }
    {
        if self.told >= self.seat.node.applied() {
            return Ok(false);
        }
        self.told += 1;
        if let Some(id) = self.seat.request_at(self.told) {
            self.take_again(alloc, id)?;
        }
        Ok(true)
    }

    /// Takes the request again that has waited longest for a place, if one does. Says whether another one may find one too.
    fn place_next(&mut self, alloc: Global) -> Result<bool, ServeFault>
        ensures { WentHolding A.has_applied A.meaning R.failed D.eq R.stands R.is_kept R.base R.leaves result [] [] (shown self.old) (shown self.new) }
    {
        let Some(id) = self.waiting.take_unplaced() else {
            return Ok(false);
        };
        match self.take_again(alloc, id)? {
            Some(Told::Nobody | Told::Unheard) => {
                self.waiting.put_back(id);
                Ok(false)
            }
            Some(Told::Client | Told::Members) | None => Ok(true),
        }
    }

    /// Takes the request again that has waited longest, if one does. Says whether its client was answered: a member that leads no more names
    /// the one that does to each of them.
    fn answer_oldest(&mut self, alloc: Global) -> Result<bool, ServeFault>
        ensures { WentHolding A.has_applied A.meaning R.failed D.eq R.stands R.is_kept R.base R.leaves result [] [] (shown self.old) (shown self.new) }
    {
        let Some(id) = self.waiting.oldest() else {
            return Ok(false);
        };
        Ok(self.take_again(alloc, id)? == Some(Told::Client))
    }

    /// Takes the requests again whose values were applied since this was last done.
    fn tell_applied(&mut self, alloc: Global) -> Result<(), ServeFault>
        ensures { WentHolding A.has_applied A.meaning R.failed D.eq R.stands R.is_kept R.base R.leaves result [] [] (shown self.old) (shown self.new) }
    {
        for _position in 0..POSITIONS {
            if !self.tell_next(alloc)? {
                break;
            }
        }
        Ok(())
    }

    /// Takes requests again that wait for a place, the oldest first, while there is one.
    fn place_waiting(&mut self, alloc: Global) -> Result<(), ServeFault>
        ensures { WentHolding A.has_applied A.meaning R.failed D.eq R.stands R.is_kept R.base R.leaves result [] [] (shown self.old) (shown self.new) }
    {
        for _request in 0..MOST_WAITING {
            if !self.place_next(alloc)? {
                break;
            }
        }
        Ok(())
    }

    /// Takes the requests again that have waited longest, while their clients are answered.
    fn answer_waiting(&mut self, alloc: Global) -> Result<(), ServeFault>
        ensures { WentHolding A.has_applied A.meaning R.failed D.eq R.stands R.is_kept R.base R.leaves result [] [] (shown self.old) (shown self.new) }
    {
        for _request in 0..MOST_WAITING {
            if !self.answer_oldest(alloc)? {
                break;
            }
        }
        Ok(())
    }

    /// What follows a datagram, before which so many positions were learnt without a gap: replies to what was applied, places for what waits
    /// for one, and the question for what comes next, where a message brought as much as one can.
    fn follow(&mut self, alloc: Global, before: u32) -> Result<(), ServeFault>
        ensures { WentHolding A.has_applied A.meaning R.failed D.eq R.stands R.is_kept R.base R.leaves result [] [] (shown self.old) (shown self.new) }
    {
        self.tell_applied(alloc)?;
        self.place_waiting(alloc)?;
        if self.seat.node.prefix().saturating_sub(before) < AT_ONCE {
            return Ok(());
        }
        self.tick_once(alloc, Tick::CatchUp)
    }

    /// Takes a datagram as it comes, and does what follows.
    pub(super) fn take(
        &mut self,
        alloc: Global,
        arrival: Arrival<D>,
        bytes: &[u8],
    ) -> Result<(), ServeFault>
        ensures { WentHolding A.has_applied A.meaning R.failed D.eq R.stands R.is_kept R.base R.leaves result (Took (record { end = arrival.end; peer = arrival.from; bytes = bytes.now }) ∷ []) (record { end = arrival.end; peer = arrival.from; bytes = bytes.now } ∷ []) (shown self.old) (shown self.new) }
    {
        let before = self.seat.node.prefix();
        self.take_first(alloc, arrival, bytes)?;
        self.follow(alloc, before)
    }

    /// Sends again what its node waits for where it leads, asks the others for what it has not learnt, and answers what waits where another leads.
    fn tick(&mut self, alloc: Global) -> Result<(), ServeFault>
        ensures { WentHolding A.has_applied A.meaning R.failed D.eq R.stands R.is_kept R.base R.leaves result (Ticked Tick.Resend ∷ Ticked Tick.CatchUp ∷ []) [] (shown self.old) (shown self.new) }
    {
        self.tick_once(alloc, Tick::Resend)?;
        self.tick_once(alloc, Tick::CatchUp)?;
        self.tell_applied(alloc)?;
        self.answer_waiting(alloc)?;
        self.begin_if_due(alloc)
    }

    /// Begins a ballot where the word to lead says so at this tick.
    fn begin_if_due(&mut self, alloc: Global) -> Result<(), ServeFault>
        ensures { WentHolding A.has_applied A.meaning R.failed D.eq R.stands R.is_kept R.base R.leaves result [] [] (shown self.old) (shown self.new) }
    {
        if !self.is_due() {
            return Ok(());
        }
        self.begin(alloc)?;
        self.word = self.word.unless_begun(self.seat.node.leads());
        Ok(())
    }

    /// Whether a ballot begins at this tick, by the word to lead.
    fn is_due(&mut self) -> bool
        ensures seat { self.new.seat ≡ self.old.seat }
        ensures hold { self.new.hold ≡ self.old.hold }
        ensures waiting { self.new.waiting ≡ self.old.waiting }
        ensures told { is_told self.new.word ≡ is_told self.old.word }
        ensures begins { result ≡ true → is_told self.old.word ≡ true }
    {
        let node = &self.seat.node;
        let (word, begins) = self
            .word
            .at_tick(node.prefix(), node.leads(), node.is_followed());
        self.word = word;
        begins
    }

    /// Begins a ballot, if there is one left.
    pub fn begin(&mut self, alloc: Global) -> Result<(), ServeFault>
        ensures { WentByHolding A.has_applied A.meaning R.failed D.eq R.stands R.is_kept R.base R.leaves result (Ticked Tick.Begin ∷ []) (shown self.old) (shown self.new) }
    {
        self.tick_once(alloc, Tick::Begin)
    }

    /// Ticks where a while has passed since it last did.
    fn tick_if_due(&mut self, alloc: Global, has_passed: bool) -> Result<(), ServeFault>
        ensures { WentHolding A.has_applied A.meaning R.failed D.eq R.stands R.is_kept R.base R.leaves result [] [] (shown self.old) (shown self.new) }
    {
        if !has_passed {
            return Ok(());
        }
        self.tick(alloc)
    }

    /// Writes the next learnt value that the record lacks, if that is one of the first so many. Says whether it was kept: it is not where memory is
    /// refused.
    fn keep_next(&mut self, alloc: Global, learnt: u32) -> Result<bool, ServeFault>
        ensures went { WentHolding A.has_applied A.meaning R.failed D.eq R.stands R.is_kept R.base R.leaves result [] [] (shown self.old) (shown self.new) }
        ensures more { IfOk result (λ more. more ≡ true → kept_by self.old.seat.node < kept_by self.new.seat.node) }
        ensures kept { IfOk result (λ more. more ≡ false → self.new.seat.has_lost ≡ false → FirstAreKept A.has_applied learnt self.old.seat.node self.new.seat.node) }
    {
        let kept = self.seat.node.kept();
        if kept >= learnt {
            return Ok(false);
        }
        self.tick_once(alloc, Tick::Keep)?;
        Ok(kept < self.seat.node.kept())
    }

    /// Writes the first so many learnt values to the record, those that it does not keep, one after the other. Where memory is refused to one, the
    /// rest is left to a later call.
    fn keep_learnt(&mut self, alloc: Global, learnt: u32) -> Result<(), ServeFault>
        ensures went { WentHolding A.has_applied A.meaning R.failed D.eq R.stands R.is_kept R.base R.leaves result [] [] (shown self.old) (shown self.new) }
        ensures kept { OnOk result (self.new.seat.has_lost ≡ false → FirstAreKept A.has_applied learnt self.old.seat.node self.new.seat.node) }
    {
        for _position in 0..learnt {
            if !self.keep_next(alloc, learnt)? {
                break;
            }
        }
        Ok(())
    }

    /// Takes a datagram as it comes, does what follows, and keeps what was learnt before.
    pub fn take_and_keep(
        &mut self,
        alloc: Global,
        arrival: Arrival<D>,
        bytes: &[u8],
    ) -> Result<(), ServeFault>
        ensures went { WentHolding A.has_applied A.meaning R.failed D.eq R.stands R.is_kept R.base R.leaves result (Took (record { end = arrival.end; peer = arrival.from; bytes = bytes.now }) ∷ []) (record { end = arrival.end; peer = arrival.from; bytes = bytes.now } ∷ []) (shown self.old) (shown self.new) }
        ensures kept { OnOk result ((shown self.new).seat.has_lost ≡ false → LearntIsKept A.has_applied (shown self.old).seat.node (shown self.new).seat.node) }
    {
        let learnt = self.seat.node.prefix();
        self.take(alloc, arrival, bytes)?;
        self.keep_learnt(alloc, learnt)
    }

    /// What ends a round of datagrams: the node ticks where a while has passed, and of what was learnt the first so many values are kept.
    pub fn tick_if_due_and_keep(
        &mut self,
        alloc: Global,
        has_passed: bool,
        learnt: u32,
    ) -> Result<(), ServeFault>
        ensures went { WentHolding A.has_applied A.meaning R.failed D.eq R.stands R.is_kept R.base R.leaves result [] [] (shown self.old) (shown self.new) }
        ensures kept { OnOk result ((shown self.new).seat.has_lost ≡ false → FirstAreKept A.has_applied learnt (shown self.old).seat.node (shown self.new).seat.node) }
    {
        self.tick_if_due(alloc, has_passed)?;
        self.keep_learnt(alloc, learnt)
    }

    /// Ticks, and keeps what was learnt before.
    pub fn tick_and_keep(&mut self, alloc: Global) -> Result<(), ServeFault>
        ensures went { WentHolding A.has_applied A.meaning R.failed D.eq R.stands R.is_kept R.base R.leaves result (Ticked Tick.Resend ∷ Ticked Tick.CatchUp ∷ []) [] (shown self.old) (shown self.new) }
        ensures kept { OnOk result ((shown self.new).seat.has_lost ≡ false → LearntIsKept A.has_applied (shown self.old).seat.node (shown self.new).seat.node) }
    {
        let learnt = self.seat.node.prefix();
        self.tick(alloc)?;
        self.keep_learnt(alloc, learnt)
    }
}

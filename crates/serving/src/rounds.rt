//! How a server's round ends: one write of its node's records, and then all that is held is given to the wire; and a round of what the wire brings.

ghost use Rattle.std.specs.Prelude.{◌≡◌, ℕ, ◌+◌, ◌≤◌, ◌++◌, [], ◌∷◌, true, false, List, length, take, IfOk, OnErr, OnOk};
ghost use Rattle.server_steps.specs.Going.{IsGivenNothing, IsWritten, Passed, has_brought_beside, was_given_or_held};
ghost use Rattle.serving.specs.Serves.{IsEnded, IsEndedIfDone, IsWrittenFirst};
ghost use Rattle.server_steps.specs.Moves.{AreTurns, Halts, Stays};
ghost use Rattle.wires.specs.Wires.{Carried, HasSaid};

use super::server::Server;
use applications::Application;
use records::FlushRecords;
use server_steps::ServeFault;
use std::alloc::Global;
use wires::{Arrival, Unheard, Wire};

impl<R: FlushRecords + Drop, A: Application + Drop, D: Copy + Eq + Drop> Server<R, A, D> {
    /// Ends a round: writes the node's records in one, and then gives the wire all that is held. Where memory is refused to the write it lags:
    /// all is held on, and the end of a later round gives it.
    ///
    /// The fault: the store failed, and the node has stopped. Nothing was given.
    pub(super) fn close<W: Wire<Address = D>>(
        &mut self,
        alloc: Global,
        wire: &mut W,
    ) -> Result<(), ServeFault>
        requires lags { self.old.lags ≡ true }
        ensures stays { OnOk result (Stays A.has_applied A.meaning R.failed self.old.server.seat self.new.server.seat) }
        ensures halted { OnErr result (Halts A.has_applied A.meaning R.failed R.stands R.is_kept R.base R.leaves self.old.server.seat self.new.server.seat) }
        ensures place { self.new.server.place ≡ self.old.server.place }
        ensures waiting { self.new.server.waiting ≡ self.old.server.waiting }
        ensures word { self.new.server.word ≡ self.old.server.word }
        ensures given { (ds : List (Carried D)) → was_given_or_held W.was_given (self.old.server.held, wire.old) ds → was_given_or_held W.was_given (self.new.server.held, wire.new) ds }
        ensures brought { (ds : List (Carried D)) → W.has_brought wire.old ds → W.has_brought wire.new ds }
        ensures waited { (vain failures : ℕ) → W.has_waited wire.old vain failures → W.has_waited wire.new vain failures }
        ensures acknowledged { OnOk result (IsWrittenFirst R.is_kept R.leaves W.was_given self.new.server wire.old wire.new) }
        ensures written { OnOk result (self.new.lags ≡ false → IsWritten R.is_kept R.leaves self.new.server) }
        ensures ended { OnOk result (IsEnded R.is_kept R.leaves W.was_given self.new wire.old wire.new) }
        ensures unsent { OnErr result (IsGivenNothing W.was_given wire.old wire.new) }
    {
        if self.state.write(alloc)? {
            self.state.give(wire);
            self.lags = false;
        }
        Ok(())
    }

    /// A round of a datagram that the wire has just brought and of what waits behind it already, so many in all at most: they are taken, the node
    /// ticks where a while has passed, so that no number of datagrams keeps it from that, and `to_keep` of what was learnt is kept. Says how many were taken.
    fn round_from<W: Wire<Address = D>>(
        &mut self,
        alloc: Global,
        wire: &mut W,
        buffer: &mut [u8],
        arrival: Arrival<D>,
        most: u64,
    ) -> Result<u64, ServeFault>
        requires fits { arrival.length ≤ length buffer.old }
        requires one { 1 ≤ most }
        ensures took { (v : W) → IsGivenNothing W.was_given v wire.old → ((ds : List (Carried D)) → W.has_brought v ds → W.has_brought wire.old (ds ++ record { end = arrival.end; peer = arrival.from; bytes = take arrival.length buffer.old } ∷ []))
            → Passed A.has_applied A.meaning R.failed D.eq (was_given_or_held W.was_given) (has_brought_beside W.has_brought) R.stands R.is_kept R.base R.leaves AreTurns result self.old.server self.new.server (self.old.server.held, v) (self.new.server.held, wire.new) }
        ensures most { IfOk result (λ taken. taken ≤ most) }
        ensures said { IfOk result (λ taken. (more : ℕ) × (taken ≡ 1 + more) × HasSaid W.has_brought W.has_waited wire.old wire.new more 0) }
        ensures acknowledged { OnOk result (IsWrittenFirst R.is_kept R.leaves W.was_given self.new.server wire.old wire.new) }
        ensures ended { OnOk result (IsEnded R.is_kept R.leaves W.was_given self.new wire.old wire.new) }
        ensures unsent { OnErr result (IsGivenNothing W.was_given wire.old wire.new) }
    {
        let before = self.state.node().prefix();
        self.lags = true;
        let taken = self.state.take_all(alloc, wire, buffer, arrival, most)?;
        let has_passed = wire.has_while_passed();
        let learnt = self.state.to_keep(before, has_passed);
        self.state.tick_if_due_and_keep(alloc, has_passed, learnt)?;
        self.close(alloc, wire)?;
        Ok(taken)
    }

    /// A round: waits for a datagram and takes it, and what waits behind it already, so many in all at most; or ticks where none comes. Says how many
    /// turns that are: none where the wire fails to say whether one has come.
    pub(super) fn round<W: Wire<Address = D>>(
        &mut self,
        alloc: Global,
        wire: &mut W,
        buffer: &mut [u8],
        most: u64,
    ) -> Result<u64, ServeFault>
        requires { 1 ≤ most }
        ensures took { Passed A.has_applied A.meaning R.failed D.eq (was_given_or_held W.was_given) (has_brought_beside W.has_brought) R.stands R.is_kept R.base R.leaves AreTurns result self.old.server self.new.server (self.old.server.held, wire.old) (self.new.server.held, wire.new) }
        ensures most { IfOk result (λ taken. taken ≤ most) }
        ensures said { IfOk result (λ taken. (failures : ℕ) × (1 ≤ taken + failures) × HasSaid W.has_brought W.has_waited wire.old wire.new taken failures) }
        ensures acknowledged { OnOk result (IsWrittenFirst R.is_kept R.leaves W.was_given self.new.server wire.old wire.new) }
        ensures ended { OnOk result (IsEndedIfDone R.is_kept R.leaves W.was_given self.old self.new wire.old wire.new) }
        ensures unsent { OnErr result (IsGivenNothing W.was_given wire.old wire.new) }
    {
        match wire.receive(buffer) {
            Ok(Some(arrival)) => self.round_from(alloc, wire, buffer, arrival, most),
            Ok(None) => {
                self.tick(alloc, wire)?;
                Ok(1)
            }
            Err(Unheard) => Ok(0),
        }
    }
}

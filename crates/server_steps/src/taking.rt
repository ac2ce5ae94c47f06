//! What a wire has brought, taken: each datagram is a step, and what the steps send is held.

ghost use Rattle.std.specs.Prelude.{◌≡◌, ℕ, ◌+◌, ◌≤◌, ◌⊎◌, ◌++◌, [], ◌∷◌, List, length, take, true, IfOk};
ghost use Rattle.server_steps.specs.Going.{IsGivenNothing, Passed, has_brought_beside, shown, was_given_or_held};
ghost use Rattle.server_steps.specs.Moves.{AreTurns};
ghost use Rattle.wires.specs.Wires.{Carried, HasSaid};

use super::fault::ServeFault;
use super::state::State;
use applications::Application;
use records::FlushRecords;
use std::alloc::Global;
use wires::{Arrival, Unheard, Wire};

impl<R: FlushRecords + Drop, A: Application + Drop, D: Copy + Eq + Drop> State<R, A, D> {
    /// Takes a datagram that waits already, if one does. Says how many turns that is: one, or none.
    fn take_next<W: Wire<Address = D>>(
        &mut self,
        alloc: Global,
        wire: &mut W,
        buffer: &mut [u8],
    ) -> Result<u64, ServeFault>
        ensures took { Passed A.has_applied A.meaning R.failed D.eq (was_given_or_held W.was_given) (has_brought_beside W.has_brought) R.stands R.is_kept R.base R.leaves AreTurns result (shown self.old) (shown self.new) ((shown self.old).held, wire.old) ((shown self.new).held, wire.new) }
        ensures most { IfOk result (λ taken. taken ≤ 1) }
        ensures said { IfOk result (λ taken. HasSaid W.has_brought W.has_waited wire.old wire.new taken 0) }
        ensures unsent { IsGivenNothing W.was_given wire.old wire.new }
    {
        match wire.receive_waiting(buffer) {
            Ok(Some(arrival)) => {
                self.take(alloc, arrival, &buffer[..arrival.length])?;
                Ok(1)
            }
            Ok(None) => Ok(0),
            Err(Unheard) => Ok(0),
        }
    }

    /// Takes what waits already, at most so many datagrams, and says how many.
    fn take_waiting<W: Wire<Address = D>>(
        &mut self,
        alloc: Global,
        wire: &mut W,
        buffer: &mut [u8],
        most: u64,
    ) -> Result<u64, ServeFault>
        ensures took { Passed A.has_applied A.meaning R.failed D.eq (was_given_or_held W.was_given) (has_brought_beside W.has_brought) R.stands R.is_kept R.base R.leaves AreTurns result (shown self.old) (shown self.new) ((shown self.old).held, wire.old) ((shown self.new).held, wire.new) }
        ensures most { IfOk result (λ taken. taken ≤ most) }
        ensures said { IfOk result (λ taken. HasSaid W.has_brought W.has_waited wire.old wire.new taken 0) }
        ensures unsent { IsGivenNothing W.was_given wire.old wire.new }
    {
        let mut taken = 0u64;
        for _datagram in 0..most {
            let more = self.take_next(alloc, wire, buffer)?;
            taken += more;
            if more == 0 {
                break;
            }
        }
        Ok(taken)
    }

    /// Takes a datagram that the wire has just brought, and what waits behind it already: so many in all at most. Says how many.
    pub fn take_all<W: Wire<Address = D>>(
        &mut self,
        alloc: Global,
        wire: &mut W,
        buffer: &mut [u8],
        arrival: Arrival<D>,
        most: u64,
    ) -> Result<u64, ServeFault>
        requires fits { arrival.length ≤ length buffer.old }
        requires one { 1 ≤ most }
        ensures took { (v : W) → IsGivenNothing W.was_given v wire.old → ((ds : List (Carried D)) → W.has_brought v ds → W.has_brought wire.old (ds ++ record { end = arrival.end; peer = arrival.from; bytes = take arrival.length buffer.old } ∷ []))
            → Passed A.has_applied A.meaning R.failed D.eq (was_given_or_held W.was_given) (has_brought_beside W.has_brought) R.stands R.is_kept R.base R.leaves AreTurns result (shown self.old) (shown self.new) ((shown self.old).held, v) ((shown self.new).held, wire.new) }
        ensures least { IfOk result (λ taken. 1 ≤ taken) }
        ensures most { IfOk result (λ taken. taken ≤ most) }
        ensures said { IfOk result (λ taken. (more : ℕ) × (taken ≡ 1 + more) × HasSaid W.has_brought W.has_waited wire.old wire.new more 0) }
        ensures unsent { IsGivenNothing W.was_given wire.old wire.new }
    {
        self.take(alloc, arrival, &buffer[..arrival.length])?;
        let more = self.take_waiting(alloc, wire, buffer, most - 1)?;
        Ok(1 + more)
    }

    /// How many of the values that were learnt before a round are kept in it: all of them where it writes a vote, or where a while has passed;
    /// else none, for they would have what is sent wait for a write of their own.
    pub fn to_keep(&self, before: u32, has_passed: bool) -> u32
        ensures passed { has_passed ≡ true → result ≡ before }
        ensures either { (result ≡ before) ⊎ (result ≡ 0) }
    {
        if has_passed || self.hold.has_vote() {
            before
        } else {
            0
        }
    }
}

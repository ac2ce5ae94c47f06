//! What clients' requests wait for: their replies.

ghost use Rattle.std.specs.Prelude.{◌≡◌, ◌⊎◌, [], IfSome};
ghost use Rattle.paxos.specs.Lists.{Has};
ghost use Rattle.server_steps.specs.Held.{carried, held_in};
ghost use Rattle.wires.specs.Wires.{Carried};

use ballots::RequestId;
use indexmap::IndexMap;
use std::alloc::Global;
use std::collections::VecDeque;

/// At most so many requests wait.
pub(super) const MOST_WAITING: usize = 1_024;

/// A datagram that came, which is to be taken again.
#[derive(Drop)]
pub(super) struct Held<D: Copy + Drop> {
    /// The end that it came to.
    pub(super) end: usize,
    /// Where it came from.
    pub(super) from: D,
    pub(super) bytes: Vec<u8>,
}

/// Requests that have had no reply, as the datagrams in which they came: of each client and number the newest.
///
/// A client that gets no reply asks again, so nothing is lost with what is dropped here.
#[derive(Drop)]
pub(super) struct Waiting<D: Copy + Drop> {
    requests: IndexMap<RequestId, Held<D>>,
    /// Those that found no place among the open proposals, the oldest first; some of them may wait no more.
    unplaced: VecDeque<RequestId>,
}

impl<D: Copy + Drop> Waiting<D> {
    /// None waits.
    pub(super) fn new(alloc: Global) -> Waiting<D>
        ensures { result.requests.entries ≡ [] }
    {
        Waiting {
            requests: IndexMap::new(alloc),
            unplaced: VecDeque::new(alloc),
        }
    }

    /// The request waits from now on, in the place of an older datagram of its client and number; past the limit the oldest one is dropped.
    /// It does not wait where memory is refused.
    pub(super) fn hold(&mut self, id: RequestId, held: Held<D>, has_place: bool)
        ensures { (c : Carried D) → Has (held_in self.new.requests.entries) c → Has (held_in self.old.requests.entries) c ⊎ (carried held ≡ c) }
    {
        self.make_ready(id, has_place);
        self.put(id, held);
    }

    /// Makes room for a request that does not wait yet, and notes it where it found no place.
    fn make_ready(&mut self, id: RequestId, has_place: bool)
        ensures { (c : Carried D) → Has (held_in self.new.requests.entries) c → Has (held_in self.old.requests.entries) c }
    {
        if self.requests.contains_key(&id) {
            return;
        }
        self.make_room();
        if !has_place {
            self.note_unplaced(id);
        }
    }

    /// Puts a datagram in the place of an older one of its request, or behind all that wait. Where memory is refused nothing has changed.
    fn put(&mut self, id: RequestId, held: Held<D>)
        ensures { (c : Carried D) → Has (held_in self.new.requests.entries) c → Has (held_in self.old.requests.entries) c ⊎ (carried held ≡ c) }
    {
        match self.requests.insert(id, held) {
            Ok(_) => {}
            Err(_) => {}
        }
    }

    /// Drops the oldest request where as many wait as may.
    fn make_room(&mut self)
        ensures { (c : Carried D) → Has (held_in self.new.requests.entries) c → Has (held_in self.old.requests.entries) c }
    {
        if self.requests.len() >= MOST_WAITING {
            let _ = self.requests.shift_remove_index(0);
        }
    }

    /// Notes that a request found no place. Where memory is refused it is only taken again when its client asks again.
    fn note_unplaced(&mut self, id: RequestId)
        ensures { self.new.requests ≡ self.old.requests }
    {
        if self.unplaced.len() < MOST_WAITING {
            let _ = self.unplaced.push_back(id);
        }
    }

    /// The datagram of a request that waits.
    pub(super) fn get(&self, id: RequestId) -> Option<&Held<D>>
        ensures { IfSome result (λ h. Has (held_in self.now.requests.entries) (carried h.now)) }
    {
        match self.requests.get(&id) {
            Some(held) => Some(held),
            None => None,
        }
    }

    /// The request waits no more.
    pub(super) fn drop_request(&mut self, id: RequestId)
        ensures { (c : Carried D) → Has (held_in self.new.requests.entries) c → Has (held_in self.old.requests.entries) c }
    {
        if let Some(index) = self.requests.get_index_of(&id) {
            let _ = self.requests.shift_remove_index(index);
        }
    }

    /// The request that has waited longest.
    pub(super) fn oldest(&self) -> Option<RequestId> {
        self.requests.get_index(0).map(|(id, _)| *id)
    }

    /// The request that has waited longest for a place, if there is one. It is no longer noted.
    pub(super) fn take_unplaced(&mut self) -> Option<RequestId>
        ensures { self.new.requests ≡ self.old.requests }
    {
        self.unplaced.pop_front()
    }

    /// Notes that the request which was last taken has found no place again.
    pub(super) fn put_back(&mut self, id: RequestId)
        ensures { self.new.requests ≡ self.old.requests }
    {
        let _ = self.unplaced.push_front(id);
    }
}

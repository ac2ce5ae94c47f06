//! The straight run: one member begins, a request is submitted to it, and all messages are delivered in order.

ghost use Rattle.std.specs.Prelude.{◌≡◌, ◌∷◌, ◌+◌, ◌*◌, ◌<◌, ◌≤◌, [], IfErr, IsErrOf, OnErr, OnOk};
ghost use Rattle.world.specs.Held.{IsHeld, shown};
ghost use Rattle.world.specs.Reached.{HasHappened, IsUnmoved};
ghost use Rattle.world.specs.Runs.{HasDone, LeadsSmoothly, Ran, RanUntil, StoppedAt, StopsAt, straight_event, straight_run};

use crate::fault::WorldFault;
use crate::state::State;
use applications::Application;
use ballots::Request;
use member::Tick;
use records::Records;
use std::alloc::{AllocError, Global};

impl<R: Records + Drop, A: Application + Drop> State<R, A> {
    /// How many messages of the opening there are: a Prepare and a Promise of each member.
    fn opening(&self) -> u64
        ensures { result ≡ 2 * self.now.members }
    {
        2 * u64::from(self.members.count())
    }

    /// How many events a straight run has: two more than messages.
    fn straight_events(&self) -> u64
        requires held { IsHeld self.now }
        ensures { result ≡ self.now.members * self.now.members + 3 * self.now.members + 3 }
    {
        let members = u64::from(self.members.count());
        members * members + 3 * members + 3
    }

    /// The event of a straight run before which there are `before`.
    ///
    /// It fails where memory is refused, and then nothing that shows has changed.
    fn straight_event(
        &mut self,
        alloc: Global,
        member: u8,
        request: &Request,
        before: u64,
    ) -> Result<(), AllocError>
        requires held { IsHeld self.old }
        requires least { 1 ≤ member }
        requires most { member ≤ self.old.members }
        ensures held { IsHeld self.new }
        ensures happened { OnOk result (HasHappened R.stands R.is_kept R.failed R.fates A.has_applied (A.meaning self.old.names) (straight_event self.old.members member request.now before) (shown self.old) (shown self.new)) }
        ensures refused { OnErr result (IsUnmoved R.stands R.is_kept A.has_applied (shown self.old) (shown self.new)) }
    {
        let opening = self.opening();
        if before == 0 {
            self.tick_to(alloc, member, Tick::Begin)
        } else if before <= opening {
            self.deliver(alloc, before)
        } else if before == opening + 1 {
            self.submit(alloc, member, request)
        } else {
            self.deliver(alloc, before - 1)
        }
    }

    /// That event, in which no store may stop a member.
    ///
    /// Faults: memory was refused, after `before` events, and nothing that shows has changed, or after one more, and a member has not applied all
    /// that it has learnt; a member is stopped after the event, as it is where its store failed.
    fn go_straight(
        &mut self,
        alloc: Global,
        member: u8,
        request: &Request,
        before: u64,
    ) -> Result<(), WorldFault>
        requires held { IsHeld self.old }
        requires least { 1 ≤ member }
        requires most { member ≤ self.old.members }
        requires few { before < self.old.members * self.old.members + 3 * self.old.members + 3 }
        ensures held { IsHeld self.new }
        ensures ran { OnOk result (HasHappened R.stands R.is_kept R.failed R.fates A.has_applied (A.meaning self.old.names) (straight_event self.old.members member request.now before) (shown self.old) (shown self.new)) }
        ensures ran_until { IfErr result (StoppedAt R.stands R.is_kept R.failed R.fates A.has_applied (A.meaning self.old.names) (straight_event self.old.members member request.now before) before (shown self.old) (shown self.new)) }
        ensures done { OnOk result (LeadsSmoothly R.stands R.is_kept A.has_applied (A.meaning self.old.names) (shown self.old) (shown self.new) (straight_event self.old.members member request.now before ∷ [])) }
        ensures refused { IfErr result (λ fault. StopsAt R.stands R.is_kept A.has_applied (A.meaning self.old.names) (shown self.old) (shown self.new) (straight_event self.old.members member request.now before) before fault) }
        ensures member { IsErrOf result WorldFault.Member → ⊥ }
    {
        let Ok(()) = self.straight_event(alloc, member, request, before) else {
            return Err(WorldFault::Memory(before));
        };
        if !self.all_run() {
            return Err(WorldFault::Store);
        }
        if !self.all_applied() {
            return Err(WorldFault::Memory(before + 1));
        }
        Ok(())
    }

    /// Makes a straight run.
    ///
    /// Faults: memory was refused, after that many events, and the next one has changed nothing; a member is stopped after the last event
    /// that happened, as it is where its store failed.
    pub(super) fn straight(
        &mut self,
        alloc: Global,
        member: u8,
        request: &Request,
    ) -> Result<(), WorldFault>
        requires held { IsHeld self.old }
        requires least { 1 ≤ member }
        requires most { member ≤ self.old.members }
        ensures held { IsHeld self.new }
        ensures ran { OnOk result (Ran R.stands R.is_kept R.failed R.fates A.has_applied (A.meaning self.old.names) (straight_run self.old.members member request.now) (shown self.old) (shown self.new)) }
        ensures ran_until { IfErr result (RanUntil R.stands R.is_kept R.failed R.fates A.has_applied (A.meaning self.old.names) (straight_run self.old.members member request.now) (shown self.old) (shown self.new)) }
        ensures done { OnOk result (LeadsSmoothly R.stands R.is_kept A.has_applied (A.meaning self.old.names) (shown self.old) (shown self.new) (straight_run self.old.members member request.now)) }
        ensures refused { IfErr result (λ fault. HasDone R.stands R.is_kept A.has_applied (A.meaning self.old.names) (shown self.old) (shown self.new) (straight_run self.old.members member request.now) fault) }
        ensures member { IsErrOf result WorldFault.Member → ⊥ }
    {
        let events = self.straight_events();
        for before in 0..events {
            self.go_straight(alloc, member, request, before)?;
        }
        Ok(())
    }
}

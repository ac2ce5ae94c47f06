//! What each event does.

ghost use Rattle.std.specs.Prelude.{◌≡◌, ◌<◌, ◌≤◌, true, None, Some, IfSome, OnErr, OnOk};
ghost use Rattle.ballots.specs.Messages.{Packet};
ghost use Rattle.paxos.specs.World.{Deliver, Start, Stop, StopInDeliver, Submits};
ghost use Rattle.paxos.specs.Lists.{at};
ghost use Rattle.world.specs.Posts.{sent_in};
ghost use Rattle.world.specs.Held.{IsDeliveryOf, IsHeld, shown};
ghost use Rattle.events.specs.Events.{event_of, is_for};
ghost use Rattle.world.specs.Reached.{HasHappened, IsUnmoved, MayWrite, stop_in};
ghost use Rattle.events.specs.declared.event.Event.TheVariants as event;

use crate::mail::Delivery;
use crate::state::State;
use applications::Application;
use ballots::Request;
use events::{Event, Step};
use member::Tick;
use records::{PlannedRecords, Records};
use std::alloc::{AllocError, Global};

impl<R: Records + Drop, A: Application + Drop> State<R, A> {
    /// The delivery of a number, if it was sent to a member.
    fn to_member(&self, number: u64) -> Option<Delivery>
        requires held { IsHeld self.now }
        ensures there { IfSome result (λ d. IsDeliveryOf (shown self.now) number self.now.mail d) }
        ensures none { result ≡ None → (p : Packet) → at (sent_in self.now.group self.now.mail) number ≡ Some p → at self.now.seats.items p.target ≡ None }
    {
        let delivery = self.mail.delivery(number)?;
        if delivery.target == 0 {
            return None;
        }
        if delivery.target > self.members.count() {
            return None;
        }
        Some(delivery)
    }

    /// The message of a number is delivered.
    ///
    /// It fails where memory is refused, and then nothing that shows has changed.
    pub(super) fn deliver(&mut self, alloc: Global, number: u64) -> Result<(), AllocError>
        requires held { IsHeld self.old }
        ensures held { IsHeld self.new }
        ensures happened { OnOk result (HasHappened R.stands R.is_kept R.failed R.fates A.has_applied (A.meaning self.old.names) (Deliver number) (shown self.old) (shown self.new)) }
        ensures refused { OnErr result (IsUnmoved R.stands R.is_kept A.has_applied (shown self.old) (shown self.new)) }
    {
        let Some(delivery) = self.to_member(number) else {
            return Ok(());
        };
        let Some(draft) = self.hear(alloc, delivery)? else {
            return Ok(());
        };
        self.take(alloc, delivery.target, draft)
    }

    /// A tick comes to a member.
    ///
    /// It fails where memory is refused, and then nothing that shows has changed.
    pub(super) fn tick_to(
        &mut self,
        alloc: Global,
        number: u8,
        tick: Tick,
    ) -> Result<(), AllocError>
        requires held { IsHeld self.old }
        requires least { 1 ≤ number }
        requires most { number ≤ self.old.members }
        ensures held { IsHeld self.new }
        ensures happened { OnOk result (HasHappened R.stands R.is_kept R.failed R.fates A.has_applied (A.meaning self.old.names) (event_of (event.Tick number tick)) (shown self.old) (shown self.new)) }
        ensures refused { OnErr result (IsUnmoved R.stands R.is_kept A.has_applied (shown self.old) (shown self.new)) }
    {
        let Some(draft) = self.tick(alloc, number, tick)? else {
            return Ok(());
        };
        self.take(alloc, number, draft)
    }

    /// A member stops.
    pub(super) fn stop_at(&mut self, number: u8)
        requires held { IsHeld self.old }
        requires least { 1 ≤ number }
        requires most { number ≤ self.old.members }
        ensures held { IsHeld self.new }
        ensures happened { HasHappened R.stands R.is_kept R.failed R.fates A.has_applied (A.meaning self.old.names) (Stop number) (shown self.old) (shown self.new) }
    {
        self.stop(number);
    }

    /// A member starts, if it is stopped and its store does not fail.
    ///
    /// It fails where memory is refused, and then nothing that shows has changed.
    pub(super) fn start_at(&mut self, alloc: Global, number: u8) -> Result<(), AllocError>
        requires held { IsHeld self.old }
        requires least { 1 ≤ number }
        requires most { number ≤ self.old.members }
        ensures held { IsHeld self.new }
        ensures happened { OnOk result (HasHappened R.stands R.is_kept R.failed R.fates A.has_applied (A.meaning self.old.names) (Start number) (shown self.old) (shown self.new)) }
        ensures refused { OnErr result (IsUnmoved R.stands R.is_kept A.has_applied (shown self.old) (shown self.new)) }
    {
        self.start(alloc, number)
    }

    /// A client sends a request to a member.
    ///
    /// It fails where memory is refused, and then nothing that shows has changed.
    pub(super) fn submit(
        &mut self,
        alloc: Global,
        number: u8,
        request: &Request,
    ) -> Result<(), AllocError>
        requires held { IsHeld self.old }
        requires least { 1 ≤ number }
        requires most { number ≤ self.old.members }
        ensures held { IsHeld self.new }
        ensures happened { OnOk result (HasHappened R.stands R.is_kept R.failed R.fates A.has_applied (A.meaning self.old.names) (Submits number request.now) (shown self.old) (shown self.new)) }
        ensures refused { OnErr result (IsUnmoved R.stands R.is_kept A.has_applied (shown self.old) (shown self.new)) }
    {
        self.mail.submit(alloc, self.group, number, request)
    }
}

impl<R: PlannedRecords + Drop, A: Application + Drop> State<R, A> {
    /// A member stops in the write of a tick, which is kept.
    ///
    /// It fails where memory is refused, and then nothing that shows has changed.
    fn stop_ticking(&mut self, alloc: Global, number: u8, tick: Tick) -> Result<(), AllocError>
        requires held { IsHeld self.old }
        requires least { 1 ≤ number }
        requires most { number ≤ self.old.members }
        requires writes { MayWrite tick }
        ensures held { IsHeld self.new }
        ensures happened { OnOk result (HasHappened R.stands R.is_kept R.failed R.fates A.has_applied (A.meaning self.old.names) (stop_in number tick true) (shown self.old) (shown self.new)) }
        ensures refused { OnErr result (IsUnmoved R.stands R.is_kept A.has_applied (shown self.old) (shown self.new)) }
    {
        let Some(draft) = self.tick(alloc, number, tick)? else {
            self.stop(number);
            return Ok(());
        };
        self.stop_in(alloc, number, draft)
    }

    /// A member stops in the write of a tick, which is kept or lost.
    ///
    /// It fails where memory is refused, and then nothing that shows has changed.
    pub(super) fn stop_in_tick(
        &mut self,
        alloc: Global,
        number: u8,
        tick: Tick,
        kept: bool,
    ) -> Result<(), AllocError>
        requires held { IsHeld self.old }
        requires least { 1 ≤ number }
        requires most { number ≤ self.old.members }
        requires writes { MayWrite tick }
        ensures held { IsHeld self.new }
        ensures happened { OnOk result (HasHappened R.stands R.is_kept R.failed R.fates A.has_applied (A.meaning self.old.names) (stop_in number tick kept) (shown self.old) (shown self.new)) }
        ensures refused { OnErr result (IsUnmoved R.stands R.is_kept A.has_applied (shown self.old) (shown self.new)) }
    {
        if kept {
            return self.stop_ticking(alloc, number, tick);
        }
        self.stop(number);
        Ok(())
    }

    /// A member stops in the write of a delivery, which is kept.
    ///
    /// It fails where memory is refused, and then nothing that shows has changed.
    fn stop_hearing(
        &mut self,
        alloc: Global,
        number: u64,
        delivery: Delivery,
    ) -> Result<(), AllocError>
        requires held { IsHeld self.old }
        requires there { IsDeliveryOf (shown self.old) number self.old.mail delivery }
        ensures held { IsHeld self.new }
        ensures happened { OnOk result (HasHappened R.stands R.is_kept R.failed R.fates A.has_applied (A.meaning self.old.names) (StopInDeliver number true) (shown self.old) (shown self.new)) }
        ensures refused { OnErr result (IsUnmoved R.stands R.is_kept A.has_applied (shown self.old) (shown self.new)) }
    {
        let Some(draft) = self.hear(alloc, delivery)? else {
            self.stop(delivery.target);
            return Ok(());
        };
        self.stop_in(alloc, delivery.target, draft)
    }

    /// A member stops in the write of a delivery, which is kept or lost.
    ///
    /// It fails where memory is refused, and then nothing that shows has changed.
    pub(super) fn stop_in_delivery(
        &mut self,
        alloc: Global,
        number: u64,
        kept: bool,
    ) -> Result<(), AllocError>
        requires held { IsHeld self.old }
        ensures held { IsHeld self.new }
        ensures happened { OnOk result (HasHappened R.stands R.is_kept R.failed R.fates A.has_applied (A.meaning self.old.names) (StopInDeliver number kept) (shown self.old) (shown self.new)) }
        ensures refused { OnErr result (IsUnmoved R.stands R.is_kept A.has_applied (shown self.old) (shown self.new)) }
    {
        let Some(delivery) = self.to_member(number) else {
            return Ok(());
        };
        if kept {
            return self.stop_hearing(alloc, number, delivery);
        }
        self.stop(delivery.target);
        Ok(())
    }

    /// What an event does. The member that it names, if it names one, is one of the world's.
    ///
    /// It fails where memory is refused, and then nothing that shows has changed.
    pub(super) fn happen(&mut self, alloc: Global, event: &Event) -> Result<(), AllocError>
        requires held { IsHeld self.old }
        requires named { is_for self.old.members event.now ≡ true }
        ensures held { IsHeld self.new }
        ensures happened { OnOk result (HasHappened R.stands R.is_kept R.failed R.fates A.has_applied (A.meaning self.old.names) (event_of event.now) (shown self.old) (shown self.new)) }
        ensures refused { OnErr result (IsUnmoved R.stands R.is_kept A.has_applied (shown self.old) (shown self.new)) }
    {
        match event {
            Event::Deliver(number) => self.deliver(alloc, *number),
            Event::Tick(member, tick) => self.tick_to(alloc, *member, *tick),
            Event::Submit(member, request) => self.submit(alloc, *member, request),
            Event::StopIn(Step::Deliver(number), kept) => {
                self.stop_in_delivery(alloc, *number, *kept)
            }
            Event::StopIn(Step::Begin(member), kept) => {
                self.stop_in_tick(alloc, *member, Tick::Begin, *kept)
            }
            Event::StopIn(Step::Keep(member), kept) => {
                self.stop_in_tick(alloc, *member, Tick::Keep, *kept)
            }
            Event::Stop(member) => {
                self.stop_at(*member);
                Ok(())
            }
            Event::Start(member) => self.start_at(alloc, *member),
        }
    }
}

//! What a world holds, and how it is changed.

ghost use Rattle.std.specs.Prelude.{◌≡◌, ◌+◌, ◌<◌, ◌≤◌, ◌++◌, ℕ, length, map, vec_capacity, vec_len, None, Some, IfOk, IfSome, IsSome, OnErr, OnOk, false, true};
ghost use Rattle.member.specs.Steps.{Input as InputTerm, Hears, ticked};
ghost use Rattle.paxos.specs.Lists.{at};
ghost use Rattle.paxos.specs.Sound.{Sound};
ghost use Rattle.paxos.specs.World.{told_to};
ghost use Rattle.world.specs.Posts.{IsWhole, all_deliveries, packet_of, sent_in};
ghost use Rattle.world.specs.Tellings.{told_in};
ghost use Rattle.world.specs.Held.{IsHeld, shown};
ghost use Rattle.world.specs.Reached.{Follows, IsUnmoved, Steps, store_at};
ghost use Rattle.world.specs.Seats.{Did, IsPlanned, IsPlannedAt, MayMake, MayStart, MayStep, MayStop, MayStopIn, SkipsAt, sent_by, told_by};
ghost use Rattle.world.specs.declared.seat.Seat.{Seat as SeatTerm};

use crate::mail::{Delivery, Mail};
use crate::seat::Seat;
use crate::told::{Told, tell};
use applications::Application;
use ballots::Members;
use document_names::Names;
use held_values::beside;
use member::Tick;
use node::{Draft, Outbox};
use records::{PlannedRecords, Records};
use std::alloc::{AllocError, Global};

/// How many members there are, of which group and over which documents; where each of them sits, all that was sent and all that was told.
#[derive(Drop)]
pub(super) struct State<R: Records + Drop, A: Application + Drop> {
    pub(super) members: Members,
    pub(super) group: u32,
    pub(super) names: Names,
    pub(super) seats: Vec<Seat<R, A>>,
    pub(super) mail: Mail,
    pub(super) told: Vec<Told>,
}

impl<R: Records + Drop, A: Application + Drop> State<R, A> {
    /// What comes of a message to a member that is there, if anything. Nothing that shows has changed.
    ///
    /// It fails where memory is refused.
    pub(super) fn hear(
        &mut self,
        alloc: Global,
        delivery: Delivery,
    ) -> Result<Option<Draft>, AllocError>
        requires held { IsHeld self.old }
        requires least { 1 ≤ delivery.target }
        requires most { delivery.target ≤ self.old.members }
        requires there { delivery.message < length self.old.mail.messages.items }
        ensures held { IsHeld self.new }
        ensures stays { IsUnmoved R.stands R.is_kept A.has_applied (shown self.old) (shown self.new) }
        ensures stores { (m : ℕ) → store_at self.new.seats.items m ≡ store_at self.old.seats.items m }
        ensures planned { IfOk result (λ o. IfSome o (λ d. IsPlannedAt A.has_applied (A.meaning self.old.names) self.new.seats.items delivery.target (Hears (packet_of self.old.group self.old.mail.messages.items delivery)) d)) }
        ensures skipped { IfOk result (λ o. o ≡ None → SkipsAt A.has_applied self.new.seats.items delivery.target (Hears (packet_of self.old.group self.old.mail.messages.items delivery))) }
        ensures same { (self.new.members ≡ self.old.members) × (self.new.group ≡ self.old.group) × (self.new.names ≡ self.old.names) × (self.new.mail ≡ self.old.mail) × (self.new.told ≡ self.old.told) }
    {
        let bytes = self.mail.messages[delivery.message].bytes.as_slice();
        self.seats[(delivery.target - 1) as usize].hear(alloc, bytes)
    }

    /// What comes of a tick to a member that is there, if anything. Nothing that shows has changed.
    ///
    /// It fails where memory is refused.
    pub(super) fn tick(
        &mut self,
        alloc: Global,
        number: u8,
        tick: Tick,
    ) -> Result<Option<Draft>, AllocError>
        requires held { IsHeld self.old }
        requires least { 1 ≤ number }
        requires most { number ≤ self.old.members }
        ensures held { IsHeld self.new }
        ensures stays { IsUnmoved R.stands R.is_kept A.has_applied (shown self.old) (shown self.new) }
        ensures stores { (m : ℕ) → store_at self.new.seats.items m ≡ store_at self.old.seats.items m }
        ensures planned { IfOk result (λ o. IfSome o (λ d. IsPlannedAt A.has_applied (A.meaning self.old.names) self.new.seats.items number (ticked tick) d)) }
        ensures skipped { IfOk result (λ o. o ≡ None → SkipsAt A.has_applied self.new.seats.items number (ticked tick)) }
        ensures same { (self.new.members ≡ self.old.members) × (self.new.group ≡ self.old.group) × (self.new.names ≡ self.old.names) × (self.new.mail ≡ self.old.mail) × (self.new.told ≡ self.old.told) }
    {
        self.seats[(number - 1) as usize].tick(alloc, tick)
    }

    /// Makes what was drafted for a member that runs: room for what it sends and is told first, and then its step. Where its store fails
    /// it stops, and nothing is sent or told.
    ///
    /// It fails where memory is refused, and then nothing that shows has changed.
    pub(super) fn take(&mut self, alloc: Global, number: u8, draft: Draft) -> Result<(), AllocError>
        requires held { IsHeld self.old }
        requires least { 1 ≤ number }
        requires most { number ≤ self.old.members }
        requires ready { (s : SeatTerm R A) → at self.old.seats.items number ≡ Some s → MayMake s draft }
        ensures held { IsHeld self.new }
        ensures taken { OnOk result ((i : InputTerm) (s : SeatTerm R A) → at self.old.seats.items number ≡ Some s → IsPlanned A.has_applied (A.meaning self.old.names) s i draft
            → Follows R.stands R.is_kept A.has_applied (Sound self.old.members) (Steps A.has_applied (shown self.old) s number (MayStep (Did R.failed R.fates false (store_at self.old.seats.items number) (store_at self.new.seats.items number)) (A.meaning self.old.names) self.old.members number i)) (shown self.old) (shown self.new)) }
        ensures others { (j : ℕ) → (j ≡ number → ⊥) → store_at self.new.seats.items j ≡ store_at self.old.seats.items j }
        ensures refused { OnErr result (IsUnmoved R.stands R.is_kept A.has_applied (shown self.old) (shown self.new)) }
    {
        let plan = self.mail.plan(alloc, self.members, number, draft.sent());
        let (draft, plan) = beside(draft, plan)?;
        let room = self.told.reserve(draft.tells().len());
        let (draft, ()) = beside(draft, room)?;
        let made = self.seats[(number - 1) as usize].commit(alloc, draft);
        let (plan, made) = beside(plan, made)?;
        self.note(number, made, plan);
        Ok(())
    }

    /// Notes what a member sent and was told, if it did not stop. It takes no memory.
    fn note(&mut self, number: u8, made: Option<Outbox>, plan: Vec<Delivery>)
        requires least { 1 ≤ number }
        requires whole { IsWhole self.old.mail }
        requires planned { IfSome made (λ o. plan.items ≡ all_deliveries self.old.members number (length self.old.mail.messages.items) o.sent.items) }
        requires messages { IfSome made (λ o. vec_len self.old.mail.messages + length o.sent.items ≤ vec_capacity self.old.mail.messages) }
        requires deliveries { vec_len self.old.mail.deliveries + vec_len plan ≤ vec_capacity self.old.mail.deliveries }
        requires told { IfSome made (λ o. vec_len self.old.told + length o.tells.items ≤ vec_capacity self.old.told) }
        ensures whole { IsWhole self.new.mail }
        ensures sent { sent_in self.old.group self.new.mail ≡ sent_in self.old.group self.old.mail ++ sent_by self.old.group self.old.members number made }
        ensures told { told_in self.new.told.items ≡ told_in self.old.told.items ++ map (told_to number) (told_by made) }
        ensures same { (self.new.members ≡ self.old.members) × (self.new.group ≡ self.old.group) × (self.new.names ≡ self.old.names) × (self.new.seats ≡ self.old.seats) }
    {
        if let Some(outbox) = made {
            let (sent, tells) = outbox.into_parts();
            self.mail.post(sent, plan);
            tell(&mut self.told, number, tells);
        }
    }

    /// Stops a member that is there, if it runs.
    pub(super) fn stop(&mut self, number: u8)
        requires held { IsHeld self.old }
        requires least { 1 ≤ number }
        requires most { number ≤ self.old.members }
        ensures held { IsHeld self.new }
        ensures stopped { (s : SeatTerm R A) → at self.old.seats.items number ≡ Some s → IsSome s.node
            → Follows R.stands R.is_kept A.has_applied (Sound self.old.members) (Steps A.has_applied (shown self.old) s number MayStop) (shown self.old) (shown self.new) }
        ensures none { (s : SeatTerm R A) → at self.old.seats.items number ≡ Some s → s.node ≡ None → shown self.new ≡ shown self.old }
        ensures stores { (m : ℕ) → store_at self.new.seats.items m ≡ store_at self.old.seats.items m }
    {
        self.seats[(number - 1) as usize].stop();
    }

    /// Starts a member that is there, if it is stopped and its store does not fail.
    ///
    /// It fails where memory is refused, and then nothing that shows has changed.
    pub(super) fn start(&mut self, alloc: Global, number: u8) -> Result<(), AllocError>
        requires held { IsHeld self.old }
        requires least { 1 ≤ number }
        requires most { number ≤ self.old.members }
        ensures held { IsHeld self.new }
        ensures started { OnOk result ((s : SeatTerm R A) → at self.old.seats.items number ≡ Some s → s.node ≡ None
            → Follows R.stands R.is_kept A.has_applied (Sound self.old.members) (Steps A.has_applied (shown self.old) s number (MayStart (Did R.failed R.fates false (store_at self.old.seats.items number) (store_at self.new.seats.items number)) self.old.members number)) (shown self.old) (shown self.new)) }
        ensures others { (j : ℕ) → (j ≡ number → ⊥) → store_at self.new.seats.items j ≡ store_at self.old.seats.items j }
        ensures runs { (s : SeatTerm R A) → at self.old.seats.items number ≡ Some s → IsSome s.node → shown self.new ≡ shown self.old }
        ensures same { (s : SeatTerm R A) → at self.old.seats.items number ≡ Some s → IsSome s.node → (m : ℕ) → store_at self.new.seats.items m ≡ store_at self.old.seats.items m }
        ensures refused { OnErr result (IsUnmoved R.stands R.is_kept A.has_applied (shown self.old) (shown self.new)) }
    {
        self.seats[(number - 1) as usize].start(alloc)
    }
}

impl<R: PlannedRecords + Drop, A: Application + Drop> State<R, A> {
    /// Makes the write of what was drafted for a member that runs, and stops the member.
    ///
    /// It fails where memory is refused, and then nothing that shows has changed.
    pub(super) fn stop_in(
        &mut self,
        alloc: Global,
        number: u8,
        draft: Draft,
    ) -> Result<(), AllocError>
        requires held { IsHeld self.old }
        requires least { 1 ≤ number }
        requires most { number ≤ self.old.members }
        requires ready { (s : SeatTerm R A) → at self.old.seats.items number ≡ Some s → MayMake s draft }
        ensures held { IsHeld self.new }
        ensures stopped { OnOk result ((i : InputTerm) (s : SeatTerm R A) → at self.old.seats.items number ≡ Some s → IsPlanned A.has_applied (A.meaning self.old.names) s i draft
            → Follows R.stands R.is_kept A.has_applied (Sound self.old.members) (Steps A.has_applied (shown self.old) s number (MayStopIn (Did R.failed R.fates true (store_at self.old.seats.items number) (store_at self.new.seats.items number)) (A.meaning self.old.names) self.old.members number i true)) (shown self.old) (shown self.new)) }
        ensures others { (j : ℕ) → (j ≡ number → ⊥) → store_at self.new.seats.items j ≡ store_at self.old.seats.items j }
        ensures refused { OnErr result (IsUnmoved R.stands R.is_kept A.has_applied (shown self.old) (shown self.new)) }
    {
        self.seats[(number - 1) as usize].stop_in(alloc, draft)
    }
}

//! A group of members, as far as the lines of an event file have led it.

ghost use Rattle.std.specs.Prelude.{◌≡◌, ◌<◌, ◌+◌, ◌^◌, ◌∷◌, ◌++◌, ℕ, List, [], All, IfOk, OnOk, length, true};
ghost use Rattle.event_files.specs.Within.{IsCommandOf, IsEventOf};
ghost use Rattle.event_files.specs.declared.command.Command.{Command as CommandTerm};
ghost use Rattle.event_files.specs.declared.command.Command.TheVariants.{Happens, DeliverAll};
ghost use Rattle.events.specs.Events.{event_of, is_for};
ghost use Rattle.event_files.specs.declared.first.Failure.{Failure as FailureTerm};
ghost use Rattle.records.specs.Script.{IsKept, Script, Stands, fates_of};
ghost use Rattle.paxos.specs.Records.{Record};
ghost use Rattle.paxos.specs.World.{World as Whole};
ghost use Rattle.paxos.specs.Smooth.{AllApplied};
ghost use Rattle.world.specs.Reached.{HasHappened};
ghost use Rattle.world.specs.Shown.{Shows};
ghost use Rattle.paxq_sim.specs.Going.{HasCome, IsDelivering};

use super::numbers::Numbers;
use super::stores::stores_of;
use applications::Application;
use event_files::{Command, Failure, Group};
use events::Event;
use records::ScriptRecords;
use std::alloc::{AllocError, Global};
use world::World;

/// A group of members, and which of their messages were delivered.
#[derive(Drop)]
pub(crate) struct Simulation<A: Application + Drop> {
    /// The members, with all that was sent and told.
    pub(crate) world: World<ScriptRecords, A>,
    /// The number up to which all messages were delivered.
    delivered: u64,
    /// Later numbers that lines have named since those messages were sent.
    named: Numbers,
}

impl<A: Application + Drop> Simulation<A> {
    /// Members that never did anything, whose writes fail as the file says. It fails where memory is refused.
    pub(crate) fn begin(
        alloc: Global,
        group: &Group,
        failures: &[Failure],
    ) -> Result<Simulation<A>, AllocError>
        ensures begun { IfOk result (λ s. HasCome A.has_applied A.meaning failures.now group.now.members group.now.names [] s.world s.delivered s.named) }
        ensures members { IfOk result (λ s. s.world.members ≡ group.now.members) }
    {
        // Members are at most 63, as their count says.
        let _count = group.members.count();
        let stores = stores_of(alloc, group.members, failures)?;
        // These stores never fail when they are read: all that may be refused is memory.
        match World::new(alloc, group.members, &group.names, stores) {
            Ok(world) => Ok(Simulation {
                world,
                delivered: 0,
                named: Numbers::new(alloc),
            }),
            Err(_) => Err(AllocError),
        }
    }

    /// The commands of a file, in order. It fails where memory is refused.
    pub(crate) fn play(&mut self, alloc: Global, commands: &[Command]) -> Result<(), AllocError>
        requires within { All (IsCommandOf self.old.world.members) commands.now }
        ensures played { OnOk result ((failures : List FailureTerm) (n : ℕ) (names : List (List ℕ)) → HasCome A.has_applied A.meaning failures n names [] self.old.world self.old.delivered self.old.named → HasCome A.has_applied A.meaning failures n names commands.now self.new.world self.new.delivered self.new.named) }
    {
        for command in commands {
            self.take(alloc, command)?;
        }
        Ok(())
    }

    /// One command. It fails where memory is refused.
    fn take(&mut self, alloc: Global, command: &Command) -> Result<(), AllocError>
        requires within { IsCommandOf self.old.world.members command.now }
        ensures taken { OnOk result ((failures : List FailureTerm) (n : ℕ) (names : List (List ℕ)) (done : List CommandTerm)
            → HasCome A.has_applied A.meaning failures n names done self.old.world self.old.delivered self.old.named → HasCome A.has_applied A.meaning failures n names (done ++ command.now ∷ []) self.new.world self.new.delivered self.new.named) }
        ensures members { OnOk result (self.new.world.members ≡ self.old.world.members) }
    {
        match command {
            Command::Happens(event) => self.happen(alloc, event),
            Command::DeliverAll => self.deliver_all(alloc),
        }
    }

    /// An event. It fails where memory is refused.
    fn happen(&mut self, alloc: Global, event: &Event) -> Result<(), AllocError>
        requires within { IsEventOf self.old.world.members event.now }
        ensures taken { OnOk result ((failures : List FailureTerm) (n : ℕ) (names : List (List ℕ)) (done : List CommandTerm)
            → HasCome A.has_applied A.meaning failures n names done self.old.world self.old.delivered self.old.named → HasCome A.has_applied A.meaning failures n names (done ++ Happens event.now ∷ []) self.new.world self.new.delivered self.new.named) }
        ensures members { OnOk result (self.new.world.members ≡ self.old.world.members) }
    {
        let sent = self.world.messages() as u64;
        self.named.note(self.delivered, sent, event)?;
        happen(alloc, &mut self.world, event)
    }

    /// Delivers all messages that were not delivered and not named, those too that come of it, lowest number first.
    ///
    /// It ends at the latest with the numbers of 64 bits, for each turn passes one. And it ends long before, since no message makes ever
    /// more of them. Ballots begin by lines alone. A Prepare gets one Promise, an Accept one Accepted a member. A Promise asks its member
    /// for the next window only from a later position than before. An Accept is sent for a proposal, and a leader proposes in a ballot at
    /// ever later positions, of which there are 1,000,000. A CatchUp gets one Chosen, and a Submit one proposal,
    /// one Elsewhere or one Reply.
    ///
    /// It fails where memory is refused.
    fn deliver_all(&mut self, alloc: Global) -> Result<(), AllocError>
        ensures taken { OnOk result ((failures : List FailureTerm) (n : ℕ) (names : List (List ℕ)) (done : List CommandTerm)
            → HasCome A.has_applied A.meaning failures n names done self.old.world self.old.delivered self.old.named → HasCome A.has_applied A.meaning failures n names (done ++ DeliverAll ∷ []) self.new.world self.new.delivered self.new.named) }
        ensures members { OnOk result (self.new.world.members ≡ self.old.world.members) }
    {
        while self.delivered < self.world.messages() as u64 {
            self.deliver_next(alloc)?;
        }
        self.named.clear(alloc);
        Ok(())
    }

    /// Delivers the next message after those delivered, if no line has named it. It fails where memory is refused.
    fn deliver_next(&mut self, alloc: Global) -> Result<(), AllocError>
        requires left { self.old.delivered < length self.old.world.sent }
        requires fits { self.old.delivered + 1 < 2 ^ 64 }
        ensures next { OnOk result (self.new.delivered ≡ self.old.delivered + 1) }
        ensures led { OnOk result ((failures : List FailureTerm) (n : ℕ) (names : List (List ℕ)) (done : List CommandTerm)
            → IsDelivering A.has_applied A.meaning failures n names done self.old.world self.old.delivered self.old.named → IsDelivering A.has_applied A.meaning failures n names done self.new.world self.new.delivered self.new.named) }
        ensures members { OnOk result (self.new.world.members ≡ self.old.world.members) }
    {
        let number = self.delivered + 1;
        if self.named.has(number) {
            self.delivered = number;
            return Ok(());
        }
        happen(alloc, &mut self.world, &Event::Deliver(number))?;
        self.delivered = number;
        Ok(())
    }
}

/// An event happens, and all nodes that run have applied all that they have learnt without a gap. It fails where memory is refused, also
/// to a node that was to apply what it learnt.
fn happen<A: Application + Drop>(
    alloc: Global,
    world: &mut World<ScriptRecords, A>,
    event: &Event,
) -> Result<(), AllocError>
    requires named { is_for world.old.members event.now ≡ true }
    ensures happened { OnOk result (HasHappened Stands IsKept (λ (s : Script). s.failures) fates_of A.has_applied (A.meaning world.old.names) (event_of event.now) world.old world.new) }
    ensures applied { OnOk result ((kept : ℕ → Record) (v : Whole) → Shows A.has_applied world.new kept v → AllApplied v) }
{
    world.happen(alloc, event)?;
    if world.all_applied() {
        Ok(())
    } else {
        Err(AllocError)
    }
}

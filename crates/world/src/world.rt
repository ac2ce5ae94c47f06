//! All members of a group in one program.

ghost use Rattle.std.specs.Prelude.{◌≡◌, ◌↔◌, ◌+◌, ◌++◌, ◌*◌, ◌≤◌, ℕ, List, [], Some, false, IfErr, IfOk, IsErrOf, OnErr, OnOk, length, map, true};
ghost use Rattle.std.specs.List.{list_all};
ghost use Rattle.std.specs.Option.{option_copied};
ghost use Rattle.ballots.specs.Ballot.{most_members};
ghost use Rattle.node.specs.Nodes.{Node as NodeTerm};
ghost use Rattle.world.specs.Alike.{AreAlike, StayAlike};
ghost use Rattle.paxos.specs.Application.{Application as Meaning};
ghost use Rattle.paxos.specs.Lists.{Has};
ghost use Rattle.paxos.specs.Records.{Record};
ghost use Rattle.paxos.specs.Smooth.{AllApplied};
ghost use Rattle.paxos.specs.World.{Event as Happens, World as Whole};
ghost use Rattle.world.specs.Placed.{AreOf, OneRefused};
ghost use Rattle.events.specs.Events.{event_of, is_for};
ghost use Rattle.world.specs.Reached.{HasHappened, IsUnmoved, Reached, ReachedSmoothly};
ghost use Rattle.world.specs.Runs.{Agrees, HasDone, IsStraight, IsUnwritten, LeadsSmoothly, LeadsTo, OneIsBehind, Ran, RanUntil, node_at, straight_run};
ghost use Rattle.world.specs.Shown.{AreKept, AreSeats, Shows, World as WorldTerm};
ghost use Rattle.world.specs.Tellings.{told_in};

use crate::event::are_for;
use crate::fault::WorldFault;
use crate::state::State;
use crate::told::Told;
use applications::Application;
use ballots::{Members, Request};
use document_names::Names;
use events::Event;
use node::Node;
use records::{PlannedRecords, Records, RecordsFault};
use std::alloc::{AllocError, Global};
use std::marker::Model;

/// All members of a group, every message that was ever sent, and all that members were told to be chosen ("Paxos Made Simple",
/// section 2.1: messages can take arbitrarily long, can be duplicated, and can be lost; members may stop and restart).
///
/// Messages are numbered from 1 in the order in which they were sent, one number for each target, and by target where a message goes
/// to several. A request of a client is one too. Each can be delivered as often as the events say.
#[derive(Drop)]
pub struct World<R: Records + Drop, A: Application + Drop> {
    state: State<R, A>,
}

impl<R: Records + Drop, A: Application + Drop> Model for World<R, A> {
    ghost use Rattle.world.specs.Held.{IsHeld, shown};
    ghost use Rattle.world.specs.Shown.{World as WorldTerm};

    ghost Value = { WorldTerm R A };

    ghost view = { λ x. shown x.state };

    ghost invariant = { λ x. IsHeld x.state };
}

impl<R: Records + Drop, A: Application + Drop> World<R, A> {
    /// Nodes that never did anything, over documents of these names, each of which starts from its store.
    ///
    /// There is one store a member, in order, and nobody has written it. It fails where memory is refused, or where a store fails.
    pub fn new(
        alloc: Global,
        members: Members,
        names: &Names,
        stores: Vec<R>,
    ) -> Result<World<R, A>, RecordsFault>
        requires many { length stores.items ≡ members }
        requires unwritten { (r : R) → Has stores.items r → IsUnwritten R.stands R.is_kept r }
        ensures members { IfOk result (λ w. w.members ≡ members) }
        ensures names { IfOk result (λ w. w.names ≡ names.now) }
        ensures reached { IfOk result (λ w. AreKept R.is_kept w → Reached R.stands A.has_applied (A.meaning names.now) w []) }
        ensures smoothly { IfOk result (λ w. AreKept R.is_kept w → ReachedSmoothly R.stands A.has_applied (A.meaning names.now) w []) }
        ensures stores { IfOk result (λ w. AreOf R.fates w.seats stores.items) }
        ensures refused { IsErrOf result RecordsFault.Store → OneRefused R.stands R.is_kept R.failed R.fates stores.items }
    {
        Ok(World {
            state: State::begin(alloc, members, names, stores)?,
        })
    }

    /// How many members there are.
    pub fn members(&self) -> Members
        ensures count { result ≡ self.now.members }
        ensures seats { length self.now.seats ≡ self.now.members }
    {
        self.state.members
    }

    /// Makes the straight run of a world in which nothing has happened yet, and answers its number of deliveries: n² + 3n + 1 for n
    /// members. The member begins, all is delivered, the request is submitted to it, and all is delivered. Each member has been told the
    /// request at position 1 then, runs, and has applied it.
    ///
    /// Faults: memory was refused, after that many events, to the next one or to a node that was to apply what it learnt in the last one; there is
    /// no such member, and nothing has happened; a store failed, in the last event that happened.
    pub fn straight(
        &mut self,
        alloc: Global,
        member: u8,
        request: Request,
    ) -> Result<u64, WorldFault>
        ensures ran { OnOk result (Ran R.stands R.is_kept R.failed R.fates A.has_applied (A.meaning self.old.names) (straight_run self.old.members member request) self.old self.new) }
        ensures ran_until { IfErr result (RanUntil R.stands R.is_kept R.failed R.fates A.has_applied (A.meaning self.old.names) (straight_run self.old.members member request) self.old self.new) }
        ensures done { OnOk result (LeadsSmoothly R.stands R.is_kept A.has_applied (A.meaning self.old.names) self.old self.new (straight_run self.old.members member request)) }
        ensures deliveries { IfOk result (λ deliveries. deliveries ≡ self.old.members * self.old.members + 3 * self.old.members + 1) }
        ensures straight { IfOk result (λ deliveries. AreKept R.is_kept self.new → ReachedSmoothly R.stands A.has_applied (A.meaning self.old.names) self.old [] → IsStraight A.has_applied self.new request deliveries) }
        ensures refused { IfErr result (λ fault. HasDone R.stands R.is_kept A.has_applied (A.meaning self.old.names) self.old self.new (straight_run self.old.members member request) fault) }
        ensures member { IsErrOf result WorldFault.Member → 1 ≤ member → member ≤ self.old.members → ⊥ }
    {
        if member == 0 || member > self.state.members.count() {
            return Err(WorldFault::Member);
        }
        self.state.straight(alloc, member, &request)?;
        let members = u64::from(self.state.members.count());
        Ok(members * members + 3 * members + 1)
    }

    /// How many messages were sent, one for each target.
    pub fn messages(&self) -> usize
        ensures { result ≡ length self.now.sent }
    {
        self.state.mail.count()
    }

    /// All that members were told, in order: the position and the value, which is chosen there. No two values were told for a position.
    ///
    /// Whatever events have led to this world, of deliveries, losses, repeats and reorderings, ticks, requests, stops (inside a write too) and
    /// starts: two nodes that have applied as many positions have applied the same values, each chosen at its position. So they hold equal
    /// stores and answer every question alike, as the application's meaning says for these values.
    pub fn told(&self) -> &[Told]
        ensures told { told_in result.now ≡ self.now.told }
        ensures agreed { (app : Meaning) (events : List Happens) → Reached R.stands A.has_applied app self.now events → Agrees A.has_applied app self.now events }
        ensures alike { (events : List Happens) → Reached R.stands A.has_applied (A.meaning self.now.names) self.now events → (k m : ℕ) (x y : NodeTerm R A)
            → node_at self.now.seats k ≡ Some x → node_at self.now.seats m ≡ Some y → AreAlike A.has_applied (A.meaning self.now.names) self.now events x y }
    {
        &self.state.told
    }

    /// There are at most 63 members, and each node sits at its place. It does nothing.
    pub fn facts(&self)
        ensures few { self.now.members ≤ most_members }
        ensures seats { AreSeats self.now }
    {
        let _told = &self.state.told;
    }

    /// What this world has to do with an earlier one of the same run, where these events have happened between them, and where then memory was refused to
    /// the next one. It does nothing.
    ///
    /// So all that is said of one world is said of any two moments: no two values were told for a position, now or earlier; two nodes that have applied as
    /// many positions, the one then and the other now, have applied the same values, each chosen at its position.
    pub fn follows(&self)
        ensures kept { (earlier : WorldTerm R A) (app : Meaning) (events : List Happens) → Ran R.stands R.is_kept R.failed R.fates A.has_applied app events earlier self.now
            → AreKept R.is_kept self.now → AreKept R.is_kept earlier }
        ensures ran { (earlier : WorldTerm R A) (before events : List Happens) → earlier.members ≤ most_members → AreSeats earlier → Reached R.stands A.has_applied (A.meaning earlier.names) earlier before
            → Ran R.stands R.is_kept R.failed R.fates A.has_applied (A.meaning earlier.names) events earlier self.now
            → AreKept R.is_kept self.now → StayAlike R.stands A.has_applied (A.meaning earlier.names) earlier self.now (before ++ events) }
        ensures rested { (earlier last : WorldTerm R A) (before events : List Happens) → earlier.members ≤ most_members → AreSeats earlier → Reached R.stands A.has_applied (A.meaning earlier.names) earlier before
            → Ran R.stands R.is_kept R.failed R.fates A.has_applied (A.meaning earlier.names) events earlier last
            → IsUnmoved R.stands R.is_kept A.has_applied last self.now
            → AreKept R.is_kept self.now → StayAlike R.stands A.has_applied (A.meaning earlier.names) earlier self.now (before ++ events) }
    {
        let _told = &self.state.told;
    }

    /// The node of a number while it runs.
    pub fn node(&self, member: u8) -> Option<&Node<R, A>>
        ensures { option_copied result ≡ node_at self.now.seats member }
    {
        if member == 0 || member > self.state.members.count() {
            return None;
        }
        self.state.seats[(member - 1) as usize].node.as_ref()
    }

    /// Whether each node that runs has applied all that it has learnt without a gap: then so have the members of each world of the protocol
    /// that is shown. One has not where memory was refused to it.
    pub fn all_applied(&self) -> bool
        ensures all { result ≡ true → (kept : ℕ → Record) (v : Whole) → Shows A.has_applied self.now kept v → AllApplied v }
        ensures one { result ≡ false → OneIsBehind A.has_applied self.now }
    {
        self.state.all_applied()
    }
}

impl<R: PlannedRecords + Drop, A: Application + Drop> World<R, A> {
    /// An event happens. The member that it names, if it names one, is one of the world's.
    ///
    /// Nothing happens by a delivery to a client, an unknown number, any event but a start and a request at a stopped member, the start
    /// of a running one or where its store fails, and a ballot that cannot begin.
    ///
    /// Where the member writes, its store does what was known of it before, and fails only if its count of failures grows.
    ///
    /// It fails where memory is refused, and then nothing that shows has changed.
    pub fn happen(&mut self, alloc: Global, event: &Event) -> Result<(), AllocError>
        requires named { is_for self.old.members event.now ≡ true }
        ensures happened { OnOk result (HasHappened R.stands R.is_kept R.failed R.fates A.has_applied (A.meaning self.old.names) (event_of event.now) self.old self.new) }
        ensures refused { OnErr result (IsUnmoved R.stands R.is_kept A.has_applied self.old self.new) }
    {
        self.state.happen(alloc, event)
    }

    /// All events happen, in order, each as [`World::happen`] says. A store that fails stops its member, and a node to which memory is refused
    /// applies later what it has learnt; the events go on.
    ///
    /// Faults: memory was refused, after that many events, and the next one has changed nothing; an event names no member that there is,
    /// and none has happened. A store's failure is none of them.
    pub fn run(&mut self, alloc: Global, events: &[Event]) -> Result<(), WorldFault>
        ensures ran { OnOk result (Ran R.stands R.is_kept R.failed R.fates A.has_applied (A.meaning self.old.names) (map event_of events.now) self.old self.new) }
        ensures ran_until { IfErr result (RanUntil R.stands R.is_kept R.failed R.fates A.has_applied (A.meaning self.old.names) (map event_of events.now) self.old self.new) }
        ensures done { OnOk result (LeadsTo R.stands R.is_kept A.has_applied (A.meaning self.old.names) self.old self.new (map event_of events.now)) }
        ensures refused { IfErr result (λ fault. HasDone R.stands R.is_kept A.has_applied (A.meaning self.old.names) self.old self.new (map event_of events.now) fault) }
        ensures member { IsErrOf result WorldFault.Member ↔ (list_all (is_for self.old.members) events.now ≡ false) }
        ensures store { IsErrOf result WorldFault.Store → ⊥ }
    {
        if !are_for(self.state.members, events) {
            return Err(WorldFault::Member);
        }
        self.state.run(alloc, events)
    }
}

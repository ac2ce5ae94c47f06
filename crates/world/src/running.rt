//! How a world begins, and how events happen in order.

ghost use Rattle.std.specs.Prelude.{◌≡◌, ◌≤◌, [], IfErr, IfOk, IsErrOf, OnOk, false, is_some, map, length, true};
ghost use Rattle.std.specs.List.{list_all};
ghost use Rattle.paxos.specs.Lists.{Has};
ghost use Rattle.node.specs.Nodes.{records_fault};
ghost use Rattle.world.specs.Held.{IsHeld, shown};
ghost use Rattle.world.specs.Placed.{AreOf, ArePlaced, IsOf, IsPlaced, OneRefused};
ghost use Rattle.acceptor.specs.Drafts.{IsRefused};
ghost use Rattle.events.specs.Events.{event_of, is_for};
ghost use Rattle.world.specs.Reached.{Reached, ReachedSmoothly};
ghost use Rattle.world.specs.Runs.{AllRun, AreUpToDate, HasDone, IsUnwritten, LeadsTo, OneIsBehind, Ran, RanUntil};
ghost use Rattle.world.specs.Shown.{AreKept};
ghost use Rattle.ballots.specs.Ballot.{most_members};

use crate::fault::WorldFault;
use crate::mail::Mail;
use crate::seat::Seat;
use crate::state::State;
use applications::Application;
use ballots::{Members, Setup};
use document_names::Names;
use events::Event;
use node::{Node, OpenFault};
use records::{PlannedRecords, Records, RecordsFault};
use std::alloc::Global;

/// The number of a world's group.
const GROUP: u32 = 0;

/// Why a world does not begin over a store that is refused.
fn records_fault(fault: OpenFault) -> RecordsFault
    ensures { result ≡ records_fault fault }
{
    match fault {
        OpenFault::Memory => RecordsFault::Memory,
        OpenFault::Store => RecordsFault::Store,
    }
}

/// A node at its seat, which starts from the records of a store.
///
/// It fails where memory is refused, or where the store fails.
fn place<R: Records + Drop, A: Application + Drop>(
    alloc: Global,
    group: u32,
    members: Members,
    number: u8,
    names: &Names,
    records: R,
) -> Result<Seat<R, A>, RecordsFault>
    requires least { 1 ≤ number }
    requires most { number ≤ members }
    requires unwritten { IsUnwritten R.stands R.is_kept records }
    ensures placed { IfOk result (λ s. IsPlaced R.is_kept A.has_applied (record { group = group; member = number; members = members; names = names.now }) s) }
    ensures store { IfOk result (λ s. IsOf R.fates s records) }
    ensures refused { IsErrOf result RecordsFault.Store → (left : R) × IsRefused R.stands R.is_kept R.failed R.fates records left RecordsFault.Store }
{
    let Ok(setup) = Setup::new(alloc, group, number, members.count(), names) else {
        return Err(RecordsFault::Memory);
    };
    match Node::open(alloc, setup, records) {
        Ok((node, _is_short)) => Ok(Seat {
            node: Some(node),
            left: None,
        }),
        Err((fault, _setup, _records)) => Err(records_fault(fault)),
    }
}

/// The nodes at their seats, each of which starts from the records of its store.
///
/// It fails where memory is refused, or where one of the stores fails.
fn place_all<R: Records + Drop, A: Application + Drop>(
    alloc: Global,
    group: u32,
    members: Members,
    names: &Names,
    stores: Vec<R>,
) -> Result<Vec<Seat<R, A>>, RecordsFault>
    requires few { length stores.items ≤ members }
    requires most { members ≤ most_members }
    requires unwritten { (r : R) → Has stores.items r → IsUnwritten R.stands R.is_kept r }
    ensures placed { IfOk result (λ seats. ArePlaced R.is_kept A.has_applied group members names.now seats.items) }
    ensures many { IfOk result (λ seats. length seats.items ≡ length stores.items) }
    ensures stores { IfOk result (λ seats. AreOf R.fates seats.items stores.items) }
    ensures refused { IsErrOf result RecordsFault.Store → OneRefused R.stands R.is_kept R.failed R.fates stores.items }
{
    let mut seats = Vec::new(alloc);
    let Ok(()) = seats.reserve(stores.len()) else {
        return Err(RecordsFault::Memory);
    };
    let mut number = 0;
    for records in stores {
        number += 1;
        seats.push_reserved(place(alloc, group, members, number, names, records)?);
    }
    Ok(seats)
}

impl<R: Records + Drop, A: Application + Drop> State<R, A> {
    /// Nodes that never did anything.
    ///
    /// It fails where memory is refused, or where a store fails.
    pub(super) fn begin(
        alloc: Global,
        members: Members,
        names: &Names,
        stores: Vec<R>,
    ) -> Result<State<R, A>, RecordsFault>
        requires many { length stores.items ≡ members }
        requires unwritten { (r : R) → Has stores.items r → IsUnwritten R.stands R.is_kept r }
        ensures held { IfOk result (λ x. IsHeld x) }
        ensures members { IfOk result (λ x. x.members ≡ members) }
        ensures names { IfOk result (λ x. x.names ≡ names.now) }
        ensures reached { IfOk result (λ x. AreKept R.is_kept (shown x) → Reached R.stands A.has_applied (A.meaning names.now) (shown x) []) }
        ensures smoothly { IfOk result (λ x. AreKept R.is_kept (shown x) → ReachedSmoothly R.stands A.has_applied (A.meaning names.now) (shown x) []) }
        ensures run { IfOk result (λ x. AllRun (shown x)) }
        ensures stores { IfOk result (λ x. AreOf R.fates x.seats.items stores.items) }
        ensures refused { IsErrOf result RecordsFault.Store → OneRefused R.stands R.is_kept R.failed R.fates stores.items }
    {
        // Members are at most 63, as their count says.
        let _count = members.count();
        let Ok(own_names) = Names::new(alloc, names.as_slice()) else {
            return Err(RecordsFault::Memory);
        };
        let seats = place_all(alloc, GROUP, members, names, stores)?;
        Ok(State {
            members,
            group: GROUP,
            names: own_names,
            seats,
            mail: Mail::new(alloc),
            told: Vec::new(alloc),
        })
    }

    /// Whether each member runs.
    pub(super) fn all_run(&self) -> bool
        ensures { result ≡ list_all (λ s. is_some s.node) self.now.seats.items }
    {
        for seat in &self.seats {
            if seat.node.is_none() {
                return false;
            }
        }
        true
    }

    /// Whether each node that runs has applied all that it has learnt without a gap.
    pub(super) fn all_applied(&self) -> bool
        ensures all { result ≡ true → AreUpToDate A.has_applied (shown self.now) }
        ensures one { result ≡ false → OneIsBehind A.has_applied (shown self.now) }
    {
        for seat in &self.seats {
            if !seat.is_up_to_date() {
                return false;
            }
        }
        true
    }
}

impl<R: PlannedRecords + Drop, A: Application + Drop> State<R, A> {
    /// All events happen in order. Each member that they name is one of the world's.
    ///
    /// It fails where memory is refused: with how many events have happened.
    pub(super) fn run(&mut self, alloc: Global, events: &[Event]) -> Result<(), WorldFault>
        requires held { IsHeld self.old }
        requires named { list_all (is_for self.old.members) events.now ≡ true }
        ensures held { IsHeld self.new }
        ensures ran { OnOk result (Ran R.stands R.is_kept R.failed R.fates A.has_applied (A.meaning self.old.names) (map event_of events.now) (shown self.old) (shown self.new)) }
        ensures ran_until { IfErr result (RanUntil R.stands R.is_kept R.failed R.fates A.has_applied (A.meaning self.old.names) (map event_of events.now) (shown self.old) (shown self.new)) }
        ensures done { OnOk result (LeadsTo R.stands R.is_kept A.has_applied (A.meaning self.old.names) (shown self.old) (shown self.new) (map event_of events.now)) }
        ensures refused { IfErr result (λ fault. HasDone R.stands R.is_kept A.has_applied (A.meaning self.old.names) (shown self.old) (shown self.new) (map event_of events.now) fault) }
        ensures member { IsErrOf result WorldFault.Member → ⊥ }
        ensures store { IsErrOf result WorldFault.Store → ⊥ }
    {
        for before in 0..events.len() {
            let Ok(()) = self.happen(alloc, &events[before]) else {
                return Err(WorldFault::Memory(before as u64));
            };
        }
        Ok(())
    }
}

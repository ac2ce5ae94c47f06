//! One member of a world: a node while it runs, or what it left when it stopped.

ghost use Rattle.std.specs.Prelude.{◌≡◌, ℕ, false, [], true, None, Some, Err, Ok, IfOk, OnOk, OnErr, IfSome, IsSome};
ghost use Rattle.ballots.specs.Terms.{Setup as SetupTerm};
ghost use Rattle.member.specs.Drafts.{IsReady};
ghost use Rattle.member.specs.Steps.{Input as InputTerm, Hears, ticked};
ghost use Rattle.node.specs.Nodes.{IsDrafted, Node as NodeTerm};
ghost use Rattle.node.specs.declared.fault.NodeFault.{NodeFault as NodeFaultTerm};
ghost use Rattle.world.specs.Posts.{packet_in};
ghost use Rattle.world.specs.Seats.{Did, IsAny, IsBehind, IsFit, IsPlanned, IsSeat, IsUpToDate, MayStart, MayStay, MayStep, MayStop, MayStopIn, Moves, Skips, sent_by, store_in, told_by};

use applications::Application;
use ballots::Setup;
use member::Tick;
use node::{Draft, Node, NodeFault, OpenFault, Outbox};
use records::{PlannedRecords, Records};
use std::alloc::{AllocError, Global};

/// A node while it runs, or its setup and its records while it is stopped.
#[derive(Drop)]
pub(super) struct Seat<R: Records + Drop, A: Application + Drop> {
    pub(super) node: Option<Node<R, A>>,
    pub(super) left: Option<(Setup, R)>,
}

/// What was drafted, if anything.
///
/// It fails where memory was refused. Nothing comes of what a node refuses otherwise.
fn unless_refused(drafted: Result<Draft, NodeFault>) -> Result<Option<Draft>, AllocError>
    ensures some { IfOk result (λ o. IfSome o (λ d. drafted ≡ Ok d)) }
    ensures none { IfOk result (λ o. o ≡ None → (fault : NodeFaultTerm) × (drafted ≡ Err fault) × (fault ≡ NodeFault.Memory → ⊥)) }
{
    match drafted {
        Ok(draft) => Ok(Some(draft)),
        Err(NodeFault::Memory) => Err(AllocError),
        Err(_) => Ok(None),
    }
}

impl<R: Records + Drop, A: Application + Drop> Seat<R, A> {
    /// What comes of received bytes, if anything. Nothing that shows has changed.
    ///
    /// It fails where memory is refused. Nothing comes of bytes to a stopped member, and of those that are no message to it.
    pub(super) fn hear(&mut self, alloc: Global, bytes: &[u8]) -> Result<Option<Draft>, AllocError>
        requires runs { (x : NodeTerm R A) → self.old.node ≡ Some x → x.member.acceptor.is_stopped ≡ false }
        ensures stays { Moves R.stands R.is_kept A.has_applied IsAny MayStay self.old self.new [] [] }
        ensures store { store_in self.new ≡ store_in self.old }
        ensures seat { (t : SetupTerm) → IsSeat t self.old → IsSeat t self.new }
        ensures drafted { IfOk result (λ o. IfSome o (λ d. (t : SetupTerm) → IsSeat t self.old → IsPlanned A.has_applied (A.meaning t.names) self.new (Hears (packet_in t.group (bytes.now, t.member))) d)) }
        ensures skipped { IfOk result (λ o. o ≡ None → (t : SetupTerm) → IsSeat t self.old → Skips A.has_applied self.new (Hears (packet_in t.group (bytes.now, t.member)))) }
    {
        let Some(node) = self.node.as_mut() else {
            return Ok(None);
        };
        unless_refused(node.draft(alloc, bytes))
    }

    /// What comes of a tick, if anything. Nothing that shows has changed.
    ///
    /// It fails where memory is refused. Nothing comes of a tick to a stopped member, and of a ballot where positions or rounds are spent.
    pub(super) fn tick(&mut self, alloc: Global, tick: Tick) -> Result<Option<Draft>, AllocError>
        requires runs { (x : NodeTerm R A) → self.old.node ≡ Some x → x.member.acceptor.is_stopped ≡ false }
        ensures stays { Moves R.stands R.is_kept A.has_applied IsAny MayStay self.old self.new [] [] }
        ensures store { store_in self.new ≡ store_in self.old }
        ensures seat { (t : SetupTerm) → IsSeat t self.old → IsSeat t self.new }
        ensures drafted { IfOk result (λ o. IfSome o (λ d. (t : SetupTerm) → IsSeat t self.old → IsPlanned A.has_applied (A.meaning t.names) self.new (ticked tick) d)) }
        ensures skipped { IfOk result (λ o. o ≡ None → (t : SetupTerm) → IsSeat t self.old → Skips A.has_applied self.new (ticked tick)) }
    {
        let Some(node) = self.node.as_mut() else {
            return Ok(None);
        };
        unless_refused(node.draft_tick(alloc, tick))
    }

    /// Makes what was drafted. Where the store fails the member stops, and nothing is sent or told.
    ///
    /// It fails where memory is refused, and then nothing that shows has changed.
    pub(super) fn commit(
        &mut self,
        alloc: Global,
        draft: Draft,
    ) -> Result<Option<Outbox>, AllocError>
        requires there { IsSome self.old.node }
        requires ready { (x : NodeTerm R A) → self.old.node ≡ Some x → IsReady x.member draft.member × (x.member.acceptor.is_stopped ≡ false) }
        ensures moved { IfOk result (λ o. (t : SetupTerm) (i : InputTerm) → IsSeat t self.old
            → ((x : NodeTerm R A) → self.old.node ≡ Some x → IsDrafted A.has_applied (A.meaning t.names) i x draft)
            → Moves R.stands R.is_kept A.has_applied IsAny (MayStep (Did R.failed R.fates false (store_in self.old) (store_in self.new)) (A.meaning t.names) t.members t.member i) self.old self.new (sent_by t.group t.members t.member o) (told_by o)) }
        ensures says { IfOk result (λ o. IfSome o (λ outbox. (outbox.sent.items ≡ draft.sent.items) × (outbox.tells.items ≡ draft.member.tells.items))) }
        ensures refused { OnErr result (Moves R.stands R.is_kept A.has_applied IsAny MayStay self.old self.new [] []) }
        ensures seat { (t : SetupTerm) → IsSeat t self.old → IsSeat t self.new }
    {
        let Some(node) = self.node.as_mut() else {
            return Ok(None);
        };
        match node.commit(alloc, draft) {
            Ok(outbox) => Ok(Some(outbox)),
            Err(NodeFault::Store) => {
                self.empty();
                Ok(None)
            }
            Err(NodeFault::Memory) => Err(AllocError),
            // Nothing else comes of what was drafted.
            Err(NodeFault::Wire(_) | NodeFault::Stranger | NodeFault::Stopped | NodeFault::Spent) =>
                Err(AllocError),
        }
    }

    /// Stops a member, where one runs.
    pub(super) fn stop(&mut self)
        requires runs { (x : NodeTerm R A) → self.old.node ≡ Some x → x.member.acceptor.is_stopped ≡ false }
        ensures stopped { IsSome self.old.node → Moves R.stands R.is_kept A.has_applied IsAny MayStop self.old self.new [] [] }
        ensures none { self.old.node ≡ None → self.new ≡ self.old }
        ensures empty { self.new.node ≡ None }
        ensures store { store_in self.new ≡ store_in self.old }
        ensures seat { (t : SetupTerm) → IsSeat t self.old → IsSeat t self.new }
    {
        self.empty();
    }

    /// Starts a member from its records, where it is stopped and its store does not fail. It applies what they keep as learnt, as far as memory
    /// is found.
    ///
    /// It fails where memory is refused, and then the member is stopped as before.
    pub(super) fn start(&mut self, alloc: Global) -> Result<(), AllocError>
        ensures moved { OnOk result ((t : SetupTerm) → IsSeat t self.old → self.old.node ≡ None
            → Moves R.stands R.is_kept A.has_applied (IsFit t.members) (MayStart (Did R.failed R.fates false (store_in self.old) (store_in self.new)) t.members t.member) self.old self.new [] []) }
        ensures refused { OnErr result (Moves R.stands R.is_kept A.has_applied IsAny MayStay self.old self.new [] []) }
        ensures runs { IsSome self.old.node → self.new ≡ self.old }
        ensures seat { (t : SetupTerm) → IsSeat t self.old → IsSeat t self.new }
    {
        if self.node.is_some() {
            return Ok(());
        }
        let Some((setup, records)) = self.left.take() else {
            return Ok(());
        };
        match Node::open(alloc, setup, records) {
            Ok((node, _is_short)) => {
                self.node = Some(node);
                Ok(())
            }
            Err((fault, setup, records)) => {
                self.left = Some((setup, records));
                match fault {
                    OpenFault::Memory => Err(AllocError),
                    // That is an event as any other: the member stays stopped.
                    OpenFault::Store => Ok(()),
                }
            }
        }
    }

    /// Whether the node that runs here, if one does, has applied all that it has learnt without a gap.
    pub(super) fn is_up_to_date(&self) -> bool
        ensures all { result ≡ true → IsUpToDate A.has_applied self.now }
        ensures one { result ≡ false → IsBehind A.has_applied self.now }
    {
        match &self.node {
            Some(node) => node.applied() == node.prefix(),
            None => true,
        }
    }

    /// Takes a node from its seat, and leaves what opens it again there.
    fn empty(&mut self)
        ensures left { (x : NodeTerm R A) → self.old.node ≡ Some x → (self.new.node ≡ None) × (self.new.left ≡ Some (x.setup, x.member.acceptor.records)) }
        ensures stands { (x : NodeTerm R A) → self.old.node ≡ Some x → x.member.acceptor.is_stopped ≡ false → R.is_kept x.member.acceptor.records
            → R.stands x.member.acceptor.records x.member.acceptor.kept x.member.acceptor.kept }
        ensures none { self.old.node ≡ None → self.new ≡ self.old }
        ensures empty { self.new.node ≡ None }
        ensures store { store_in self.new ≡ store_in self.old }
        ensures seat { (t : SetupTerm) → IsSeat t self.old → IsSeat t self.new }
    {
        if let Some(node) = self.node.take() {
            self.left = Some(node.into_parts());
        }
    }
}

impl<R: PlannedRecords + Drop, A: Application + Drop> Seat<R, A> {
    /// Makes the write of what was drafted, and stops.
    ///
    /// It fails where memory is refused, and then nothing that shows has changed.
    pub(super) fn stop_in(&mut self, alloc: Global, draft: Draft) -> Result<(), AllocError>
        requires there { IsSome self.old.node }
        requires ready { (x : NodeTerm R A) → self.old.node ≡ Some x → IsReady x.member draft.member × (x.member.acceptor.is_stopped ≡ false) }
        ensures moved { OnOk result ((t : SetupTerm) (i : InputTerm) → IsSeat t self.old
            → ((x : NodeTerm R A) → self.old.node ≡ Some x → IsDrafted A.has_applied (A.meaning t.names) i x draft)
            → Moves R.stands R.is_kept A.has_applied IsAny (MayStopIn (Did R.failed R.fates true (store_in self.old) (store_in self.new)) (A.meaning t.names) t.members t.member i true) self.old self.new [] []) }
        ensures refused { OnErr result (Moves R.stands R.is_kept A.has_applied IsAny MayStay self.old self.new [] []) }
        ensures seat { (t : SetupTerm) → IsSeat t self.old → IsSeat t self.new }
    {
        let Some(node) = self.node.as_mut() else {
            return Ok(());
        };
        match node.cut(alloc, draft) {
            Ok(()) => {
                self.empty();
                Ok(())
            }
            Err(NodeFault::Store) => {
                self.empty();
                Ok(())
            }
            Err(NodeFault::Memory) => Err(AllocError),
            // Nothing else comes of what was drafted.
            Err(NodeFault::Wire(_) | NodeFault::Stranger | NodeFault::Stopped | NodeFault::Spent) =>
                Err(AllocError),
        }
    }
}

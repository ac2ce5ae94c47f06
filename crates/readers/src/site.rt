//! A site.

ghost use Rattle.std.specs.Prelude.{◌≡◌, ◌↔◌, [], IfOk, IfErr, OnErr, IsErrOf, MatchResult, true, false, length};
ghost use Rattle.member.specs.Steps.{Input as InputTerm, ticked};
ghost use Rattle.messages.specs.Reading.{Fails, Gives, datagram_read};
ghost use Rattle.messages.specs.Spelling.{Datagram, spelling};
ghost use Rattle.messages.specs.declared.fault.WireFault.{WireFault as WireFaultTerm};
ghost use Rattle.node.specs.Nodes.{HasFailed, IsOfTick, IsStrange, IsUnchanged, RunsAs};
ghost use Rattle.paxos.specs.Knowledge.{learnt as learnt_at, news, prefix};
ghost use Rattle.paxos.specs.Step.{Running, may_begin};
ghost use Rattle.published.specs.Stores.{Keeps, Publishes, handed_on};
ghost use Rattle.readers.specs.Handing.{Turns};
ghost use Rattle.readers.specs.Inputs.{CannotBegin, Comes, IsNoMessage, IsOfStranger, Spells};
ghost use Rattle.std.specs.Option.{option_copied};

use super::handing::hand_over;
use super::input::Input;
use applications::Application;
use ballots::{Setup, Value};
use crossbeam_utils::rule::Protocol;
use member::Tick;
use node::{Node, NodeFault, Outbox};
use published::{Board, Known, Opening, Published, Replica, StateCopy, StoreOver};
use records::Records;
use sight::Naming;
use std::alloc::{AllocError, Global};
use std::marker::Model;
use std::sync::Wait;

/// A node, and a store in which readers see what it has applied. Contracts see it as these two.
///
/// It does not end by itself: take it apart, and end its store by [`StoreOver::close`]. A function that took it apart would be proved, and no caller
/// of it, since the checks don't cover one yet that takes by value what holds a node beside such a store.
pub struct SiteOver<
    R: Records + Drop,
    A: Application + Drop,
    C: Replica<J> + Drop,
    J: Naming,
    P: Protocol<C, Known>,
> {
    /// The node.
    pub node: Node<R, A>,
    /// The store in which readers see what it has applied.
    pub store: StoreOver<C, J, P>,
}

/// A site of an application's state.
pub type Site<R, A, J> = SiteOver<R, A, StateCopy<A, J>, J, Published>;

impl<
    R: Records + Drop,
    A: Application + Drop,
    C: Replica<J> + Drop,
    J: Naming,
    P: Protocol<C, Known>,
> Model for SiteOver<R, A, C, J, P> {
    ghost use Rattle.readers.specs.Handing.{Site as SiteTerm};

    ghost Value = { SiteTerm R A };

    ghost view = { λ s. record { node = s.node; store = s.store } };
}

/// An outbox, which is short too where not all was handed on.
fn told(outbox: Outbox, is_all: bool) -> Outbox
    ensures kept { (result.sent ≡ outbox.sent) × (result.tells ≡ outbox.tells) }
    ensures all { is_all ≡ true → result.is_short ≡ outbox.is_short }
    ensures cut { is_all ≡ false → result.is_short ≡ true }
{
    if is_all {
        return outbox;
    }
    outbox.cut_short()
}

impl<R: Records + Drop, A: Application + Drop, J: Naming + Opening> SiteOver<
    R,
    A,
    StateCopy<A, J>,
    J,
    Published,
> {
    /// Takes the step of received bytes, as [`Node::receive`] does, and hands on to readers what was applied: it is pending then.
    ///
    /// Its outbox is short too where memory was refused for handing on; the next call goes on.
    ///
    /// Faults: those of [`Node::receive`]; nothing is handed on then.
    fn receive(&mut self, alloc: Global, bytes: &[u8]) -> Result<Outbox, NodeFault>
        ensures turned { IfOk result (λ o. (i : InputTerm) × Spells self.old.node.setup bytes.now i × Turns A.has_applied (A.meaning self.old.node.setup.names) i self.old self.new o) }
        ensures keeps { Keeps self.old.store self.new.store }
        ensures refused { OnErr result (self.new.store ≡ self.old.store) }
        ensures wire { (f : WireFaultTerm) → IsErrOf result (NodeFault.Wire f) → datagram_read bytes.now ≡ Fails f }
        ensures stranger { IsErrOf result NodeFault.Stranger → (d : Datagram) × (bytes.now ≡ spelling d) × (datagram_read bytes.now ≡ Gives d []) × IsStrange self.old.node.setup d }
        ensures stopped { IsErrOf result NodeFault.Stopped ↔ (self.old.node.member.acceptor.is_stopped ≡ true) }
        ensures failed { IsErrOf result NodeFault.Store → (i : InputTerm) × Spells self.old.node.setup bytes.now i × HasFailed R.stands R.is_kept R.failed A.has_applied (A.meaning self.old.node.setup.names) i self.old.node self.new.node }
        ensures spent { (u : Running) → RunsAs A.has_applied u self.old.node → IsErrOf result NodeFault.Spent → ⊥ }
        ensures unchanged { IfErr result (λ fault. (fault ≡ NodeFault.Store → ⊥) → IsUnchanged A.has_applied R.failed self.old.node self.new.node) }
        ensures setup { self.new.node.setup ≡ self.old.node.setup }
    {
        let outbox = match self.node.receive(alloc, bytes) {
            Ok(outbox) => outbox,
            Err(fault) => return Err(fault),
        };
        let is_all = hand_over(&self.node, &mut self.store);
        Ok(told(outbox, is_all))
    }

    /// Takes the step of a tick, as [`Node::tick`] does, and hands on to readers what was applied: it is pending then.
    ///
    /// Its outbox is short too where memory was refused for handing on; the next call goes on.
    ///
    /// Faults: those of [`Node::tick`]; nothing is handed on then.
    fn tick(&mut self, alloc: Global, tick: Tick) -> Result<Outbox, NodeFault>
        ensures turned { IfOk result (λ o. (i : InputTerm) × (i ≡ ticked tick) × Turns A.has_applied (A.meaning self.old.node.setup.names) i self.old self.new o) }
        ensures keeps { Keeps self.old.store self.new.store }
        ensures refused { OnErr result (self.new.store ≡ self.old.store) }
        ensures stopped { IsErrOf result NodeFault.Stopped ↔ (self.old.node.member.acceptor.is_stopped ≡ true) }
        ensures failed { IsErrOf result NodeFault.Store → HasFailed R.stands R.is_kept R.failed A.has_applied (A.meaning self.old.node.setup.names) (ticked tick) self.old.node self.new.node }
        ensures spent { (u : Running) → RunsAs A.has_applied u self.old.node → IsErrOf result NodeFault.Spent
            → (tick ≡ Tick.Begin) × (may_begin self.old.node.setup.members self.old.node.member.acceptor.kept u ≡ false) }
        ensures unchanged { IfErr result (λ fault. (fault ≡ NodeFault.Store → ⊥) → IsUnchanged A.has_applied R.failed self.old.node self.new.node) }
        ensures faults { IfErr result IsOfTick }
        ensures setup { self.new.node.setup ≡ self.old.node.setup }
    {
        let outbox = self.node.tick(alloc, tick)?;
        let is_all = hand_over(&self.node, &mut self.store);
        Ok(told(outbox, is_all))
    }

    /// Takes the step of an input, as its node does, and hands on to readers what was applied: it is pending then.
    ///
    /// Its outbox is short too where memory was refused for handing on; the next call goes on.
    ///
    /// Faults, each of which but the fourth changes nothing that shows: the bytes are no message (1); the message is of another group, from or
    /// about a member that there is not, or of a kind that goes to clients (2); memory was refused (3); the store failed, and the node has
    /// stopped (4); it had stopped before (5); positions or rounds are spent, so that no ballot begins (6).
    pub fn turn(&mut self, alloc: Global, input: Input<'_>) -> Result<Outbox, NodeFault>
        ensures turned { IfOk result (λ o. (i : InputTerm) × Comes self.old.node.setup input.entry i × Turns A.has_applied (A.meaning self.old.node.setup.names) i self.old self.new o) }
        ensures keeps { Keeps self.old.store self.new.store }
        ensures refused { OnErr result (self.new.store ≡ self.old.store) }
        ensures wire { (f : WireFaultTerm) → IsErrOf result (NodeFault.Wire f) → IsNoMessage input.entry f }
        ensures stranger { IsErrOf result NodeFault.Stranger → IsOfStranger self.old.node.setup input.entry }
        ensures stopped { IsErrOf result NodeFault.Stopped ↔ (self.old.node.member.acceptor.is_stopped ≡ true) }
        ensures failed { IsErrOf result NodeFault.Store → (i : InputTerm) × Comes self.old.node.setup input.entry i × HasFailed R.stands R.is_kept R.failed A.has_applied (A.meaning self.old.node.setup.names) i self.old.node self.new.node }
        ensures spent { (u : Running) → RunsAs A.has_applied u self.old.node → IsErrOf result NodeFault.Spent → CannotBegin self.old.node u input.entry }
        ensures unchanged { IfErr result (λ fault. (fault ≡ NodeFault.Store → ⊥) → IsUnchanged A.has_applied R.failed self.old.node self.new.node) }
        ensures setup { self.new.node.setup ≡ self.old.node.setup }
    {
        match input {
            Input::Bytes(bytes) => self.receive(alloc, bytes),
            Input::Tick(tick) => self.tick(alloc, tick),
        }
    }

    /// Shows readers all that is pending, at once, and gives how many values are published then. It waits for those that still read what was shown
    /// before the last time.
    ///
    /// It fails where memory is refused; then nothing has changed, and the next call goes on.
    pub fn publish<W: Wait>(&mut self, rt: &W) -> Result<u64, AllocError>
        ensures shown { MatchResult result (λ position. Publishes self.old.store self.new.store × (position ≡ length self.new.store.published)) (λ _. self.new.store ≡ self.old.store) }
        ensures handed { handed_on self.new.store ≡ handed_on self.old.store }
        ensures node { self.new.node ≡ self.old.node }
    {
        self.store.publish(rt)?;
        Ok(self.store.published())
    }

    /// A board of what is published.
    pub fn board(&self) -> Board<J>
        ensures { result ≡ self.now.store.published }
    {
        self.store.board()
    }

    /// How many values are published.
    pub fn published(&self) -> u64
        ensures { result ≡ length self.now.store.published }
    {
        self.store.published()
    }

    /// What its node was told when it was set up.
    pub fn setup(&self) -> &Setup
        ensures { result.now ≡ self.now.node.setup }
    {
        self.node.setup()
    }

    /// How many positions its node has applied, from 1 on.
    pub fn applied(&self) -> u32
        ensures { (u : Running) → RunsAs A.has_applied u self.now.node → result ≡ u.applied }
    {
        self.node.applied()
    }

    /// How many positions its node has learnt from 1 on without a gap.
    pub fn prefix(&self) -> u32
        ensures { (u : Running) → RunsAs A.has_applied u self.now.node → result ≡ prefix self.now.node.setup.members (news u.heard) }
    {
        self.node.prefix()
    }

    /// The value that its node has learnt at a position, if there is one.
    pub fn learned(&self, position: u32) -> Option<&Value>
        ensures { (u : Running) → RunsAs A.has_applied u self.now.node → option_copied result ≡ learnt_at self.now.node.setup.members position (news u.heard) }
    {
        self.node.learned(position)
    }

    /// The node, to be read.
    pub fn node(&self) -> &Node<R, A>
        ensures { result.now ≡ self.now.node }
    {
        &self.node
    }
}

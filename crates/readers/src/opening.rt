//! How a site opens: readers are shown what its node has applied.

ghost use Rattle.std.specs.Prelude.{◌≡◌, ◌<◌, ◌≤◌, ◌↔◌, ◌⊎◌, ◌++◌, [], option_to_list, IfOk, IfErr, MatchResult};
ghost use Rattle.node.specs.Nodes.{RunsAs};
ghost use Rattle.paxos.specs.Knowledge.{learnt as learnt_at, news};
ghost use Rattle.paxos.specs.Step.{Running, values_of};
ghost use Rattle.published.specs.Readers.{first_readers};

use super::fault::SiteFault;
use super::handing::learned;
use super::site::{Site, SiteOver};
use applications::Application;
use ballots::Value;
use node::Node;
use published::{Copies, Opening, Published, Reader, StateCopy, Store};
use records::Records;
use sight::{Naming, Opened};
use std::alloc::{AllocError, Global};

/// How many readers a site has at most.
const MOST_READERS: u32 = 64;

impl<R: Records + Drop, A: Application + Drop, J: Naming + Opening> SiteOver<
    R,
    A,
    StateCopy<A, J>,
    J,
    Published,
> {
    /// A site over a node, with as many readers, numbered from 1. What the node has applied is published, and nothing is pending.
    ///
    /// `opened` is the list, empty yet, of the values that it will hand on; the call names it, and the node's documents, by `J`.
    ///
    /// Faults, which give the node back: memory was refused (1); there are not 1 to 64 readers (2).
    pub fn new(
        alloc: Global,
        opened: Opened<Value>,
        node: Node<R, A>,
        readers: u32,
    ) -> Result<(Site<R, A, J>, Vec<Reader<A, J>>), (SiteFault, Node<R, A>)>
        requires list { opened ≡ J.book }
        requires names { node.setup.names ≡ J.names }
        ensures node { MatchResult result (λ s. s.0.node ≡ node) (λ e. e.1 ≡ node) }
        ensures applied { IfOk result (λ s. (u : Running) → RunsAs A.has_applied u node → s.0.store.published ≡ values_of node.setup.members u) }
        ensures pending { IfOk result (λ s. s.0.store.pending ≡ []) }
        ensures readers { IfOk result (λ s. s.1.items ≡ first_readers readers s.0.store.published) }
        ensures counted { IfOk result (λ _. (1 ≤ readers) × (readers ≤ 64)) }
        ensures count { IfErr result (λ e. (e.0 ≡ SiteFault.Count) ↔ ((readers ≡ 0) ⊎ (64 < readers))) }
    {
        if readers == 0 || readers > MOST_READERS {
            return Err((SiteFault::Count, node));
        }
        match store_of(alloc, opened, &node, readers) {
            Ok((store, given)) => Ok((SiteOver { node, store }, given)),
            Err(_) => Err((SiteFault::Memory, node)),
        }
    }
}

/// The copies once each has applied the value that the node has learnt at a position too.
///
/// It fails where memory is refused.
fn with_next<R: Records + Drop, A: Application + Drop, J: Naming + Opening>(
    node: &Node<R, A>,
    copies: Copies<A, J>,
    position: u32,
) -> Result<Copies<A, J>, AllocError>
    ensures { IfOk result (λ c. (u : Running) → RunsAs A.has_applied u node.now → c ≡ copies ++ option_to_list (learnt_at node.now.setup.members position (news u.heard))) }
{
    match learned(node, position) {
        Some(value) => copies.after(value),
        None => Err(AllocError),
    }
}

/// Copies that have applied what a node has applied.
///
/// It fails where memory is refused.
fn copies_of<R: Records + Drop, A: Application + Drop, J: Naming + Opening>(
    alloc: Global,
    opened: Opened<Value>,
    node: &Node<R, A>,
) -> Result<Copies<A, J>, AllocError>
    requires list { opened ≡ J.book }
    requires names { node.now.setup.names ≡ J.names }
    ensures { IfOk result (λ c. (u : Running) → RunsAs A.has_applied u node.now → c ≡ values_of node.now.setup.members u) }
{
    let mut copies = Copies::new(alloc, node.setup().names(), opened)?;
    for before in 0..node.applied() {
        copies = with_next(node, copies, before + 1)?;
    }
    Ok(copies)
}

/// A store of what a node has applied, with as many readers.
///
/// It fails where memory is refused.
fn store_of<R: Records + Drop, A: Application + Drop, J: Naming + Opening>(
    alloc: Global,
    opened: Opened<Value>,
    node: &Node<R, A>,
    readers: u32,
) -> Result<(Store<A, J>, Vec<Reader<A, J>>), AllocError>
    requires list { opened ≡ J.book }
    requires names { node.now.setup.names ≡ J.names }
    requires readers { (1 ≤ readers) × (readers ≤ 64) }
    ensures applied { IfOk result (λ s. (u : Running) → RunsAs A.has_applied u node.now → s.0.published ≡ values_of node.now.setup.members u) }
    ensures pending { IfOk result (λ s. s.0.pending ≡ []) }
    ensures readers { IfOk result (λ s. s.1.items ≡ first_readers readers s.0.published) }
{
    let copies = copies_of(alloc, opened, node)?;
    Store::<A, J>::over(alloc, copies, readers)
}

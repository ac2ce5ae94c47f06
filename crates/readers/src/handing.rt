//! How a site hands on what its node has applied.

ghost use Rattle.std.specs.Prelude.{◌≡◌, ◌<◌, ◌+◌, ◌++◌, length, option_to_list, true, false, IfSome, Some};
ghost use Rattle.node.specs.Nodes.{RunsAs};
ghost use Rattle.paxos.specs.Knowledge.{learnt as learnt_at, news};
ghost use Rattle.paxos.specs.Step.{Running};
ghost use Rattle.published.specs.Stores.{Keeps, handed_on};
ghost use Rattle.readers.specs.Counting.{AreFirst};

use applications::Application;
use ballots::Value;
use node::Node;
use published::{Opening, Store};
use records::Records;
use sight::Naming;

/// A copy of the value that is learnt at a position. There is none where memory is refused, and where none is learnt there.
pub(super) fn learned<R: Records + Drop, A: Application + Drop>(
    node: &Node<R, A>,
    position: u32,
) -> Option<Value>
    ensures { IfSome result (λ value. (u : Running) → RunsAs A.has_applied u node.now → Some value ≡ learnt_at node.now.setup.members position (news u.heard)) }
{
    node.learned(position)?.clone().ok()
}

/// Hands on the value that is learnt at a position. Gives whether it did: it fails where memory is refused.
fn hand_one<R: Records + Drop, A: Application + Drop, J: Naming + Opening>(
    node: &Node<R, A>,
    store: &mut Store<A, J>,
    position: u32,
) -> bool
    ensures keeps { Keeps store.old store.new }
    ensures handed { result ≡ true → (u : Running) → RunsAs A.has_applied u node.now → handed_on store.new ≡ handed_on store.old ++ option_to_list (learnt_at node.now.setup.members position (news u.heard)) }
    ensures longer { result ≡ true → length (handed_on store.new) ≡ length (handed_on store.old) + 1 }
    ensures same { result ≡ false → store.new ≡ store.old }
{
    let Some(value) = learned(node, position) else {
        return false;
    };
    store.hand_on(value)
}

/// Hands on what the node has applied after the first values, as many as were handed on. Gives whether that is all: it stops where memory is
/// refused.
pub(super) fn hand_over<R: Records + Drop, A: Application + Drop, J: Naming + Opening>(
    node: &Node<R, A>,
    store: &mut Store<A, J>,
) -> bool
    ensures keeps { Keeps store.old store.new }
    ensures handed { (u : Running) → RunsAs A.has_applied u node.now
        → AreFirst node.now.setup.members u (handed_on store.old)
        → AreFirst node.now.setup.members u (handed_on store.new)
        × (result ≡ true → length (handed_on store.new) ≡ u.applied) × (result ≡ false → length (handed_on store.new) < u.applied) }
{
    let applied = node.applied();
    while store.handed_on() < applied as u64 {
        let position = store.handed_on() as u32 + 1;
        if !hand_one(node, store, position) {
            return false;
        }
    }
    true
}

//! The only member of a group, and the reader of what it has applied.

ghost use Rattle.std.specs.Prelude.{◌≡◌, ◌∷◌, ◌++◌, [], ℕ, List, length, true, IfOk, OnOk};
ghost use Rattle.ballots.specs.declared.value.Value.{Value as ValueTerm};
ghost use Rattle.ballots.specs.declared.value.Value.TheVariants.{Request as RequestValue};
ghost use Rattle.node.specs.Nodes.{RunsAs};
ghost use Rattle.paxos.specs.Step.{Running};
ghost use Rattle.paxq_run.specs.Sites.{GoesOn, IsLast, Runs, Shows};
ghost use Rattle.published.specs.Readers.{Learns};
ghost use Rattle.published.specs.Stores.{Publishes};
ghost use Rattle.sessions.specs.Session.{Means};

use ballots::{Request, Value};
use clients::request as datagram_of;
use document_names::Names;
use member::{Target, Tick};
use node::{Node, Outbox, Setup};
use published::{Opening, Reader};
use readers::{Input, Site};
use records::MemRecords;
use sessions::State;
use sight::Naming;
use std::alloc::{AllocError, Global};
use std::sync::Wait;

/// The number of its group.
const GROUP: u32 = 1;

/// Its number in the group.
const MEMBER: u8 = 1;

/// The member, with its record in memory.
pub(super) type LoneNode = Node<MemRecords, State>;

/// The member with the store in which its reader sees what it has applied.
pub(super) type LoneSite<J> = Site<MemRecords, State, J>;

/// The reader.
pub(super) type LoneReader<J> = Reader<State, J>;

/// The only member of a group, over documents of these names. It has heard nothing.
///
/// It fails where memory is refused.
pub(super) fn opened(alloc: Global, names: &Names) -> Result<LoneNode, AllocError>
    ensures names { IfOk result (λ node. node.setup.names ≡ names.now) }
    ensures runs { IfOk result (λ node. (running : Running) × RunsAs Means running node) }
{
    let Ok(setup) = Setup::new(alloc, GROUP, MEMBER, 1, names) else {
        return Err(AllocError);
    };
    match LoneNode::open(alloc, setup, MemRecords::new(alloc)) {
        Ok((node, _)) => Ok(node),
        Err(_) => Err(AllocError),
    }
}

/// Has the member begin its ballot, so that it leads. It has applied nothing.
///
/// It fails where memory is refused.
pub(super) fn begin<J: Naming + Opening>(
    alloc: Global,
    site: &mut LoneSite<J>,
) -> Result<(), AllocError>
    ensures { OnOk result ((sight : List ValueTerm) → Runs site.old → site.old.node.setup.names ≡ J.names → sight ≡ site.old.store.published → Shows J.names [] site.new sight) }
{
    deliver(alloc, site, Input::Tick(Tick::Begin))?;
    if site.applied() != 0 {
        return Err(AllocError);
    }
    Ok(())
}

/// Has the member take a new request, shows readers what came of it, and tells the reader: the request is the last value then.
///
/// It fails where memory is refused.
pub(super) fn take_request<J: Naming + Opening, T: Wait>(
    rt: &T,
    alloc: Global,
    site: &mut LoneSite<J>,
    reader: &mut LoneReader<J>,
    request: Request,
) -> Result<(), AllocError>
    ensures { OnOk result ((values : List ValueTerm) → Shows J.names values site.old reader.old.sight → Shows J.names (values ++ RequestValue request ∷ []) site.new reader.new.sight) }
{
    let before = site.published();
    let value = Value::Request(request.clone()?);
    let bytes = datagram_of(alloc, GROUP, request)?;
    deliver(alloc, site, Input::Bytes(&bytes))?;
    let shown = show(rt, site, reader)?;
    if shown.saturating_sub(before) != 1 || !is_last(site, shown, &value) {
        return Err(AllocError);
    }
    Ok(())
}

/// Shows readers all that is pending, and tells the reader. Gives how many values are shown then.
///
/// It fails where memory is refused.
fn show<J: Naming + Opening, T: Wait>(
    rt: &T,
    site: &mut LoneSite<J>,
    reader: &mut LoneReader<J>,
) -> Result<u64, AllocError>
    ensures shown { OnOk result (Publishes site.old.store site.new.store) }
    ensures count { IfOk result (λ shown. shown ≡ length site.new.store.published) }
    ensures node { OnOk result (site.new.node ≡ site.old.node) }
    ensures told { OnOk result (Learns site.new.store.published reader.old.sight reader.new.sight) }
{
    let shown = site.publish(rt)?;
    reader.learn(site.board().tell());
    Ok(shown)
}

/// Whether the member has applied just the values at the positions up to this one, and learnt that value there.
fn is_last<J: Naming + Opening>(site: &LoneSite<J>, position: u64, value: &Value) -> bool
    ensures { result ≡ true → (running : Running) → RunsAs Means running site.now.node → IsLast site.now running position value.now }
{
    let applied = site.applied();
    match site.learned(applied) {
        Some(learnt) => u64::from(applied) == position && learnt.is_same(value),
        None => false,
    }
}

/// Has the member take what comes, then what it sends itself, and then what it sends itself upon that: for a request it asks itself to accept, and
/// says that it has.
///
/// It fails where memory is refused.
#[tactic(auto, using(crate::proofs::Sites::goes_itself, crate::proofs::Sites::goes_through))]
fn deliver<J: Naming + Opening>(
    alloc: Global,
    site: &mut LoneSite<J>,
    input: Input<'_>,
) -> Result<(), AllocError>
    ensures { OnOk result (GoesOn site.old site.new) }
{
    let outbox = step(alloc, site, input)?;
    for sent in outbox.sent() {
        if is_own(sent.to) {
            take_own(alloc, site, &sent.bytes)?;
        }
    }
    Ok(())
}

/// Has the member take a message of its own, and then what it sends itself.
///
/// It fails where memory is refused.
#[tactic(auto, using(crate::proofs::Sites::goes_itself, crate::proofs::Sites::goes_through))]
fn take_own<J: Naming + Opening>(
    alloc: Global,
    site: &mut LoneSite<J>,
    bytes: &[u8],
) -> Result<(), AllocError>
    ensures { OnOk result (GoesOn site.old site.new) }
{
    let outbox = step(alloc, site, Input::Bytes(bytes))?;
    for sent in outbox.sent() {
        if is_own(sent.to) {
            step(alloc, site, Input::Bytes(&sent.bytes))?;
        }
    }
    Ok(())
}

/// Has the member take what comes.
///
/// It fails where memory is refused: a member with its record in memory refuses neither to begin nor messages of its own and of clients.
fn step<J: Naming + Opening>(
    alloc: Global,
    site: &mut LoneSite<J>,
    input: Input<'_>,
) -> Result<Outbox, AllocError>
    ensures { OnOk result (GoesOn site.old site.new) }
{
    match site.turn(alloc, input) {
        Ok(outbox) => Ok(outbox),
        Err(_) => Err(AllocError),
    }
}

/// Whether a message goes to the member that sends it.
fn is_own(to: Target) -> bool {
    match to {
        Target::One(member) => member == MEMBER,
        Target::All => true,
        Target::Others | Target::Client => false,
    }
}

//! A site of a row, from its opening to its end.

ghost use Rattle.std.specs.Prelude.{◌≡◌};

use super::calls::{Audience, ended_calls, open_calls};
use super::submitting::{GROUP, MEMBER, RowNode, RowSite, begin, submit};
use ballots::{Setup, SetupFault, Value};
use document_names::NamesFault;
use line_parts::read_names;
use node::Node;
use published::Opening;
use readers::{SiteFault, SiteOver};
use records::MemRecords;
use rows::{RowFault, Words};
use sight::{Naming, Opened};
use std::alloc::Global;
use std::marker::Brand;
use std::sync::Wait;
use std::thread::Threads;
use std::time::Clock;

/// The request that a node has taken before its site opens, as often as a row says.
const BEFORE: &str = "insert node element e {} into doc(\"db\")";

/// What the calls of a site and its readers give.
pub(super) fn called<R: Threads + Wait + Sync + Clock>(
    rt: &R,
    alloc: Global,
    words: &mut Words<'_>,
) -> Result<String, RowFault> {
    let readers = word(words)?;
    let before = words.number()?;
    let node = node_after(alloc, before)?;
    next_opened(rt, alloc, node, readers, words)
}

/// What the calls of a site and its readers give, over the node. The site's list is a new one.
fn next_opened<R: Threads + Wait + Sync + Clock>(
    rt: &R,
    alloc: Global,
    node: RowNode,
    readers: u32,
    words: &mut Words<'_>,
) -> Result<String, RowFault> {
    opened_over::<Brand, R>(rt, alloc, Opened::new(), node, readers, words)
}

/// A number below 2^32.
pub(super) fn word(words: &mut Words<'_>) -> Result<u32, RowFault> {
    u32::try_from(words.number()?).ok().ok_or(RowFault::NotARow)
}

/// What the node of a row is told when it is set up.
fn setup(alloc: Global) -> Result<Setup, RowFault> {
    let names = match read_names(alloc, "db") {
        Ok(names) => names,
        Err(NamesFault::Memory) => return Err(RowFault::Memory),
        Err(NamesFault::Wrong) => return Err(RowFault::NotARow),
    };
    match Setup::new(alloc, GROUP, MEMBER, 1, &names) {
        Ok(setup) => Ok(setup),
        Err(SetupFault::Memory) => Err(RowFault::Memory),
        Err(SetupFault::Numbers) => Err(RowFault::NotARow),
    }
}

/// A node that leads, and has taken so many requests.
fn node_after(alloc: Global, before: u64) -> Result<RowNode, RowFault> {
    let setup = setup(alloc)?;
    let Ok((mut node, _)) = Node::open(alloc, setup, MemRecords::new(alloc)) else {
        return Err(RowFault::Memory);
    };
    match prepared(alloc, &mut node, before) {
        Ok(()) => Ok(node),
        Err(fault) => Err(fault),
    }
}

/// Has a node lead, and take so many requests. Their numbers are the last that there are, so that those of calls are others.
fn prepared(alloc: Global, node: &mut RowNode, before: u64) -> Result<(), RowFault> {
    begin(alloc, node)?;
    for number in 0..before {
        submit(alloc, node, u64::MAX - number, BEFORE)?;
    }
    Ok(())
}

/// Opens a site over the node, has its calls made, and ends it. Then the calls of its readers that come after are made.
fn opened_over<J: Naming + Opening + Send + Sync, R: Threads + Wait + Sync + Clock>(
    rt: &R,
    alloc: Global,
    opened: Opened<Value>,
    node: RowNode,
    readers: u32,
    words: &mut Words<'_>,
) -> Result<String, RowFault>
    requires list { opened ≡ J.book }
    requires names { node.setup.names ≡ J.names }
{
    let (mut site, readers) = match RowSite::<J>::new(alloc, opened, node, readers) {
        Ok(made) => made,
        Err((fault, node)) => return refused(alloc, fault, &node),
    };
    let mut audience = Audience {
        readers,
        board: None,
    };
    let mut out = String::new(alloc);
    let called = open_calls(rt, alloc, &mut site, &mut audience, words, &mut out);
    let SiteOver { node: _, store } = site;
    store.close(rt);
    called?;
    ended_calls(alloc, &mut audience, words, &mut out)?;
    Ok(out)
}

/// Why no site opens, and how much the node that comes back has applied.
fn refused(alloc: Global, fault: SiteFault, node: &RowNode) -> Result<String, RowFault> {
    match fault {
        SiteFault::Memory => Err(RowFault::Memory),
        SiteFault::Count => {
            let applied = node.applied();
            Ok(format!(in alloc; "fault 2, {applied} applied")?)
        }
    }
}

//! Operators between sets of nodes (XQuery 1.0, section 3.3.3).

ghost use Rattle.std.specs.Prelude.{◌≡◌, ◌∷◌, [], ◌++◌, ◌&&◌, ◌||◌, not, filter, Ok, Err, IfOk, IfErr, OnOk};
ghost use Rattle.values.specs.declared.atom.Item.TheVariants as item;
ghost use Rattle.query_meaning.specs.Operators as meaning;
ghost use Rattle.query_meaning.specs.Running.{within};
ghost use Rattle.evaluation.specs.Gives.{Fails, Gives, Judged, Says, Stand};
ghost use Rattle.query_steps.specs.Sets.{in_order, is_as_wanted};

use crate::identities::{Identities, set_of};
use evaluation::{Evaluation, MOST_ITEMS, Sequence};
use fault_codes::Code;
use std::alloc::{AllocError, Global};
use trees::NodeId;
use values::{Item, ValueFault};

/// `union`, `|`: the nodes on either side, each once, in document order (XQuery 1.0, section 3.3.3). It takes the work of putting the nodes of
/// both sides in order. Codes: XPTY0004 where a side has an atomic value; PXQ0002 where too little work is left, or where there would be more
/// than 10,000.
pub fn union(
    run: &mut Evaluation,
    left: &Sequence,
    right: &Sequence,
) -> Result<Sequence, ValueFault>
    requires left { Stand left.now run.old }
    requires right { Stand right.now run.old }
    ensures { Gives (meaning.set_of ◌||◌ left.now right.now) run.old result run.new }
{
    let nodes = all_nodes(run.alloc(), left.as_slice(), Code::XPTY0004)?;
    let others = all_nodes(run.alloc(), right.as_slice(), Code::XPTY0004)?;
    run.order(nodes.len() + others.len())?;
    let all = joined(nodes, others)?;
    in_order(run, all)
}

/// `intersect`: the nodes that are on both sides, each once, in document order (XQuery 1.0, section 3.3.3). It takes the same work. Codes:
/// XPTY0004 where a side has an atomic value; PXQ0002 where too little work is left.
pub fn intersect(
    run: &mut Evaluation,
    left: &Sequence,
    right: &Sequence,
) -> Result<Sequence, ValueFault>
    requires left { Stand left.now run.old }
    requires right { Stand right.now run.old }
    ensures { Gives (meaning.set_of ◌&&◌ left.now right.now) run.old result run.new }
{
    let nodes = all_nodes(run.alloc(), left.as_slice(), Code::XPTY0004)?;
    let others = all_nodes(run.alloc(), right.as_slice(), Code::XPTY0004)?;
    run.order(nodes.len() + others.len())?;
    let set = set_of(run.alloc(), &others)?;
    let both = chosen(run.alloc(), &nodes, &set, true)?;
    in_order(run, both)
}

/// `except`: the nodes on the left that are not on the right, each once, in document order (XQuery 1.0, section 3.3.3). It takes the same work.
/// Codes: XPTY0004 where a side has an atomic value; PXQ0002 where too little work is left.
pub fn except(
    run: &mut Evaluation,
    left: &Sequence,
    right: &Sequence,
) -> Result<Sequence, ValueFault>
    requires left { Stand left.now run.old }
    requires right { Stand right.now run.old }
    ensures { Gives (meaning.set_of (λ a b. a && not b) left.now right.now) run.old result run.new }
{
    let nodes = all_nodes(run.alloc(), left.as_slice(), Code::XPTY0004)?;
    let others = all_nodes(run.alloc(), right.as_slice(), Code::XPTY0004)?;
    run.order(nodes.len() + others.len())?;
    let set = set_of(run.alloc(), &others)?;
    let rest = chosen(run.alloc(), &nodes, &set, false)?;
    in_order(run, rest)
}

/// The nodes of a sequence. Faults: `Memory`; `Code` with the one that is given where an item is an atomic value.
pub fn all_nodes(alloc: Global, items: &[Item], code: Code) -> Result<Vec<NodeId>, ValueFault>
    ensures nodes { IfOk result (λ v. meaning.all_nodes code items.now ≡ Ok v.items) }
    ensures fault { IfErr result (λ fault. Fails (meaning.all_nodes code items.now) fault) }
{
    let mut nodes = Vec::with_capacity(alloc, items.len())?;
    for item in items {
        nodes.push(node_of(item, code)?)?;
    }
    Ok(nodes)
}

/// The node that an item is. Code: the one that is given where it is an atomic value.
fn node_of(x: &Item, code: Code) -> Result<NodeId, Code>
    ensures node { IfOk result (λ i. x.now ≡ item.Node i) }
    ensures code { IfErr result (λ fault. (fault ≡ code) × (meaning.all_nodes code (x.now ∷ []) ≡ Err code)) }
{
    match x {
        Item::Node(id) => Ok(*id),
        Item::Atomic(_) => Err(code),
    }
}

/// The one nodes, then the others.
fn joined(nodes: Vec<NodeId>, others: Vec<NodeId>) -> Result<Vec<NodeId>, AllocError>
    ensures { IfOk result (λ v. v.items ≡ nodes.items ++ others.items) }
{
    let mut all = nodes;
    let mut more = others;
    all.append(&mut more)?;
    Ok(all)
}

/// Those of some nodes that are in a set, or those that are not, as is wanted.
fn chosen(
    alloc: Global,
    nodes: &[NodeId],
    set: &Identities,
    wanted: bool,
) -> Result<Vec<NodeId>, AllocError>
    ensures { IfOk result (λ v. v.items ≡ filter (is_as_wanted wanted set.now) nodes.now) }
{
    let mut chosen = Vec::new(alloc);
    for node in nodes {
        add_wanted(set, wanted, *node, &mut chosen)?;
    }
    Ok(chosen)
}

fn add_wanted(
    set: &Identities,
    wanted: bool,
    node: NodeId,
    chosen: &mut Vec<NodeId>,
) -> Result<(), AllocError>
    ensures { OnOk result (chosen.new.items ≡ chosen.old.items ++ filter (is_as_wanted wanted set.now) (node ∷ [])) }
{
    if set.has(node) == wanted {
        chosen.push(node)?;
    }
    Ok(())
}

/// Nodes in document order, each once. Code: PXQ0002 where there are more than 10,000.
fn in_order(run: &mut Evaluation, nodes: Vec<NodeId>) -> Result<Sequence, ValueFault>
    ensures { Gives (in_order nodes.items) run.old result run.new }
{
    let ordered = run.shelf().document_order(run.alloc(), nodes)?;
    Sequence::of_nodes(run.alloc(), &ordered)
}

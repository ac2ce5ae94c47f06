//! Segments of a path that are steps to children of a name, over many nodes (XQuery 1.0, section 3.2).

ghost use Rattle.std.specs.Prelude.{◌≡◌, [], IfSome};
ghost use Rattle.values.specs.Items.{IsThere};
ghost use Rattle.query_meaning.specs.Operators.{nodes};
ghost use Rattle.query_meaning.specs.Running.{trees_of};
ghost use Rattle.evaluation.specs.Gives.{Gives, GivesIn, Stand};
ghost use Rattle.query_steps.specs.ByParent.{ListsChildren};
ghost use Rattle.query_paths.specs.Gathered.{IsFew, IsFewIn};
ghost use Rattle.query_paths.specs.Named.{children_of_item, found_children, gathered_children, looked_up};

use crate::found::Found;
use evaluation::{Evaluation, Sequence};
use fault_codes::Code;
use query_grammar::{Expr, NodeTest};
use query_steps::{NamedChildren, nodes_of_step};
use trees::{Axis, NodeId};
use values::{Item, ValueFault};

/// The test of a part that is a step to children without predicates.
pub(crate) fn child_test(part: &Expr) -> Option<&NodeTest>
    ensures { IfSome result (λ test. part.now ≡ Expr.Step Axis.Child test.now []) }
{
    match part {
        Expr::Step(Axis::Child, test, predicates) if predicates.as_slice().is_empty() => Some(test),
        _ => None,
    }
}

/// All that the step to the children of a name gives for some items, by the children that are listed; each takes a turn. Codes: XPTY0020 where an
/// item is no node; PXQ0002 where no turn or less work is left, or where more than 10,000 nodes are found.
pub(crate) fn gathered_children(
    run: &mut Evaluation,
    items: &[Item],
    test: &NodeTest,
    children: &NamedChildren,
) -> Result<Found, ValueFault>
    requires stand { Stand items.now run.old }
    requires listed { ListsChildren test.now run.old.shelf children.now }
    ensures { GivesIn IsFewIn (gathered_children test.now items.now) run.old result run.new }
{
    let mut found = Found::new(run.alloc());
    for item in items {
        found = found_children(run, found, item, test, children)?;
    }
    Ok(found)
}

/// What the step gives for one item more. It takes a turn, and the work of the step and of what it gives.
fn found_children(
    run: &mut Evaluation,
    given: Found,
    item: &Item,
    test: &NodeTest,
    children: &NamedChildren,
) -> Result<Found, ValueFault>
    requires item { IsThere (trees_of run.old) item.now }
    requires few { IsFew given }
    requires listed { ListsChildren test.now run.old.shelf children.now }
    ensures found { GivesIn IsFewIn (found_children test.now given item.now) run.old result run.new }
    ensures same { run.new.shelf ≡ run.old.shelf }
{
    run.turn()?;
    let items = children_of_item(run, item, test, children)?;
    run.count(&items)?;
    given.and_all(items.as_slice())
}

/// What the step gives from an item. It takes a unit of work for each child that its node has, as if it went through them.
fn children_of_item(
    run: &mut Evaluation,
    item: &Item,
    test: &NodeTest,
    children: &NamedChildren,
) -> Result<Sequence, ValueFault>
    requires item { IsThere (trees_of run.old) item.now }
    requires listed { ListsChildren test.now run.old.shelf children.now }
    ensures given { Gives (children_of_item test.now item.now) run.old result run.new }
    ensures same { run.new.shelf ≡ run.old.shelf }
{
    let Item::Node(node) = item else {
        return Err(ValueFault::Code(Code::XPTY0020));
    };
    if let Some(listed) = children.of(run, *node) {
        return looked_up(run, listed.looked_at, listed.nodes);
    }
    let listing = nodes_of_step(run, Axis::Child, test, *node)?;
    looked_up(run, listing.looked_at, &listing.nodes)
}

/// Nodes as a sequence, once the work of looking at so many is taken. Code: PXQ0002 where less is left, or where they are more than 10,000.
fn looked_up(run: &mut Evaluation, looked_at: u64, found: &[NodeId]) -> Result<Sequence, ValueFault>
    requires stand { Stand (nodes found.now) run.old }
    ensures given { Gives (looked_up looked_at found.now) run.old result run.new }
    ensures same { run.new.shelf ≡ run.old.shelf }
{
    run.spend(looked_at)?;
    Sequence::of_nodes(run.alloc(), found)
}

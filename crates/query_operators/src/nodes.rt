//! Comparisons of nodes (XQuery 1.0, section 3.5.3).

ghost use Rattle.std.specs.Prelude.{◌≡◌, Ok, option_map};
ghost use Rattle.data_model.specs.Order.{precedes};
ghost use Rattle.query_meaning.specs.Operators as meaning;
ghost use Rattle.evaluation.specs.Gives.{Gives, Judged, Stand};

use crate::operators::boolean;
use evaluation::{Evaluation, Sequence};
use fault_codes::Code;
use trees::NodeId;
use values::{Item, ValueFault};

/// `is`: whether both sides are the same node (XQuery 1.0, section 3.5.3); nothing where a side is empty. It takes the work of
/// putting two nodes in order. Codes: XPTY0004 where a side has more than one item, or an atomic value; PXQ0002 where too little work is left.
pub fn is_same(
    run: &mut Evaluation,
    left: &Sequence,
    right: &Sequence,
) -> Result<Sequence, ValueFault>
    ensures given { Gives (meaning.between_nodes meaning.is_same left.now right.now) run.old result run.new }
    ensures judged { Judged (meaning.between_nodes meaning.is_same left.now right.now run.old) result }
{
    let a = one_node(left.as_slice())?;
    let b = one_node(right.as_slice())?;
    run.order(left.as_slice().len() + right.as_slice().len())?;
    match (a, b) {
        (Some(a), Some(b)) => Ok(boolean(run, a == b)?),
        _ => Ok(Sequence::new(run.alloc())),
    }
}

/// `<<`: whether the node on the left comes before that on the right in document order (XQuery 1.0, section 3.5.3); nothing where a side
/// is empty. It takes the work of putting two nodes in order. Codes: XPTY0004 where a side has more than one item, or an atomic value; PXQ0002
/// where too little work is left.
pub fn precedes(
    run: &mut Evaluation,
    left: &Sequence,
    right: &Sequence,
) -> Result<Sequence, ValueFault>
    requires left { Stand left.now run.old }
    requires right { Stand right.now run.old }
    ensures given { Gives (meaning.between_nodes precedes left.now right.now) run.old result run.new }
    ensures judged { Judged (meaning.between_nodes precedes left.now right.now run.old) result }
{
    let a = one_node(left.as_slice())?;
    let b = one_node(right.as_slice())?;
    run.order(left.as_slice().len() + right.as_slice().len())?;
    match (a, b) {
        (Some(a), Some(b)) => {
            let holds = run.shelf().before(a, b);
            Ok(boolean(run, holds)?)
        }
        _ => Ok(Sequence::new(run.alloc())),
    }
}

/// `>>`: whether the node on the left comes after that on the right in document order (XQuery 1.0, section 3.5.3); nothing where a side
/// is empty. It takes the work of putting two nodes in order. Codes: XPTY0004 where a side has more than one item, or an atomic value; PXQ0002
/// where too little work is left.
pub fn follows(
    run: &mut Evaluation,
    left: &Sequence,
    right: &Sequence,
) -> Result<Sequence, ValueFault>
    requires left { Stand left.now run.old }
    requires right { Stand right.now run.old }
    ensures given { Gives (meaning.between_nodes meaning.follows left.now right.now) run.old result run.new }
    ensures judged { Judged (meaning.between_nodes meaning.follows left.now right.now run.old) result }
{
    let a = one_node(left.as_slice())?;
    let b = one_node(right.as_slice())?;
    run.order(left.as_slice().len() + right.as_slice().len())?;
    match (a, b) {
        (Some(a), Some(b)) => {
            let holds = run.shelf().before(b, a);
            Ok(boolean(run, holds)?)
        }
        _ => Ok(Sequence::new(run.alloc())),
    }
}

/// The node of a sequence, or none. Code: XPTY0004 where it has more than one item, or an atomic value.
fn one_node(items: &[Item]) -> Result<Option<NodeId>, Code>
    ensures { result ≡ meaning.one_node items.now }
{
    match items {
        [] => Ok(None),
        [Item::Node(id)] => Ok(Some(*id)),
        _ => Err(Code::XPTY0004),
    }
}

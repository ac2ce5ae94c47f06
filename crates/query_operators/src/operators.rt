//! Operators between atomic values (XQuery 1.0, sections 3.4 and 3.5).

ghost use Rattle.std.specs.Prelude.{◌≡◌, ◌∷◌, [], IfOk, IfSome, Some};
ghost use Rattle.values.specs.Items.{IsThere};
ghost use Rattle.query_meaning.specs.Operators as meaning;
ghost use Rattle.query_meaning.specs.Running.{trees_of};
ghost use Rattle.evaluation.specs.Gives.{Gives, Stand};
ghost use Rattle.read_items.specs.Read.{IsRead};

use evaluation::{Evaluation, Sequence};
use read_items::{ReadItem, compare_each, compare_items};
use std::alloc::AllocError;
use values::{Atom, Comparison, Item, Operator, ValueFault, arithmetic, compare_value};

/// One boolean. It fails where memory is refused.
pub fn boolean(run: &Evaluation, value: bool) -> Result<Sequence, AllocError>
    ensures { IfOk result (λ s. s ≡ meaning.booleans (Some value)) }
{
    Sequence::one(run.alloc(), Item::Atomic(Atom::Boolean(value)))
}

/// `+`, `-`, `*`, `idiv` and `mod` (XQuery 1.0, section 3.4). Codes: PXQ0002 where a string value is too long or too little work is left,
/// and those of the operands and the result.
pub fn calculated(
    run: &mut Evaluation,
    op: Operator,
    left: &Sequence,
    right: &Sequence,
) -> Result<Sequence, ValueFault>
    requires left { Stand left.now run.old }
    requires right { Stand right.now run.old }
    ensures { Gives (meaning.between_atoms (meaning.calculated op) left.now right.now) run.old result run.new }
{
    let xs = run.atoms(left)?;
    let ys = run.atoms(right)?;
    calculated_of(run, op, &xs, &ys)
}

fn calculated_of(
    run: &mut Evaluation,
    op: Operator,
    xs: &[Atom],
    ys: &[Atom],
) -> Result<Sequence, ValueFault>
    ensures { Gives (meaning.calculated op xs.now ys.now) run.old result run.new }
{
    match arithmetic(op, xs, ys)? {
        None => Ok(Sequence::new(run.alloc())),
        Some(value) => Ok(Sequence::one(run.alloc(), Item::Atomic(Atom::Integer(value)))?),
    }
}

/// `eq`, `ne`, `lt`, `le`, `gt` and `ge` (XQuery 1.0, section 3.5.1). Codes: PXQ0002 where a string value is too long or too little work is
/// left; XPTY0004 where there is more than one value on a side, or the two are of different types.
pub fn compared_by_value(
    run: &mut Evaluation,
    op: Comparison,
    left: &Sequence,
    right: &Sequence,
) -> Result<Sequence, ValueFault>
    requires left { Stand left.now run.old }
    requires right { Stand right.now run.old }
    ensures { Gives (meaning.between_atoms (meaning.compared_by_value op) left.now right.now) run.old result run.new }
{
    let xs = run.atoms(left)?;
    let ys = run.atoms(right)?;
    compared_of(run, op, &xs, &ys)
}

fn compared_of(
    run: &mut Evaluation,
    op: Comparison,
    xs: &[Atom],
    ys: &[Atom],
) -> Result<Sequence, ValueFault>
    ensures { Gives (meaning.compared_by_value op xs.now ys.now) run.old result run.new }
{
    match compare_value(op, xs, ys)? {
        None => Ok(Sequence::new(run.alloc())),
        Some(value) => Ok(boolean(run, value)?),
    }
}

/// `=`, `!=`, `<`, `<=`, `>` and `>=` (XQuery 1.0, section 3.5.2). Each pair that is tried takes a turn, and its work. Codes: PXQ0002 where a
/// string value is too long, no turn is left, or too little work; that of the first pair that has one.
pub fn compared_by_pairs(
    run: &mut Evaluation,
    op: Comparison,
    left: &Sequence,
    right: &Sequence,
) -> Result<Sequence, ValueFault>
    requires left { Stand left.now run.old }
    requires right { Stand right.now run.old }
    ensures { Gives (meaning.between_atoms (meaning.compared_by_pairs op) left.now right.now) run.old result run.new }
{
    if let Some(other) = alone(right) {
        return compared_with(run, op, left, other);
    }
    let xs = run.atoms(left)?;
    let ys = run.atoms(right)?;
    pairs_of(run, op, &xs, &ys)
}

/// The item of a sequence of one; `None` elsewhere.
fn alone(items: &Sequence) -> Option<&Item>
    ensures { IfSome result (λ item. items.now ≡ item.now ∷ []) }
{
    match items.as_slice() {
        [item] => Some(item),
        _ => None,
    }
}

/// The same with one item on the right.
fn compared_with(
    run: &mut Evaluation,
    op: Comparison,
    left: &Sequence,
    other: &Item,
) -> Result<Sequence, ValueFault>
    requires left { Stand left.now run.old }
    requires other { IsThere (trees_of run.old) other.now }
    ensures { Gives (meaning.between_atoms (meaning.compared_by_pairs op) left.now (other.now ∷ [])) run.old result run.new }
{
    let other = ReadItem::unread(other);
    match alone(left) {
        Some(item) => compared_items(run, op, item, &other),
        None => compared_each(run, op, left, &other),
    }
}

/// The same of one item on each side.
fn compared_items(
    run: &mut Evaluation,
    op: Comparison,
    item: &Item,
    other: &ReadItem,
) -> Result<Sequence, ValueFault>
    requires item { IsThere (trees_of run.old) item.now }
    requires other { IsRead (trees_of run.old) other.now }
    ensures { Gives (meaning.between_atoms (meaning.compared_by_pairs op) (item.now ∷ []) (other.now.item.now ∷ [])) run.old result run.new }
{
    let holds = compare_items(run, op, &ReadItem::unread(item), other)?;
    Ok(boolean(run, holds)?)
}

/// The same of many items on the left, whose values are not listed where all are texts.
fn compared_each(
    run: &mut Evaluation,
    op: Comparison,
    left: &Sequence,
    other: &ReadItem,
) -> Result<Sequence, ValueFault>
    requires left { Stand left.now run.old }
    requires other { IsRead (trees_of run.old) other.now }
    ensures { Gives (meaning.between_atoms (meaning.compared_by_pairs op) left.now (other.now.item.now ∷ [])) run.old result run.new }
{
    let holds = compare_each(run, op, left, other)?;
    Ok(boolean(run, holds)?)
}

fn pairs_of(
    run: &mut Evaluation,
    op: Comparison,
    xs: &[Atom],
    ys: &[Atom],
) -> Result<Sequence, ValueFault>
    ensures { Gives (meaning.compared_by_pairs op xs.now ys.now) run.old result run.new }
{
    let holds = run.compare(op, xs, ys)?;
    Ok(boolean(run, holds)?)
}

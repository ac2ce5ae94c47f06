//! Ranges of integers (XQuery 1.0, section 3.3.1).

ghost use Rattle.std.specs.Prelude.{◌≡◌, Some, pos, ◌-ℤ◌};
ghost use Rattle.query_meaning.specs.Operators as meaning;
ghost use Rattle.evaluation.specs.Gives.{Gives, Judged, Says, Stand};

use evaluation::{Evaluation, MOST_ITEMS, Sequence};
use fault_codes::Code;
use std::alloc::Global;
use values::{Atom, ValueFault, integer_operands};

/// `to`: the integers from the one to the other, none where the first is greater (XQuery 1.0, section 3.3.1). It takes no memory for
/// more than 10,000. Codes: PXQ0002 where a string value is too long or there are more than 10,000 integers; XPTY0004 where there is
/// more than one value on a side, or a string or a boolean; FORG0001 where an untyped value doesn't read as an integer.
pub fn ranged(
    run: &mut Evaluation,
    left: &Sequence,
    right: &Sequence,
) -> Result<Sequence, ValueFault>
    requires left { Stand left.now run.old }
    requires right { Stand right.now run.old }
    ensures { Gives (meaning.between_atoms meaning.ranged left.now right.now) run.old result run.new }
{
    let xs = run.atoms(left)?;
    let ys = run.atoms(right)?;
    ranged_of(run, &xs, &ys)
}

fn ranged_of(run: &mut Evaluation, xs: &[Atom], ys: &[Atom]) -> Result<Sequence, ValueFault>
    ensures given { Gives (meaning.ranged xs.now ys.now) run.old result run.new }
    ensures judged { Judged (meaning.ranged xs.now ys.now run.old) result }
{
    match integer_operands(xs, ys)? {
        None => Ok(Sequence::new(run.alloc())),
        Some((first, last)) => integers_to(run.alloc(), first, last),
    }
}

/// The integers from the one to the other. Faults: `Memory`; `Code` with PXQ0002 where they are more than 10,000.
#[tactic(auto, unfolding(query_meaning::specs::Running::most_items))]
fn integers_to(alloc: Global, first: i64, last: i64) -> Result<Sequence, ValueFault>
    ensures items { Says (meaning.integers_to (Some (first, last))) result }
    ensures judged { Judged (meaning.integers_to (Some (first, last))) result }
{
    if last < first {
        return Ok(Sequence::new(alloc));
    }
    let others = last.abs_diff(first);
    if others >= MOST_ITEMS as u64 {
        return Err(ValueFault::Code(Code::PXQ0002));
    }
    Ok(Sequence::integers(alloc, first, others as usize + 1)?)
}

//! Booleans (Functions and Operators, sections 9.1, 9.3 and 15.1.1).

ghost use Rattle.std.specs.Prelude.{◌≡◌, true, false};
ghost use Rattle.query_meaning.specs.Functions as functions;
ghost use Rattle.evaluation.specs.Gives.{Gives};

use crate::sequences::boolean_of;
use evaluation::{Evaluation, Sequence};
use values::{ValueFault, truth};

/// `true()` and `false()` (Functions and Operators, sections 9.1.1 and 9.1.2). It fails only where memory is refused.
pub fn truth_value(run: &mut Evaluation, value: bool) -> Result<Sequence, ValueFault>
    ensures { Gives (functions.boolean value) run.old result run.new }
{
    boolean_of(run, value)
}

/// `boolean`: the effective boolean value (Functions and Operators, section 15.1.1). Code: FORG0006 where the first of several items is
/// an atomic value.
pub fn boolean(run: &mut Evaluation, items: &Sequence) -> Result<Sequence, ValueFault>
    ensures { Gives (functions.truth_of items.now) run.old result run.new }
{
    let holds = truth(items.as_slice())?;
    boolean_of(run, holds)
}

/// `not`: the other boolean than the effective boolean value (Functions and Operators, section 9.3.1). Code: FORG0006 where the first
/// of several items is an atomic value.
pub fn not(run: &mut Evaluation, items: &Sequence) -> Result<Sequence, ValueFault>
    ensures { Gives (functions.untruth_of items.now) run.old result run.new }
{
    let value = truth(items.as_slice())?;
    boolean_of(run, !value)
}

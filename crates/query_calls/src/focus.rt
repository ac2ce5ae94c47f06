//! The focus, and functions of it (Functions and Operators, sections 16.1 and 16.2).

ghost use Rattle.std.specs.Prelude.{◌≡◌, pos, IfOk};
ghost use Rattle.query_meaning.specs.Functions as functions;
ghost use Rattle.evaluation.specs.Gives.{Gives, IsReady, Says};
ghost use Rattle.query_calls.specs.Parts.{context, of_context};

use crate::nodes::{name, root, string};
use crate::sequences::integer_of;
use evaluation::{Environment, Evaluation, Sequence};
use fault_codes::Code;
use std::alloc::{AllocError, Global};
use values::ValueFault;

/// `position`: the position of the context item (Functions and Operators, section 16.1). Code: XPDY0002 where there is none.
pub fn position(run: &mut Evaluation, env: &Environment) -> Result<Sequence, ValueFault>
    ensures { Gives (functions.position env.now) run.old result run.new }
{
    match env.position() {
        Some(position) => {
            let position = integer(position)?;
            integer_of(run, position)
        }
        None => Err(ValueFault::Code(Code::XPDY0002)),
    }
}

/// `last`: the context size (Functions and Operators, section 16.2). Code: XPDY0002 where there is no context item.
pub fn last(run: &mut Evaluation, env: &Environment) -> Result<Sequence, ValueFault>
    ensures { Gives (functions.last env.now) run.old result run.new }
{
    match env.size() {
        Some(size) => {
            let size = integer(size)?;
            integer_of(run, size)
        }
        None => Err(ValueFault::Code(Code::XPDY0002)),
    }
}

/// A number of items as an integer.
fn integer(items: usize) -> Result<i64, AllocError>
    ensures { IfOk result (λ z. z ≡ pos items) }
{
    // No memory has room for more items than that.
    i64::try_from(items).map_err(|_| AllocError)
}

/// The context item alone. Code: XPDY0002 where there is none.
fn context(alloc: Global, env: &Environment) -> Result<Sequence, ValueFault>
    ensures { Says (context env.now) result }
{
    match env.item() {
        Some(item) => Ok(Sequence::one(alloc, item.clone()?)?),
        None => Err(ValueFault::Code(Code::XPDY0002)),
    }
}

/// `root()`. Codes: XPDY0002 where there is no context item; those of `root`.
pub(crate) fn root_of_context(
    run: &mut Evaluation,
    env: &Environment,
) -> Result<Sequence, ValueFault>
    requires ready { IsReady env.now run.old }
    ensures { Gives (of_context env.now functions.root) run.old result run.new }
{
    let items = context(run.alloc(), env)?;
    root(run, &items)
}

/// `name()`. Codes: XPDY0002 where there is no context item; those of `name`.
pub(crate) fn name_of_context(
    run: &mut Evaluation,
    env: &Environment,
) -> Result<Sequence, ValueFault>
    requires ready { IsReady env.now run.old }
    ensures { Gives (of_context env.now functions.name) run.old result run.new }
{
    let items = context(run.alloc(), env)?;
    name(run, &items)
}

/// `string()`. Codes: XPDY0002 where there is no context item; those of `string`.
pub(crate) fn string_of_context(
    run: &mut Evaluation,
    env: &Environment,
) -> Result<Sequence, ValueFault>
    requires ready { IsReady env.now run.old }
    ensures { Gives (of_context env.now functions.string_of) run.old result run.new }
{
    let items = context(run.alloc(), env)?;
    string(run, &items)
}

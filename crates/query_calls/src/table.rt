//! What each function makes of its arguments.

ghost use Rattle.std.specs.Prelude.{◌≡◌, [], ◌∷◌};
ghost use Rattle.query_meaning.specs.Environment.{no_environment};
ghost use Rattle.query_meaning.specs.Functions as functions;
ghost use Rattle.evaluation.specs.Gives.{Gives, IsReady, Stand};
ghost use Rattle.query_calls.specs.Arguments.{AllStand};
ghost use Rattle.query_calls.specs.Table as table;

use crate::distinct::distinct_values;
use crate::focus::{last, name_of_context, position, root_of_context, string_of_context};
use crate::items::{count, data, empty, exists, reverse};
use crate::joined::string_join;
use crate::nodes::{doc, name, root, string};
use crate::strings::{concat, contains, ends_with, starts_with, string_length};
use crate::sums::sum;
use crate::truths::{boolean, not, truth_value};
use evaluation::{Environment, Evaluation, Sequence};
use fault_codes::Code;
use query_grammar::Function;
use values::ValueFault;

/// What a function makes of the values of its arguments. Codes: XPST0017 where there is none, or it takes another number of them; those of
/// the function.
pub fn applied(
    run: &mut Evaluation,
    function: Option<Function>,
    values: &[Sequence],
    env: &Environment,
) -> Result<Sequence, ValueFault>
    requires ready { IsReady env.now run.old }
    requires stand { AllStand values.now run.old }
    ensures { Gives (functions.applied function env.now values.now) run.old result run.new }
{
    match function {
        Some(function) => of_values(run, function, values, env),
        None => Err(ValueFault::Code(Code::XPST0017)),
    }
}

/// The same of a function that there is, by how many values there are.
fn of_values(
    run: &mut Evaluation,
    function: Function,
    values: &[Sequence],
    env: &Environment,
) -> Result<Sequence, ValueFault>
    requires ready { IsReady env.now run.old }
    requires stand { AllStand values.now run.old }
    ensures { Gives (functions.application function env.now values.now) run.old result run.new }
{
    match values {
        [] => of_none(run, function, env),
        [value] => of_one(run, function, value),
        [_, _, ..] => of_more(run, function, values),
    }
}

/// A function without arguments. Codes: XPST0017 where it takes some; those of the function.
fn of_none(
    run: &mut Evaluation,
    function: Function,
    env: &Environment,
) -> Result<Sequence, ValueFault>
    requires ready { IsReady env.now run.old }
    ensures { Gives (functions.application function env.now []) run.old result run.new }
{
    match function {
        Function::Root => root_of_context(run, env),
        Function::Name => name_of_context(run, env),
        Function::String => string_of_context(run, env),
        Function::True => truth_value(run, true),
        Function::False => truth_value(run, false),
        Function::Position => position(run, env),
        Function::Last => last(run, env),
        _ => Err(ValueFault::Code(Code::XPST0017)),
    }
}

/// A function with one argument. Codes: XPST0017 where it takes another number; those of the function.
fn of_one(
    run: &mut Evaluation,
    function: Function,
    value: &Sequence,
) -> Result<Sequence, ValueFault>
    requires stand { Stand value.now run.old }
    ensures { Gives (functions.application function no_environment (value.now ∷ [])) run.old result run.new }
{
    match function {
        Function::Doc => doc(run, value),
        Function::Root => root(run, value),
        Function::Name => name(run, value),
        Function::String => string(run, value),
        Function::Data => data(run, value),
        Function::Count => count(run, value),
        Function::Empty => empty(run, value),
        Function::Exists => exists(run, value),
        Function::Reverse => reverse(run, value),
        Function::Not => not(run, value),
        Function::Boolean => boolean(run, value),
        Function::StringLength => string_length(run, value),
        Function::Sum => sum(run, value),
        Function::DistinctValues => distinct_values(run, value),
        _ => Err(ValueFault::Code(Code::XPST0017)),
    }
}

/// A function with more than one argument. Codes: XPST0017 where it takes another number; those of the function.
fn of_more(
    run: &mut Evaluation,
    function: Function,
    values: &[Sequence],
) -> Result<Sequence, ValueFault>
    requires stand { AllStand values.now run.old }
    ensures { Gives (table.of_more function values.now) run.old result run.new }
{
    match function {
        Function::Concat => concat(run, values),
        _ => of_several(run, function, values),
    }
}

/// A function but `concat` with two arguments. Codes: XPST0017 where it takes another number, or the arguments are more; those of the
/// function.
fn of_several(
    run: &mut Evaluation,
    function: Function,
    values: &[Sequence],
) -> Result<Sequence, ValueFault>
    requires stand { AllStand values.now run.old }
    ensures { Gives (table.of_several function values.now) run.old result run.new }
{
    match values {
        [left, right] => of_two(run, function, left, right),
        _ => Err(ValueFault::Code(Code::XPST0017)),
    }
}

/// A function but `concat` with two arguments. Codes: XPST0017 where it takes another number; those of the function.
fn of_two(
    run: &mut Evaluation,
    function: Function,
    left: &Sequence,
    right: &Sequence,
) -> Result<Sequence, ValueFault>
    requires left { Stand left.now run.old }
    requires right { Stand right.now run.old }
    ensures { Gives (table.of_two function left.now right.now) run.old result run.new }
{
    match function {
        Function::Contains => contains(run, left, right),
        Function::StartsWith => starts_with(run, left, right),
        Function::EndsWith => ends_with(run, left, right),
        Function::StringJoin => string_join(run, left, right),
        _ => Err(ValueFault::Code(Code::XPST0017)),
    }
}

//! The value of an expression, form by form.

ghost use Rattle.query_meaning.specs.Meaning.{mean};
ghost use Rattle.evaluation.specs.Gives.{Gives, IsReady, Stand};
ghost use Rattle.query_control.specs.Operations.{set_operated};
ghost use Rattle.evaluator.specs.Uncounted.{uncounted};

use evaluation::{Environment, Evaluation, Sequence};
use query_calls::Calls;
use query_constructors::Constructors;
use query_control::{Forms, SetOperator, context_item, number, string, variable};
use query_copies::Copies;
use query_elements::Elements;
use query_grammar::Expr;
use query_paths::Paths;
use query_steps::{except, intersect, union};
use query_updates::Updates;
use values::ValueFault;

/// The items of an expression, in an environment whose nodes stand among the trees. Its work is counted.
///
/// Faults: `Memory`; `Code` with the code of the first fault of the evaluation, PXQ0002 where too little work is left. Nothing is said then
/// of what the evaluation has made.
#[cycle(value_of)]
pub fn value_of(run: &mut Evaluation, x: &Expr, env: &Environment) -> Result<Sequence, ValueFault>
    requires ready { IsReady env.now run.old }
    ensures { Gives (mean x.now env.now) run.old result run.new }
{
    let items = value_by_form(run, x, env)?;
    run.count(&items)?;
    Ok(items)
}

/// The same, by the form of the expression and before its work is counted.
#[cycle(value_of)]
fn value_by_form(run: &mut Evaluation, x: &Expr, env: &Environment) -> Result<Sequence, ValueFault>
    requires ready { IsReady env.now run.old }
    ensures { Gives (uncounted x.now env.now) run.old result run.new }
{
    let forms = Forms { value_of };
    let paths = Paths { value_of };
    let calls = Calls { value_of };
    let constructors = Constructors { value_of };
    let elements = Elements { constructors };
    let updates = Updates { value_of };
    let copies = Copies { value_of };
    match x {
        Expr::Integer(literal) => number(run, *literal, env),
        Expr::String(text) => string(run, text, env),
        Expr::Variable(name) => variable(run, name, env),
        Expr::Context => context_item(run, env),
        Expr::Sequence(parts) => forms.sequence(run, parts, env),
        Expr::Call(function, arguments) => calls.call(run, *function, arguments, env),
        Expr::Document(content) => elements.document(run, content, env),
        Expr::Element(name, content) => elements.element(run, name, content, env),
        Expr::Attribute(name, content) => constructors.attribute(run, name, content, env),
        Expr::Text(content) => constructors.text(run, content, env),
        Expr::Comment(content) => constructors.comment(run, content, env),
        Expr::Instruction(name, content) => constructors.instruction(run, name, content, env),
        Expr::Step(axis, test, predicates) => paths.step(run, *axis, test, predicates, env),
        Expr::Filter(base, predicates) => paths.filter(run, base, predicates, env),
        Expr::Path(first, others) => paths.path(run, first, others, env),
        Expr::Signed(signs, operand) => forms.signed(run, signs, operand, env),
        Expr::Chain(first, operations) => forms.chain(run, &set_of, first, operations, env),
        Expr::If(test, then, otherwise) => forms.conditional(run, test, then, otherwise, env),
        Expr::Quantified(quantifier, bindings, test) => {
            forms.quantified(run, *quantifier, bindings, test, env)
        }
        Expr::Flwor(clauses, condition, keys, body) => {
            forms.flwor(run, clauses, condition, keys, body, env)
        }
        Expr::Insert(source, place, target) => updates.insert(run, source, *place, target, env),
        Expr::Delete(target) => updates.delete(run, target, env),
        Expr::ReplaceNode(target, source) => updates.replace_node(run, target, source, env),
        Expr::ReplaceValue(target, source) => updates.replace_value(run, target, source, env),
        Expr::Rename(target, name) => updates.rename(run, target, name, env),
        Expr::Copy(bindings, changes, returned) => {
            copies.copy(run, bindings, changes, returned, env)
        }
    }
}

/// An operator between sets of nodes.
fn set_of(
    run: &mut Evaluation,
    operator: SetOperator,
    left: &Sequence,
    right: &Sequence,
) -> Result<Sequence, ValueFault>
    requires left { Stand left.now run.old }
    requires right { Stand right.now run.old }
    ensures { Gives (set_operated operator left.now right.now) run.old result run.new }
{
    match operator {
        SetOperator::Union => union(run, left, right),
        SetOperator::Intersect => intersect(run, left, right),
        SetOperator::Except => except(run, left, right),
    }
}

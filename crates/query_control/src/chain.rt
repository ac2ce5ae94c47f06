//! Operators of one level, from the left (XQuery 1.0, sections 3.3 to 3.6).

ghost use Rattle.std.specs.Prelude.{◌≡◌, ◌∷◌, [], map, None};
ghost use Rattle.query_meaning.specs.Meaning.{mean};
ghost use Rattle.query_meaning.specs.Operators as meaning;
ghost use Rattle.evaluation.specs.Evaluates.{Evaluates, EvaluatesEach};
ghost use Rattle.evaluation.specs.Gives.{Gives, IsReady, Stand};
ghost use Rattle.query_control.specs.Operations as part;
ghost use Rattle.query_control.specs.Sets.{ComputesSets};

use crate::forms::Forms;
use evaluation::{Environment, Evaluation, Sequence, Value, value_of_part};
use query_grammar::{Binary, Expr, Operation};
use query_operators::{
    calculated, compared_by_pairs, compared_by_value, follows, is_same, precedes, ranged,
};
use sqlite_items::{Boxed, Items};
use values::ValueFault;

/// The operators between sets of nodes.
#[derive(Clone, Copy, PartialEq, Eq, Debug)]
pub enum SetOperator {
    /// `union` and `|`
    Union,
    /// `intersect`
    Intersect,
    /// `except`
    Except,
}

impl<F: Fn(&mut Evaluation, &Expr, &Environment) -> Result<Sequence, ValueFault>> Forms<F> {
    /// An expression, and operators with their right operands, from the left: `a + b - ..` (XQuery 1.0, sections 3.3 to 3.6). `set_of` is called with the
    /// operators between sets of nodes, and the items on both sides. The work of each operator is counted. Codes: that of the first operand or operator that
    /// has one; PXQ0002 where too little work is left.
    pub fn chain<S>(
        &self,
        run: &mut Evaluation,
        set_of: &S,
        first: &Boxed<Expr>,
        operations: &Items<Operation<Expr>>,
        env: &Environment,
    ) -> Result<Sequence, ValueFault>
    where
        S: Fn(&mut Evaluation, SetOperator, &Sequence, &Sequence) -> Result<Sequence, ValueFault>,
        requires first { Evaluates (F.pre self.now.value_of) (F.post self.now.value_of) (first.now ∷ []) }
        requires operations { EvaluatesEach (F.pre self.now.value_of) (F.post self.now.value_of) part.operand_of operations.now }
        requires sets { ComputesSets (S.pre set_of.now) (S.post set_of.now) }
        requires ready { IsReady env.now run.old }
        ensures { Gives (meaning.chain (mean first.now) (map (part.operation_of mean) operations.now) env.now) run.old result run.new }
    {
        let left = value_of_part(&self.value_of, run, first.get(), env)?;
        self.operated_in_turn(run, set_of, left, operations.as_slice(), env)
    }

    fn operated_in_turn<S>(
        &self,
        run: &mut Evaluation,
        set_of: &S,
        left: Value,
        operations: &[Operation<Expr>],
        env: &Environment,
    ) -> Result<Sequence, ValueFault>
    where
        S: Fn(&mut Evaluation, SetOperator, &Sequence, &Sequence) -> Result<Sequence, ValueFault>,
        requires operations { EvaluatesEach (F.pre self.now.value_of) (F.post self.now.value_of) part.operand_of operations.now }
        requires sets { ComputesSets (S.pre set_of.now) (S.post set_of.now) }
        requires ready { IsReady env.now run.old }
        requires left { Stand left run.old }
        ensures { Gives (part.operated_in_turn (map (part.operation_of mean) operations.now) env.now left.entry) run.old result run.new }
    {
        let mut given = left;
        for operation in operations {
            let items = self.and_operation(run, set_of, given.items(), operation, env)?;
            given = Value::made(items);
        }
        Ok(given.into_items(run.alloc())?)
    }

    fn and_operation<S>(
        &self,
        run: &mut Evaluation,
        set_of: &S,
        given: &Sequence,
        operation: &Operation<Expr>,
        env: &Environment,
    ) -> Result<Sequence, ValueFault>
    where
        S: Fn(&mut Evaluation, SetOperator, &Sequence, &Sequence) -> Result<Sequence, ValueFault>,
        requires evaluates { Evaluates (F.pre self.now.value_of) (F.post self.now.value_of) (part.operand_of operation.now ∷ []) }
        requires sets { ComputesSets (S.pre set_of.now) (S.post set_of.now) }
        requires ready { IsReady env.now run.old }
        requires given { Stand given.now run.old }
        ensures { Gives (part.and_operation env.now given.now (part.operation_of mean operation.now)) run.old result run.new }
    {
        let items = self.operated(run, set_of, given, operation, env)?;
        run.count(&items)?;
        Ok(items)
    }

    fn operated<S>(
        &self,
        run: &mut Evaluation,
        set_of: &S,
        given: &Sequence,
        operation: &Operation<Expr>,
        env: &Environment,
    ) -> Result<Sequence, ValueFault>
    where
        S: Fn(&mut Evaluation, SetOperator, &Sequence, &Sequence) -> Result<Sequence, ValueFault>,
        requires evaluates { Evaluates (F.pre self.now.value_of) (F.post self.now.value_of) (part.operand_of operation.now ∷ []) }
        requires sets { ComputesSets (S.pre set_of.now) (S.post set_of.now) }
        requires ready { IsReady env.now run.old }
        requires given { Stand given.now run.old }
        ensures { Gives (meaning.operated operation.now.operator given.now (mean operation.now.operand env.now)) run.old result run.new }
    {
        if let Some(deciding) = deciding(operation.operator) {
            return self.either_side(run, deciding, given, &operation.operand, env);
        }
        let right = value_of_part(&self.value_of, run, &operation.operand, env)?;
        between(run, set_of, operation.operator, given, right.items())
    }
}

/// Which value of its left side decides `and` or `or`.
fn deciding(operator: Binary) -> Option<bool>
    ensures { result ≡ part.deciding operator }
{
    match operator {
        Binary::Or => Some(true),
        Binary::And => Some(false),
        _ => None,
    }
}

/// An operator whose sides are both evaluated.
fn between<S>(
    run: &mut Evaluation,
    set_of: &S,
    operator: Binary,
    left: &Sequence,
    right: &Sequence,
) -> Result<Sequence, ValueFault>
where
    S: Fn(&mut Evaluation, SetOperator, &Sequence, &Sequence) -> Result<Sequence, ValueFault>,
    requires sets { ComputesSets (S.pre set_of.now) (S.post set_of.now) }
    requires both { part.deciding operator ≡ None }
    requires left { Stand left.now run.old }
    requires right { Stand right.now run.old }
    ensures { Gives (part.between operator left.now right.now) run.old result run.new }
{
    match operator {
        Binary::Or | Binary::And => unreachable!(),
        Binary::General(op) => compared_by_pairs(run, op, left, right),
        Binary::Value(op) => compared_by_value(run, op, left, right),
        Binary::Is => is_same(run, left, right),
        Binary::Precedes => precedes(run, left, right),
        Binary::Follows => follows(run, left, right),
        Binary::To => ranged(run, left, right),
        Binary::Arithmetic(op) => calculated(run, op, left, right),
        Binary::Union => set_of(run, SetOperator::Union, left, right),
        Binary::Intersect => set_of(run, SetOperator::Intersect, left, right),
        Binary::Except => set_of(run, SetOperator::Except, left, right),
    }
}

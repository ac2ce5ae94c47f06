//! What stands for an item in an expression.

ghost use Rattle.std.specs.Prelude.{◌≡◌, true, IsTrue};
ghost use Rattle.evaluation.specs.Gives.{Any, GivesIn};
ghost use Rattle.item_expressions.specs.Subjects.{IsVariable, subject_expression, subject_work};

use evaluation::{Evaluation, is_same_name};
use query_grammar::Expr;
use values::{Text, ValueFault};

/// What stands for an item in an expression.
#[derive(Clone, Copy)]
pub enum Subject<'x> {
    /// The variable of that name, which was bound last, to the item alone.
    Variable(&'x Text),
    /// The context item.
    Context,
}

impl<'x> Subject<'x> {
    /// Whether it is the variable of that name.
    pub(crate) fn is_variable(self, name: &Text) -> bool
        ensures { IsTrue result → IsVariable name.now self.entry }
    {
        match self {
            Subject::Variable(variable) => is_same_name(name.as_str(), variable.as_str()),
            Subject::Context => false,
        }
    }

    /// Whether an expression is what stands for an item.
    pub(crate) fn is_expression(self, x: &Expr) -> bool
        ensures { result ≡ true → x.now ≡ subject_expression self.entry }
    {
        match (x, self) {
            (Expr::Variable(name), Subject::Variable(variable)) => {
                is_same_name(name.as_str(), variable.as_str())
            }
            (Expr::Context, Subject::Context) => true,
            _ => false,
        }
    }

    /// Takes the work of its value. Code: PXQ0002 where there is less.
    pub(crate) fn pay(self, run: &mut Evaluation) -> Result<(), ValueFault>
        ensures taken { GivesIn Any (subject_work self.entry) run.old result run.new }
        ensures same { run.new ≡ record run.old { work = run.new.work } }
    {
        if let Subject::Variable(_) = self {
            run.spend(1)?; // to look for it
        }
        run.spend(2)
    }
}

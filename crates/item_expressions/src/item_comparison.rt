//! General comparisons of items with a literal, read once for many items (XQuery 1.0, section 3.5.2).

ghost use Rattle.std.specs.Prelude.{◌≡◌, IfOk, IfSome, IsTrue, OnOk};
ghost use Rattle.query_meaning.specs.Environment.{Environment};
ghost use Rattle.query_meaning.specs.Meaning.{mean};
ghost use Rattle.query_meaning.specs.Running.{trees_of};
ghost use Rattle.evaluation.specs.Gives.{Any, Gives, GivesIn};
ghost use Rattle.read_items.specs.Read.{IsRead};
ghost use Rattle.item_expressions.specs.Compared.{IsLiteral, item_holds, literal_expression, literal_in, said, sides};
ghost use Rattle.item_expressions.specs.Subjects.{IsVariable, StandsFor};

use crate::subject::Subject;
use evaluation::Evaluation;
use query_grammar::{Binary, Expr};
use read_items::{ReadItem, compare_items};
use std::alloc::AllocError;
use std::marker::Model;
use values::{Atom, Comparison, Item, Text, ValueFault};

/// A general comparison of what stands for an item with a literal on its right. Contracts see it as the expression that it was read from.
pub struct ItemComparison<'x> {
    subject: Subject<'x>,
    operator: Comparison,
    /// An atomic value.
    literal: Item,
}

// By one call, whose contract is all that a caller's proof sees of it.
impl Drop for ItemComparison<'_> {
    fn drop(self) {
        let ItemComparison {
            subject: _,
            operator: _,
            literal: _,
        } = self;
    }
}

impl<'x> Model for ItemComparison<'x> {
    ghost use Rattle.item_expressions.specs.Compared.{IsLiteral, compared_of};
    ghost use Rattle.item_expressions.specs.Subjects.{OfSubject};
    ghost use Rattle.std.specs.Coded.{codes};
    ghost use Rattle.query_grammar.specs.contracts.ast.Expr as of_expr;

    ghost Value = { OfSubject };

    ghost coded = { Prim.hlevel (codes, of_expr.the_row.coded) };

    ghost view = { compared_of };

    ghost invariant = { λ c. IsLiteral c.literal };
}

impl<'x> ItemComparison<'x> {
    /// The comparison that an expression is, if it is one of what stands for an item with a literal. It fails where memory is refused.
    pub fn of(x: &Expr, subject: Subject<'x>) -> Result<Option<ItemComparison<'x>>, AllocError>
        ensures { IfOk result (λ found. IfSome found (λ c. (c.subject ≡ subject.entry) × (c.expression ≡ x.now))) }
    {
        let Expr::Chain(first, operations) = x else {
            return Ok(None);
        };
        let [operation] = operations.as_slice() else {
            return Ok(None);
        };
        let Binary::General(operator) = operation.operator else {
            return Ok(None);
        };
        if !subject.is_expression(first.get()) {
            return Ok(None);
        }
        let Some(literal) = literal_of(&operation.operand)? else {
            return Ok(None);
        };
        Ok(Some(ItemComparison {
            subject,
            operator,
            literal,
        }))
    }

    /// Whether what stands for an item is the variable of that name.
    pub fn is_of(&self, variable: &Text) -> bool
        ensures { IsTrue result → IsVariable variable.now self.now.subject }
    {
        self.subject.is_variable(variable)
    }

    /// Whether the comparison holds of an item: what the expression gives in each environment in which its subject stands for that item, for the same
    /// turn and work. Faults: `Memory`; `Code` with PXQ0002 where the item's string value is too long, no turn is left, or too little work, with
    /// FORG0001 where an untyped value does not read as the literal's integer, or with XPTY0004 where the two are of different types.
    pub fn holds(&self, run: &mut Evaluation, item: &ReadItem) -> Result<bool, ValueFault>
        requires read { IsRead (trees_of run.old) item.now }
        ensures holds { (env : Environment) → StandsFor self.now.subject item.now.item.now env → Gives (mean self.now.expression env) run.old (said result) run.new }
        ensures same { OnOk result (run.new ≡ record run.old { turns = run.new.turns; work = run.new.work }) }
    {
        holds_of(run, self.subject, self.operator, item, &self.literal)
    }
}

/// Whether a comparison of what stands for an item with a literal holds.
fn holds_of(
    run: &mut Evaluation,
    subject: Subject<'_>,
    operator: Comparison,
    item: &ReadItem,
    literal: &Item,
) -> Result<bool, ValueFault>
    requires read { IsRead (trees_of run.old) item.now }
    requires literal { IsLiteral literal.now }
    ensures holds { GivesIn Any (item_holds subject.entry operator item.now.item.now literal.now) run.old result run.new }
    ensures same { OnOk result (run.new ≡ record run.old { turns = run.new.turns; work = run.new.work }) }
{
    pay_sides(run, subject)?;
    let holds = compare_items(run, operator, item, &ReadItem::unread(literal))?;
    run.spend(2)?; // for what the operator gives
    run.spend(2)?; // for what the expression gives
    Ok(holds)
}

/// Takes the work of both sides.
pub(crate) fn pay_sides(run: &mut Evaluation, subject: Subject<'_>) -> Result<(), ValueFault>
    ensures taken { GivesIn Any (sides subject.entry) run.old result run.new }
    ensures same { run.new ≡ record run.old { work = run.new.work } }
{
    subject.pay(run)?;
    run.spend(2)
}

/// The value of a literal. It fails where memory is refused.
pub(crate) fn literal_of(x: &Expr) -> Result<Option<Item>, AllocError>
    ensures { IfOk result (λ found. IfSome found (λ y. (literal_expression (literal_in y) ≡ x.now) × IsLiteral y)) }
{
    match x {
        Expr::Integer(literal) => Ok(Some(Item::Atomic(Atom::Integer(literal.value())))),
        Expr::String(text) => Ok(Some(Item::Atomic(Atom::String(text.clone()?)))),
        _ => Ok(None),
    }
}

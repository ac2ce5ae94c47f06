//! Functions of an item (XQuery 1.0, sections 3.1.1, 3.1.2 and 3.1.5), read once for many items.

ghost use Rattle.std.specs.Prelude.{◌≡◌, IfOk, IfSome, IsTrue, OnOk};
ghost use Rattle.values.specs.declared.atom.Atom.TheVariants as atom;
ghost use Rattle.values.specs.declared.atom.Item.TheVariants as item;
ghost use Rattle.values.specs.Items.{IsThere};
ghost use Rattle.query_meaning.specs.Environment.{Environment};
ghost use Rattle.query_meaning.specs.Meaning.{mean};
ghost use Rattle.query_meaning.specs.Running.{trees_of};
ghost use Rattle.evaluation.specs.Gives.{Any, Gives, GivesIn};
ghost use Rattle.read_items.specs.Read.{IsRead};
ghost use Rattle.item_expressions.specs.Applied.{IsIn, IsMade, applied, calculated_with, concatenated_with, given_one, joined, length_at, printed_string, tested_with};
ghost use Rattle.item_expressions.specs.Compared.{IsLiteral};
ghost use Rattle.item_expressions.specs.Numbers.{number_of};
ghost use Rattle.item_expressions.specs.Subjects.{IsVariable, StandsFor};

use crate::item_comparison::{literal_of, pay_sides};
use crate::subject::Subject;
use evaluation::Evaluation;
use fault_codes::Code;
use query_grammar::{Binary, Clause, Expr, Function};
use query_strings::{TextTest, item_length, printed_item, separated, text_in};
use read_items::ReadItem;
use std::alloc::AllocError;
use std::marker::Model;
use std::slice;
use values::{Atom, Item, Operator, Text, ValueFault, arithmetic, text_work};

/// What is made of an item.
#[derive(Drop)]
enum Made {
    /// The item itself.
    Itself,
    /// `string`
    String,
    /// `string-length`
    Length,
    /// An atomic value, whatever the item.
    Literal(Item),
    /// `concat`, with an atomic value after the item.
    Concat(Item),
    /// What is asked of its text and that of an atomic value.
    Tested(TextTest, Item),
    /// An arithmetic operator, with an atomic value on its right.
    Calculated(Operator, Item),
}

/// What stands for an item, one of some functions of it and a literal at the most, or a literal. Contracts see it as the expression that it was
/// read from.
pub struct ItemFunction<'x> {
    subject: Subject<'x>,
    made: Made,
}

// By one call, whose contract is all that a caller's proof sees of it.
impl Drop for ItemFunction<'_> {
    fn drop(self) {
        let ItemFunction {
            subject: _,
            made: _,
        } = self;
    }
}

impl<'x> Model for ItemFunction<'x> {
    ghost use Rattle.item_expressions.specs.Applied.{IsMade, function_of};
    ghost use Rattle.item_expressions.specs.Subjects.{OfSubject};
    ghost use Rattle.std.specs.Coded.{codes};
    ghost use Rattle.query_grammar.specs.contracts.ast.Expr as of_expr;

    ghost Value = { OfSubject };

    ghost coded = { Prim.hlevel (codes, of_expr.the_row.coded) };

    ghost view = { function_of };

    ghost invariant = { λ f. IsMade f.made };
}

impl<'x> ItemFunction<'x> {
    /// The function that an expression is, if it is one of what stands for an item. It fails where memory is refused.
    pub fn of(x: &Expr, subject: Subject<'x>) -> Result<Option<ItemFunction<'x>>, AllocError>
        ensures { IfOk result (λ found. IfSome found (λ f. (f.subject ≡ subject.entry) × (f.expression ≡ x.now))) }
    {
        if subject.is_expression(x) {
            return Ok(Some(ItemFunction {
                subject,
                made: Made::Itself,
            }));
        }
        if let Some(value) = literal_of(x)? {
            return Ok(Some(ItemFunction {
                subject,
                made: Made::Literal(value),
            }));
        }
        if let Some(function) = ItemFunction::of_call(x, subject) {
            return Ok(Some(function));
        }
        if let Some(function) = ItemFunction::of_call_with(x, subject)? {
            return Ok(Some(function));
        }
        ItemFunction::of_calculation(x, subject)
    }

    /// The same of an expression that is a call with one argument.
    fn of_call(x: &Expr, subject: Subject<'x>) -> Option<ItemFunction<'x>>
        ensures { IfSome result (λ f. (f.subject ≡ subject.entry) × (f.expression ≡ x.now)) }
    {
        let Expr::Call(Some(function), arguments) = x else {
            return None;
        };
        let [argument] = arguments.as_slice() else {
            return None;
        };
        if !subject.is_expression(argument) {
            return None;
        }
        let made = match function {
            Function::String => Made::String,
            Function::StringLength => Made::Length,
            _ => return None,
        };
        Some(ItemFunction { subject, made })
    }

    /// The same of a call with a literal as its second argument.
    fn of_call_with(x: &Expr, subject: Subject<'x>) -> Result<Option<ItemFunction<'x>>, AllocError>
        ensures { IfOk result (λ found. IfSome found (λ f. (f.subject ≡ subject.entry) × (f.expression ≡ x.now))) }
    {
        let Expr::Call(Some(function), arguments) = x else {
            return Ok(None);
        };
        let [first, second] = arguments.as_slice() else {
            return Ok(None);
        };
        if !subject.is_expression(first) {
            return Ok(None);
        }
        let Some(literal) = literal_of(second)? else {
            return Ok(None);
        };
        let made = match function {
            Function::Concat => Made::Concat(literal),
            Function::Contains => Made::Tested(TextTest::Contains, literal),
            Function::StartsWith => Made::Tested(TextTest::StartsWith, literal),
            Function::EndsWith => Made::Tested(TextTest::EndsWith, literal),
            _ => return Ok(None),
        };
        Ok(Some(ItemFunction { subject, made }))
    }

    /// The same of an arithmetic operator with a literal.
    fn of_calculation(
        x: &Expr,
        subject: Subject<'x>,
    ) -> Result<Option<ItemFunction<'x>>, AllocError>
        ensures { IfOk result (λ found. IfSome found (λ f. (f.subject ≡ subject.entry) × (f.expression ≡ x.now))) }
    {
        let Expr::Chain(first, operations) = x else {
            return Ok(None);
        };
        let [operation] = operations.as_slice() else {
            return Ok(None);
        };
        let Binary::Arithmetic(operator) = operation.operator else {
            return Ok(None);
        };
        if !subject.is_expression(first.get()) {
            return Ok(None);
        }
        match literal_of(&operation.operand)? {
            Some(literal) => Ok(Some(ItemFunction {
                subject,
                made: Made::Calculated(operator, literal),
            })),
            None => Ok(None),
        }
    }

    /// The same of what follows some clauses, where the variable of the last one stands for an item. It fails where memory is refused.
    pub fn after(
        clauses: &'x [Clause<Expr>],
        x: &Expr,
    ) -> Result<Option<ItemFunction<'x>>, AllocError>
        ensures { IfOk result (λ found. IfSome found (λ f. f.expression ≡ x.now)) }
    {
        match clauses.split_last() {
            Some((Clause::For(binding), _)) => {
                ItemFunction::of(x, Subject::Variable(&binding.variable))
            }
            _ => Ok(None),
        }
    }

    /// Whether what stands for an item is the variable of that name.
    pub fn is_of(&self, variable: &Text) -> bool
        ensures { IsTrue result → IsVariable variable.now self.now.subject }
    {
        self.subject.is_variable(variable)
    }

    /// What is made of an item: what the expression gives in each environment in which its subject stands for that item, for the same work. Faults:
    /// `Memory`; `Code` with PXQ0002 where the item's string value is too long, or too little work is left, or with XPTY0004 where the length of an
    /// integer or a boolean is asked for; those of the typed values, of a text that gets too long, and of arithmetic.
    pub fn value(&self, run: &mut Evaluation, item: &ReadItem) -> Result<Item, ValueFault>
        requires read { IsRead (trees_of run.old) item.now }
        ensures value { (env : Environment) → StandsFor self.now.subject item.now.item.now env → Gives (mean self.now.expression env) run.old (given_one result) run.new }
        ensures there { IfOk result (IsThere (trees_of run.new)) }
        ensures same { OnOk result (run.new ≡ record run.old { work = run.new.work }) }
    {
        applied(run, self.subject, &self.made, item)
    }

    /// Whether it looks at the item's text.
    pub fn reads_text(&self) -> bool {
        match &self.made {
            Made::Itself | Made::Literal(_) => false,
            Made::Tested(_, _) | Made::Calculated(_, _) => false, // they look at the typed value
            Made::String | Made::Length | Made::Concat(_) => true,
        }
    }
}

/// What is made of an item.
fn applied(
    run: &mut Evaluation,
    subject: Subject<'_>,
    made: &Made,
    item: &ReadItem,
) -> Result<Item, ValueFault>
    requires read { IsRead (trees_of run.old) item.now }
    requires made { IsMade made.now }
    ensures value { GivesIn IsIn (applied subject.entry made.now item.now.item.now) run.old result run.new }
    ensures same { OnOk result (run.new ≡ record run.old { work = run.new.work }) }
{
    match made {
        Made::Itself => {
            subject.pay(run)?;
            Ok(item.item.clone()?)
        }
        Made::String => {
            subject.pay(run)?;
            printed_string(run, item)
        }
        Made::Length => {
            subject.pay(run)?;
            length(run, item)
        }
        Made::Literal(value) => {
            run.spend(2)?; // for what it gives
            Ok(value.clone()?)
        }
        Made::Concat(literal) => {
            pay_sides(run, subject)?;
            concatenated(run, item, literal)
        }
        Made::Tested(test, literal) => {
            pay_sides(run, subject)?;
            tested(run, *test, item.item, literal)
        }
        Made::Calculated(operator, literal) => {
            pay_sides(run, subject)?;
            calculated(run, *operator, item.item, literal)
        }
    }
}

/// Its typed value as a string, and the work of what the call gives.
fn printed_string(run: &mut Evaluation, item: &ReadItem) -> Result<Item, ValueFault>
    requires read { IsRead (trees_of run.old) item.now }
    ensures value { GivesIn IsIn (printed_string item.now.item.now) run.old result run.new }
    ensures same { OnOk result (run.new ≡ record run.old { work = run.new.work }) }
{
    let text = printed_item(run, item)?;
    run.spend(text_work(text.as_str()))?;
    run.spend(2)?;
    Ok(Item::Atomic(Atom::String(text)))
}

/// How many characters its text has, and the work of what the call gives.
fn length(run: &mut Evaluation, item: &ReadItem) -> Result<Item, ValueFault>
    requires read { IsRead (trees_of run.old) item.now }
    ensures value { GivesIn IsIn (length_at item.now.item.now) run.old result run.new }
    ensures same { OnOk result (run.new ≡ record run.old { work = run.new.work }) }
{
    let count = item_length(run, item)?;
    run.spend(2)?;
    match i64::try_from(count) {
        Ok(count) => Ok(integer(count)),
        // So long a text has no place in memory.
        Err(_) => Err(ValueFault::Memory),
    }
}

/// Its text with that of a literal after it, and the work of what the call gives.
fn concatenated(run: &mut Evaluation, item: &ReadItem, literal: &Item) -> Result<Item, ValueFault>
    requires read { IsRead (trees_of run.old) item.now }
    requires literal { IsLiteral literal.now }
    ensures value { GivesIn IsIn (concatenated_with literal.now item.now.item.now) run.old result run.new }
    ensures same { OnOk result (run.new ≡ record run.old { work = run.new.work }) }
{
    let first = printed_item(run, item)?;
    let second = printed_item(run, &ReadItem::unread(literal))?;
    joined(run, first.as_str(), second.as_str())
}

/// A text with another one after it, as an item that is made, and the work of what the call gives.
fn joined(run: &mut Evaluation, first: &str, second: &str) -> Result<Item, ValueFault>
    ensures value { GivesIn IsIn (joined first.now second.now) run.old result run.new }
    ensures same { OnOk result (run.new ≡ record run.old { work = run.new.work }) }
{
    let joined = separated(run.alloc(), "", &[first, second])?;
    let text = joined.into_text(run.alloc())?;
    run.spend(text_work(text.as_str()))?;
    run.spend(2)?;
    Ok(Item::Atomic(Atom::String(text)))
}

/// What is asked of its text and that of a literal, and the work of what the call gives. Codes: those of the typed values, and XPTY0004 where one is
/// an integer or a boolean.
fn tested(
    run: &mut Evaluation,
    test: TextTest,
    item: &Item,
    literal: &Item,
) -> Result<Item, ValueFault>
    requires there { IsThere (trees_of run.old) item.now }
    requires literal { IsLiteral literal.now }
    ensures value { GivesIn IsIn (tested_with test literal.now item.now) run.old result run.new }
    ensures same { OnOk result (run.new ≡ record run.old { work = run.new.work }) }
{
    let text = run.atom(item)?;
    let part = run.atom(literal)?;
    let holds = test.holds(text_in(&text)?, text_in(&part)?);
    run.spend(2)?;
    Ok(Item::Atomic(Atom::Boolean(holds)))
}

/// What an arithmetic operator makes of its typed value and a literal, and the work of what the operator and the expression give.
fn calculated(
    run: &mut Evaluation,
    operator: Operator,
    item: &Item,
    literal: &Item,
) -> Result<Item, ValueFault>
    requires there { IsThere (trees_of run.old) item.now }
    requires literal { IsLiteral literal.now }
    ensures value { GivesIn IsIn (calculated_with operator literal.now item.now) run.old result run.new }
    ensures same { OnOk result (run.new ≡ record run.old { work = run.new.work }) }
{
    let left = run.atom(item)?;
    let right = run.atom(literal)?;
    let value = number_of(operator, &left, &right)?;
    run.spend(2)?;
    run.spend(2)?;
    Ok(integer(value))
}

/// What an arithmetic operator makes of one value on each side. Codes: those of the operands and of the result.
fn number_of(operator: Operator, left: &Atom, right: &Atom) -> Result<i64, Code>
    ensures { result ≡ number_of operator left.now right.now }
{
    match arithmetic(operator, slice::from_ref(left), slice::from_ref(right)) {
        Ok(Some(value)) => Ok(value),
        Ok(None) => unreachable!(), // neither side is empty
        Err(code) => Err(code),
    }
}

/// An integer, as an item.
fn integer(value: i64) -> Item
    ensures { result ≡ item.Atomic (atom.Integer value) }
{
    Item::Atomic(Atom::Integer(value))
}

//! `sum` (Functions and Operators, section 15.4.5).

ghost use Rattle.std.specs.Prelude.{◌≡◌, ◌+◌, ◌+ℤ◌, pos, Ok, IfSome};
ghost use Rattle.shelves.specs.Shelf.{shelf_trees};
ghost use Rattle.values.specs.Arithmetic.{in_range};
ghost use Rattle.values.specs.Atoms.{bounded};
ghost use Rattle.values.specs.Items.{AreThere, IsThere};
ghost use Rattle.values.specs.declared.atom.Atom.TheVariants.{Untyped};
ghost use Rattle.query_meaning.specs.Functions as functions;
ghost use Rattle.query_meaning.specs.Running.{Run, come_to, each};
ghost use Rattle.evaluation.specs.Gives.{Gives, Stand};
ghost use Rattle.query_calls.specs.Parts.{sum_of};
ghost use Rattle.query_calls.specs.Totals.{and_item, and_value, no_total, total_of, total_paid};

use crate::sequences::integer_of;
use data_model::limits::MOST_BYTES;
use evaluation::{Evaluation, Sequence};
use fault_codes::Code;
use shelves::Shelf;
use trees::Kind;
use values::{Atom, Item, Text, ValueFault, read_integer, text_work};

/// `sum`: the sum of integers from the left, 0 where there are none; an untyped value is read as one (Functions and Operators, section
/// 15.4.5). Codes: PXQ0002 where a string value is too long or too little work is left; FORG0006 at a string or a boolean; FORG0001 where
/// an untyped value doesn't read as an integer; FOAR0002 where a sum on the way is out of range.
pub fn sum(run: &mut Evaluation, items: &Sequence) -> Result<Sequence, ValueFault>
    requires stand { Stand items.now run.old }
    ensures { Gives (functions.sum items.now) run.old result run.new }
{
    if let Some(total) = total_of(run.shelf(), items.as_slice()) {
        return paid(run, total);
    }
    let values = run.atoms(items)?;
    sum_of(run, &values)
}

/// A sum of values that are read where they lie.
#[derive(Clone, Copy)]
struct LentTotal {
    /// The sum.
    sum: i64,
    /// The work of these values.
    work: u64,
}

/// The sum of items' values, read where they lie; `None` where one is a string, a boolean or no integer, a text has to be put together or is too
/// long, or a sum on the way is out of range. It takes no memory.
fn total_of(shelf: &Shelf, items: &[Item]) -> Option<LentTotal>
    requires there { AreThere (shelf_trees shelf.now) items.now }
    ensures { IfSome result (λ total. total_of (shelf_trees shelf.now) items.now no_total ≡ Ok total) }
{
    let mut total = LentTotal { sum: 0, work: 0 };
    for item in items {
        total = total.and_item(shelf, item)?;
    }
    Some(total)
}

impl LentTotal {
    /// With the value of an item more; `None` as `total_of` has it.
    fn and_item(self, shelf: &Shelf, item: &Item) -> Option<LentTotal>
        requires there { IsThere (shelf_trees shelf.now) item.now }
        ensures { IfSome result (λ more. and_item (shelf_trees shelf.now) self item.now ≡ Ok more) }
    {
        match item {
            Item::Node(node) => {
                let plain = shelf.plain_value(*node)?;
                let text = untyped_text(plain.kind, plain.text)?;
                self.and_untyped(text, plain.size)
            }
            Item::Atomic(Atom::Untyped(text)) => self.and_untyped(text.as_str(), 0),
            Item::Atomic(Atom::Integer(addend)) => self.and(*addend, 0),
            Item::Atomic(Atom::String(_) | Atom::Boolean(_)) => None,
        }
    }

    /// With an untyped value more, for which so many nodes are gone through; `None` where it doesn't read as an integer, and as `and` has it.
    fn and_untyped(self, text: &str, nodes: u64) -> Option<LentTotal>
        ensures { IfSome result (λ more. and_value self nodes (Untyped text.now) ≡ Ok more) }
    {
        let addend = read_integer(text)?;
        let work = nodes.checked_add(text_work(text))?;
        self.and(addend, work)
    }

    /// With an integer more, and the work of its value; `None` where the sum is out of range, or 64 bits do not hold the work.
    fn and(self, addend: i64, work: u64) -> Option<LentTotal>
        ensures sum { IfSome result (λ more. in_range (self.sum +ℤ addend) ≡ Ok more.sum) }
        ensures work { IfSome result (λ more. more.work ≡ self.work + work) }
    {
        Some(LentTotal {
            sum: self.sum.checked_add(addend)?,
            work: self.work.checked_add(work)?,
        })
    }
}

/// The text, where it is that of an untyped value of at most 65,536 bytes; `None` of a string, and of a longer one.
fn untyped_text(kind: Kind, text: &Text) -> Option<&str>
    ensures { IfSome result (λ untyped. bounded kind text.now ≡ Ok (Untyped untyped.now)) }
{
    let text = text.as_str();
    if text.len() > MOST_BYTES {
        return None;
    }
    match kind {
        Kind::Document | Kind::Element | Kind::Attribute | Kind::Text => Some(text),
        Kind::Comment | Kind::Instruction => None,
    }
}

/// A sum, for the work of its values.
fn paid(run: &mut Evaluation, total: LentTotal) -> Result<Sequence, ValueFault>
    ensures { Gives (total_paid total) run.old result run.new }
{
    run.spend(total.work)?;
    integer_of(run, total.sum)
}

fn sum_of(run: &mut Evaluation, values: &[Atom]) -> Result<Sequence, ValueFault>
    ensures { Gives (sum_of values.now) run.old result run.new }
{
    let total = total(values)?;
    integer_of(run, total)
}

/// The sum. Codes: FORG0006, FORG0001 and FOAR0002, as `sum` has them.
fn total(values: &[Atom]) -> Result<i64, Code>
    ensures { (run : Run) → come_to result run ≡ each (λ _. functions.and_addend) 0 values.now (pos 0) run }
{
    let mut total = 0;
    for value in values {
        total = and_addend(total, value)?;
    }
    Ok(total)
}

/// The sum so far with a value more. Codes: those of the value; FOAR0002 where it passes the range.
fn and_addend(total: i64, value: &Atom) -> Result<i64, Code>
    ensures { (run : Run) → come_to result run ≡ functions.and_addend total value.now run }
{
    let addend = addend(value)?;
    total.checked_add(addend).ok_or(Code::FOAR0002)
}

/// A value as an integer. Codes: FORG0006 at a string or a boolean; FORG0001 where an untyped value doesn't read as one.
fn addend(value: &Atom) -> Result<i64, Code>
    ensures { result ≡ functions.addend value.now }
{
    match value {
        Atom::Integer(value) => Ok(*value),
        Atom::Untyped(text) => read_integer(text.as_str()).ok_or(Code::FORG0001),
        Atom::String(_) | Atom::Boolean(_) => Err(Code::FORG0006),
    }
}

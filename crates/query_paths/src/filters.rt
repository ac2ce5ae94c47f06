//! Predicates, and the filter expressions that have them (XQuery 1.0, sections 3.2.2 and 3.3.2).

ghost use Rattle.std.specs.Prelude.{◌≡◌, ℕ, ◌≤◌, ◌<◌, ◌+◌, ◌^◌, ◌∷◌, [], length, map, pos, option_copied, IfOk, Ok};
ghost use Rattle.values.specs.Items.{IsThere};
ghost use Rattle.values.specs.Arithmetic.{in_range};
ghost use Rattle.query_meaning.specs.Environment.{with_focus};
ghost use Rattle.query_meaning.specs.Meaning.{mean};
ghost use Rattle.query_meaning.specs.Paths as meaning;
ghost use Rattle.query_meaning.specs.Running.{trees_of};
ghost use Rattle.item_expressions.specs.declared.subject.Subject.TheVariants as subject;
ghost use Rattle.evaluation.specs.Evaluates.{Evaluates};
ghost use Rattle.evaluation.specs.Gives.{Any, Gives, GivesIn, IsReady, Says, Stand};
ghost use Rattle.query_paths.specs.Predicates.{at_position, numbered, selected};

use crate::kept::Kept;
use evaluation::{Environment, Evaluation, Sequence};
use fault_codes::Code;
use item_expressions::{ItemComparison, ItemFunction, Subject};
use query_grammar::{Expr, IntegerLiteral};
use read_items::ReadItem;
use sqlite_items::{Boxed, Items};
use std::slice;
use values::{Atom, Item, ValueFault, truth};

/// Steps, filters and paths, over a function that evaluates their parts.
#[derive(Clone, Copy)]
pub struct Paths<F> {
    /// The function.
    pub value_of: F,
}

impl<F: Fn(&mut Evaluation, &Expr, &Environment) -> Result<Sequence, ValueFault>> Paths<F> {
    /// The value of a part. Codes: those of the part.
    pub(crate) fn value_of(
        &self,
        run: &mut Evaluation,
        x: &Expr,
        env: &Environment,
    ) -> Result<Sequence, ValueFault>
        requires evaluates { Evaluates (F.pre self.now.value_of) (F.post self.now.value_of) (x.now ∷ []) }
        requires ready { IsReady env.now run.old }
        ensures { Gives (mean x.now env.now) run.old result run.new }
    {
        (self.value_of)(run, x, env)
    }

    /// `a[b][c]`: the items of `a` that each predicate keeps, whose positions count forward (XQuery 1.0, section 3.3.2). Codes: that of the
    /// first part that has one; FORG0006 where a predicate's value is no single number and has no effective boolean value; PXQ0002 where
    /// no turn or less work is left.
    pub fn filter(
        &self,
        run: &mut Evaluation,
        base: &Boxed<Expr>,
        predicates: &Items<Expr>,
        env: &Environment,
    ) -> Result<Sequence, ValueFault>
        requires evaluates { Evaluates (F.pre self.now.value_of) (F.post self.now.value_of) (base.now ∷ predicates.now) }
        requires ready { IsReady env.now run.old }
        ensures { Gives (meaning.filter_of (mean base.now) (map mean predicates.now) env.now) run.old result run.new }
    {
        let items = self.value_of(run, base.get(), env)?;
        self.filtered_items(run, items, predicates.as_slice(), env)
    }

    /// The items of a sequence that each predicate keeps.
    fn filtered_items(
        &self,
        run: &mut Evaluation,
        items: Sequence,
        predicates: &[Expr],
        env: &Environment,
    ) -> Result<Sequence, ValueFault>
        requires evaluates { Evaluates (F.pre self.now.value_of) (F.post self.now.value_of) predicates.now }
        requires ready { IsReady env.now run.old }
        requires stand { Stand items run.old }
        ensures { Gives (meaning.predicates (map mean predicates.now) env.now items) run.old result run.new }
    {
        let mut left = items;
        for predicate in predicates {
            left = self.filtered_sequence(run, left, predicate, env)?;
        }
        Ok(left)
    }

    /// The items of a sequence that a predicate keeps.
    fn filtered_sequence(
        &self,
        run: &mut Evaluation,
        items: Sequence,
        predicate: &Expr,
        env: &Environment,
    ) -> Result<Sequence, ValueFault>
        requires evaluates { Evaluates (F.pre self.now.value_of) (F.post self.now.value_of) (predicate.now ∷ []) }
        requires ready { IsReady env.now run.old }
        requires stand { Stand items run.old }
        ensures { Gives (meaning.filtered env.now items (mean predicate.now)) run.old result run.new }
    {
        let kept = self.filtered(run, items.as_slice(), predicate, env)?;
        kept.into_sequence()
    }

    /// The items, however many, that each predicate keeps. Codes: that of the first predicate that has one; FORG0006 where a predicate's
    /// value is no single number and has no effective boolean value; PXQ0002 where no turn or less work is left.
    pub(crate) fn filtered_by_all(
        &self,
        run: &mut Evaluation,
        items: Kept,
        predicates: &[Expr],
        env: &Environment,
    ) -> Result<Kept, ValueFault>
        requires evaluates { Evaluates (F.pre self.now.value_of) (F.post self.now.value_of) predicates.now }
        requires ready { IsReady env.now run.old }
        requires stand { Stand items run.old }
        ensures { Gives (meaning.predicates (map mean predicates.now) env.now items) run.old result run.new }
    {
        let mut left = items;
        for predicate in predicates {
            left = self.filtered_again(run, left, predicate, env)?;
        }
        Ok(left)
    }

    /// Those of items, however many, that a predicate keeps.
    fn filtered_again(
        &self,
        run: &mut Evaluation,
        items: Kept,
        predicate: &Expr,
        env: &Environment,
    ) -> Result<Kept, ValueFault>
        requires evaluates { Evaluates (F.pre self.now.value_of) (F.post self.now.value_of) (predicate.now ∷ []) }
        requires ready { IsReady env.now run.old }
        requires stand { Stand items run.old }
        ensures { Gives (meaning.filtered env.now items (mean predicate.now)) run.old result run.new }
    {
        self.filtered(run, items.as_slice(), predicate, env)
    }

    /// The items that a predicate keeps; each takes a turn.
    fn filtered(
        &self,
        run: &mut Evaluation,
        items: &[Item],
        predicate: &Expr,
        env: &Environment,
    ) -> Result<Kept, ValueFault>
        requires evaluates { Evaluates (F.pre self.now.value_of) (F.post self.now.value_of) (predicate.now ∷ []) }
        requires ready { IsReady env.now run.old }
        requires stand { Stand items.now run.old }
        ensures kept { Gives (meaning.filtered env.now items.now (mean predicate.now)) run.old result run.new }
        ensures few { IfOk result (λ kept. length kept ≤ length items.now) }
    {
        if let Expr::Integer(literal) = predicate {
            return numbered(run, items, *literal);
        }
        if let Some(comparison) = ItemComparison::of(predicate, Subject::Context)? {
            return compared(run, items, &comparison);
        }
        if let Some(function) = ItemFunction::of(predicate, Subject::Context)? {
            return told(run, items, &function);
        }
        let mut kept = Kept::new(run.alloc());
        let mut index = 0;
        for item in items {
            kept = self.kept(run, kept, item, index, items.len(), predicate, env)?;
            index += 1;
        }
        Ok(kept)
    }

    /// One item more, if a predicate keeps it at that place among so many. It takes a turn.
    fn kept(
        &self,
        run: &mut Evaluation,
        given: Kept,
        item: &Item,
        index: usize,
        size: usize,
        predicate: &Expr,
        env: &Environment,
    ) -> Result<Kept, ValueFault>
        requires evaluates { Evaluates (F.pre self.now.value_of) (F.post self.now.value_of) (predicate.now ∷ []) }
        requires within { index < size }
        requires ready { IsReady env.now run.old }
        requires item { IsThere (trees_of run.old) item.now }
        requires stand { Stand given run.old }
        ensures kept { Gives (meaning.kept (mean predicate.now) env.now size index given item.now) run.old result run.new }
        ensures few { IfOk result (λ kept. length kept ≤ length given + 1) }
    {
        run.turn()?;
        let focus = env.with_focus(item, index + 1, size);
        let is_kept = self.selects(run, predicate, index + 1, &focus)?;
        Ok(given.and_if(is_kept, item)?)
    }

    /// Whether a predicate selects a position (XQuery 1.0, section 3.2.2).
    fn selects(
        &self,
        run: &mut Evaluation,
        predicate: &Expr,
        position: usize,
        env: &Environment,
    ) -> Result<bool, ValueFault>
        requires evaluates { Evaluates (F.pre self.now.value_of) (F.post self.now.value_of) (predicate.now ∷ []) }
        requires ready { IsReady env.now run.old }
        ensures { GivesIn Any (selected position (mean predicate.now) env.now) run.old result run.new }
    {
        let items = self.value_of(run, predicate, env)?;
        Ok(selects(position, items.as_slice())?)
    }
}

/// The items of which a comparison of the context item with a literal holds, whatever else the environment has; each takes a turn. The comparison was
/// read once, for all of them. Codes: PXQ0002 where no turn or less work is left; FORG0001 and XPTY0004 as of a general comparison.
fn compared(
    run: &mut Evaluation,
    items: &[Item],
    comparison: &ItemComparison,
) -> Result<Kept, ValueFault>
    requires subject { comparison.now.subject ≡ subject.Context }
    requires stand { Stand items.now run.old }
    ensures kept { (env : Environment) → Gives (meaning.filtered env items.now (mean comparison.now.expression)) run.old result run.new }
    ensures few { IfOk result (λ kept. length kept ≤ length items.now) }
{
    let mut kept = Kept::new(run.alloc());
    for item in items {
        kept = and_compared(run, kept, item, comparison)?;
    }
    Ok(kept)
}

/// One item more, if the comparison holds of it. It takes a turn.
fn and_compared(
    run: &mut Evaluation,
    given: Kept,
    item: &Item,
    comparison: &ItemComparison,
) -> Result<Kept, ValueFault>
    requires subject { comparison.now.subject ≡ subject.Context }
    requires item { IsThere (trees_of run.old) item.now }
    requires stand { Stand given run.old }
    ensures kept { (env : Environment) (size index : ℕ) → Gives (meaning.kept (mean comparison.now.expression) env size index given item.now) run.old result run.new }
    ensures few { IfOk result (λ kept. length kept ≤ length given + 1) }
{
    run.turn()?;
    let is_kept = comparison.holds(run, &ReadItem::unread(item))?;
    Ok(given.and_if(is_kept, item)?)
}

/// The items that a function of the context item selects, whatever else the environment has; each takes a turn. The function was read once, for all of
/// them. Codes: those of the function; PXQ0002 where no turn is left; FORG0006 where its value has no effective boolean value.
fn told(run: &mut Evaluation, items: &[Item], function: &ItemFunction) -> Result<Kept, ValueFault>
    requires subject { function.now.subject ≡ subject.Context }
    requires stand { Stand items.now run.old }
    ensures kept { (env : Environment) → Gives (meaning.filtered env items.now (mean function.now.expression)) run.old result run.new }
    ensures few { IfOk result (λ kept. length kept ≤ length items.now) }
{
    let mut kept = Kept::new(run.alloc());
    let mut index = 0;
    for item in items {
        kept = and_told(run, kept, item, index, function)?;
        index += 1;
    }
    Ok(kept)
}

/// One item more, if the function selects it at that place. It takes a turn.
fn and_told(
    run: &mut Evaluation,
    given: Kept,
    item: &Item,
    index: usize,
    function: &ItemFunction,
) -> Result<Kept, ValueFault>
    requires subject { function.now.subject ≡ subject.Context }
    requires index { index + 1 < 2 ^ 64 }
    requires item { IsThere (trees_of run.old) item.now }
    requires stand { Stand given run.old }
    ensures kept { (env : Environment) (size : ℕ) → Gives (meaning.kept (mean function.now.expression) env size index given item.now) run.old result run.new }
    ensures few { IfOk result (λ kept. length kept ≤ length given + 1) }
{
    run.turn()?;
    let value = function.value(run, &ReadItem::unread(item))?;
    let is_kept = selects(index + 1, slice::from_ref(&value))?;
    Ok(given.and_if(is_kept, item)?)
}

/// The item at the position that a written number is (XQuery 1.0, section 3.2.2). The number is not evaluated for each item, but each takes its turn,
/// and the work of the number's value: a unit, and one for the item that it gives. Code: PXQ0002 where fewer turns or less work is left.
fn numbered(
    run: &mut Evaluation,
    items: &[Item],
    literal: IntegerLiteral,
) -> Result<Kept, ValueFault>
    requires stand { Stand items.now run.old }
    ensures kept { Gives (numbered literal items.now) run.old result run.new }
    ensures few { IfOk result (λ kept. length kept ≤ length items.now) }
    ensures in_range { in_range (pos literal) ≡ Ok (pos literal) }
{
    let found = at_position(items, literal);
    let units = items.len() as u64;
    run.take_turns(items.len())?;
    run.spend(units)?; // for the number
    run.spend(units)?; // for what it gives
    let kept = Kept::new(run.alloc());
    match found {
        None => Ok(kept),
        Some(item) => Ok(kept.and_if(true, item)?),
    }
}

/// The item at the position that a written number is.
fn at_position(items: &[Item], literal: IntegerLiteral) -> Option<&Item>
    ensures item { option_copied result ≡ at_position literal items.now }
    ensures in_range { in_range (pos literal) ≡ Ok (pos literal) }
{
    let position = literal.value() as usize;
    if position == 0 {
        return None;
    }
    items.get(position - 1)
}

/// Whether a predicate's value selects a position. Code: FORG0006 where it has no effective boolean value.
fn selects(position: usize, items: &[Item]) -> Result<bool, Code>
    ensures { result ≡ meaning.selects position items.now }
{
    match items {
        [Item::Atomic(Atom::Integer(value))] => Ok(u64::try_from(*value) == Ok(position as u64)),
        _ => truth(items),
    }
}

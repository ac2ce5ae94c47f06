//! Paths (XQuery 1.0, section 3.2).

ghost use Rattle.std.specs.Prelude.{◌≡◌, ◌<◌, ◌∷◌, [], map, length, Err, IfOk, IfErr, IsOk};
ghost use Rattle.fault_codes.specs.declared.code.Code.TheVariants.{XPTY0019};
ghost use Rattle.values.specs.Items.{IsThere};
ghost use Rattle.query_meaning.specs.Meaning.{mean};
ghost use Rattle.query_meaning.specs.Operators.{all_nodes};
ghost use Rattle.query_meaning.specs.Paths as meaning;
ghost use Rattle.query_meaning.specs.Running.{counted, trees_of};
ghost use Rattle.evaluation.specs.Evaluates.{Evaluates};
ghost use Rattle.evaluation.specs.Gives.{Gives, GivesIn, IsReady, Stand};
ghost use Rattle.query_paths.specs.Gathered.{IsFew, IsFewIn, followed, found_in, gathered};

use crate::filters::Paths;
use crate::found::Found;
use crate::named_segments::{child_test, gathered_children};
use evaluation::{Environment, Evaluation, Sequence};
use fault_codes::Code;
use query_grammar::Expr;
use query_steps::children_named;
use sqlite_items::{Boxed, Items};
use values::{Item, ValueFault};

impl<F: Fn(&mut Evaluation, &Expr, &Environment) -> Result<Sequence, ValueFault>> Paths<F> {
    /// `a/b/c`: what each part gives for each of the nodes that the parts before it give, which are its context items: nodes in document
    /// order, each once, or atomic values in the order in which they come (XQuery 1.0, section 3.2). Each part but the first takes a unit of
    /// work, and one for each item of what it gives for all of them. Codes: that of the first part that has one; XPTY0019 where an item that
    /// another part is evaluated for is no node, or a part that is not the last gives both nodes and atomic values; XPTY0018 where the last
    /// gives both; PXQ0002 where no turn or less work is left, or where a part gives more than 10,000 nodes and values.
    pub fn path(
        &self,
        run: &mut Evaluation,
        first: &Boxed<Expr>,
        others: &Items<Expr>,
        env: &Environment,
    ) -> Result<Sequence, ValueFault>
        requires evaluates { Evaluates (F.pre self.now.value_of) (F.post self.now.value_of) (first.now ∷ others.now) }
        requires ready { IsReady env.now run.old }
        ensures { Gives (meaning.path (mean first.now) (map mean others.now) env.now) run.old result run.new }
    {
        let items = self.value_of(run, first.get(), env)?;
        self.followed(run, items, others.as_slice(), env)
    }

    /// What the parts give, one after the other, from those items on.
    fn followed(
        &self,
        run: &mut Evaluation,
        items: Sequence,
        parts: &[Expr],
        env: &Environment,
    ) -> Result<Sequence, ValueFault>
        requires evaluates { Evaluates (F.pre self.now.value_of) (F.post self.now.value_of) parts.now }
        requires ready { IsReady env.now run.old }
        requires stand { Stand items run.old }
        ensures { Gives (followed env.now items (map mean parts.now)) run.old result run.new }
    {
        let mut left = items;
        let mut index = 0;
        for part in parts {
            let mixed = mixed_code(parts.len(), index);
            left = self.counted_segment(run, left, part, mixed, env)?;
            index += 1;
        }
        Ok(left)
    }

    /// What a part gives for some items, with its work: a unit, and one for each item that is given. Codes: XPTY0019 where one of them is no
    /// node; `mixed` where it gives both nodes and atomic values; PXQ0002 where less work is left.
    fn counted_segment(
        &self,
        run: &mut Evaluation,
        items: Sequence,
        part: &Expr,
        mixed: Code,
        env: &Environment,
    ) -> Result<Sequence, ValueFault>
        requires evaluates { Evaluates (F.pre self.now.value_of) (F.post self.now.value_of) (part.now ∷ []) }
        requires ready { IsReady env.now run.old }
        requires stand { Stand items run.old }
        ensures { Gives (counted (meaning.segment mixed env.now items (mean part.now))) run.old result run.new }
    {
        let given = self.segment(run, items, part, mixed, env)?;
        run.count(&given)?;
        Ok(given)
    }

    /// The same, but for its work.
    fn segment(
        &self,
        run: &mut Evaluation,
        items: Sequence,
        part: &Expr,
        mixed: Code,
        env: &Environment,
    ) -> Result<Sequence, ValueFault>
        requires evaluates { Evaluates (F.pre self.now.value_of) (F.post self.now.value_of) (part.now ∷ []) }
        requires ready { IsReady env.now run.old }
        requires stand { Stand items run.old }
        ensures { Gives (meaning.segment mixed env.now items (mean part.now)) run.old result run.new }
    {
        are_nodes(items.as_slice())?;
        let found = self.gathered(run, items.as_slice(), part, env)?;
        found.concluded(run, mixed)
    }

    /// All that a part gives for some items; each takes a turn. A step to the children of a name is taken by the elements of the name, where that is
    /// sooner done.
    fn gathered(
        &self,
        run: &mut Evaluation,
        items: &[Item],
        part: &Expr,
        env: &Environment,
    ) -> Result<Found, ValueFault>
        requires evaluates { Evaluates (F.pre self.now.value_of) (F.post self.now.value_of) (part.now ∷ []) }
        requires ready { IsReady env.now run.old }
        requires stand { Stand items.now run.old }
        ensures { GivesIn IsFewIn (gathered env.now items.now (mean part.now)) run.old result run.new }
    {
        if let Some(test) = child_test(part) {
            if let Some(children) = children_named(run, test, items)? {
                return gathered_children(run, items, test, &children);
            }
        }
        self.gathered_each(run, items, part, env)
    }

    /// The same, by the part's value for each item.
    fn gathered_each(
        &self,
        run: &mut Evaluation,
        items: &[Item],
        part: &Expr,
        env: &Environment,
    ) -> Result<Found, ValueFault>
        requires evaluates { Evaluates (F.pre self.now.value_of) (F.post self.now.value_of) (part.now ∷ []) }
        requires ready { IsReady env.now run.old }
        requires stand { Stand items.now run.old }
        ensures { GivesIn IsFewIn (gathered env.now items.now (mean part.now)) run.old result run.new }
    {
        let mut found = Found::new(run.alloc());
        let mut index = 0;
        for item in items {
            found = self.found_in(run, found, item, index, items.len(), part, env)?;
            index += 1;
        }
        Ok(found)
    }

    /// What a part gives for one item more, at that place among so many. It takes a turn.
    fn found_in(
        &self,
        run: &mut Evaluation,
        given: Found,
        item: &Item,
        index: usize,
        size: usize,
        part: &Expr,
        env: &Environment,
    ) -> Result<Found, ValueFault>
        requires evaluates { Evaluates (F.pre self.now.value_of) (F.post self.now.value_of) (part.now ∷ []) }
        requires within { index < size }
        requires ready { IsReady env.now run.old }
        requires item { IsThere (trees_of run.old) item.now }
        requires few { IsFew given }
        ensures { GivesIn IsFewIn (found_in (mean part.now) env.now size index given item.now) run.old result run.new }
    {
        run.turn()?;
        let focus = env.with_focus(item, index + 1, size);
        let items = self.value_of(run, part, &focus)?;
        given.and_all(items.as_slice())
    }
}

/// The code of a part, of so many, with so many before it, that gives both nodes and atomic values.
fn mixed_code(parts: usize, before: usize) -> Code
    requires { before < parts }
    ensures { result ≡ meaning.mixed_code parts before }
{
    if before + 1 == parts {
        Code::XPTY0018
    } else {
        Code::XPTY0019
    }
}

/// Nothing, if each item is a node. Code: XPTY0019 where one is an atomic value.
fn are_nodes(items: &[Item]) -> Result<(), Code>
    ensures nodes { IfOk result (λ _. IsOk (all_nodes XPTY0019 items.now)) }
    ensures code { IfErr result (λ code. all_nodes XPTY0019 items.now ≡ Err code) }
{
    for item in items {
        if let Item::Atomic(_) = item {
            return Err(Code::XPTY0019);
        }
    }
    Ok(())
}

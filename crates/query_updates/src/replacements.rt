//! `replace` (XQuery Update Facility 1.0, section 2.4.3).

ghost use Rattle.std.specs.Prelude.{◌≡◌, ◌∷◌, [], IfOk, IfErr, Ok, Err};
ghost use Rattle.query_meaning.specs.Meaning.{mean};
ghost use Rattle.query_meaning.specs.Running.{Run, come_to};
ghost use Rattle.query_meaning.specs.Updates as meaning;
ghost use Rattle.evaluation.specs.Evaluates.{Evaluates};
ghost use Rattle.evaluation.specs.Gives.{Any, Gives, GivesIn, IsReady};
ghost use Rattle.query_updates.specs.Parts.{content_set, node_replaced, text_set, value_replaced, value_set};

use crate::targets::{Role, Target};
use crate::updates::Updates;
use copied_content::{CopiedContent, content, new_text};
use evaluation::{Environment, Evaluation, Sequence};
use fault_codes::Code;
use pending::Primitive;
use query_constructors::{check_comment, instruction_text};
use query_grammar::Expr;
use query_strings::spaced;
use sqlite_items::Boxed;
use trees::Kind;
use values::{Atom, ValueFault, text_work};

impl<F: Fn(&mut Evaluation, &Expr, &Environment) -> Result<Sequence, ValueFault>> Updates<F> {
    /// `replace node a with b`: copies of what `b` gives are to stand in the place of `a` (XQuery Update Facility 1.0, section 2.4.3.1).
    /// Codes: those of the target; XUDY0027 where it is empty; XUTY0008 where it is anything else than one node that is no document;
    /// XUDY0009 where that has no parent; then those of `b`; PXQ0002 where a text is too long or too little work is left; PXQ0003 where the
    /// evaluation would have made more than 100,000 nodes; XUTY0011 where the target is an attribute and a new node is none; XUTY0010 where
    /// a new node is an attribute and the target is none; PXQ0002 where there would be more than 10,000 primitives.
    pub fn replace_node(
        &self,
        run: &mut Evaluation,
        target: &Boxed<Expr>,
        source: &Boxed<Expr>,
        env: &Environment,
    ) -> Result<Sequence, ValueFault>
        requires target { Evaluates (F.pre self.now.value_of) (F.post self.now.value_of) (target.now ∷ []) }
        requires source { Evaluates (F.pre self.now.value_of) (F.post self.now.value_of) (source.now ∷ []) }
        requires ready { IsReady env.now run.old }
        ensures { Gives (meaning.replace_node (mean target.now) (mean source.now) env.now) run.old result run.new }
    {
        let target = self.target(run, target, Role::Replaced, env)?;
        self.node_replaced(run, target, source, env)
    }

    /// A target whose place copies of what an expression gives take.
    fn node_replaced(
        &self,
        run: &mut Evaluation,
        target: Target,
        source: &Boxed<Expr>,
        env: &Environment,
    ) -> Result<Sequence, ValueFault>
        requires evaluates { Evaluates (F.pre self.now.value_of) (F.post self.now.value_of) (source.now ∷ []) }
        requires ready { IsReady env.now run.old }
        ensures { Gives (node_replaced (mean source.now) env.now target) run.old result run.new }
    {
        if target.parent.is_none() {
            return Err(ValueFault::Code(Code::XUDY0009));
        }
        let items = self.value_of(run, source, env)?;
        let new = content(run, &items)?;
        check_replacement(target.kind, &new)?;
        run.add(Primitive::ReplaceNode(target.identity, new.into_trees()))?;
        Ok(Sequence::new(run.alloc()))
    }

    /// `replace value of node a with b`: the typed values of `b`, joined by single spaces, are to be the text of `a`, or of an element's
    /// only child, where there is a value (XQuery Update Facility 1.0, section 2.4.3.2). Codes: those of the target; XUDY0027 where it is
    /// empty; XUTY0008 where it is anything else than one node that is no document; then those of `b`; PXQ0002 where a string value or the
    /// text is too long, or too little work is left; PXQ0003 where the evaluation would have made more than 100,000 nodes; XQDY0072 and
    /// XQDY0026 where the text is none for a comment or a processing instruction; PXQ0002 where there would be more than 10,000 primitives.
    pub fn replace_value(
        &self,
        run: &mut Evaluation,
        target: &Boxed<Expr>,
        source: &Boxed<Expr>,
        env: &Environment,
    ) -> Result<Sequence, ValueFault>
        requires target { Evaluates (F.pre self.now.value_of) (F.post self.now.value_of) (target.now ∷ []) }
        requires source { Evaluates (F.pre self.now.value_of) (F.post self.now.value_of) (source.now ∷ []) }
        requires ready { IsReady env.now run.old }
        ensures { Gives (meaning.replace_value (mean target.now) (mean source.now) env.now) run.old result run.new }
    {
        let target = self.target(run, target, Role::Replaced, env)?;
        self.value_replaced(run, target, source, env)
    }

    /// A target whose value is replaced by what an expression gives.
    fn value_replaced(
        &self,
        run: &mut Evaluation,
        target: Target,
        source: &Boxed<Expr>,
        env: &Environment,
    ) -> Result<Sequence, ValueFault>
        requires evaluates { Evaluates (F.pre self.now.value_of) (F.post self.now.value_of) (source.now ∷ []) }
        requires ready { IsReady env.now run.old }
        ensures { Gives (value_replaced (mean source.now) env.now target) run.old result run.new }
    {
        let items = self.value_of(run, source, env)?;
        let values = run.atoms(&items)?;
        match target.kind {
            Kind::Element => replace_content(run, target, &values),
            _ => replace_text(run, target, &values),
        }
    }
}

/// Whether copied content may take the place of a node of that kind. Codes: XUTY0011 where something else than an attribute would take
/// an attribute's place; XUTY0010 where an attribute would take that of another node.
fn check_replacement(kind: Kind, new: &CopiedContent) -> Result<(), Code>
    ensures { (run : Run) → come_to result run ≡ meaning.replaces kind new.now run }
{
    match kind {
        Kind::Attribute if !new.are_all_attributes() => Err(Code::XUTY0011),
        Kind::Attribute => Ok(()),
        _ if !new.are_all_others() => Err(Code::XUTY0010),
        _ => Ok(()),
    }
}

/// Replaces what stands below an element by a text of values, or by nothing where there are none.
fn replace_content(
    run: &mut Evaluation,
    target: Target,
    values: &[Atom],
) -> Result<Sequence, ValueFault>
    ensures { Gives (content_set target values.now) run.old result run.new }
{
    let new = text_of_values(run, values)?;
    run.add(Primitive::ReplaceElementContent(target.identity, new.into_trees()))?;
    Ok(Sequence::new(run.alloc()))
}

/// A new text of values, or nothing of none.
fn text_of_values(run: &mut Evaluation, values: &[Atom]) -> Result<CopiedContent, ValueFault>
    ensures { GivesIn Any (meaning.text_of_values values.now) run.old result run.new }
{
    match values {
        [] => Ok(CopiedContent::new(run.alloc())),
        _ => {
            let text = spaced(run.alloc(), values)?;
            new_text(run, text)
        }
    }
}

/// Replaces the text of a node that is no element. A text takes its work and an identity also here, as the definition has it.
fn replace_text(
    run: &mut Evaluation,
    target: Target,
    values: &[Atom],
) -> Result<Sequence, ValueFault>
    ensures { Gives (value_set target values.now) run.old result run.new }
{
    match values {
        [] => set_text(run, target, ""),
        _ => {
            let text = spaced(run.alloc(), values)?;
            run.spend(text_work(text.as_str()))?;
            run.new_nodes(1)?;
            set_text(run, target, text.as_str())
        }
    }
}

/// Replaces the text of a node that is no element by that one.
fn set_text(run: &mut Evaluation, target: Target, text: &str) -> Result<Sequence, ValueFault>
    ensures { Gives (text_set target text.now) run.old result run.new }
{
    let text = text_for(target.kind, text)?;
    let text = String::from_str(run.alloc(), text)?;
    run.add(Primitive::ReplaceValue(target.identity, text))?;
    Ok(Sequence::new(run.alloc()))
}

/// The text that a node of that kind has of a given one. Codes: XQDY0072 where it is none for a comment; XQDY0026 where it is none for
/// a processing instruction.
fn text_for(kind: Kind, text: &str) -> Result<&str, Code>
    ensures ok { IfOk result (λ t. meaning.text_for kind text.now ≡ Ok t.now) }
    ensures code { IfErr result (λ code. meaning.text_for kind text.now ≡ Err code) }
{
    match kind {
        Kind::Comment => {
            check_comment(text)?;
            Ok(text)
        }
        Kind::Instruction => instruction_text(text),
        _ => Ok(text),
    }
}

//! `insert` (XQuery Update Facility 1.0, section 2.4.1).

ghost use Rattle.std.specs.Prelude.{◌≡◌, ◌∷◌, [], ◌||◌, not};
ghost use Rattle.data_model.specs.Tidy.{is_document};
ghost use Rattle.data_model.specs.Tree.{all_of};
ghost use Rattle.data_model.specs.Trees.{find};
ghost use Rattle.fault_codes.specs.declared.code.Code.TheVariants.{XUTY0022, XUDY0030};
ghost use Rattle.pending.specs.Primitives.{insert_attributes, primitive_term};
ghost use Rattle.query_meaning.specs.Meaning.{mean};
ghost use Rattle.query_meaning.specs.Running.{Run, come_to, trees_of};
ghost use Rattle.query_meaning.specs.Updates as meaning;
ghost use Rattle.evaluation.specs.Evaluates.{Evaluates};
ghost use Rattle.evaluation.specs.Gives.{Any, Gives, GivesIn, IsReady};
ghost use Rattle.query_updates.specs.Insertions.{inserted, inserted_beside, inserted_into, insertion, placed, role_at, split_added};

use crate::targets::{Role, Target};
use crate::updates::Updates;
use copied_content::{CopiedContent, SplitContent, content};
use evaluation::{Environment, Evaluation, Sequence};
use fault_codes::Code;
use pending::Primitive;
use query_grammar::{Expr, Place};
use sqlite_items::Boxed;
use trees::{Kind, NodeId, Tree};
use values::ValueFault;

impl<F: Fn(&mut Evaluation, &Expr, &Environment) -> Result<Sequence, ValueFault>> Updates<F> {
    /// `insert node a into b`, or beside `b`: copies of what `a` gives are to stand there, attributes in the list of the element that they
    /// stand below (XQuery Update Facility 1.0, section 2.4.1). Codes: those of `a`; PXQ0002 where a text is too long or too little work is
    /// left; PXQ0003 where the evaluation would have made more than 100,000 nodes; XUTY0004 where an attribute comes after what is none;
    /// then those of `b`; XUDY0027 where it is empty; XUTY0005 where it is anything else than a document or an element, or beside it,
    /// XUTY0006 where it is anything else than one node that is neither a document nor an attribute, and XUDY0029 where that has no parent;
    /// XUTY0022, or beside `b` XUDY0030, where attributes would stand below a document; PXQ0002 where there would be more than 10,000
    /// primitives.
    pub fn insert(
        &self,
        run: &mut Evaluation,
        source: &Boxed<Expr>,
        place: Place,
        target: &Boxed<Expr>,
        env: &Environment,
    ) -> Result<Sequence, ValueFault>
        requires source { Evaluates (F.pre self.now.value_of) (F.post self.now.value_of) (source.now ∷ []) }
        requires target { Evaluates (F.pre self.now.value_of) (F.post self.now.value_of) (target.now ∷ []) }
        requires ready { IsReady env.now run.old }
        ensures { Gives (meaning.insert (mean source.now) place (mean target.now) env.now) run.old result run.new }
    {
        let items = self.value_of(run, source, env)?;
        let new = content(run, &items)?;
        self.placed(run, place, new, target, env)
    }

    /// Copied content that is inserted, once its target is evaluated.
    fn placed(
        &self,
        run: &mut Evaluation,
        place: Place,
        new: CopiedContent,
        target: &Boxed<Expr>,
        env: &Environment,
    ) -> Result<Sequence, ValueFault>
        requires evaluates { Evaluates (F.pre self.now.value_of) (F.post self.now.value_of) (target.now ∷ []) }
        requires ready { IsReady env.now run.old }
        ensures { Gives (placed place (mean target.now) env.now new) run.old result run.new }
    {
        if !new.has_attributes_first() {
            return Err(ValueFault::Code(Code::XUTY0004));
        }
        let target = self.target(run, target, role_at(place), env)?;
        inserted(run, place, new, target)
    }
}

/// What a target is there for at that place.
fn role_at(place: Place) -> Role
    ensures { result ≡ role_at place }
{
    match place {
        Place::Into | Place::FirstInto | Place::LastInto => Role::Parent,
        Place::Before | Place::After => Role::Sibling,
    }
}

/// Adds what inserts copied content at that place.
fn inserted(
    run: &mut Evaluation,
    place: Place,
    new: CopiedContent,
    target: Target,
) -> Result<Sequence, ValueFault>
    ensures { Gives (inserted place new target) run.old result run.new }
{
    match place {
        Place::Into | Place::FirstInto | Place::LastInto => {
            inserted_into(run, place, new, target)
        }
        Place::Before | Place::After => inserted_beside(run, place, new, target),
    }
}

/// Adds what inserts copied content into a target.
fn inserted_into(
    run: &mut Evaluation,
    place: Place,
    new: CopiedContent,
    target: Target,
) -> Result<Sequence, ValueFault>
    ensures { Gives (inserted_into place new target) run.old result run.new }
{
    let split = new.split(run.alloc())?;
    check_into(&split.attributes, target.kind)?;
    add_insertions(run, target.identity, place, target.identity, split)
}

/// Adds what inserts copied content beside a target, below its parent.
fn inserted_beside(
    run: &mut Evaluation,
    place: Place,
    new: CopiedContent,
    target: Target,
) -> Result<Sequence, ValueFault>
    ensures { Gives (inserted_beside place new target) run.old result run.new }
{
    let Some(parent) = target.parent else {
        return Err(ValueFault::Code(Code::XUDY0029));
    };
    let split = new.split(run.alloc())?;
    check_beside(run, &split.attributes, parent)?;
    add_insertions(run, parent, place, target.identity, split)
}

/// Whether these may be inserted as attributes of a node of that kind. Code: XUTY0022 where there are some, and that is a document.
fn check_into(attributes: &[Tree], kind: Kind) -> Result<(), Code>
    ensures { (run : Run)
        → come_to result run ≡ meaning.must (meaning.is_none (all_of attributes.now) || not (is_document kind)) XUTY0022 run }
{
    if is_none(attributes) || kind != Kind::Document {
        Ok(())
    } else {
        Err(Code::XUTY0022)
    }
}

/// Whether these may be inserted as attributes of a parent. Code: XUDY0030 where there are some, and that is a document. Where there are
/// none, the parent is not looked up.
fn check_beside(run: &Evaluation, attributes: &[Tree], parent: NodeId) -> Result<(), Code>
    ensures { come_to result run.now
        ≡ meaning.must
        (meaning.is_none (all_of attributes.now) || not (meaning.is_document_at (find parent (trees_of run.now))))
        XUDY0030
        run.now }
{
    if is_none(attributes) || !is_document(run, parent) {
        Ok(())
    } else {
        Err(Code::XUDY0030)
    }
}

/// Whether there are no trees.
fn is_none(trees: &[Tree]) -> bool
    ensures { result ≡ meaning.is_none (all_of trees.now) }
{
    trees.is_empty()
}

/// Whether a document has that identity.
fn is_document(run: &Evaluation, identity: NodeId) -> bool
    ensures { result ≡ meaning.is_document_at (find identity (trees_of run.now)) }
{
    match run.shelf().node(identity) {
        Some(view) => view.kind == Kind::Document,
        None => false,
    }
}

/// The primitive that inserts trees at that place.
fn insertion(place: Place, target: NodeId, trees: Vec<Tree>) -> Primitive
    ensures { primitive_term result ≡ insertion place target (all_of trees.items) }
{
    match place {
        Place::Into => Primitive::InsertInto(target, trees),
        Place::FirstInto => Primitive::InsertIntoAsFirst(target, trees),
        Place::LastInto => Primitive::InsertIntoAsLast(target, trees),
        Place::Before => Primitive::InsertBefore(target, trees),
        Place::After => Primitive::InsertAfter(target, trees),
    }
}

/// Adds what inserts attributes below an element and other nodes at a place, as far as there are some.
fn add_insertions(
    run: &mut Evaluation,
    element: NodeId,
    place: Place,
    target: NodeId,
    split: SplitContent,
) -> Result<Sequence, ValueFault>
    ensures { Gives
        (split_added element (insertion place target) (all_of split.attributes.items) (all_of split.others.items))
        run.old
        result
        run.new }
{
    let SplitContent { attributes, others } = split;
    add_attributes(run, element, attributes)?;
    add_trees(run, place, target, others)?;
    Ok(Sequence::new(run.alloc()))
}

/// Adds a primitive that inserts attributes below an element, if there are any.
fn add_attributes(
    run: &mut Evaluation,
    element: NodeId,
    attributes: Vec<Tree>,
) -> Result<(), ValueFault>
    ensures { GivesIn Any (meaning.adding_trees (insert_attributes element) (all_of attributes.items)) run.old result run.new }
{
    if is_none(&attributes) {
        return Ok(());
    }
    run.add(Primitive::InsertAttributes(element, attributes))
}

/// Adds a primitive that inserts trees at that place, if there are any.
fn add_trees(
    run: &mut Evaluation,
    place: Place,
    target: NodeId,
    trees: Vec<Tree>,
) -> Result<(), ValueFault>
    ensures { GivesIn Any (meaning.adding_trees (insertion place target) (all_of trees.items)) run.old result run.new }
{
    if is_none(&trees) {
        return Ok(());
    }
    run.add(insertion(place, target, trees))
}

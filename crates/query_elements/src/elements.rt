//! Constructors of nodes with content.

ghost use Rattle.std.specs.Prelude.{◌∷◌, []};
ghost use Rattle.query_meaning.specs.Constructors as meaning;
ghost use Rattle.query_meaning.specs.Meaning.{mean};
ghost use Rattle.evaluation.specs.Evaluates.{Evaluates};
ghost use Rattle.evaluation.specs.Gives.{Gives, IsReady};
ghost use Rattle.query_constructors.specs.Names.{expression_in, named_by};

use crate::assembled::{Parent, assembled};
use evaluation::{Environment, Evaluation, Sequence};
use query_constructors::Constructors;
use query_grammar::{Expr, Name};
use sqlite_items::Boxed;
use trees::Kind;
use values::ValueFault;

/// Constructors of elements and documents, beside those of nodes with a text.
#[derive(Clone, Copy)]
pub struct Elements<F> {
    /// The constructors of nodes with a text, over a function value that evaluates their parts.
    pub constructors: Constructors<F>,
}

impl<F: Fn(&mut Evaluation, &Expr, &Environment) -> Result<Sequence, ValueFault>> Elements<F> {
    /// `element n {..}`: a new element, whose attributes and children are copies (XQuery 1.0, section 3.7.3.1). It takes its identity
    /// before they do. Codes: those of the name, then of the content; PXQ0003 where the evaluation would have made more than 100,000
    /// nodes; PXQ0002 where a text is too long; XQTY0024 where an attribute comes after what is none; XQDY0025 where two attributes have
    /// one name; PXQ0003 where there are more than 10,000 attributes and children, or more than 60 levels.
    pub fn element(
        &self,
        run: &mut Evaluation,
        name: &Name<Boxed<Expr>>,
        content: &Boxed<Expr>,
        env: &Environment,
    ) -> Result<Sequence, ValueFault>
        requires name { Evaluates (F.pre self.now.constructors.value_of) (F.post self.now.constructors.value_of) (expression_in name.now) }
        requires content { Evaluates (F.pre self.now.constructors.value_of) (F.post self.now.constructors.value_of) (content.now ∷ []) }
        requires ready { IsReady env.now run.old }
        ensures { Gives (meaning.element (named_by mean name.now) (mean content.now) env.now) run.old result run.new }
    {
        let name = self.constructors.name_of(run, Kind::Element, name, env)?;
        let items = self.constructors.value_of(run, content.get(), env)?;
        assembled(run, Parent::Element, name.as_str(), &items)
    }

    /// `document {..}`: a new document, whose children are copies (XQuery 1.0, section 3.7.3.3). It takes its identity before they do.
    /// Codes: those of the content; PXQ0003 where the evaluation would have made more than 100,000 nodes; PXQ0002 where a text is too
    /// long; XPTY0004 where there is an attribute; PXQ0003 where there are more than 10,000 children, or more than 60 levels.
    pub fn document(
        &self,
        run: &mut Evaluation,
        content: &Boxed<Expr>,
        env: &Environment,
    ) -> Result<Sequence, ValueFault>
        requires content { Evaluates (F.pre self.now.constructors.value_of) (F.post self.now.constructors.value_of) (content.now ∷ []) }
        requires ready { IsReady env.now run.old }
        ensures { Gives (meaning.document (mean content.now) env.now) run.old result run.new }
    {
        let items = self.constructors.value_of(run, content.get(), env)?;
        assembled(run, Parent::Document, "", &items)
    }
}

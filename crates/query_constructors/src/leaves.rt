//! Constructors of nodes with a text (XQuery 1.0, sections 3.7.3.2 and 3.7.3.4 to 3.7.3.6).

ghost use Rattle.std.specs.Prelude.{◌≡◌, ◌∷◌, [], IfOk, IfErr, Ok, Err};
ghost use Rattle.query_meaning.specs.Constructors as meaning;
ghost use Rattle.query_meaning.specs.Meaning.{mean};
ghost use Rattle.evaluation.specs.Evaluates.{Evaluates};
ghost use Rattle.evaluation.specs.Gives.{Any, Gives, GivesIn, IsReady};
ghost use Rattle.query_constructors.specs.Names.{expression_in, named_by};

use crate::roots::with_text;
use evaluation::{Environment, Evaluation, Sequence};
use fault_codes::Code;
use query_grammar::{Expr, Name};
use query_strings::{after_spaces, ends_in_hyphen, holds, spaced};
use sqlite_items::Boxed;
use trees::Kind;
use values::{Atom, Text, ValueFault};

/// Computed constructors, over a function value that evaluates their parts.
#[derive(Clone, Copy)]
pub struct Constructors<F> {
    /// The function value.
    pub value_of: F,
}

impl<F: Fn(&mut Evaluation, &Expr, &Environment) -> Result<Sequence, ValueFault>> Constructors<F> {
    /// The value of a part. Codes: those of the part.
    pub fn value_of(
        &self,
        run: &mut Evaluation,
        x: &Expr,
        env: &Environment,
    ) -> Result<Sequence, ValueFault>
        requires evaluates { Evaluates (F.pre self.now.value_of) (F.post self.now.value_of) (x.now ∷ []) }
        requires ready { IsReady env.now run.old }
        ensures { Gives (mean x.now env.now) run.old result run.new }
    {
        (self.value_of)(run, x, env)
    }

    /// `attribute n {..}`: a new attribute, with the typed values of its content joined by single spaces (XQuery 1.0, section 3.7.3.2). It
    /// takes the work of the typed values. Codes: those of the name, then of the content; PXQ0002 where a string value or the text is too
    /// long, or too little work is left; PXQ0003 where the evaluation would have made more than 100,000 nodes.
    pub fn attribute(
        &self,
        run: &mut Evaluation,
        name: &Name<Boxed<Expr>>,
        content: &Boxed<Expr>,
        env: &Environment,
    ) -> Result<Sequence, ValueFault>
        requires name { Evaluates (F.pre self.now.value_of) (F.post self.now.value_of) (expression_in name.now) }
        requires content { Evaluates (F.pre self.now.value_of) (F.post self.now.value_of) (content.now ∷ []) }
        requires ready { IsReady env.now run.old }
        ensures { Gives (meaning.attribute (named_by mean name.now) (mean content.now) env.now) run.old result run.new }
    {
        let name = self.name_of(run, Kind::Attribute, name, env)?;
        let text = self.text_of(run, content.get(), env)?;
        with_text(run, Kind::Attribute, name.as_str(), text.as_str())
    }

    /// `text {..}`: a new text, or nothing of nothing (XQuery 1.0, section 3.7.3.4). It takes the work of the typed values. Codes: those of
    /// the content; PXQ0002 where a string value or the text is too long, or too little work is left; PXQ0003 where the evaluation would have
    /// made more than 100,000 nodes.
    pub fn text(
        &self,
        run: &mut Evaluation,
        content: &Boxed<Expr>,
        env: &Environment,
    ) -> Result<Sequence, ValueFault>
        requires content { Evaluates (F.pre self.now.value_of) (F.post self.now.value_of) (content.now ∷ []) }
        requires ready { IsReady env.now run.old }
        ensures { Gives (meaning.text (mean content.now) env.now) run.old result run.new }
    {
        let items = self.value_of(run, content.get(), env)?;
        let values = run.atoms(&items)?;
        text_of_values(run, &values)
    }

    /// `comment {..}`: a new comment (XQuery 1.0, section 3.7.3.6). It takes the work of the typed values. Codes: those of the content;
    /// PXQ0002 where a string value or the text is too long, or too little work is left; XQDY0072 where the text holds two hyphens or ends in
    /// one; PXQ0003 where the evaluation would have made more than 100,000 nodes.
    pub fn comment(
        &self,
        run: &mut Evaluation,
        content: &Boxed<Expr>,
        env: &Environment,
    ) -> Result<Sequence, ValueFault>
        requires content { Evaluates (F.pre self.now.value_of) (F.post self.now.value_of) (content.now ∷ []) }
        requires ready { IsReady env.now run.old }
        ensures { Gives (meaning.comment (mean content.now) env.now) run.old result run.new }
    {
        let text = self.text_of(run, content.get(), env)?;
        check_comment(text.as_str())?;
        with_text(run, Kind::Comment, "", text.as_str())
    }

    /// `processing-instruction n {..}`: a new processing instruction, without the white space that its text begins with (XQuery 1.0,
    /// section 3.7.3.5). It takes the work of the typed values. Codes: those of the name, then of the content; PXQ0002 where a string value or
    /// the text is too long, or too little work is left; XQDY0026 where the text holds `?>`; PXQ0003 where the evaluation would have made more
    /// than 100,000 nodes.
    pub fn instruction(
        &self,
        run: &mut Evaluation,
        name: &Name<Boxed<Expr>>,
        content: &Boxed<Expr>,
        env: &Environment,
    ) -> Result<Sequence, ValueFault>
        requires name { Evaluates (F.pre self.now.value_of) (F.post self.now.value_of) (expression_in name.now) }
        requires content { Evaluates (F.pre self.now.value_of) (F.post self.now.value_of) (content.now ∷ []) }
        requires ready { IsReady env.now run.old }
        ensures { Gives (meaning.instruction (named_by mean name.now) (mean content.now) env.now) run.old result run.new }
    {
        let name = self.name_of(run, Kind::Instruction, name, env)?;
        let text = self.text_of(run, content.get(), env)?;
        let text = instruction_text(text.as_str())?;
        with_text(run, Kind::Instruction, name.as_str(), text)
    }

    /// The typed values of an expression's items, which take their work, joined by single spaces.
    fn text_of(&self, run: &mut Evaluation, x: &Expr, env: &Environment) -> Result<Text, ValueFault>
        requires evaluates { Evaluates (F.pre self.now.value_of) (F.post self.now.value_of) (x.now ∷ []) }
        requires ready { IsReady env.now run.old }
        ensures { GivesIn Any (meaning.text_of (mean x.now) env.now) run.old result run.new }
    {
        let items = self.value_of(run, x, env)?;
        let values = run.atoms(&items)?;
        spaced(run.alloc(), &values)
    }
}

/// A new text of values, or nothing of none.
fn text_of_values(run: &mut Evaluation, values: &[Atom]) -> Result<Sequence, ValueFault>
    ensures { Gives (meaning.text_of_values values.now) run.old result run.new }
{
    match values {
        [] => Ok(Sequence::new(run.alloc())),
        _ => {
            let text = spaced(run.alloc(), values)?;
            with_text(run, Kind::Text, "", text.as_str())
        }
    }
}

/// Whether that is the text of a comment (XQuery 1.0, section 3.7.3.6). Code: XQDY0072 where it is not.
pub fn check_comment(text: &str) -> Result<(), Code>
    ensures ok { IfOk result (λ _. meaning.comment_text text.now ≡ Ok text.now) }
    ensures code { IfErr result (λ code. meaning.comment_text text.now ≡ Err code) }
{
    if holds(text, "--") || ends_in_hyphen(text) {
        Err(Code::XQDY0072)
    } else {
        Ok(())
    }
}

/// The text of a processing instruction, without the white space that it begins with (XQuery 1.0, section 3.7.3.5). Code: XQDY0026
/// where it holds `?>`.
pub fn instruction_text(text: &str) -> Result<&str, Code>
    ensures ok { IfOk result (λ t. meaning.instruction_text text.now ≡ Ok t.now) }
    ensures code { IfErr result (λ code. meaning.instruction_text text.now ≡ Err code) }
{
    if holds(text, "?>") {
        Err(Code::XQDY0026)
    } else {
        Ok(after_spaces(text))
    }
}

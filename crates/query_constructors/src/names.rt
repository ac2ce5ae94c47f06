//! Names of new nodes (XQuery 1.0, section 3.7.3).

ghost use Rattle.std.specs.Prelude.{◌≡◌, ◌∷◌, [], IfOk, IfErr, Ok, Err};
ghost use Rattle.std.specs.List.{list_all};
ghost use Rattle.document_names.specs.Characters.{is_name, is_name_character, is_name_start};
ghost use Rattle.query_meaning.specs.Constructors as meaning;
ghost use Rattle.query_meaning.specs.Meaning.{mean};
ghost use Rattle.evaluation.specs.Evaluates.{Evaluates};
ghost use Rattle.query_meaning.specs.Strings.{one_text};
ghost use Rattle.evaluation.specs.Gives.{Any, GivesIn, IsReady, Says};
ghost use Rattle.query_constructors.specs.Names.{expression_in, name_in, named_by};

use crate::leaves::Constructors;
use evaluation::{Environment, Evaluation, Sequence};
use fault_codes::Code;
use query_grammar::{Expr, Name};
use query_strings::one_text;
use sqlite_items::Boxed;
use std::alloc::Global;
use trees::Kind;
use values::{Atom, Text, ValueFault};

impl<F: Fn(&mut Evaluation, &Expr, &Environment) -> Result<Sequence, ValueFault>> Constructors<F> {
    /// The name of a new node of that kind. Codes: that of the expression which gives it; PXQ0002 where a string value is too long or too
    /// little work is left; XPTY0004 where there is not one string or untyped value; XQDY0041 and XQDY0064 for a processing instruction,
    /// and XQDY0074 for other kinds, where it is no name for one.
    pub fn name_of(
        &self,
        run: &mut Evaluation,
        kind: Kind,
        name: &Name<Boxed<Expr>>,
        env: &Environment,
    ) -> Result<Text, ValueFault>
        requires evaluates { Evaluates (F.pre self.now.value_of) (F.post self.now.value_of) (expression_in name.now) }
        requires ready { IsReady env.now run.old }
        ensures { GivesIn Any (meaning.name_of kind (named_by mean name.now) env.now) run.old result run.new }
    {
        match name {
            Name::Written(name) => checked(kind, name),
            Name::Computed(x) => self.named(run, kind, x.get(), env),
        }
    }

    /// The name that an expression gives, whose typed values take their work.
    fn named(
        &self,
        run: &mut Evaluation,
        kind: Kind,
        x: &Expr,
        env: &Environment,
    ) -> Result<Text, ValueFault>
        requires evaluates { Evaluates (F.pre self.now.value_of) (F.post self.now.value_of) (x.now ∷ []) }
        requires ready { IsReady env.now run.old }
        ensures { GivesIn Any (meaning.named kind (mean x.now) env.now) run.old result run.new }
    {
        let items = self.value_of(run, x, env)?;
        let values = run.atoms(&items)?;
        named_by_values(run.alloc(), kind, &values)
    }
}

/// The name that the values of an expression give a node of that kind. Codes: XPTY0004 where they are not one string or untyped value;
/// XQDY0041 and XQDY0064 for a processing instruction, and XQDY0074 for other kinds, where that is no name for one.
pub fn named_by_values(alloc: Global, kind: Kind, values: &[Atom]) -> Result<Text, ValueFault>
    ensures { Says (name_in kind (one_text values.now)) result }
{
    let name = one_text(values)?;
    name_for(kind, name)?;
    Ok(Text::new(String::from_str(alloc, name)?))
}

/// A written name, for a node of that kind. Codes: those of `name_for`.
fn checked(kind: Kind, name: &Text) -> Result<Text, ValueFault>
    ensures { Says (meaning.name_for kind name.now) result }
{
    name_for(kind, name.as_str())?;
    Ok(name.clone()?)
}

/// Whether that is a name for a node of that kind. Codes: XQDY0041 and XQDY0064 for a processing instruction, and XQDY0074 for other
/// kinds, where it is not.
fn name_for(kind: Kind, name: &str) -> Result<(), Code>
    ensures ok { IfOk result (λ _. meaning.name_for kind name.now ≡ Ok name.now) }
    ensures code { IfErr result (λ code. meaning.name_for kind name.now ≡ Err code) }
{
    if kind != Kind::Instruction {
        return if is_name(name) {
            Ok(())
        } else {
            Err(Code::XQDY0074)
        };
    }
    if !is_name(name) {
        Err(Code::XQDY0041)
    } else if name.eq_ignore_ascii_case("xml") {
        Err(Code::XQDY0064)
    } else {
        Ok(())
    }
}

fn is_name_start(byte: u8) -> bool
    ensures { result ≡ is_name_start byte }
{
    byte.is_ascii_alphabetic() || byte == b'_'
}

fn is_name_character(byte: u8) -> bool
    ensures { result ≡ is_name_character byte }
{
    is_name_start(byte) || byte.is_ascii_digit() || byte == b'.' || byte == b'-'
}

fn are_name_characters(bytes: &[u8]) -> bool
    ensures { result ≡ list_all is_name_character bytes.now }
{
    bytes.iter().all(|byte| is_name_character(*byte))
}

/// Whether a text is a name. One is ASCII, so its bytes are its characters.
fn is_name(text: &str) -> bool
    ensures { result ≡ is_name text.now }
{
    match text.as_bytes() {
        [] => false,
        [first, rest @ ..] => {
            is_name_start(*first) && are_name_characters(rest) && text != "xmlns"
        }
    }
}

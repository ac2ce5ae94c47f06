//! Signs before an operand (XQuery 1.0, section 3.4).

ghost use Rattle.std.specs.Prelude.{◌≡◌, ◌∷◌, [], ℕ, reverse};
ghost use Rattle.query_meaning.specs.Meaning.{mean};
ghost use Rattle.query_meaning.specs.Operators as meaning;
ghost use Rattle.query_meaning.specs.Running.{Run, come_to, each};
ghost use Rattle.evaluation.specs.Evaluates.{Evaluates};
ghost use Rattle.evaluation.specs.Gives.{Gives, IsReady};

use crate::forms::Forms;
use evaluation::{Environment, Evaluation, Sequence};
use fault_codes::Code;
use query_grammar::{Expr, Sign};
use sqlite_items::{Boxed, Items};
use values::{Atom, Item, ValueFault, integer_operands};

impl<F: Fn(&mut Evaluation, &Expr, &Environment) -> Result<Sequence, ValueFault>> Forms<F> {
    /// Signs before an expression, the outermost first (XQuery 1.0, section 3.4). Codes: that of the expression; PXQ0002 where a string value is too long;
    /// XPTY0004 where there is more than one value, or a string or a boolean; FORG0001 where an untyped value doesn't read as an integer; FOAR0002 where a
    /// negative is out of range.
    pub fn signed(
        &self,
        run: &mut Evaluation,
        signs: &Items<Sign>,
        operand: &Boxed<Expr>,
        env: &Environment,
    ) -> Result<Sequence, ValueFault>
        requires evaluates { Evaluates (F.pre self.now.value_of) (F.post self.now.value_of) (operand.now ∷ []) }
        requires ready { IsReady env.now run.old }
        ensures { Gives (meaning.signed signs.now (mean operand.now) env.now) run.old result run.new }
    {
        let items = self.value_of(run, operand.get(), env)?;
        let values = run.atoms(&items)?;
        signed_of(run, signs.as_slice(), &values)
    }
}

fn signed_of(run: &mut Evaluation, signs: &[Sign], values: &[Atom]) -> Result<Sequence, ValueFault>
    ensures { Gives (meaning.with_signs signs.now values.now) run.old result run.new }
{
    match integer_operands(values, &[Atom::Integer(0)])? {
        None => Ok(Sequence::new(run.alloc())),
        Some((value, _)) => {
            let value = with_signs(signs, value)?;
            Ok(Sequence::one(run.alloc(), Item::Atomic(Atom::Integer(value)))?)
        }
    }
}

/// A number with signs before it. Code: FOAR0002 where one makes it pass the range.
fn with_signs(signs: &[Sign], operand: i64) -> Result<i64, Code>
    ensures { (run : Run) → come_to result run ≡ each meaning.with_sign 0 (reverse signs.now) operand run }
{
    let mut value = operand;
    let mut rest = signs;
    while let Some((sign, before)) = rest.split_last() {
        value = with_sign(*sign, value)?;
        rest = before;
    }
    Ok(value)
}

fn with_sign(sign: Sign, value: i64) -> Result<i64, Code>
    ensures { (n : ℕ) (run : Run) → come_to result run ≡ meaning.with_sign n value sign run }
{
    match sign {
        Sign::Plus => Ok(value),
        Sign::Minus => value.checked_neg().ok_or(Code::FOAR0002),
    }
}

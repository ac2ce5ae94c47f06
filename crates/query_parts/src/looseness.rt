//! How loosely tokens stand after an operand.

ghost use Rattle.std.specs.Prelude.{◌≡◌};
ghost use Rattle.query_parts.specs.Operators as part;

use crate::precedence::Precedence;

/// How loosely a token stands after an operand, from the tightest. What stands more loosely than all that a rule goes on with ends what
/// that rule reads.
#[derive(Clone, Copy)]
pub enum Looseness {
    /// It stands after no operand.
    Never,
    /// `[`: it goes on with a predicate of the step.
    Predicate,
    /// `/` and `//`: it goes on with a step of the path.
    Step,
    /// It is an operator.
    Operator(Precedence),
    /// `ascending` and `descending`, after a key.
    Direction,
    /// `,`: it goes on with the next item of a list.
    Comma,
    /// `for` and `let`: it goes on with clauses.
    Clause,
    /// `where`, after the clauses.
    Where,
    /// `order`, after the clauses and `where`.
    Order,
    /// It ends an expression: a closing bracket, a word such as `return` or `then`, or the end of the tokens.
    End,
}

impl Looseness {
    /// Its level, which is greater for what stands more loosely.
    pub(crate) fn level(self) -> u8
        ensures { result ≡ part.level_of self }
    {
        match self {
            Looseness::Never => 0,
            Looseness::Predicate => 1,
            Looseness::Step => 2,
            Looseness::Operator(precedence) => precedence.looseness(),
            Looseness::Direction => 11,
            Looseness::Comma => 12,
            Looseness::Clause => 13,
            Looseness::Where => 14,
            Looseness::Order => 15,
            Looseness::End => 16,
        }
    }
}

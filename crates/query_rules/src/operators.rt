//! Signs and operators between expressions.

ghost use Rattle.std.specs.Prelude.{◌≡◌, List, Some};
ghost use Rattle.query_parts.specs.Gives.{Gives};
ghost use Rattle.query_parts.specs.Operators.{operator_at};
ghost use Rattle.query_rules.specs.Reads.{HasReader};
ghost use Rattle.query_rules.specs.Parts as part;
ghost use Rattle.query_grammar.specs.Reader as read;
ghost use Rattle.query_grammar.specs.Reading as reading;
ghost use Rattle.query_grammar.specs.Words as table;
ghost use Rattle.query_tokens.specs.declared.token.Token.{Token};

use crate::rules::Rules;
use held_values::beside;
use query_grammar::{Binary, Expr, Operation, Sign};
use query_parts::cursor::{REFUSED, at_level, goes_on, sign};
use query_parts::lists::push;
use query_parts::whole::{chain_of, signed_of};
use query_parts::words::sign_of;
use query_parts::{Looseness, Precedence};
use query_tokens::{ParseFault, Tokens};
use sqlite_items::Items;
use std::alloc::Global;

#[tactic(auto, unfolding(query_grammar::specs::Reader::sees_sign))]
fn sees_sign(tokens: &Tokens) -> bool
    ensures { result ≡ read.sees_sign tokens.now }
{
    sign_of(tokens.peek_at(0)).is_some()
}

/// Takes signs, as many as there are.
#[tactic(auto, unfolding(query_grammar::specs::Reading::rounds))]
fn signs(alloc: Global, tokens: &mut Tokens) -> Result<Items<Sign>, ParseFault>
    ensures { Gives (reading.many read.sees_sign (reading.take_as table.sign_of) tokens.old) result tokens.new }
{
    let mut found = Items::new(alloc);
    for _turn in 0..tokens.left() {
        if !sees_sign(tokens) {
            return Ok(found);
        }
        // The next token is a sign, so that it is no fault of the text which comes here.
        found.push(sign(tokens)?)?;
    }
    Ok(found)
}

/// Takes an operator of this precedence.
#[tactic(auto, unfolding(query_grammar::specs::Reading::take_as))]
fn operator(tokens: &mut Tokens, precedence: Precedence) -> Result<Binary, ParseFault>
    ensures { Gives (reading.take_as (operator_at precedence) tokens.old) result tokens.new }
{
    match tokens.take() {
        None => Err(REFUSED),
        Some(token) => precedence.operator(token.kind).ok_or(REFUSED),
    }
}

/// How many operators of this precedence there may be, each with its operand: each takes a token.
fn turns(tokens: &Tokens, precedence: Precedence) -> usize
    ensures { result ≡ part.turns precedence tokens.now }
{
    if precedence.is_once() {
        1
    } else {
        tokens.left()
    }
}

// An expression in brackets may go through `operand`, `operations` and `continued` once for each precedence. What they call beside each other
// stays out of them by `inline(never)`, or else each would have the stack of all of it.
impl<F: Fn(Global, u8, &mut Tokens, usize) -> Result<Expr, ParseFault>> Rules<F> {
    /// Takes a path with its signs.
    #[inline(never)]
    #[tactic(auto, unfolding(query_grammar::specs::Reader::unary))]
    fn unary(&self, tokens: &mut Tokens) -> Result<Expr, ParseFault>
        requires { HasReader F.pre F.post self.now }
        ensures { Gives (read.unary (read.single self.now.level self.now.depth) tokens.old) result tokens.new }
    {
        let found = signs(self.alloc, tokens)?;
        let (found, x) = beside(found, self.path(tokens))?;
        Ok(signed_of(self.alloc, found, x)?)
    }

    #[cycle(binary)]
    #[tactic(auto, unfolding(query_grammar::specs::Reader::inter, query_grammar::specs::Reader::union, query_grammar::specs::Reader::multiplication, query_grammar::specs::Reader::addition, query_grammar::specs::Reader::range, query_grammar::specs::Reader::comparison, query_grammar::specs::Reader::conjunction))]
    fn operand(&self, tokens: &mut Tokens, precedence: Precedence) -> Result<Expr, ParseFault>
        requires { HasReader F.pre F.post self.now }
        ensures { Gives (part.operand (read.single self.now.level self.now.depth) precedence tokens.old) result tokens.new }
    {
        match precedence.tighter() {
            None => self.unary(tokens),
            Some(tighter) => self.binary(tokens, tighter),
        }
    }

    #[cycle(binary)]
    #[tactic(auto, unfolding(query_grammar::specs::Reader::operation))]
    fn operation(
        &self,
        tokens: &mut Tokens,
        precedence: Precedence,
    ) -> Result<Operation<Expr>, ParseFault>
        requires { HasReader F.pre F.post self.now }
        ensures { Gives (part.operation (read.single self.now.level self.now.depth) precedence tokens.old) result tokens.new }
    {
        let operator = operator(tokens, precedence)?;
        let operand = self.operand(tokens, precedence)?;
        Ok(Operation { operator, operand })
    }

    #[inline(never)]
    #[cycle(binary)]
    #[tactic(auto, unfolding(query_grammar::specs::Reading::rounds))]
    fn operations(
        &self,
        tokens: &mut Tokens,
        precedence: Precedence,
    ) -> Result<Items<Operation<Expr>>, ParseFault>
        requires { HasReader F.pre F.post self.now }
        ensures { Gives (part.operations (read.single self.now.level self.now.depth) precedence tokens.old) result tokens.new }
    {
        let mut found = Items::new(self.alloc);
        for _turn in 0..turns(tokens, precedence) {
            if !at_level(tokens, Looseness::Operator(precedence)) {
                return Ok(found);
            }
            let operation = self.operation(tokens, precedence)?;
            push(self.alloc, &mut found, operation)?;
        }
        Ok(found)
    }

    /// Takes what follows an operand that was read: operators of this precedence and of tighter ones, with theirs.
    #[cycle(binary)]
    fn continued(
        &self,
        tokens: &mut Tokens,
        first: Expr,
        precedence: Precedence,
    ) -> Result<Expr, ParseFault>
        requires { HasReader F.pre F.post self.now }
        ensures { (ts : List Token) → read.unary (read.single self.now.level self.now.depth) ts ≡ Some (first, tokens.old) → Gives (part.binary (read.single self.now.level self.now.depth) precedence ts) result tokens.new }
    {
        let first = self.operand_from(tokens, first, precedence)?;
        let (first, others) = beside(first, self.operations(tokens, precedence))?;
        Ok(chain_of(self.alloc, first, others)?)
    }

    /// The same of tighter operators alone: what then stands before the first of this precedence.
    #[cycle(binary)]
    fn operand_from(
        &self,
        tokens: &mut Tokens,
        first: Expr,
        precedence: Precedence,
    ) -> Result<Expr, ParseFault>
        requires { HasReader F.pre F.post self.now }
        ensures { (ts : List Token) → read.unary (read.single self.now.level self.now.depth) ts ≡ Some (first, tokens.old) → Gives (part.operand (read.single self.now.level self.now.depth) precedence ts) result tokens.new }
    {
        match precedence.tighter() {
            None => Ok(first),
            Some(tighter) => self.continued(tokens, first, tighter),
        }
    }

    /// Takes an expression of operators of this precedence and of tighter ones. Codes: `Static(XPST0003)` where none comes next; `Memory`
    /// where memory is refused.
    ///
    /// Most operands stand alone, and then no precedence is gone through.
    #[cycle(binary)]
    pub(crate) fn binary(
        &self,
        tokens: &mut Tokens,
        precedence: Precedence,
    ) -> Result<Expr, ParseFault>
        requires { HasReader F.pre F.post self.now }
        ensures { Gives (part.binary (read.single self.now.level self.now.depth) precedence tokens.old) result tokens.new }
    {
        let first = self.unary(tokens)?;
        if !goes_on(tokens, precedence) {
            return Ok(first);
        }
        self.continued(tokens, first, precedence)
    }

    /// Takes an expression of operators. Codes: `Static(XPST0003)` where none comes next; `Memory` where memory is refused.
    #[tactic(auto, unfolding(query_grammar::specs::Reader::disjunction))]
    pub(crate) fn disjunction(&self, tokens: &mut Tokens) -> Result<Expr, ParseFault>
        requires { HasReader F.pre F.post self.now }
        ensures { Gives (read.disjunction (read.single self.now.level self.now.depth) tokens.old) result tokens.new }
    {
        self.binary(tokens, Precedence::Disjunction)
    }
}

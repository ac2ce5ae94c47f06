//! What parts make together: one part alone is itself.

ghost use Rattle.std.specs.Prelude.{◌≡◌, IfOk};
ghost use Rattle.query_grammar.specs.Grammar as grammar;

use query_grammar::{Expr, Operation, Sign};
use sqlite_items::{Boxed, Items};
use std::alloc::{AllocError, Global};

/// One expression is itself; none or more are a sequence.
pub fn of_list(mut xs: Items<Expr>) -> Expr
    ensures { result ≡ grammar.of_list xs }
{
    if xs.len() == 1 {
        xs.remove(0)
    } else {
        Expr::Sequence(xs)
    }
}

/// An expression that no step follows is itself. Fails where memory is refused.
pub fn path_of(alloc: Global, first: Expr, others: Items<Expr>) -> Result<Expr, AllocError>
    ensures { IfOk result (λ x. x ≡ grammar.path_of first others) }
{
    if others.is_empty() {
        Ok(first)
    } else {
        Ok(Expr::Path(Boxed::new(alloc, first)?, others))
    }
}

/// An expression that no operator follows is itself. Fails where memory is refused.
pub fn chain_of(
    alloc: Global,
    first: Expr,
    others: Items<Operation<Expr>>,
) -> Result<Expr, AllocError>
    ensures { IfOk result (λ x. x ≡ grammar.chain_of first others) }
{
    if others.is_empty() {
        Ok(first)
    } else {
        Ok(Expr::Chain(Boxed::new(alloc, first)?, others))
    }
}

/// An expression without signs is itself. Fails where memory is refused.
pub fn signed_of(alloc: Global, signs: Items<Sign>, operand: Expr) -> Result<Expr, AllocError>
    ensures { IfOk result (λ x. x ≡ grammar.signed_of signs operand) }
{
    if signs.is_empty() {
        Ok(operand)
    } else {
        Ok(Expr::Signed(signs, Boxed::new(alloc, operand)?))
    }
}

//! Calls of functions that there are not.

ghost use Rattle.std.specs.Prelude.{◌≡◌};
ghost use Rattle.query_grammar.specs.declared.ast.Expr.{out-Expr};
ghost use Rattle.static_checks.specs.Functions.{is_unknown_call, has_unknown_call};

use crate::parts::part;
use query_grammar::Expr;

/// Whether an expression calls a function that there is not.
pub(crate) fn is_unknown_call(x: &Expr) -> bool
    ensures { result ≡ is_unknown_call (out-Expr x.now) }
{
    match x {
        Expr::Call(function, _) => function.is_none(),
        _ => false,
    }
}

/// Whether an expression or something in it calls a function that there is not, or with another number of arguments than it takes
/// (XQuery 1.0, section 3.1.5: XPST0017). It takes no memory.
pub fn has_unknown_call(x: &Expr) -> bool
    ensures { result ≡ has_unknown_call x.now }
{
    if is_unknown_call(x) {
        return true;
    }
    let mut index: u128 = 0;
    while let Some(y) = part(x, index) {
        if has_unknown_call(y) {
            return true;
        }
        index += 1;
    }
    false
}

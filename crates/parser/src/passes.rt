//! The passes over a text, in their order.

ghost use Rattle.std.specs.Prelude.{IfOk};
ghost use Rattle.std.specs.Str.{chars};
ghost use Rattle.parser.specs.Passes.{IsChecked};
ghost use Rattle.static_checks.specs.Static.{IsAnswer, IsExpression, checked, of_tokens, parsed};

use fault_codes::Code;
use query_grammar::Expr;
use query_rules::read_query;
use query_tokens::{ParseFault, Tokens, read_tokens};
use static_checks::{
    binds_a_name_twice, category_fault, has_fault, has_unbound, has_unknown_call, nests_too_deep,
};
use std::alloc::Global;

/// The passes over an expression, one after another.
fn check_in_turn(alloc: Global, x: &Expr) -> Result<(), ParseFault>
    ensures { IsChecked x.now result }
{
    if has_unknown_call(x) {
        return Err(ParseFault::Static(Code::XPST0017));
    }
    if binds_a_name_twice(x) {
        return Err(ParseFault::Static(Code::XQST0089));
    }
    if has_unbound(alloc, x)? {
        return Err(ParseFault::Static(Code::XPST0008));
    }
    match category_fault(x) {
        Some(code) => Err(ParseFault::Static(code)),
        None => Ok(()),
    }
}

/// The passes over an expression: in one walk, and then one after another only where there is a fault.
#[tactic(auto, using(crate::proofs::Exact::no_fault))]
fn check(alloc: Global, x: &Expr) -> Result<(), ParseFault>
    ensures { IsChecked x.now result }
{
    if has_fault(alloc, x)? {
        check_in_turn(alloc, x)
    } else {
        Ok(())
    }
}

/// The expression, if the passes over it find no fault.
fn checked(alloc: Global, x: Expr) -> Result<Expr, ParseFault>
    ensures { IsAnswer (checked x) result }
{
    check(alloc, &x)?;
    Ok(x)
}

/// The passes after that over the characters.
fn of_tokens(alloc: Global, level: u8, tokens: Tokens) -> Result<Expr, ParseFault>
    ensures { IsAnswer (of_tokens level tokens) result }
{
    if nests_too_deep(&tokens) {
        return Err(ParseFault::Static(Code::PXQ0001));
    }
    checked(alloc, read_query(alloc, level, tokens)?)
}

/// The expression that a text is spelt as at a level of the language, or the code of its static fault. There is at most one
/// expression (`laws::one_expression`).
///
/// Faults are sought in passes over the whole text, and the first pass that finds one gives the code (XQuery 1.0, section 2.3.1,
/// leaves the order open): tokens (`XPST0003`, `XQST0090`, `PXQ0002`), more than 200 open brackets (`PXQ0001`), the grammar (`XPST0003`),
/// functions (`XPST0017`), names that one clause binds twice (`XQST0089`), variables that are not bound (`XPST0008`), updating
/// expressions where none may stand (`XUST0001`) and copies that are changed by what gives items (`XUST0002`). `Memory` says that memory was refused, and nothing of the text.
#[tactic(auto, using(crate::proofs::Exact::answered))]
pub fn parse(alloc: Global, level: u8, text: &str) -> Result<Expr, ParseFault>
    ensures answer { IsAnswer (parsed level (chars text.now)) result }
    ensures sound { IfOk result (λ x. IsExpression level (chars text.now) x) }
{
    of_tokens(alloc, level, read_tokens(alloc, text)?)
}

//! Variables that are bound twice by one clause, and variables that are not bound.

ghost use Rattle.std.specs.Prelude.{◌≡◌, ◌<◌, ◌^◌, [], false, IfOk, OnOk};
ghost use Rattle.std.specs.List.{list_any};
ghost use Rattle.query_grammar.specs.declared.ast.Expr.{out-Expr};
ghost use Rattle.static_checks.specs.Parts.{Scope, bound_by, variables_of};
ghost use Rattle.static_checks.specs.Scopes.{AreBound, bound_after, with_names};
ghost use Rattle.static_checks.specs.Variables.{binds_twice, has_twice_bound, binds_a_name_twice, has_unbound, is_unbound};

use crate::names::BoundNames;
use crate::parts::{at, part};
use query_grammar::{Binding, Clause, Expr};
use std::alloc::{AllocError, Global};

/// Whether both variables of a clause have one name.
fn binds_twice(clause: &Clause<Expr>) -> bool
    ensures { result ≡ binds_twice clause.now }
{
    match clause {
        Clause::ForAt(binding, at) => binding.variable.as_str() == at.as_str(),
        _ => false,
    }
}

/// Whether one of the clauses does so.
fn any_binds_twice(clauses: &[Clause<Expr>]) -> bool
    ensures { result ≡ list_any binds_twice clauses.now }
{
    for clause in clauses {
        if binds_twice(clause) {
            return true;
        }
    }
    false
}

/// Whether a clause of an expression does so.
pub(crate) fn has_twice_bound(x: &Expr) -> bool
    ensures { result ≡ has_twice_bound (out-Expr x.now) }
{
    match x {
        Expr::Flwor(clauses, _, _, _) => any_binds_twice(clauses.as_slice()),
        _ => false,
    }
}

/// Whether in an expression or in something in it a `for` clause binds one name to the item and to its position (XQuery 1.0, section
/// 3.8.1: XQST0089). It takes no memory.
pub fn binds_a_name_twice(x: &Expr) -> bool
    ensures { result ≡ binds_a_name_twice x.now }
{
    if has_twice_bound(x) {
        return true;
    }
    let mut index: u128 = 0;
    while let Some(y) = part(x, index) {
        if binds_a_name_twice(y) {
            return true;
        }
        index += 1;
    }
    false
}

/// Whether an expression is a variable that is not bound.
pub(crate) fn is_unbound(x: &Expr, bound: &BoundNames) -> bool
    ensures { result ≡ is_unbound (out-Expr x.now) bound.now }
{
    match x {
        Expr::Variable(name) => !bound.has(name.as_str()),
        _ => false,
    }
}

/// Binds the variables of a clause. Fails where memory is refused; which of them are bound then isn't said.
fn bind_clause<'a>(clause: &'a Clause<Expr>, bound: &mut BoundNames<'a>) -> Result<(), AllocError>
    ensures { OnOk result (bound.new ≡ with_names (bound_by clause.now) bound.old) }
{
    match clause {
        Clause::For(binding) => bound.add(binding.variable.as_str()),
        Clause::ForAt(binding, at) => {
            bound.add(binding.variable.as_str())?;
            bound.add(at.as_str())
        }
        Clause::Let(binding) => bound.add(binding.variable.as_str()),
    }
}

/// Binds the variables of bindings. Fails where memory is refused; which of them are bound then isn't said.
fn bind_all<'a>(bindings: &'a [Binding<Expr>], bound: &mut BoundNames<'a>) -> Result<(), AllocError>
    ensures { OnOk result (bound.new ≡ with_names (variables_of bindings.now) bound.old) }
{
    for binding in bindings {
        bound.add(binding.variable.as_str())?;
    }
    Ok(())
}

/// Binds what an expression binds for the parts after that of an index, and not for that one. Fails where memory is refused; which
/// names are bound then isn't said.
#[inline(never)]
pub(crate) fn bind_after<'a>(
    x: &'a Expr,
    index: u128,
    bound: &mut BoundNames<'a>,
) -> Result<(), AllocError>
    requires { index < 2 ^ 68 }
    ensures { OnOk result (bound.new ≡ with_names (bound_after (out-Expr x.now) index) bound.old) }
{
    match x {
        Expr::Quantified(_, bindings, _) => match at(bindings, index) {
            Some(binding) => bound.add(binding.variable.as_str()),
            None => Ok(()),
        },
        Expr::Flwor(clauses, _, _, _) => match at(clauses, index) {
            Some(clause) => bind_clause(clause, bound),
            None => Ok(()),
        },
        Expr::Copy(bindings, _, _) => {
            if index + 1 == bindings.len() as u128 {
                bind_all(bindings.as_slice(), bound)
            } else {
                Ok(())
            }
        }
        _ => Ok(()),
    }
}

/// Whether where these names are bound an expression or something in it is a variable that is not bound. If not, the names are as
/// they were. Fails where memory is refused; which names are bound then isn't said.
fn has_unbound_under<'a>(x: &'a Expr, bound: &mut BoundNames<'a>) -> Result<bool, AllocError>
    ensures tells { IfOk result (λ b. (scope : Scope) → AreBound bound.old scope → b ≡ has_unbound x.now scope) }
    ensures kept { IfOk result (λ b. b ≡ false → bound.new ≡ bound.old) }
{
    if is_unbound(x, bound) {
        return Ok(true);
    }
    let outer = bound.len();
    let mut index: u128 = 0;
    while let Some(y) = part(x, index) {
        if has_unbound_under(y, bound)? {
            return Ok(true);
        }
        bind_after(x, index, bound)?;
        index += 1;
    }
    bound.truncate(outer);
    Ok(false)
}

/// Whether a variable stands in an expression where it is not bound: neither by a clause before it in the same expression, nor by one
/// around it (XQuery 1.0, sections 3.1.2, 3.8.1 and 3.11: XPST0008). Fails only where memory is refused, which says nothing of the
/// expression.
pub fn has_unbound(alloc: Global, x: &Expr) -> Result<bool, AllocError>
    ensures { IfOk result (λ b. b ≡ has_unbound x.now []) }
{
    let mut bound = BoundNames::new(alloc);
    has_unbound_under(x, &mut bound)
}

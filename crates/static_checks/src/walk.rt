//! All passes over an expression in one walk.
//!
//! A long expression lies in no cache, so that each walk over it waits for memory once more.

ghost use Rattle.std.specs.Prelude.{◌≡◌, ◌||◌, [], IfOk, IsSome};
ghost use Rattle.static_checks.specs.Categories.{is_faulty, judged};
ghost use Rattle.static_checks.specs.Functions.{has_unknown_call};
ghost use Rattle.static_checks.specs.Variables.{binds_a_name_twice, has_unbound};
ghost use Rattle.static_checks.specs.Walk.{IsWalked};

use crate::categories::Category;
use crate::functions::is_unknown_call;
use crate::judging::{Found, concluded, inner_of, is_inner, taken};
use crate::names::BoundNames;
use crate::parts::part;
use crate::variables::{bind_after, has_twice_bound, is_unbound};
use query_grammar::Expr;
use std::alloc::{AllocError, Global};

/// The category of an expression where these names are bound, and nothing where one of the passes finds a fault in it. If none does,
/// the names are as they were. Fails where memory is refused; which names are bound then isn't said.
fn walked<'a>(x: &'a Expr, bound: &mut BoundNames<'a>) -> Result<Option<Category>, AllocError>
    ensures tells { IfOk result (λ found. IsWalked x.now bound.old found) }
    ensures kept { IfOk result (λ found. IsSome found → bound.new ≡ bound.old) }
{
    if is_unknown_call(x) {
        return Ok(None);
    }
    if has_twice_bound(x) {
        return Ok(None);
    }
    if is_unbound(x, bound) {
        return Ok(None);
    }
    let inner = inner_of(x);
    let outer = bound.len();
    let mut found = Found {
        updates: false,
        simple: false,
    };
    let mut index: u128 = 0;
    while let Some(y) = part(x, index) {
        let Some(category) = walked(y, bound)? else {
            return Ok(None);
        };
        let may_update = is_inner(inner, index);
        let Some(more) = taken(found, category, may_update) else {
            return Ok(None);
        };
        found = more;
        bind_after(x, index, bound)?;
        index += 1;
    }
    bound.truncate(outer);
    Ok(concluded(inner.own, found))
}

/// Whether one of the passes over functions, names that one clause binds twice, variables that are not bound, and categories finds a
/// fault in an expression. Fails only where memory is refused, which says nothing of the expression.
pub fn has_fault(alloc: Global, x: &Expr) -> Result<bool, AllocError>
    ensures { IfOk result (λ b. b ≡ has_unknown_call x.now || (binds_a_name_twice x.now || (has_unbound x.now [] || is_faulty (judged x.now)))) }
{
    let mut bound = BoundNames::new(alloc);
    let found = walked(x, &mut bound)?;
    Ok(found.is_none())
}

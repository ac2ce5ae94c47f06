//! Where updating expressions stand.

ghost use Rattle.std.specs.Prelude.{◌≡◌, ◌||◌, true, false, Some, None, [], length, map};
ghost use Rattle.query_grammar.specs.declared.ast.Expr.{out-Expr};
ghost use Rattle.static_checks.specs.Categories.{first_fault, form_of, is_faulty, is_simple, is_updating, judged};
ghost use Rattle.static_checks.specs.declared.categories.Own.TheVariants.{GivesItems, OfResults};
ghost use Rattle.static_checks.specs.Inside.{IsInner, between, children, concluded, found_in, is_inner, placed, seen, taken};

use crate::categories::{Category, Own};
use crate::parts::part;
use fault_codes::Code;
use query_grammar::Expr;

/// What the category of an expression comes from, and which of its parts are the inner ones, where an updating expression may stand.
#[derive(Clone, Copy)]
pub(crate) struct Inner {
    pub(crate) own: Own,
    from: u128,
    to: u128,
}

/// What the categories of inner parts have come to: whether one updates, and whether one is simple.
#[derive(Clone, Copy)]
pub(crate) struct Found {
    pub(crate) updates: bool,
    pub(crate) simple: bool,
}

/// The inner parts of an expression.
pub(crate) fn inner_of(x: &Expr) -> Inner
    ensures own { result.own ≡ (form_of (out-Expr x.now)).own }
    ensures place { IsInner (form_of (out-Expr x.now)) result.from result.to }
    ensures results { result.own ≡ OfResults → (result.from ≡ length (form_of (out-Expr x.now)).before) × ((form_of (out-Expr x.now)).after ≡ []) }
{
    let (own, from, to) = match x {
        Expr::Sequence(xs) => (Own::OfResults, 0, xs.len() as u128),
        Expr::If(_, _, _) => (Own::OfResults, 1, 3),
        Expr::Flwor(clauses, condition, sort_keys, _) => {
            let tests = if condition.is_some() { 1 } else { 0 };
            let before = clauses.len() as u128 + tests + sort_keys.len() as u128;
            (Own::OfResults, before, before + 1)
        }
        Expr::Copy(bindings, _, _) => {
            (
                Own::GivesItems,
                bindings.len() as u128,
                bindings.len() as u128 + 1,
            )
        }
        Expr::Insert(_, _, _) => (Own::Updates, 0, 0),
        Expr::Delete(_) => (Own::Updates, 0, 0),
        Expr::ReplaceNode(_, _) => (Own::Updates, 0, 0),
        Expr::ReplaceValue(_, _) => (Own::Updates, 0, 0),
        Expr::Rename(_, _) => (Own::Updates, 0, 0),
        _ => (Own::GivesItems, 0, 0),
    };
    Inner { own, from, to }
}

/// Whether the part of an index is an inner one.
pub(crate) fn is_inner(inner: Inner, index: u128) -> bool
    ensures { result ≡ is_inner inner.from inner.to index }
{
    inner.from <= index && index < inner.to
}

/// What is found with one part more of that category.
fn seen(found: Found, category: Category) -> Found
    ensures { result ≡ seen found category }
{
    Found {
        updates: found.updates || category == Category::Updating,
        simple: found.simple || category == Category::Simple,
    }
}

/// One part more; nothing where it updates and may not.
pub(crate) fn taken(found: Found, category: Category, is_inner: bool) -> Option<Found>
    ensures { result ≡ taken found category is_inner }
{
    if is_inner {
        Some(seen(found, category))
    } else if category == Category::Updating {
        None
    } else {
        Some(found)
    }
}

/// The category of the whole; nothing where an updating inner part stands beside a simple one, or a copy is changed by a simple one.
pub(crate) fn concluded(own: Own, found: Found) -> Option<Category>
    ensures { result ≡ concluded own (Some found) }
{
    match own {
        Own::Updates => Some(Category::Updating),
        Own::GivesItems => {
            if found.simple {
                None
            } else {
                Some(Category::Simple)
            }
        }
        Own::OfResults => {
            if found.updates && found.simple {
                None
            } else if found.updates {
                Some(Category::Updating)
            } else if found.simple {
                Some(Category::Simple)
            } else {
                Some(Category::Vacuous)
            }
        }
    }
}

/// The category of an expression, and nothing where there is a fault in it.
pub(crate) fn judged(x: &Expr) -> Option<Category>
    ensures { result ≡ placed (judged x.now) }
{
    let inner = inner_of(x);
    let mut found = Found {
        updates: false,
        simple: false,
    };
    let mut index: u128 = 0;
    while let Some(y) = part(x, index) {
        let category = judged(y)?;
        let may_update = is_inner(inner, index);
        found = taken(found, category, may_update)?;
        index += 1;
    }
    concluded(inner.own, found)
}

/// What the categories of the parts come to whose indices are `from` and those after it, but for `to` and those after that.
fn found_between(x: &Expr, from: u128, to: u128) -> Found
    ensures { result ≡ found_in (between from to (children x.now)) }
{
    let mut found = Found {
        updates: false,
        simple: false,
    };
    let mut index = from;
    while index < to {
        let Some(y) = part(x, index) else {
            return found;
        };
        found = seen(found, category(y));
        index += 1;
    }
    found
}

/// Whether that is a copy which is changed by a simple expression, and has no updating source.
fn is_changed_by_simple(own: Own, before: Found, inner: Found) -> bool
    ensures is { result ≡ true → (own ≡ GivesItems) × ((inner.simple ≡ true) × (before.updates ≡ false)) }
    ensures not { result ≡ false → own ≡ GivesItems → inner.simple ≡ true → before.updates ≡ true }
{
    match own {
        Own::GivesItems => inner.simple && !before.updates,
        Own::Updates => false,
        Own::OfResults => false,
    }
}

/// The code of the fault of an expression in whose parts there is none.
fn own_code(x: &Expr) -> Code
    requires faulty { is_faulty (judged x.now) ≡ true }
    requires parts { first_fault (map judged (children x.now)) ≡ None }
    ensures { (judged x.now).fault ≡ Some result }
{
    let inner = inner_of(x);
    let before = found_between(x, 0, inner.from);
    let changes = found_between(x, inner.from, inner.to);
    if is_changed_by_simple(inner.own, before, changes) {
        Code::XUST0002
    } else {
        Code::XUST0001
    }
}

/// The code of the first fault in an expression by categories: an updating expression stands where none may (XQuery Update Facility 1.0,
/// section 2.5: XUST0001), or what a copy is changed by is neither updating nor vacuous (section 2.4.6: XUST0002). Parts are judged before
/// the whole, and what the whole asks of them from the left (our own choice). It takes no memory.
pub fn category_fault(x: &Expr) -> Option<Code>
    ensures { result ≡ (judged x.now).fault }
{
    let mut index: u128 = 0;
    while let Some(y) = part(x, index) {
        let fault = category_fault(y);
        if fault.is_some() {
            return fault;
        }
        index += 1;
    }
    if judged(x).is_some() {
        None
    } else {
        Some(own_code(x))
    }
}

fn updates(category: Category) -> bool
    ensures { result ≡ is_updating category }
{
    category == Category::Updating
}

fn is_or_was_simple(was_simple: bool, category: Category) -> bool
    ensures { result ≡ was_simple || is_simple category }
{
    was_simple || category == Category::Simple
}

/// The category of an expression (XQuery Update Facility 1.0, section 2.1); one in which there is a fault has the category that it would
/// have without. It takes no memory.
pub fn category(x: &Expr) -> Category
    ensures { result ≡ (judged x.now).category }
{
    let inner = inner_of(x);
    match inner.own {
        Own::Updates => return Category::Updating,
        Own::GivesItems => return Category::Simple,
        Own::OfResults => {}
    }
    let mut simple = false;
    let mut index = inner.from;
    while let Some(y) = part(x, index) {
        let found = category(y);
        if updates(found) {
            return Category::Updating;
        }
        simple = is_or_was_simple(simple, found);
        index += 1;
    }
    if simple {
        Category::Simple
    } else {
        Category::Vacuous
    }
}

//! The parts of expressions.
//!
//! An index of 128 bits counts the parts, since no sum of lengths passes it.

ghost use Rattle.std.specs.Prelude.{◌≡◌, ◌<◌, ◌++◌, ◌∷◌, [], List, map, slice_get, OnSome, ◌^◌, option_to_list, true};
ghost use Rattle.std.specs.Option.{option_copied, option_map};
ghost use Rattle.query_grammar.specs.declared.ast.Expr.{Expr as Term, out-Expr};
ghost use Rattle.static_checks.specs.Parts.{Part, parts, name_parts, operands, sources, keys, source_of};
ghost use Rattle.static_checks.specs.Inside.{children, has_few};

use query_grammar::{Binding, Clause, Expr, Name, Operation, SortKey};
use sqlite_items::{Boxed, Items};

/// The item at an index.
pub(crate) fn at<T>(xs: &Items<T>, index: u128) -> Option<&T>
    ensures there { option_copied result ≡ slice_get xs.now index }
    ensures small { OnSome result (index < 2 ^ 64) }
{
    if index < xs.len() as u128 {
        xs.get(index as usize)
    } else {
        None
    }
}

/// The only part, at index 0.
fn only(x: &Boxed<Expr>, index: u128) -> Option<&Expr>
    ensures there { option_copied result ≡ slice_get (x.now ∷ []) index }
    ensures small { OnSome result (index < 2 ^ 64) }
{
    if index == 0 { Some(x.get()) } else { None }
}

/// The first of two parts or the second.
fn one_of_two<'a>(x: &'a Boxed<Expr>, y: &'a Boxed<Expr>, index: u128) -> Option<&'a Expr>
    ensures there { option_copied result ≡ slice_get (x.now ∷ y.now ∷ []) index }
    ensures small { OnSome result (index < 2 ^ 64) }
{
    if index == 0 {
        Some(x.get())
    } else {
        only(y, index - 1)
    }
}

/// The first of three parts or one of the others.
fn one_of_three<'a>(
    x: &'a Boxed<Expr>,
    y: &'a Boxed<Expr>,
    z: &'a Boxed<Expr>,
    index: u128,
) -> Option<&'a Expr>
    ensures there { option_copied result ≡ slice_get (x.now ∷ y.now ∷ z.now ∷ []) index }
    ensures small { OnSome result (index < 2 ^ 64) }
{
    if index == 0 {
        Some(x.get())
    } else {
        one_of_two(y, z, index - 1)
    }
}

/// The first part, or one of those that follow it.
fn one_of_list<'a>(x: &'a Boxed<Expr>, xs: &'a Items<Expr>, index: u128) -> Option<&'a Expr>
    ensures there { option_copied result ≡ slice_get (x.now ∷ xs.now) index }
    ensures small { OnSome result (index < 2 ^ 65) }
{
    if index == 0 {
        Some(x.get())
    } else {
        at(xs, index - 1)
    }
}

/// An operand.
#[tactic(auto, using(crate::proofs::Folds::get_mapped))]
fn operand(others: &Items<Operation<Expr>>, index: u128) -> Option<&Expr>
    ensures there { option_copied result ≡ slice_get (operands others.now) index }
    ensures small { OnSome result (index < 2 ^ 64) }
{
    match at(others, index) {
        Some(operation) => Some(&operation.operand),
        None => None,
    }
}

/// The first operand, or one of the others.
fn one_of_chain<'a>(
    x: &'a Boxed<Expr>,
    others: &'a Items<Operation<Expr>>,
    index: u128,
) -> Option<&'a Expr>
    ensures there { option_copied result ≡ slice_get (x.now ∷ operands others.now) index }
    ensures small { OnSome result (index < 2 ^ 65) }
{
    if index == 0 {
        Some(x.get())
    } else {
        operand(others, index - 1)
    }
}

/// What a variable is bound to.
#[tactic(auto, using(crate::proofs::Folds::get_mapped))]
fn source(bindings: &Items<Binding<Expr>>, index: u128) -> Option<&Expr>
    ensures there { option_copied result ≡ slice_get (sources bindings.now) index }
    ensures small { OnSome result (index < 2 ^ 64) }
{
    match at(bindings, index) {
        Some(binding) => Some(&binding.source),
        None => None,
    }
}

/// What the variables of a clause are bound to.
#[tactic(auto, using(crate::proofs::Folds::get_mapped))]
fn clause_source(clauses: &Items<Clause<Expr>>, index: u128) -> Option<&Expr>
    ensures there { option_copied result ≡ slice_get (map source_of clauses.now) index }
    ensures small { OnSome result (index < 2 ^ 64) }
{
    match at(clauses, index) {
        Some(Clause::For(binding)) => Some(&binding.source),
        Some(Clause::ForAt(binding, _)) => Some(&binding.source),
        Some(Clause::Let(binding)) => Some(&binding.source),
        None => None,
    }
}

/// A key of `order by`.
#[tactic(auto, using(crate::proofs::Folds::get_mapped))]
fn key(sort_keys: &Items<SortKey<Expr>>, index: u128) -> Option<&Expr>
    ensures there { option_copied result ≡ slice_get (keys sort_keys.now) index }
    ensures small { OnSome result (index < 2 ^ 64) }
{
    match at(sort_keys, index) {
        Some(found) => Some(&found.key),
        None => None,
    }
}

/// The keys of `order by`, and what is returned.
fn after_where<'a>(
    sort_keys: &'a Items<SortKey<Expr>>,
    x: &'a Boxed<Expr>,
    index: u128,
) -> Option<&'a Expr>
    ensures there { option_copied result ≡ slice_get (keys sort_keys.now ++ x.now ∷ []) index }
    ensures small { OnSome result (index < 2 ^ 65) }
{
    let count = sort_keys.len() as u128;
    if index < count {
        key(sort_keys, index)
    } else {
        only(x, index - count)
    }
}

/// What stands after the clauses.
fn after_clauses<'a>(
    condition: &'a Option<Boxed<Expr>>,
    sort_keys: &'a Items<SortKey<Expr>>,
    x: &'a Boxed<Expr>,
    index: u128,
) -> Option<&'a Expr>
    ensures there { option_copied result ≡ slice_get (option_to_list condition.now ++ keys sort_keys.now ++ x.now ∷ []) index }
    ensures small { OnSome result (index < 2 ^ 66) }
{
    match condition {
        None => after_where(sort_keys, x, index),
        Some(found) => {
            if index == 0 {
                Some(found.get())
            } else {
                after_where(sort_keys, x, index - 1)
            }
        }
    }
}

/// The expression that computes a name, or the content.
fn one_of_constructor<'a>(
    name: &'a Name<Boxed<Expr>>,
    x: &'a Boxed<Expr>,
    index: u128,
) -> Option<&'a Expr>
    ensures there { option_copied result ≡ slice_get (name_parts name.now ++ x.now ∷ []) index }
    ensures small { OnSome result (index < 2 ^ 64) }
{
    match name {
        Name::Written(_) => only(x, index),
        Name::Computed(name) => one_of_two(name, x, index),
    }
}

/// The clauses, and what stands after them.
fn one_of_flwor<'a>(
    clauses: &'a Items<Clause<Expr>>,
    condition: &'a Option<Boxed<Expr>>,
    sort_keys: &'a Items<SortKey<Expr>>,
    x: &'a Boxed<Expr>,
    index: u128,
) -> Option<&'a Expr>
    ensures there { option_copied result ≡ slice_get (map source_of clauses.now ++ (option_to_list condition.now ++ keys sort_keys.now ++ x.now ∷ [])) index }
    ensures small { OnSome result (index < 2 ^ 67) }
{
    let count = clauses.len() as u128;
    if index < count {
        clause_source(clauses, index)
    } else {
        after_clauses(condition, sort_keys, x, index - count)
    }
}

/// The sources of bindings, and what stands after them.
fn one_of_quantified<'a>(
    bindings: &'a Items<Binding<Expr>>,
    x: &'a Boxed<Expr>,
    index: u128,
) -> Option<&'a Expr>
    ensures there { option_copied result ≡ slice_get (sources bindings.now ++ x.now ∷ []) index }
    ensures small { OnSome result (index < 2 ^ 65) }
{
    let count = bindings.len() as u128;
    if index < count {
        source(bindings, index)
    } else {
        only(x, index - count)
    }
}

/// The sources of bindings, and the two expressions that stand after them.
fn one_of_copy<'a>(
    bindings: &'a Items<Binding<Expr>>,
    x: &'a Boxed<Expr>,
    y: &'a Boxed<Expr>,
    index: u128,
) -> Option<&'a Expr>
    ensures there { option_copied result ≡ slice_get (sources bindings.now ++ x.now ∷ y.now ∷ []) index }
    ensures small { OnSome result (index < 2 ^ 65) }
{
    let count = bindings.len() as u128;
    if index < count {
        source(bindings, index)
    } else {
        one_of_two(x, y, index - count)
    }
}

/// The part of an index, from 0, in the order in which the parts are written.
pub(crate) fn part(x: &Expr, index: u128) -> Option<&Expr>
    ensures there { option_copied result ≡ slice_get (children x.now) index }
    ensures small { OnSome result (index < 2 ^ 68) }
{
    match x {
        Expr::Integer(_) | Expr::String(_) | Expr::Variable(_) | Expr::Context => None,
        Expr::Sequence(xs) => at(xs, index),
        Expr::Call(_, xs) => at(xs, index),
        Expr::Step(_, _, xs) => at(xs, index),
        Expr::Filter(x, xs) => one_of_list(x, xs, index),
        Expr::Path(x, xs) => one_of_list(x, xs, index),
        Expr::Chain(x, others) => one_of_chain(x, others, index),
        Expr::Quantified(_, bindings, x) => one_of_quantified(bindings, x, index),
        Expr::Flwor(clauses, condition, sort_keys, x) => one_of_flwor(
            clauses, condition, sort_keys, x, index,
        ),
        Expr::Copy(bindings, x, y) => one_of_copy(bindings, x, y, index),
        _ => part_of_few(x, index),
    }
}

/// The same of a form that has three parts at the most.
fn part_of_few(x: &Expr, index: u128) -> Option<&Expr>
    requires { has_few (out-Expr x.now) ≡ true }
    ensures there { option_copied result ≡ slice_get (children x.now) index }
    ensures small { OnSome result (index < 2 ^ 64) }
{
    match x {
        Expr::Document(x) => only(x, index),
        Expr::Element(name, x) => one_of_constructor(name, x, index),
        Expr::Attribute(name, x) => one_of_constructor(name, x, index),
        Expr::Text(x) => only(x, index),
        Expr::Comment(x) => only(x, index),
        Expr::Instruction(name, x) => one_of_constructor(name, x, index),
        Expr::Signed(_, x) => only(x, index),
        Expr::If(x, y, z) => one_of_three(x, y, z, index),
        Expr::Insert(x, _, y) => one_of_two(x, y, index),
        Expr::Delete(x) => only(x, index),
        Expr::ReplaceNode(x, y) => one_of_two(x, y, index),
        Expr::ReplaceValue(x, y) => one_of_two(x, y, index),
        Expr::Rename(x, y) => one_of_two(x, y, index),
        _ => None,
    }
}

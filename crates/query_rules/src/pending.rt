//! Forms that wait for an expression.

ghost use Rattle.std.specs.Prelude.{◌≡◌};
ghost use Rattle.query_parts.specs.Gives.{Gives};
ghost use Rattle.query_rules.specs.Stages as stage;

use query_grammar::{Binding, Clause, Expr, Place, Quantifier, SortKey};
use query_parts::held::followed;
use query_tokens::{Kind, ParseFault, Tokens};
use sqlite_items::{Boxed, Items};
use values::Text;

/// A form that waits for its last expression, by what stands before it.
#[derive(Drop)]
pub(crate) enum Last {
    /// Clauses, what follows `where`, the keys of `order by`, and `return`
    Return(Items<Clause<Expr>>, Option<Boxed<Expr>>, Items<SortKey<Expr>>),
    /// `some` or `every`, the bindings, and `satisfies`
    Satisfies(Quantifier, Items<Binding<Expr>>),
    /// `if (a) then b else`
    Else(Boxed<Expr>, Boxed<Expr>),
    /// `insert node a into`, with the place.
    Insert(Boxed<Expr>, Place),
    /// `delete node`
    Delete,
    /// `replace node a with`
    ReplaceNode(Boxed<Expr>),
    /// `replace value of node a with`
    ReplaceValue(Boxed<Expr>),
    /// `rename node a as`
    Rename(Boxed<Expr>),
    /// `copy`, the bindings, `modify a return`
    Copy(Items<Binding<Expr>>, Boxed<Expr>),
}

/// A form that waits for an expression that no comma parts, by what stands before that expression.
#[derive(Drop)]
pub(crate) enum Pending {
    /// Clauses, and `for $x in`
    For(Items<Clause<Expr>>, Text),
    /// Clauses, and `for $x at $y in`
    ForAt(Items<Clause<Expr>>, Text, Text),
    /// Clauses, and `let $x :=`
    Let(Items<Clause<Expr>>, Text),
    /// Clauses, and `where`
    Where(Items<Clause<Expr>>),
    /// Clauses, what follows `where`, and `order by` with the keys before this one.
    Key(Items<Clause<Expr>>, Option<Boxed<Expr>>, Items<SortKey<Expr>>),
    /// `some` or `every`, the bindings before this one, and `$x in`
    In(Quantifier, Items<Binding<Expr>>, Text),
    /// `if (a) then`
    Then(Boxed<Expr>),
    /// `insert node`
    Insert,
    /// `replace node`
    ReplaceNode,
    /// `replace value of node`
    ReplaceValue,
    /// `rename node`
    Rename,
    /// `copy`, the bindings before this one, and `$x :=`
    Copy(Items<Binding<Expr>>, Text),
    /// `copy`, the bindings, and `modify`
    Modify(Items<Binding<Expr>>),
    /// What comes before the last expression of a form.
    Last(Last),
}

/// What was come to, at the end of an expression or before one.
#[derive(Drop)]
pub(crate) enum Progress {
    /// The end of this expression.
    Read(Expr),
    /// A place where this form waits for an expression.
    Waits(Pending),
}

/// Takes a word, after which this form waits. Codes: `Static(XPST0003)` where the next token is of another kind, or there is none; the form
/// is dropped.
pub(crate) fn word(
    tokens: &mut Tokens,
    kind: Kind,
    pending: Pending,
) -> Result<Progress, ParseFault>
    ensures { Gives (stage.word kind pending tokens.old) result tokens.new }
{
    Ok(Progress::Waits(followed(pending, tokens, kind)?))
}

/// The form with its last expression.
pub(crate) fn ended(last: Last, x: Boxed<Expr>) -> Expr
    ensures { result ≡ stage.ended last x }
{
    match last {
        Last::Return(found, condition, keys) => Expr::Flwor(found, condition, keys, x),
        Last::Satisfies(quantifier, found) => Expr::Quantified(quantifier, found, x),
        Last::Else(condition, then) => Expr::If(condition, then, x),
        Last::Insert(source, place) => Expr::Insert(source, place, x),
        Last::Delete => Expr::Delete(x),
        Last::ReplaceNode(target) => Expr::ReplaceNode(target, x),
        Last::ReplaceValue(target) => Expr::ReplaceValue(target, x),
        Last::Rename(target) => Expr::Rename(target, x),
        Last::Copy(found, changes) => Expr::Copy(found, changes, x),
    }
}

//! Expressions (XQuery 1.0, section 3; XQuery Update Facility 1.0, section 2).

use crate::functions::Function;
use query_tokens::IntegerLiteral;
use sqlite_items::{Boxed, Items};
use trees::Axis;
use values::{Comparison, Operator, Text};

/// An expression.
///
/// Some forms stand for others: `()` is a sequence of nothing, `a` is `child::a`, `@a` is `attribute::a`, `..` is `parent::node()`,
/// `|` is `union`, and `//` is `/descendant-or-self::node()/`, or `/descendant::` before a bare test without predicates. Content
/// that is left out is `()`.
///
/// What groups to the left (operators of one level, steps of a path, predicates of a primary expression) is a list, so that a long
/// chain nests no deeper than a short one.
#[derive(Drop)]
pub enum Expr {
    /// A number.
    Integer(IntegerLiteral),
    /// A string, by its content.
    String(Text),
    /// `$name`
    Variable(Text),
    /// `.`
    Context,
    /// `a, b, ..` of two expressions or more, or `()`.
    Sequence(Items<Expr>),
    /// `name(a, ..)`: the function of that name, where there is one that takes so many arguments.
    Call(Option<Function>, Items<Expr>),
    /// `document {content}`
    Document(Boxed<Expr>),
    /// `element name {content}`
    Element(Name<Boxed<Expr>>, Boxed<Expr>),
    /// `attribute name {content}`
    Attribute(Name<Boxed<Expr>>, Boxed<Expr>),
    /// `text {content}`
    Text(Boxed<Expr>),
    /// `comment {content}`
    Comment(Boxed<Expr>),
    /// `processing-instruction name {content}`
    Instruction(Name<Boxed<Expr>>, Boxed<Expr>),
    /// An axis, a test, and the predicates of the step.
    Step(Axis, NodeTest, Items<Expr>),
    /// A primary expression and its predicates: `a[b]..`.
    Filter(Boxed<Expr>, Items<Expr>),
    /// An expression, and those that are evaluated for each item of what comes before: `a/b/..`.
    Path(Boxed<Expr>, Items<Expr>),
    /// Signs before an expression, the outermost first.
    Signed(Items<Sign>, Boxed<Expr>),
    /// An expression, and operators of one level with their right operands: `a + b - ..`.
    Chain(Boxed<Expr>, Items<Operation<Expr>>),
    /// `if (a) then b else c`
    If(Boxed<Expr>, Boxed<Expr>, Boxed<Expr>),
    /// `some` or `every`, its bindings, and what must be satisfied.
    Quantified(Quantifier, Items<Binding<Expr>>, Boxed<Expr>),
    /// Clauses, `where`, the keys of `order by`, and `return`.
    Flwor(Items<Clause<Expr>>, Option<Boxed<Expr>>, Items<SortKey<Expr>>, Boxed<Expr>),
    /// `insert node a into b`, with the place.
    Insert(Boxed<Expr>, Place, Boxed<Expr>),
    /// `delete node a`
    Delete(Boxed<Expr>),
    /// `replace node a with b`
    ReplaceNode(Boxed<Expr>, Boxed<Expr>),
    /// `replace value of node a with b`
    ReplaceValue(Boxed<Expr>, Boxed<Expr>),
    /// `rename node a as b`
    Rename(Boxed<Expr>, Boxed<Expr>),
    /// `copy $x := a, .. modify b return c`, from level 2 on.
    Copy(Items<Binding<Expr>>, Boxed<Expr>, Boxed<Expr>),
}

/// A variable and what it is bound to.
#[derive(Drop)]
pub struct Binding<E> {
    /// The variable's name.
    pub variable: Text,
    /// What it is bound to, or the items that it is bound to in turn.
    pub source: E,
}

/// A clause of a FLWOR expression.
#[derive(Drop)]
pub enum Clause<E> {
    /// `for $x in a`
    For(Binding<E>),
    /// `for $x at $y in a`, with the second variable's name.
    ForAt(Binding<E>, Text),
    /// `let $x := a`
    Let(Binding<E>),
}

/// A key of `order by`.
#[derive(Drop)]
pub struct SortKey<E> {
    /// The expression.
    pub key: E,
    /// Whether greater keys come first.
    pub is_descending: bool,
}

/// An operator and its right operand.
#[derive(Drop)]
pub struct Operation<E> {
    /// The operator.
    pub operator: Binary,
    /// The operand.
    pub operand: E,
}

/// A sign.
#[derive(Clone, Copy, PartialEq, Eq, Debug)]
pub enum Sign {
    /// `+`
    Plus,
    /// `-`
    Minus,
}

/// The name in a constructor.
#[derive(Drop)]
pub enum Name<E> {
    /// It is written.
    Written(Text),
    /// It is the value of an expression.
    Computed(E),
}

/// Which of a quantified expression's bindings must satisfy the test.
#[derive(Clone, Copy, PartialEq, Eq, Debug)]
pub enum Quantifier {
    /// At least one.
    Some,
    /// All.
    Every,
}

/// Where new nodes are inserted.
#[derive(Clone, Copy, PartialEq, Eq, Debug)]
pub enum Place {
    /// `into`
    Into,
    /// `as first into`
    FirstInto,
    /// `as last into`
    LastInto,
    /// `after`
    After,
    /// `before`
    Before,
}

/// Which nodes a step keeps.
#[derive(Drop)]
pub enum NodeTest {
    /// Those of a name.
    Name(Text),
    /// `*`
    AnyName,
    /// Those of a kind.
    Kind(KindTest),
}

/// A test of a node's kind.
#[derive(Clone, Copy, PartialEq, Eq, Debug)]
pub enum KindTest {
    /// `node()`
    AnyNode,
    /// `document-node()`
    Document,
    /// `element()`
    Element,
    /// `text()`
    Text,
    /// `comment()`
    Comment,
    /// `processing-instruction()`
    Instruction,
}

/// An operator between two expressions.
#[derive(Clone, Copy, PartialEq, Eq, Debug)]
pub enum Binary {
    /// `or`
    Or,
    /// `and`
    And,
    /// `=`, `!=`, `<` ..
    General(Comparison),
    /// `eq`, `ne`, `lt` ..
    Value(Comparison),
    /// `is`
    Is,
    /// `<<`
    Precedes,
    /// `>>`
    Follows,
    /// `to`
    To,
    /// `+`, `-`, `*`, `idiv`, `mod`
    Arithmetic(Operator),
    /// `union` and `|`
    Union,
    /// `intersect`
    Intersect,
    /// `except`
    Except,
}

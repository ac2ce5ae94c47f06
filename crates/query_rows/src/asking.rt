//! Expressions, asked over a forest of one node at most.

ghost use Rattle.std.specs.Prelude.{◌≡◌, ◌∷◌, [], IfOk, IsSome};
ghost use Rattle.data_model.specs.Trees.{find};
ghost use Rattle.query_meaning.specs.Meaning.{start};
ghost use Rattle.evaluation.specs.Gives.{IsReady, Stand};

use super::growing::{grown, kind_of};
use super::lists::list_text;
use evaluation::{Environment, Evaluation, Sequence, Variables};
use evaluator::{evaluate, value_of};
use fault_codes::Code;
use parser::{ParseFault, parse};
use query_grammar::Expr;
use rows::{RowFault, Words};
use std::alloc::{AllocError, Global};
use trees::{Forest, Kind, MakeFault, NodeId};
use values::{Item, LimitedText, ValueFault, push_item as push_text};

/// The level of the language.
const LEVEL: u8 = 1;

/// The identity of the node.
const NODE: u64 = 1;

/// The bytes that the text of an item has at most where it is shown.
const MOST_PRINTED: usize = 1_000_000;

/// The largest next identity of a forest over which an expression may be evaluated.
const MOST_NEXT: u64 = 1 << 61;

/// An evaluation over a forest. Fault: `NotARow` where its next identity is too large for one.
fn begun(alloc: Global, lent: &Forest) -> Result<Evaluation<'_>, RowFault>
    ensures { IfOk result (λ run. run ≡ start lent.now) }
{
    if lent.next().number() > MOST_NEXT {
        return Err(RowFault::NotARow);
    }
    Ok(Evaluation::new(alloc, lent))
}

/// `TEXT`: what an expression gives without a context item.
pub fn ask(alloc: Global, words: &mut Words<'_>) -> Result<String, RowFault> {
    ask_over(alloc, &Forest::empty(alloc, NodeId::new(NODE)), words)
}

/// `KIND NAME TEXT ask TEXT`: what it gives where the context item is a node of that kind, name and text.
pub fn ask_at(alloc: Global, words: &mut Words<'_>) -> Result<String, RowFault> {
    let kind = kind_of(words.plain()?)?;
    if kind == Kind::Document {
        return Err(RowFault::NotARow);
    }
    let mut lent = Forest::empty(alloc, NodeId::new(NODE));
    ask_below(alloc, &mut lent, kind, words)
}

/// `NAME TEXT ask TEXT`: the same where the node is made in a forest.
fn ask_below(
    alloc: Global,
    lent: &mut Forest,
    kind: Kind,
    words: &mut Words<'_>,
) -> Result<String, RowFault> {
    let node = made(alloc, lent, kind, words)?;
    if words.plain()? != "ask" || !lent.has(node) {
        return Err(RowFault::NotARow);
    }
    let text = words.text(alloc)?;
    asked_from(alloc, lent, node, &text)
}

/// `NAME TEXT`: makes a node of that kind, name and text.
fn made(
    alloc: Global,
    lent: &mut Forest,
    kind: Kind,
    words: &mut Words<'_>,
) -> Result<NodeId, RowFault> {
    let name = words.text(alloc)?;
    let text = words.text(alloc)?;
    match lent.make(alloc, kind, name, text) {
        Ok(node) => Ok(node),
        Err(MakeFault::Memory) => Err(RowFault::Memory),
        Err(MakeFault::Limit) => Err(RowFault::NotARow),
    }
}

/// `[from NODE] ask TEXT`: what it gives over a forest of the nodes that a text describes, with that node as the context item.
pub fn ask_in(alloc: Global, nodes: &str, words: &mut Words<'_>) -> Result<String, RowFault> {
    let lent = grown(alloc, Words::new(nodes))?;
    ask_in_forest(alloc, &lent, words)
}

/// The same over a forest.
fn ask_in_forest(alloc: Global, lent: &Forest, words: &mut Words<'_>) -> Result<String, RowFault> {
    match words.plain()? {
        "ask" => ask_over(alloc, lent, words),
        "from" => ask_from(alloc, lent, words),
        _ => Err(RowFault::NotARow),
    }
}

/// `list TEXT`: the update primitives that an expression gives over a forest of the nodes that a text describes.
pub fn list_in(alloc: Global, nodes: &str, words: &mut Words<'_>) -> Result<String, RowFault> {
    let lent = grown(alloc, Words::new(nodes))?;
    list_over(alloc, &lent, words)
}

/// The same over a forest.
fn list_over(alloc: Global, lent: &Forest, words: &mut Words<'_>) -> Result<String, RowFault> {
    let text = words.text(alloc)?;
    match parse(alloc, LEVEL, &text) {
        Ok(x) => listed(alloc, &x, lent),
        Err(ParseFault::Memory) => Err(RowFault::Memory),
        Err(ParseFault::Static(code)) => Ok(code_text(alloc, code)?),
    }
}

/// The update primitives that an expression gives over a forest.
fn listed(alloc: Global, x: &Expr, lent: &Forest) -> Result<String, RowFault> {
    if lent.next().number() > MOST_NEXT {
        return Err(RowFault::NotARow);
    }
    match evaluate(alloc, x, lent) {
        Ok(outcome) => Ok(list_text(alloc, outcome)?),
        Err(ValueFault::Memory) => Err(RowFault::Memory),
        Err(ValueFault::Code(code)) => Ok(code_text(alloc, code)?),
    }
}

/// `TEXT`: what it gives over a forest without a context item.
fn ask_over(alloc: Global, lent: &Forest, words: &mut Words<'_>) -> Result<String, RowFault> {
    let text = words.text(alloc)?;
    let mut run = begun(alloc, lent)?;
    let variables = Variables::new();
    asked(alloc, &mut run, &text, &Environment::new(&variables))
}

/// `NODE ask TEXT`: what it gives where a node of the forest is the context item.
fn ask_from(alloc: Global, lent: &Forest, words: &mut Words<'_>) -> Result<String, RowFault> {
    let node = context_node(lent, words)?;
    let text = words.text(alloc)?;
    asked_from(alloc, lent, node, &text)
}

/// What a text gives where a node of the forest is the context item.
fn asked_from(alloc: Global, lent: &Forest, node: NodeId, text: &str) -> Result<String, RowFault>
    requires stands { IsSome (find node lent.now.trees) }
{
    let mut run = begun(alloc, lent)?;
    let item = Item::Node(node);
    let variables = Variables::new();
    let env = Environment::new(&variables).with_focus(&item, 1, 1);
    asked(alloc, &mut run, text, &env)
}

/// `NODE ask`: a node of a forest. Fault: `NotARow` where none of that number stands in it.
fn context_node(lent: &Forest, words: &mut Words<'_>) -> Result<NodeId, RowFault>
    ensures { IfOk result (λ id. IsSome (find id lent.now.trees)) }
{
    let id = NodeId::new(words.number()?);
    if words.plain()? != "ask" || !lent.has(id) {
        return Err(RowFault::NotARow);
    }
    Ok(id)
}

/// What a text gives.
fn asked(
    alloc: Global,
    run: &mut Evaluation,
    text: &str,
    env: &Environment,
) -> Result<String, RowFault>
    requires ready { IsReady env.now run.old }
{
    match parse(alloc, LEVEL, text) {
        Ok(x) => evaluated(alloc, run, &x, env),
        Err(ParseFault::Memory) => Err(RowFault::Memory),
        Err(ParseFault::Static(code)) => Ok(code_text(alloc, code)?),
    }
}

/// What an expression gives.
fn evaluated(
    alloc: Global,
    run: &mut Evaluation,
    x: &Expr,
    env: &Environment,
) -> Result<String, RowFault>
    requires ready { IsReady env.now run.old }
{
    match value_of(run, x, env) {
        Ok(items) => Ok(printed(alloc, run, &items)?),
        Err(ValueFault::Memory) => Ok(String::from_str(alloc, "memory refused")?),
        Err(ValueFault::Code(code)) => Ok(code_text(alloc, code)?),
    }
}

fn code_text(alloc: Global, code: Code) -> Result<String, AllocError> {
    format!(in alloc; "{code}")
}

/// The items' texts, with ` / ` between two of them.
fn printed(alloc: Global, run: &Evaluation, items: &Sequence) -> Result<String, AllocError>
    requires stand { Stand items.now run.now }
{
    let mut out = String::new(alloc);
    for item in items.as_slice() {
        push_item(alloc, &mut out, run, item)?;
    }
    Ok(out)
}

fn push_item(
    alloc: Global,
    out: &mut String,
    run: &Evaluation,
    item: &Item,
) -> Result<(), AllocError>
    requires stands { Stand (item.now ∷ []) run.now }
{
    if !out.is_empty() {
        out.push_str(" / ")?;
    }
    let mut text = LimitedText::new(alloc, MOST_PRINTED);
    push_text(alloc, &mut text, run.shelf(), item)?;
    match text.into_text() {
        Some(text) => out.push_str(&text),
        None => out.push_str("too long"),
    }
}

//! The printed text of items: expressions that make them again (XQuery 1.0, sections 3.1.1 and 3.7.3).

ghost use Rattle.std.specs.Prelude.{◌≡◌, ℕ, ◌++◌, ◌≤◌, ◌==◌, ◌&&◌, length, OnOk, IsSome, map, codes};
ghost use Rattle.std.specs.List.{flat_map, All};
ghost use Rattle.std.specs.Char.{encode_utf8};
ghost use Rattle.std.specs.Fmt.{signed_decimal};
ghost use Rattle.values.specs.Printing.{escaped, literal, atom_text, place_text, item_text};
ghost use Rattle.values.specs.Limited.{added};
ghost use Rattle.values.specs.Items.{IsThere};
ghost use Rattle.values.specs.Inside.{opening, following, nothing};
ghost use Rattle.shelves.specs.Shelf.{shelf_trees};
ghost use Rattle.data_model.specs.Trees.{find, count};

use super::atom::{Atom, Item};
use super::limited_text::LimitedText;
use shelves::Shelf;
use std::alloc::{AllocError, Global};
use trees::{Kind, NodeId};

/// Adds the text of an item: an expression that makes it again. An untyped value is printed as a string. It fails where memory is refused.
///
/// Where the text becomes too long, what is left is not looked at.
pub fn push_item(
    alloc: Global,
    out: &mut LimitedText,
    shelf: &Shelf,
    item: &Item,
) -> Result<(), AllocError>
    requires there { IsThere (shelf_trees shelf.now) item.now }
    ensures { OnOk result (out.new ≡ added out.old (item_text (shelf_trees shelf.now) item.now)) }
{
    match item {
        Item::Node(id) => {
            shelf.facts();
            push_node(out, shelf, *id)
        }
        Item::Atomic(atom) => push_atom(alloc, out, atom),
    }
}

/// Adds the text of an atomic value; an untyped one is printed as a string.
fn push_atom(alloc: Global, out: &mut LimitedText, atom: &Atom) -> Result<(), AllocError>
    ensures { OnOk result (out.new ≡ added out.old (atom_text atom.now)) }
{
    match atom {
        Atom::String(text) | Atom::Untyped(text) => push_literal(out, text.as_str()),
        Atom::Boolean(true) => out.push("true()"),
        Atom::Boolean(false) => out.push("false()"),
        Atom::Integer(integer) => push_integer(alloc, out, *integer),
    }
}

/// Adds an integer in decimal.
fn push_integer(alloc: Global, out: &mut LimitedText, integer: i64) -> Result<(), AllocError>
    ensures { OnOk result (out.new ≡ added out.old (signed_decimal integer)) }
{
    let digits = format!(in alloc; "{integer}")?;
    out.push(&digits)
}

/// Adds what the constructor of a node of that kind and name begins with.
fn push_opening(out: &mut LimitedText, kind: Kind, name: &str) -> Result<(), AllocError>
    ensures { OnOk result (out.new ≡ added out.old (opening kind name.now)) }
{
    match kind {
        Kind::Document => out.push("document {"),
        Kind::Element => push_named(out, "element ", name),
        Kind::Attribute => push_named(out, "attribute ", name),
        Kind::Text => out.push("text {"),
        Kind::Comment => out.push("comment {"),
        Kind::Instruction => push_named(out, "processing-instruction ", name),
    }
}

/// Adds a word, a name and what opens the content.
fn push_named(out: &mut LimitedText, word: &str, name: &str) -> Result<(), AllocError>
    ensures { OnOk result (out.new ≡ added out.old (word.now ++ name.now ++ codes " {")) }
{
    out.push(word)?;
    out.push(name)?;
    out.push(" {")
}

/// Adds the string literal of a text.
fn push_literal(out: &mut LimitedText, text: &str) -> Result<(), AllocError>
    ensures { OnOk result (out.new ≡ added out.old (literal text.now)) }
{
    out.push("\"")?;
    push_characters(out, text)?;
    out.push("\"")
}

/// Adds the characters of a text, each as it stands between two `"`.
fn push_characters(out: &mut LimitedText, text: &str) -> Result<(), AllocError>
    ensures { OnOk result (out.new ≡ added out.old (flat_map escaped text.now)) }
{
    out.facts();
    for c in text.chars() {
        push_escaped(out, c)?;
    }
    Ok(())
}

/// Adds a character between two `"`: `"` is doubled, and what a text may not hold or would lose is a reference.
fn push_escaped(out: &mut LimitedText, c: char) -> Result<(), AllocError>
    ensures { OnOk result (out.new ≡ added out.old (flat_map escaped (encode_utf8 c))) }
{
    match c {
        '"' => out.push("\"\""),
        '&' => out.push("&amp;"),
        '\t' => out.push("&#9;"),
        '\n' => out.push("&#10;"),
        '\r' => out.push("&#13;"),
        _ => out.push_char(c),
    }
}

/// Adds the text of a node: its computed constructor, whose content is made of its attributes and then its children.
#[cycle(printing)]
fn push_node(out: &mut LimitedText, shelf: &Shelf, id: NodeId) -> Result<(), AllocError>
    requires there { IsSome (find id (shelf_trees shelf.now)) }
    requires distinct { (i : ℕ) → count i (shelf_trees shelf.now) ≤ 1 }
    ensures { OnOk result (out.new ≡ added out.old (place_text (find id (shelf_trees shelf.now)))) }
{
    let kind = shelf.kind(id);
    push_opening(out, kind, shelf.name(id))?;
    if kind.is_inner() {
        let attributes = shelf.attributes(id);
        let children = shelf.children(id);
        push_parts(out, shelf, attributes, false)?;
        push_parts(out, shelf, children, !attributes.is_empty())?;
        out.push(nothing_text(kind, attributes, children))?;
    } else {
        push_literal(out, shelf.text(id))?;
    }
    out.push("}")
}

/// Adds the texts of nodes, with a comma and a space between two, and also before the first where it follows others.
#[cycle(printing)]
fn push_parts(
    out: &mut LimitedText,
    shelf: &Shelf,
    ids: &[NodeId],
    follow: bool,
) -> Result<(), AllocError>
    requires there { All (λ i. IsSome (find i (shelf_trees shelf.now))) ids.now }
    requires distinct { (i : ℕ) → count i (shelf_trees shelf.now) ≤ 1 }
    ensures { OnOk result (out.new ≡ added out.old (following follow (map (λ i. place_text (find i (shelf_trees shelf.now))) ids.now))) }
{
    let mut follows = follow;
    for id in ids {
        if out.is_too_long() {
            return Ok(());
        }
        if follows {
            out.push(", ")?;
        }
        push_node(out, shelf, *id)?;
        follows = true;
    }
    out.facts();
    Ok(())
}

/// What stands for the content of a document that has none, which may not be left out.
fn nothing_text(kind: Kind, attributes: &[NodeId], children: &[NodeId]) -> &'static str
    ensures { result.now ≡ nothing kind (length attributes.now == 0 && length children.now == 0) }
{
    if kind == Kind::Document && attributes.is_empty() && children.is_empty() {
        "()"
    } else {
        ""
    }
}

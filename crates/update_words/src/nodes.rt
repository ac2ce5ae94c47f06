//! Trees that rows describe, a node a word: `<NAME` begins an element, whose attributes and children follow, and `>` ends it; `@NAME"TEXT"` is an
//! attribute, `"TEXT"` a text, `!"TEXT"` a comment, `?NAME"TEXT"` a processing instruction, and `text TEXT` a text that is long.
//!
//! A node takes the next identity, or a later one that stands behind its mark and its name, as in `<a#7`, `@k#7"1"`, `#7"x"` and `!#7"c"`. `times N`
//! before a node stands for N of it.

ghost use Rattle.std.specs.Prelude.{◌≡◌, ℕ, ◌<◌, ◌≤◌, ◌+◌, ◌++◌, ◌∷◌, [], ◌^◌, IfOk, OnOk};
ghost use Rattle.data_model.specs.Trees.{count};
ghost use Rattle.data_model.specs.Tree.{all_of};
ghost use Rattle.update_words.specs.New.{IsGrown};

use rows::{RowFault, Word, Words, cut};
use shared_texts::Text;
use std::alloc::{AllocError, Global};
use trees::{Content, Kind, NodeId, Tree};

/// No identity reaches this number.
pub const LIMIT: u64 = 1 << 62;

/// The most nodes in one list of a row.
const MOST_NODES: u32 = 200_000;

/// A node as a word spells it, with its identity where one is spelt.
#[derive(Drop)]
struct Node {
    kind: Kind,
    name: String,
    text: String,
    number: Option<u64>,
}

impl Node {
    /// What the node says of itself where `next` is the next identity. Fault: `NotARow` where it asks for an identity before that or past the limit.
    fn content(self, next: u64) -> Result<Content, RowFault>
        ensures next { IfOk result (λ content. next ≤ content.identity) }
        ensures room { IfOk result (λ content. content.identity < 2 ^ 62) }
    {
        let Node {
            kind,
            name,
            text,
            number,
        } = self;
        let number = number.unwrap_or(next);
        if number < next || number >= LIMIT {
            return Err(RowFault::NotARow);
        }
        Ok(Content {
            identity: NodeId::new(number),
            kind,
            name: Text::new(name),
            text: Text::new(text),
        })
    }
}

/// The next word where it spells a node, which is taken then. Faults: `NotARow` and `Memory`.
fn read_node(alloc: Global, words: &mut Words<'_>) -> Result<Option<Node>, RowFault> {
    if words.is_empty() {
        return Ok(None);
    }
    let mut ahead = *words;
    let word = ahead.word()?;
    let node = match (word.plain, word.quoted) {
        ("text", None) => {
            let text = ahead.text(alloc)?;
            Some(node_of(alloc, Kind::Text, "", text)?)
        }
        (plain, None) => element(alloc, plain)?,
        (plain, Some(_)) => marked(alloc, plain, word)?,
    };
    if node.is_some() {
        *words = ahead;
    }
    Ok(node)
}

/// The element that a word begins, if it does.
fn element(alloc: Global, plain: &str) -> Result<Option<Node>, RowFault> {
    match plain.strip_prefix("<") {
        Some(name) => {
            let text = String::new(alloc);
            Ok(Some(node_of(alloc, Kind::Element, name, text)?))
        }
        None => Ok(None),
    }
}

/// The node that a word with a text spells. Fault: `NotARow` where it spells none.
fn marked(alloc: Global, plain: &str, word: Word<'_>) -> Result<Option<Node>, RowFault> {
    let (kind, name) = if let Some(name) = plain.strip_prefix("@") {
        (Kind::Attribute, name)
    } else if let Some(name) = plain.strip_prefix("!") {
        (Kind::Comment, name)
    } else if let Some(name) = plain.strip_prefix("?") {
        (Kind::Instruction, name)
    } else {
        (Kind::Text, plain)
    };
    let quoted = Word {
        plain: "",
        quoted: word.quoted,
    };
    let text = quoted.text(alloc)?;
    Ok(Some(node_of(alloc, kind, name, text)?))
}

/// A node of that kind and text, whose name stands there with its identity behind it, where it has one.
fn node_of(alloc: Global, kind: Kind, spelt: &str, text: String) -> Result<Node, RowFault> {
    let (name, number) = cut(spelt, "#");
    let number = if number.is_empty() {
        None
    } else {
        Some(number.parse::<u64>().ok().ok_or(RowFault::NotARow)?)
    };
    let has_name = matches!(kind, Kind::Element | Kind::Attribute | Kind::Instruction);
    if has_name == name.is_empty() {
        return Err(RowFault::NotARow);
    }
    Ok(Node {
        kind,
        name: String::from_str(alloc, name)?,
        text,
        number,
    })
}

/// Trees that are built one after the other, attributes apart from others, and the identity after all of theirs.
#[derive(Drop)]
pub struct Grown {
    attributes: Vec<Tree>,
    children: Vec<Tree>,
    pub next: u64,
}

impl Grown {
    /// No trees.
    fn new(alloc: Global, next: u64) -> Grown
        requires { next ≤ 2 ^ 62 }
        ensures grown { IsGrown next result }
        ensures next { result.next ≡ next }
    {
        Grown {
            attributes: Vec::new(alloc),
            children: Vec::new(alloc),
            next,
        }
    }

    /// Adds the tree of a node with what is below it.
    fn push(&mut self, content: Content, below: Grown) -> Result<(), AllocError>
        requires later { self.old.next ≤ content.identity }
        requires below { IsGrown (content.identity + 1) below }
        ensures { OnOk result ((first : ℕ) → IsGrown first self.old → IsGrown first self.new) }
    {
        let Grown {
            attributes,
            children,
            next,
        } = below;
        let is_attribute = content.kind == Kind::Attribute;
        let tree = Tree::new(content, attributes, children);
        self.next = next;
        if is_attribute {
            return push_to(&mut self.attributes, tree);
        }
        push_to(&mut self.children, tree)
    }

    /// The trees, which are attributes all or none. Fault: `NotARow` where they are not.
    pub fn into_trees(self) -> Result<Vec<Tree>, RowFault>
        ensures { IfOk result (λ trees. (i : ℕ) → count i (all_of trees.items) ≡ count i (all_of self.attributes.items) + count i (all_of self.children.items)) }
    {
        let Grown {
            attributes,
            children,
            ..
        } = self;
        if children.is_empty() {
            return Ok(attributes);
        }
        if attributes.is_empty() {
            return Ok(children);
        }
        Err(RowFault::NotARow)
    }
}

/// Adds a tree at the end.
fn push_to(list: &mut Vec<Tree>, tree: Tree) -> Result<(), AllocError>
    ensures { OnOk result (list.new.items ≡ list.old.items ++ tree ∷ []) }
{
    match list.push(tree) {
        Ok(()) => Ok(()),
        Err(_) => Err(AllocError),
    }
}

/// A node that is to be read several times over.
#[derive(Clone, Copy)]
struct Repeats<'a> {
    /// How often it is still to be read after this time.
    left: u64,
    /// Where it stands.
    from: Words<'a>,
}

impl<'a> Repeats<'a> {
    /// Takes the words `times N`, if they stand there.
    fn begin(self, words: &mut Words<'a>) -> Result<Repeats<'a>, RowFault> {
        let mut ahead = *words;
        if self.left > 0 || ahead.is_empty() || ahead.word()?.plain != "times" {
            return Ok(self);
        }
        let times = ahead.number()?;
        *words = ahead;
        Ok(Repeats {
            left: times.checked_sub(1).ok_or(RowFault::NotARow)?,
            from: ahead,
        })
    }

    /// Goes back to the node that has been read, if it is to be read again.
    fn end(self, words: &mut Words<'a>) -> Repeats<'a> {
        if self.left == 0 {
            return self;
        }
        *words = self.from;
        Repeats {
            left: self.left - 1,
            from: self.from,
        }
    }
}

/// The trees that the words spell, up to the first word that spells no node, at most so many levels deep. `first` is the identity that their first
/// node takes. Faults: `NotARow` and `Memory`.
#[cycle(reading)]
pub fn read_nodes(
    alloc: Global,
    words: &mut Words<'_>,
    first: u64,
    levels: u64,
) -> Result<Grown, RowFault>
    requires { first ≤ 2 ^ 62 }
    ensures { IfOk result (λ grown. IsGrown first grown) }
{
    let mut grown = Grown::new(alloc, first);
    let mut repeats = Repeats {
        left: 0,
        from: *words,
    };
    for _ in 0..MOST_NODES {
        repeats = repeats.begin(words)?;
        if !read_next(alloc, words, &mut grown, levels)? {
            return Ok(grown);
        }
        repeats = repeats.end(words);
    }
    Err(RowFault::NotARow)
}

/// Reads the next node with what is below it, if a word spells one. Gives whether it does.
#[cycle(reading)]
fn read_next(
    alloc: Global,
    words: &mut Words<'_>,
    grown: &mut Grown,
    levels: u64,
) -> Result<bool, RowFault>
    ensures { OnOk result ((first : ℕ) → IsGrown first grown.old → IsGrown first grown.new) }
{
    let Some(node) = read_node(alloc, words)? else {
        return Ok(false);
    };
    let content = node.content(grown.next)?;
    let after = content.identity.number() + 1;
    let below = read_below(alloc, words, content.kind, after, levels)?;
    grown.push(content, below)?;
    Ok(true)
}

/// What is below a node: of an element what stands there up to a `>`, and of others nothing.
#[cycle(reading)]
fn read_below(
    alloc: Global,
    words: &mut Words<'_>,
    kind: Kind,
    first: u64,
    levels: u64,
) -> Result<Grown, RowFault>
    requires { first ≤ 2 ^ 62 }
    ensures { IfOk result (λ grown. IsGrown first grown) }
{
    if kind != Kind::Element {
        return Ok(Grown::new(alloc, first));
    }
    if levels == 0 {
        return Err(RowFault::NotARow);
    }
    let below = read_nodes(alloc, words, first, levels - 1)?;
    if words.plain()? != ">" {
        return Err(RowFault::NotARow);
    }
    Ok(below)
}

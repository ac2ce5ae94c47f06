//! Parts of rows: words that steps and looks share, and the text that they print.

ghost use Rattle.std.specs.Prelude.{◌≡◌};

use rows::{RowFault, Words};
use std::alloc::{AllocError, Global};
use trees::{Content, Kind, MakeFault, NodeId};
use values::Text;

/// No identity reaches this number.
pub(super) const LIMIT: u64 = 1 << 62;

/// How many steps, and how many looks, a row has at most.
pub(super) const MOST: u32 = 1_000;

/// What a row prints: the identities that its steps gave, after spaces, and its looks, after bars.
#[derive(Drop)]
pub(super) struct Pieces {
    text: String,
}

impl Pieces {
    /// Nothing.
    pub(super) fn new(alloc: Global) -> Pieces {
        Pieces {
            text: String::new(alloc),
        }
    }

    /// Appends what a step gave.
    pub(super) fn given(&mut self, given: &str) -> Result<(), AllocError> {
        self.push(" ", given)
    }

    /// Appends what a look shows.
    pub(super) fn look(&mut self, look: &str) -> Result<(), AllocError> {
        self.push(" | ", look)
    }

    /// Appends a piece, with a mark before it where something stands there.
    fn push(&mut self, mark: &str, piece: &str) -> Result<(), AllocError> {
        if !self.text.is_empty() {
            self.text.push_str(mark)?;
        }
        self.text.push_str(piece)
    }

    /// The text.
    pub(super) fn into_text(self) -> String {
        self.text
    }
}

/// What a step gave.
#[derive(Clone, Copy)]
pub(super) enum Given {
    /// No identity.
    Nothing,
    /// An identity.
    Node(NodeId),
    /// None, since none is left.
    Limit,
}

impl Given {
    /// What making a node gave. Fault: `Memory`.
    pub(super) fn of(made: Result<NodeId, MakeFault>) -> Result<Given, RowFault> {
        match made {
            Ok(id) => Ok(Given::Node(id)),
            Err(MakeFault::Limit) => Ok(Given::Limit),
            Err(MakeFault::Memory) => Err(RowFault::Memory),
        }
    }

    /// Appends it to what a row prints.
    pub(super) fn push_to(self, alloc: Global, out: &mut Pieces) -> Result<(), RowFault> {
        match self {
            Given::Nothing => out.given("0")?,
            Given::Node(id) => out.given(id.number().to_string(alloc)?.as_str())?,
            Given::Limit => out.given("limit")?,
        }
        Ok(())
    }
}

/// Takes the next word where it is that one. Gives whether it was.
pub(super) fn take_word(words: &mut Words<'_>, wanted: &str) -> bool {
    let mut ahead = *words;
    match ahead.plain() {
        Ok(word) if word == wanted => {
            *words = ahead;
            true
        }
        _ => false,
    }
}

/// The next word, the number of a node. Fault: `NotARow`.
pub(super) fn take_node(words: &mut Words<'_>) -> Result<NodeId, RowFault> {
    Ok(NodeId::new(words.number()?))
}

/// The next word, a kind of nodes. Fault: `NotARow`.
pub(super) fn take_kind(words: &mut Words<'_>) -> Result<Kind, RowFault> {
    match words.plain()? {
        "document" => Ok(Kind::Document),
        "element" => Ok(Kind::Element),
        "attribute" => Ok(Kind::Attribute),
        "text" => Ok(Kind::Text),
        "comment" => Ok(Kind::Comment),
        "instruction" => Ok(Kind::Instruction),
        _ => Err(RowFault::NotARow),
    }
}

/// What a node is that is made: its kind, its name and its text.
#[derive(Drop)]
pub(super) struct Made {
    pub(super) kind: Kind,
    pub(super) name: String,
    pub(super) text: String,
}

/// `KIND NAME TEXT`. Faults: `NotARow` and `Memory`.
pub(super) fn take_made(alloc: Global, words: &mut Words<'_>) -> Result<Made, RowFault> {
    let kind = take_kind(words)?;
    let name = words.text(alloc)?;
    let text = words.text(alloc)?;
    Ok(Made { kind, name, text })
}

/// An element of no text.
pub(super) fn element(number: u64, name: String) -> Content
    ensures { result.identity ≡ number }
{
    Content {
        identity: NodeId::new(number),
        kind: Kind::Element,
        name: Text::new(name),
        text: Text::empty(),
    }
}

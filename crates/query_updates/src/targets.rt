//! Targets (XQuery Update Facility 1.0, section 2.4).

ghost use Rattle.std.specs.Prelude.{◌≡◌, ◌∷◌, []};
ghost use Rattle.data_model.specs.Trees.{find};
ghost use Rattle.query_meaning.specs.Running.{come_to};
ghost use Rattle.shelves.specs.Shelf.{shelf_trees};
ghost use Rattle.query_updates.specs.Targets.{allows, refusal, target_at, target_in};

use evaluation::{Evaluation, Sequence};
use fault_codes::Code;
use shelves::Shelf;
use trees::{Kind, NodeId};
use values::Item;

/// What a target is there for, which says of what kinds it may be.
#[derive(Clone, Copy)]
pub(crate) enum Role {
    /// Nodes are inserted into it: a document or an element.
    Parent,
    /// Nodes are inserted beside it: neither a document nor an attribute.
    Sibling,
    /// Something takes its place, or that of its value: no document.
    Replaced,
    /// It takes another name: an element, an attribute or a processing instruction.
    Renamed,
}

impl Role {
    /// Whether a target may be of that kind.
    fn allows(self, kind: Kind) -> bool
        ensures { result ≡ allows self kind }
    {
        match self {
            Role::Parent => matches!(kind, Kind::Document | Kind::Element),
            Role::Sibling => !matches!(kind, Kind::Document | Kind::Attribute),
            Role::Replaced => kind != Kind::Document,
            Role::Renamed => matches!(kind, Kind::Element | Kind::Attribute | Kind::Instruction),
        }
    }

    /// The code where a target is of another kind, no node, or not alone.
    fn refusal(self) -> Code
        ensures { result ≡ refusal self }
    {
        match self {
            Role::Parent => Code::XUTY0005,
            Role::Sibling => Code::XUTY0006,
            Role::Replaced => Code::XUTY0008,
            Role::Renamed => Code::XUTY0012,
        }
    }
}

/// What is read of a target, by one look-up.
#[derive(Clone, Copy)]
pub(crate) struct Target {
    /// Its identity.
    pub(crate) identity: NodeId,
    /// Its kind.
    pub(crate) kind: Kind,
    /// Its parent.
    pub(crate) parent: Option<NodeId>,
}

/// The target that items are. Codes: XUDY0027 where there are none; that of the role where they are anything else than one node of a kind
/// that it allows.
pub(crate) fn target_in(run: &Evaluation, items: &Sequence, role: Role) -> Result<Target, Code>
    ensures { come_to result run.now ≡ target_in role items.now run.now }
{
    match items.as_slice() {
        [] => Err(Code::XUDY0027),
        [item] => target_of(run, item, role),
        _ => Err(role.refusal()),
    }
}

/// The target that an item is. Code: that of the role where it is no node of a kind that the role allows.
fn target_of(run: &Evaluation, item: &Item, role: Role) -> Result<Target, Code>
    ensures { come_to result run.now ≡ target_in role (item.now ∷ []) run.now }
{
    match item {
        Item::Node(identity) => target_at(run.shelf(), *identity, role),
        Item::Atomic(_) => Err(role.refusal()),
    }
}

/// The target of that identity. Code: that of the role where there is no node of a kind that it allows.
fn target_at(shelf: &Shelf, identity: NodeId, role: Role) -> Result<Target, Code>
    ensures { result ≡ target_at role (find identity (shelf_trees shelf.now)) }
{
    match shelf.node(identity) {
        Some(view) => {
            if role.allows(view.kind) {
                Ok(Target {
                    identity,
                    kind: view.kind,
                    parent: view.parent,
                })
            } else {
                Err(role.refusal())
            }
        }
        None => Err(role.refusal()),
    }
}

//! The lists of nodes that rows have.

ghost use Rattle.std.specs.Prelude.{◌≡◌, ◌+◌, ◌≤◌, [], ◌∷◌, ◌++◌, length, filter, not, eqb, cond, vec_len, vec_capacity, IfOk, OnOk};
ghost use Rattle.std.specs.List.{insert};
ghost use Rattle.data_model.specs.Walks.{held};

use data_model::NodeId;
use std::alloc::{AllocError, Global};
use std::marker::Model;
use std::ops::DerefSlice;
use std::slice;

/// The nodes of a list, as they are kept.
#[derive(Drop)]
enum Kept {
    Empty,
    One(NodeId),
    Many(Box<Vec<NodeId>>),
}

/// A list of nodes, which takes two words of its own. A list of one node takes no memory beside them.
pub struct NodeList {
    kept: Kept,
    alloc: Global,
}

// By one call, whose contract is all that a caller's proof sees of it.
impl Drop for NodeList {
    fn drop(self) {
        let NodeList { kept: _, alloc: _ } = self;
    }
}

impl Model for NodeList {
    ghost use Rattle.node_table.specs.Lists.{Nodes};

    ghost Value = { Nodes };

    ghost use Rattle.node_table.specs.Kept.{nodes_of};

    ghost view = { λ a. nodes_of a.kept };
}

/// Some nodes in a block of their own, with room for more. It fails where memory is refused.
fn boxed(alloc: Global, ids: &[NodeId], additional: usize) -> Result<Box<Vec<NodeId>>, AllocError>
    ensures items { IfOk result (λ b. b.value.items ≡ ids.now) }
    ensures room { IfOk result (λ b. length b.value.items + additional ≤ vec_capacity b.value) }
{
    let room = ids.len().checked_add(additional).ok_or(AllocError)?;
    let mut list = Vec::with_capacity(alloc, room)?;
    list.extend_from_slice(ids)?;
    Ok(Box::new(alloc, list)?)
}

/// Takes a node out of a list that has it at most once, and says whether it had it.
fn remove_from(ids: &mut Vec<NodeId>, id: NodeId) -> bool
    requires { held id ids.old.items ≤ 1 }
    ensures removed { ids.new.items ≡ filter (λ i. not (eqb id i)) ids.old.items }
    ensures had { held id ids.old.items ≡ cond result 1 0 }
{
    for at in 0..ids.len() {
        if ids[at] == id {
            ids.remove(at);
            return true;
        }
    }
    false
}

impl NodeList {
    ghost use Rattle.node_table.specs.Lists.{HasRoomFor};

    /// A list of no nodes.
    pub fn new(alloc: Global) -> NodeList
        ensures { result.items ≡ [] }
    {
        NodeList {
            kept: Kept::Empty,
            alloc,
        }
    }

    /// A list of some nodes. It fails where memory is refused.
    pub fn from_slice(alloc: Global, ids: &[NodeId]) -> Result<NodeList, AllocError>
        ensures { IfOk result (λ l. l.items ≡ ids.now) }
    {
        let kept = match ids.len() {
            0 => Kept::Empty,
            1 => Kept::One(ids[0]),
            _ => Kept::Many(boxed(alloc, ids, 0)?),
        };
        Ok(NodeList { kept, alloc })
    }

    /// The nodes.
    pub fn as_slice(&self) -> &[NodeId]
        ensures { result.now ≡ self.now.items }
    {
        match &self.kept {
            Kept::Empty => &[],
            Kept::One(id) => slice::from_ref(id),
            Kept::Many(ids) => ids.as_slice(),
        }
    }

    /// How many there are.
    pub fn len(&self) -> usize
        ensures { result ≡ length self.now.items }
    {
        self.as_slice().len()
    }

    /// Makes room for more nodes. The list has the nodes that it had, also where memory is refused.
    pub fn reserve(&mut self, additional: usize) -> Result<(), AllocError>
        ensures same { self.new.items ≡ self.old.items }
        ensures room { OnOk result (HasRoomFor self.new additional) }
    {
        match &mut self.kept {
            Kept::Empty => {
                if additional > 1 {
                    self.kept = Kept::Many(boxed(self.alloc, &[], additional)?);
                }
            }
            Kept::One(id) => {
                if additional > 0 {
                    let ids = boxed(self.alloc, &[*id], additional)?;
                    self.kept = Kept::Many(ids);
                }
            }
            Kept::Many(ids) => ids.reserve(additional)?,
        }
        Ok(())
    }

    /// Puts a node into the list, which has room for it, so that `index` others come before it.
    pub fn insert(&mut self, index: usize, id: NodeId)
        requires within { index ≤ length self.old.items }
        requires room { HasRoomFor self.old 1 }
        ensures items { self.new.items ≡ insert self.old.items index id }
        ensures capacity { self.old.capacity ≤ self.new.capacity }
    {
        match &mut self.kept {
            Kept::Empty => self.kept = Kept::One(id),
            // It has no room, so this is not reached.
            Kept::One(_) => {}
            Kept::Many(ids) => ids.insert(index, id).unwrap(),
        }
    }

    /// Adds a node at the end. It fails where memory is refused.
    pub fn push(&mut self, id: NodeId) -> Result<(), AllocError>
        ensures { OnOk result (self.new.items ≡ self.old.items ++ id ∷ []) }
    {
        self.reserve(1)?;
        self.insert(self.len(), id);
        Ok(())
    }

    /// Takes a node out of the list, which has it at most once, and says whether it had it.
    pub fn remove(&mut self, id: NodeId) -> bool
        requires { held id self.old.items ≤ 1 }
        ensures removed { self.new.items ≡ filter (λ i. not (eqb id i)) self.old.items }
        ensures had { held id self.old.items ≡ cond result 1 0 }
    {
        match &mut self.kept {
            Kept::Empty => false,
            Kept::One(only) => {
                let has = *only == id;
                if has {
                    self.kept = Kept::Empty;
                }
                has
            }
            Kept::Many(ids) => remove_from(ids, id),
        }
    }
}

impl Clone for NodeList {
    ghost is_clone = { λ l m. m.items ≡ l.items };

    fn clone(&self) -> Result<NodeList, AllocError> {
        NodeList::from_slice(self.alloc, self.as_slice())
    }
}

impl DerefSlice for NodeList {
    type Elem = NodeId;

    ghost deref_gives = { λ l xs. xs ≡ l.items };

    fn deref(&self) -> &[NodeId]
        ensures value { result.now ≡ self.now.items }
    {
        self.as_slice()
    }
}

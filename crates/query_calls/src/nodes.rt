//! Functions of documents and nodes (Functions and Operators, sections 2.3, 14.1, 14.8 and 15.5.4).

ghost use Rattle.std.specs.Prelude.{◌≡◌, ◌∷◌, [], IsSome};
ghost use Rattle.data_model.specs.Trees.{find};
ghost use Rattle.data_model.specs.Walks.{root_of};
ghost use Rattle.shelves.specs.Shelf.{shelf_trees};
ghost use Rattle.values.specs.Items.{IsThere};
ghost use Rattle.query_meaning.specs.Functions as functions;
ghost use Rattle.query_meaning.specs.Running.{trees_of};
ghost use Rattle.evaluation.specs.Gives.{Gives, Stand};
ghost use Rattle.query_calls.specs.Parts.{name_of};

use crate::sequences::string_of;
use evaluation::{Evaluation, Sequence};
use fault_codes::Code;
use query_strings::{one_text, printed_item};
use read_items::ReadItem;
use shelves::Shelf;
use trees::NodeId;
use values::{Atom, Item, Text, ValueFault};

/// `doc`: the document of that name (Functions and Operators, section 15.5.4). Codes: PXQ0002 where a string value is too long or too
/// little work is left; XPTY0004 where there is more than one value, or an integer or a boolean; FODC0002 where no document has that name.
pub fn doc(run: &mut Evaluation, items: &Sequence) -> Result<Sequence, ValueFault>
    requires stand { Stand items.now run.old }
    ensures { Gives (functions.doc items.now) run.old result run.new }
{
    let values = run.atoms(items)?;
    doc_of(run, &values)
}

fn doc_of(run: &mut Evaluation, values: &[Atom]) -> Result<Sequence, ValueFault>
    ensures { Gives (functions.doc_of values.now) run.old result run.new }
{
    match values {
        [] => Ok(Sequence::new(run.alloc())),
        _ => {
            let name = one_text(values)?;
            document(run, name)
        }
    }
}

/// The document of that name.
fn document(run: &mut Evaluation, name: &str) -> Result<Sequence, ValueFault>
    ensures { Gives (functions.document name.now) run.old result run.new }
{
    match run.shelf().document(name) {
        Some(id) => Ok(Sequence::one(run.alloc(), Item::Node(id))?),
        None => Err(ValueFault::Code(Code::FODC0002)),
    }
}

/// `root`: the root of the tree in which a node stands (Functions and Operators, section 14.8). Code: XPTY0004 where there is more than
/// one item, or an atomic value.
pub fn root(run: &mut Evaluation, items: &Sequence) -> Result<Sequence, ValueFault>
    requires stand { Stand items.now run.old }
    ensures { Gives (functions.root items.now) run.old result run.new }
{
    match items.as_slice() {
        [] => Ok(Sequence::new(run.alloc())),
        [Item::Node(id)] => {
            let root = root_of(run.shelf(), *id);
            Ok(Sequence::one(run.alloc(), Item::Node(root))?)
        }
        _ => Err(ValueFault::Code(Code::XPTY0004)),
    }
}

/// The root of the tree in which a node stands.
fn root_of(shelf: &Shelf, id: NodeId) -> NodeId
    requires there { IsSome (find id (shelf_trees shelf.now)) }
    ensures root { result ≡ root_of id (shelf_trees shelf.now) }
    ensures stands { IsSome (find result (shelf_trees shelf.now)) }
{
    shelf.facts();
    let mut root = id;
    while let Some(parent) = shelf.parent(root) {
        root = parent;
    }
    root
}

/// `name`: the name of a node, empty where its kind has none (Functions and Operators, section 14.1). It takes its work. Codes: XPTY0004
/// where there is more than one item, or an atomic value; PXQ0002 where too little work is left.
pub fn name(run: &mut Evaluation, items: &Sequence) -> Result<Sequence, ValueFault>
    requires stand { Stand items.now run.old }
    ensures { Gives (functions.name items.now) run.old result run.new }
{
    match items.as_slice() {
        [] => string_of(run, Text::new(String::new(run.alloc()))),
        [Item::Node(id)] => name_of(run, *id),
        _ => Err(ValueFault::Code(Code::XPTY0004)),
    }
}

fn name_of(run: &mut Evaluation, id: NodeId) -> Result<Sequence, ValueFault>
    requires there { IsSome (find id (trees_of run.old)) }
    ensures { Gives (name_of id) run.old result run.new }
{
    let name = String::from_str(run.alloc(), run.shelf().name(id))?;
    string_of(run, Text::new(name))
}

/// `string`: an item as a string (Functions and Operators, section 2.3). It takes the work of the typed value, and that of the string.
/// Codes: XPTY0004 where there is more than one item; PXQ0002 where a string value is too long or too little work is left.
pub fn string(run: &mut Evaluation, items: &Sequence) -> Result<Sequence, ValueFault>
    requires stand { Stand items.now run.old }
    ensures { Gives (functions.string_of items.now) run.old result run.new }
{
    match items.as_slice() {
        [] => string_of(run, Text::new(String::new(run.alloc()))),
        [item] => string_of_item(run, item),
        _ => Err(ValueFault::Code(Code::XPTY0004)),
    }
}

#[tactic(auto, using(crate::proofs::Alone::string_gives, crate::proofs::Alone::string_fails))]
fn string_of_item(run: &mut Evaluation, item: &Item) -> Result<Sequence, ValueFault>
    requires there { IsThere (trees_of run.old) item.now }
    ensures { Gives (functions.string_of (item.now ∷ [])) run.old result run.new }
{
    let text = printed_item(run, &ReadItem::unread(item))?;
    string_of(run, text)
}

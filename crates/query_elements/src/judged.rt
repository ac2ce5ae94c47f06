//! What content a node may have.

ghost use Rattle.std.specs.Prelude.{◌≡◌, ◌||◌, not, true, false, if◌then◌else◌, ℕ, List, IfOk, IfErr, IsErrOf, OnOk, Some, None};
ghost use Rattle.std.specs.Str.{bytes_eq};
ghost use Rattle.data_model.specs.Tidy.{has_distinct_names};
ghost use Rattle.data_model.specs.Tree.{all_of};
ghost use Rattle.query_meaning.specs.Content as meaning;
ghost use Rattle.name_sets.specs.NameSets.{is_among};
ghost use Rattle.evaluation.specs.Gives.{Says};

use copied_content::CopiedContent;
use data_model::are_within_levels;
use data_model::limits::MOST_LISTED;
use fault_codes::Code;
use name_sets::NameSet;
use std::alloc::{AllocError, Global};
use trees::{Kind, Tree};
use values::ValueFault;

/// The most levels below a node (our own limit).
const MOST_LEVELS_BELOW: u64 = 59;

/// Whether that may be the content of an element (XQuery 1.0, section 3.7.3.1). Faults: `Memory`; `Code` with XQTY0024 where an attribute
/// comes after what is none, with XQDY0025 where two attributes have one name, and with PXQ0003 where there are too many nodes or levels.
pub(crate) fn check_content(alloc: Global, parts: &CopiedContent) -> Result<(), ValueFault>
    ensures said { Says (meaning.unless_fault (meaning.element_fault parts.now) tt) result }
    ensures first { meaning.has_attributes_first parts.now ≡ false → IsErrOf result ValueFault.Memory → ⊥ }
{
    if !parts.has_attributes_first() {
        return Err(ValueFault::Code(Code::XQTY0024));
    }
    let are_distinct = has_distinct_attributes(alloc, parts.as_slice())?;
    Ok(check_names(are_distinct, parts)?)
}

/// Whether content whose attributes come first may be that of an element, once it is known whether their names are distinct. Codes: XQDY0025
/// where they are not; PXQ0003 where there are too many nodes or levels.
fn check_names(are_distinct: bool, parts: &CopiedContent) -> Result<(), Code>
    requires first { meaning.has_attributes_first parts.now ≡ true }
    requires names { are_distinct ≡ has_distinct_names (meaning.attributes parts.now) }
    ensures ok { IfOk result (λ _. meaning.element_fault parts.now ≡ None) }
    ensures code { IfErr result (λ code. meaning.element_fault parts.now ≡ Some code) }
{
    if !are_distinct {
        return Err(Code::XQDY0025);
    }
    if !has_room(parts.as_slice()) {
        return Err(Code::PXQ0003);
    }
    Ok(())
}

/// Whether that may be the content of a document (XQuery 1.0, section 3.7.3.3). Codes: XPTY0004 where there is an attribute; PXQ0003 where
/// there are too many nodes or levels.
pub(crate) fn check_children(parts: &CopiedContent) -> Result<(), Code>
    ensures ok { IfOk result (λ _. meaning.document_fault parts.now ≡ None) }
    ensures code { IfErr result (λ code. meaning.document_fault parts.now ≡ Some code) }
{
    if !parts.are_all_others() {
        return Err(Code::XPTY0004);
    }
    if !has_room(parts.as_slice()) {
        return Err(Code::PXQ0003);
    }
    Ok(())
}

/// Whether no two attributes among the trees have one name. Each name is looked up once. It fails where memory is refused.
fn has_distinct_attributes(alloc: Global, trees: &[Tree]) -> Result<bool, AllocError>
    ensures { IfOk result (λ are. are ≡ has_distinct_names (meaning.attributes (all_of trees.now))) }
{
    let mut names = NameSet::new(alloc);
    let mut rest = trees;
    while let Some((tree, others)) = rest.split_first() {
        let is_new = add_attribute(&mut names, tree)?;
        if !is_new {
            return Ok(false);
        }
        rest = others;
    }
    Ok(true)
}

/// Adds the name of a tree's root if that is an attribute, and answers whether no attribute had it. It fails where memory is refused.
fn add_attribute<'a>(names: &mut NameSet<'a>, tree: &'a Tree) -> Result<bool, AllocError>
    ensures new { IfOk result
        (λ is_new. is_new ≡ (if meaning.is_attribute tree.now.content.kind then not (is_among tree.now.content.name names.old) else true)) }
    ensures names { OnOk result
        ((x : List ℕ) → is_among x names.new ≡ (if meaning.is_attribute tree.now.content.kind then bytes_eq x tree.now.content.name || is_among x names.old else is_among x names.old)) }
{
    let content = tree.content();
    match content.kind {
        Kind::Attribute => names.add(content.name.as_str()),
        _ => Ok(true),
    }
}

/// Whether a node may have so many trees, with so many levels, below it.
fn has_room(trees: &[Tree]) -> bool
    ensures { result ≡ meaning.has_room (all_of trees.now) }
{
    trees.len() <= MOST_LISTED && are_within_levels(trees, MOST_LEVELS_BELOW)
}

//! Lists of the parts of an expression.
//!
//! Most of them have one item, so a list of one takes room for that one alone: expressions stay small, and a long text's are gone
//! through again and again.

ghost use Rattle.std.specs.Prelude.{◌≡◌, ◌∷◌, ◌++◌, [], IfOk, OnOk, OnErr};

use sqlite_items::Items;
use std::alloc::{AllocError, Global};

/// The list of one item. Fails where memory is refused.
pub fn one<T: Drop>(alloc: Global, item: T) -> Result<Items<T>, AllocError>
    ensures { IfOk result (λ items. items ≡ item ∷ []) }
{
    let mut items = Vec::with_capacity(alloc, 1)?;
    items.push(item)?;
    Ok(Items::from_vec(items))
}

/// Puts an item at the end. Fails where memory is refused, and then the list is as it was.
pub fn push<T: Drop>(alloc: Global, items: &mut Items<T>, item: T) -> Result<(), AllocError>
    ensures ok { OnOk result (items.new ≡ items.old ++ item ∷ []) }
    ensures err { OnErr result (items.new ≡ items.old) }
{
    if items.is_empty() {
        *items = one(alloc, item)?;
        Ok(())
    } else {
        items.push(item)
    }
}

/// Puts items at the end. Fails where memory is refused; what the list is then isn't said.
pub fn append<T: Drop>(items: &mut Items<T>, more: Items<T>) -> Result<(), AllocError>
    ensures { OnOk result (items.new ≡ items.old ++ more) }
{
    if items.is_empty() {
        *items = more;
        Ok(())
    } else {
        items.append(more)
    }
}

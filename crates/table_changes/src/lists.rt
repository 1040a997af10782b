//! Lists of items.

ghost use Rattle.std.specs.Prelude.{◌≡◌, ◌∷◌, [], IfOk};

use cat_items::Item;
use sql_tree::Items;
use std::alloc::{AllocError, Global};

/// The list of one item. `Err` is want of memory.
pub fn only(alloc: Global, x: Item) -> Result<Items<Item>, AllocError>
    ensures { IfOk result (λ items. items ≡ x ∷ []) }
{
    let mut items = Items::new(alloc);
    items.push(x)?;
    Ok(items)
}

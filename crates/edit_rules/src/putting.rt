//! Lists that are put together.

ghost use Rattle.std.specs.Prelude.{◌≡◌, ◌↔◌, ◌⊎◌, OnOk, OnErr, Contains};
ghost use Rattle.std.specs.declared.cmp.Ordering.TheVariants.{Equal};
ghost use Rattle.cat_items.specs.declared.item.Item.{Item};
ghost use Rattle.cat_items.specs.Order.{item_cmp};

use cat_items::{Catalogue, Item};
use std::alloc::AllocError;

/// Puts an item into a list in order, where it isn't there. `Err` is want of memory, and leaves the list.
pub fn put(items: &mut Catalogue, item: Item) -> Result<(), AllocError>
    requires { (y : Item) → Contains items.old.items y → item_cmp y item ≡ Equal → y ≡ item }
    ensures members { OnOk result ((x : Item) → Contains items.new.items x ↔ (Contains items.old.items x ⊎ (x ≡ item))) }
    ensures same { OnErr result (items.new.items ≡ items.old.items) }
{
    items.put_new(item)?;
    Ok(())
}

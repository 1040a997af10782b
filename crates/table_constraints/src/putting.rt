//! Descriptors that are put in.

ghost use Rattle.std.specs.Prelude.{◌≡◌, ◌↔◌, ◌⊎◌, Contains, OnOk};
ghost use Rattle.std.specs.declared.cmp.Ordering.TheVariants.{Equal};
ghost use Rattle.cat_items.specs.declared.item.Item.{Item as AnyItem};
ghost use Rattle.cat_items.specs.Order.{item_cmp};

use cat_items::{Catalogue, Item};
use edit_rules::put;
use sql_tree::Items;
use std::alloc::AllocError;

/// Puts descriptors into a list in order. `Err` is want of memory.
pub fn put_all(added: &mut Catalogue, items: &Items<Item>) -> Result<(), AllocError>
    requires one { (x y : AnyItem) → Contains items.now x → Contains items.now y → item_cmp x y ≡ Equal → x ≡ y }
    requires beside { (x y : AnyItem) → Contains added.old.items x → Contains items.now y → item_cmp x y ≡ Equal → x ≡ y }
    ensures { OnOk result ((x : AnyItem) → Contains added.new.items x ↔ (Contains added.old.items x ⊎ Contains items.now x)) }
{
    for x in items.as_slice() {
        put(added, x.copy()?)?;
    }
    Ok(())
}

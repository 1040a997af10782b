//! Items and rights that come to lists.

ghost use Rattle.std.specs.Prelude.{◌≡◌, ◌↔◌, ◌⊎◌, IsTrue, OnOk};
ghost use Rattle.std.specs.List.{Contains};
ghost use Rattle.std.specs.declared.cmp.Ordering.TheVariants.{Equal};
ghost use Rattle.cat_items.specs.declared.item.Item.{Item};
ghost use Rattle.cat_items.specs.Catalogues.{IsInOrder};
ghost use Rattle.cat_items.specs.Order.{item_cmp};
ghost use Rattle.topic_keys.specs.Lists.{Gets};
ghost use Rattle.edit_parts.specs.Touched as spec;

use crate::possible::right_by_key;
use cat_items::{Edit, Item, compare_items};
use std::alloc::{AllocError, Global};

/// Whether an item stands in a list in order.
fn stands_in(items: &[Item], x: &Item) -> bool
    requires order { IsInOrder items.now }
    requires apart { (y : Item) → Contains items.now y → item_cmp y x.now ≡ Equal → y ≡ x.now }
    ensures { IsTrue result ↔ Contains items.now x.now }
{
    match items.binary_search_by(|y| compare_items(y, x)) {
        Ok(_) => true,
        Err(_) => false,
    }
}

/// Whether the edit destroys or changes an item.
fn is_taken(edit: &Edit, x: &Item) -> bool
    requires target_order { IsInOrder edit.now.target }
    requires changed_order { IsInOrder edit.now.changed }
    requires target { (y : Item) → Contains edit.now.target y → item_cmp y x.now ≡ Equal → y ≡ x.now }
    requires changed { (y : Item) → Contains edit.now.changed y → item_cmp y x.now ≡ Equal → y ≡ x.now }
    ensures { IsTrue result ↔ (Contains edit.now.target x.now ⊎ Contains edit.now.changed x.now) }
{
    stands_in(edit.target.as_slice(), x) || stands_in(edit.changed.as_slice(), x)
}

/// Pushes an item, if the edit leaves it.
pub(crate) fn push_left(edit: &Edit, key: &Item, items: &mut Vec<Item>) -> Result<(), AllocError>
    requires target_order { IsInOrder edit.now.target }
    requires changed_order { IsInOrder edit.now.changed }
    requires target { (y : Item) → Contains edit.now.target y → item_cmp y key.now ≡ Equal → y ≡ key.now }
    requires changed { (y : Item) → Contains edit.now.changed y → item_cmp y key.now ≡ Equal → y ≡ key.now }
    ensures { OnOk result (Gets (λ x. (x ≡ key.now) × spec.IsLeft edit.now x) items.old.items items.new.items) }
{
    if is_taken(edit, key) {
        return Ok(());
    }
    items.push(key.copy()?)?;
    Ok(())
}

/// Pushes the right by the system whose key this is, or its ghost's.
pub(crate) fn push_right(
    alloc: Global,
    key: &Item,
    rights: &mut Vec<Item>,
) -> Result<(), AllocError>
    ensures { OnOk result (Gets (spec.IsRightOf key.now) rights.old.items rights.new.items) }
{
    match right_by_key(alloc, key)? {
        None => Ok(()),
        Some(right) => {
            rights.push(right)?;
            Ok(())
        }
    }
}

/// Pushes copies of these items.
pub(crate) fn push_all(added: &[Item], items: &mut Vec<Item>) -> Result<(), AllocError>
    ensures { OnOk result (Gets (Contains added.now) items.old.items items.new.items) }
{
    for x in added {
        items.push(x.copy()?)?;
    }
    Ok(())
}

//! What an edit does beyond what it says.

ghost use Rattle.std.specs.Prelude.{◌≡◌, ◌≢◌, ◌⊎◌, List, IfSome, IfNone};
ghost use Rattle.std.specs.declared.cmp.Ordering.TheVariants.{Less};
ghost use Rattle.cat_items.specs.declared.item.Item.{Item};
ghost use Rattle.cat_items.specs.Edits.{IsFurther};
ghost use Rattle.cat_items.specs.Order.{item_cmp};
ghost use Rattle.new_catalogues.specs.Further.{IsLeastFurther};
ghost use Rattle.catalogue_changes.specs.Effects.{IsMadeBy};

use cat_items::{Edit, Item, compare_items};

/// What an edit takes beyond its target and the items that it changes, what it brings beyond the items that it adds,
/// and which of these don't stand. Each list is in order.
#[derive(Drop)]
pub struct Effects {
    pub lost: Vec<Item>,
    pub gained: Vec<Item>,
    pub fallen: Vec<Item>,
}

/// The least item beyond the target that an edit takes, or puts back with other fields. It takes no memory.
///
/// The behaviour RESTRICT is refused where there is one.
pub fn least_further<'a>(edit: &'a Edit, effects: &'a Effects) -> Option<&'a Item>
    ensures least { IfSome result (λ x. (c edited new : List Item) → IsMadeBy c edited edit.now new effects.now → IsLeastFurther c edit.now new x.now) }
    ensures none { IfNone result ((c edited new : List Item) → IsMadeBy c edited edit.now new effects.now → (x : Item) → IsFurther c edit.now new x → ⊥) }
{
    match (
        effects.lost.as_slice().first(),
        edit.changed.as_slice().first(),
    ) {
        (Some(lost), Some(changed)) => Some(least(lost, changed)),
        (Some(lost), None) => Some(lost),
        (None, Some(changed)) => Some(changed),
        (None, None) => None,
    }
}

/// The one that comes first in the order of items.
fn least<'a>(a: &'a Item, b: &'a Item) -> &'a Item
    ensures one { (result.now ≡ a.now) ⊎ (result.now ≡ b.now) }
    ensures first { item_cmp a.now result.now ≢ Less }
    ensures second { item_cmp b.now result.now ≢ Less }
{
    if compare_items(b, a).is_lt() { b } else { a }
}

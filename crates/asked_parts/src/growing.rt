//! Parts that grow.

ghost use Rattle.std.specs.Prelude.{◌≡◌, ◌<◌, ◌⊎◌, true, false, length, IfOk, OnOk};
ghost use Rattle.std.specs.List.{Contains};
ghost use Rattle.std.specs.declared.cmp.Ordering.TheVariants.{Equal};
ghost use Rattle.finite_chains.specs.Chains.{IsWithin};
ghost use Rattle.cat_items.specs.declared.item.Item.{Item};
ghost use Rattle.cat_items.specs.Catalogues.{IsInOrder};
ghost use Rattle.cat_items.specs.Order.{item_cmp};
ghost use Rattle.edit_rules.specs.Chosen.{AreChosen};
ghost use Rattle.topic_keys.specs.Lists.{Gets};

use cat_items::{Catalogue, Item, find};
use std::alloc::{AllocError, Global};

/// Copies of those of these items that the part hasn't.
fn new_copies(alloc: Global, part: &Catalogue, items: &[Item]) -> Result<Vec<Item>, AllocError>
    requires apart { (x y : Item) → Contains part.now.items x → Contains items.now y → item_cmp x y ≡ Equal → x ≡ y }
    requires order { IsInOrder items.now }
    ensures chosen { IfOk result (λ new. AreChosen items.now (λ y. ¬ (Contains part.now.items y)) new.items) }
    ensures either { IfOk result (λ new. (y : Item) → Contains items.now y → Contains part.now.items y ⊎ Contains new.items y) }
{
    let mut new = Vec::new(alloc);
    for item in items {
        if find(part, item).is_none() {
            new.push(item.copy()?)?;
        }
    }
    Ok(new)
}

/// Puts in copies of these items: whether any of them is new.
pub(crate) fn put_copies(
    alloc: Global,
    part: &mut Catalogue,
    items: &[Item],
) -> Result<bool, AllocError>
    requires apart { (x y : Item) → Contains part.old.items x → Contains items.now y → item_cmp x y ≡ Equal → x ≡ y }
    requires order { IsInOrder items.now }
    ensures members { OnOk result (Gets (Contains items.now) part.old.items part.new.items) }
    ensures order { OnOk result (IsInOrder part.new.items) }
    ensures there { IfOk result (λ more. more ≡ false → IsWithin items.now part.old.items) }
    ensures more { IfOk result (λ more. more ≡ true → length part.old.items < length part.new.items) }
{
    let new = new_copies(alloc, part, items)?;
    let more = !new.is_empty();
    part.reserve(new.len())?;
    part.put_in_all(new);
    Ok(more)
}

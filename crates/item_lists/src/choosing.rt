//! Items that stand, or don't stand, in another list.

ghost use Rattle.std.specs.Prelude.{IfOk};
ghost use Rattle.cat_items.specs.Batch.{IsWithout};
ghost use Rattle.cat_items.specs.Catalogues.{IsInOrder};
ghost use Rattle.edit_rules.specs.Chosen.{AreChosen};
ghost use Rattle.item_lists.specs.Walks.{StandsAs};

use crate::walking::stands_from;
use cat_items::{Catalogue, Item};
use std::alloc::{AllocError, Global};

/// Copies of those of these items that stand in another list, where `there`, or of those that don't. `Err` is want of memory.
///
/// It walks along both lists: an item takes one comparison where it doesn't come behind the next of the other list, and else some two for each
/// doubling of the way that it goes along that list.
pub fn chosen_as(
    alloc: Global,
    items: &[Item],
    there: bool,
    other: &[Item],
) -> Result<Vec<Item>, AllocError>
    requires items { IsInOrder items.now }
    requires other { IsInOrder other.now }
    ensures { IfOk result (λ found. AreChosen items.now (StandsAs there other.now) found.items) }
{
    let mut found = Vec::new(alloc);
    let mut from = 0;
    for x in items {
        if stands_from(other, &mut from, x) == there {
            found.push(x.copy()?)?;
        }
    }
    Ok(found)
}

/// Copies of the items that don't stand in another list. `Err` is want of memory.
pub fn without(alloc: Global, items: &[Item], out: &[Item]) -> Result<Catalogue, AllocError>
    requires items { IsInOrder items.now }
    requires out { IsInOrder out.now }
    ensures order { IfOk result (λ rest. IsInOrder rest.items) }
    ensures members { IfOk result (λ rest. IsWithout items.now out.now rest.items) }
{
    let rest = chosen_as(alloc, items, false, out)?;
    Ok(Catalogue::of_sorted(rest))
}

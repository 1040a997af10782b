//! Two lists in order as one.

ghost use Rattle.std.specs.Prelude.{◌≡◌, ◌+◌, ◌<◌, ◌≤◌, ◌++◌, IfOk, OnOk, drop, length, take};
ghost use Rattle.cat_items.specs.Batch.{IsJoined};
ghost use Rattle.cat_items.specs.Catalogues.{IsInOrder};
ghost use Rattle.item_lists.specs.Merges.{AreOneByKey, AreMerged};

use crate::walking::place_from;
use cat_items::{Catalogue, Item};
use std::alloc::{AllocError, Global};

/// Pushes copies of these items.
fn push_all(items: &[Item], all: &mut Vec<Item>) -> Result<(), AllocError>
    ensures { OnOk result (all.new.items ≡ all.old.items ++ items.now) }
{
    for x in items {
        all.push(x.copy()?)?;
    }
    Ok(())
}

/// Puts the next item of `more` behind those of `items` that come before it. `from` goes behind these, and behind the item itself.
fn merge_next(
    items: &[Item],
    from: &mut usize,
    more: &[Item],
    next: usize,
    all: &mut Vec<Item>,
) -> Result<(), AllocError>
    requires items { IsInOrder items.now }
    requires more { IsInOrder more.now }
    requires known { AreOneByKey items.now more.now }
    requires from { from.old ≤ length items.now }
    requires next { next < length more.now }
    requires merged { AreMerged (take from.old items.now) (drop from.old items.now) (take next more.now) (drop next more.now) all.old.items }
    ensures from { OnOk result (from.new ≤ length items.now) }
    ensures merged { OnOk result (AreMerged (take from.new items.now) (drop from.new items.now) (take (next + 1) more.now) (drop (next + 1) more.now) all.new.items) }
{
    let x = &more[next];
    match place_from(items, *from, x) {
        Ok(at) => {
            push_all(&items[*from..at], all)?;
            *from = at + 1;
        }
        Err(gap) => {
            push_all(&items[*from..gap], all)?;
            *from = gap;
        }
    }
    all.push(x.copy()?)?;
    Ok(())
}

/// Copies of the items of both lists in order, where two with one key are the same: that is there once. `Err` is want of memory.
///
/// It walks along the first list by the items of the other one, which is better the shorter.
pub fn merged(alloc: Global, items: &[Item], more: &[Item]) -> Result<Catalogue, AllocError>
    requires items { IsInOrder items.now }
    requires more { IsInOrder more.now }
    requires known { AreOneByKey items.now more.now }
    ensures order { IfOk result (λ all. IsInOrder all.items) }
    ensures members { IfOk result (λ all. IsJoined items.now more.now all.items) }
{
    let mut all = Vec::new(alloc);
    let mut from = 0;
    for next in 0..more.len() {
        merge_next(items, &mut from, more, next, &mut all)?;
    }
    push_all(&items[from..], &mut all)?;
    Ok(Catalogue::of_sorted(all))
}

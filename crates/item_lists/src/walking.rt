//! A walk along a list in order, by items that rise.

ghost use Rattle.std.specs.Prelude.{◌≡◌, ◌≤◌, ◌↔◌, IsTrue};
ghost use Rattle.std.specs.List.{Contains};
ghost use Rattle.std.specs.Result.{MatchResult};
ghost use Rattle.std.specs.declared.cmp.Ordering.TheVariants.{Less};
ghost use Rattle.cat_items.specs.declared.item.Item.{Item};
ghost use Rattle.cat_items.specs.Catalogues.{HasKeyAt, IsInOrder};
ghost use Rattle.cat_items.specs.Order.{item_cmp};
ghost use Rattle.item_lists.specs.Walks.{AreBefore, IsGap};

use cat_items::{Item, compare_items, same_item};
use std::cmp::Ordering;

/// The place of the key of `x`, or the one where it would stand, where all items before `from` come before it: a search of all the others.
fn search_rest(items: &[Item], from: usize, x: &Item) -> Result<usize, usize>
    requires order { IsInOrder items.now }
    requires before { AreBefore items.now from x.now }
    ensures place { MatchResult result (λ at. HasKeyAt items.now at x.now) (λ gap. IsGap items.now gap x.now) }
    ensures from { MatchResult result (λ at. from ≤ at) (λ gap. from ≤ gap) }
{
    match items[from..].binary_search_by(|y| compare_items(y, x)) {
        Ok(at) => Ok(from + at),
        Err(gap) => Err(from + gap),
    }
}

/// What `search_rest` finds. It looks twice as far ahead each time, until an item doesn't come before `x`, and searches what is before that one
/// and behind the last that did: so it takes some two comparisons for each doubling of the way that it goes.
fn search_from(items: &[Item], from: usize, x: &Item) -> Result<usize, usize>
    requires order { IsInOrder items.now }
    requires before { AreBefore items.now from x.now }
    ensures place { MatchResult result (λ at. HasKeyAt items.now at x.now) (λ gap. IsGap items.now gap x.now) }
    ensures from { MatchResult result (λ at. from ≤ at) (λ gap. from ≤ gap) }
{
    let mut low = from;
    let mut reach = 0;
    while reach < items.len() - low {
        let high = low + reach;
        match compare_items(&items[high], x) {
            Ordering::Equal => return Ok(high),
            Ordering::Greater => return search_rest(&items[..high], low, x),
            Ordering::Less => {
                low = high + 1;
                reach += reach + 1;
            }
        }
    }
    search_rest(items, low, x)
}

/// What `search_from` finds; the item at `from` is looked at first, since it often decides.
pub(crate) fn place_from(items: &[Item], from: usize, x: &Item) -> Result<usize, usize>
    requires order { IsInOrder items.now }
    requires before { AreBefore items.now from x.now }
    ensures place { MatchResult result (λ at. HasKeyAt items.now at x.now) (λ gap. IsGap items.now gap x.now) }
    ensures from { MatchResult result (λ at. from ≤ at) (λ gap. from ≤ gap) }
{
    if from == items.len() {
        return Err(from);
    }
    match compare_items(&items[from], x) {
        Ordering::Equal => Ok(from),
        Ordering::Greater => Err(from),
        Ordering::Less => search_from(items, from + 1, x),
    }
}

/// Whether `x` stands in a list in order, with all its fields, where all items before `from` come before it: one step of a walk along the list by
/// items that rise. `from` goes behind all that don't come behind `x`, so that the next one can begin there. Between two items that are near to
/// each other in the list it takes a few comparisons, and else some two for each doubling of the way.
pub fn stands_from(items: &[Item], from: &mut usize, x: &Item) -> bool
    requires order { IsInOrder items.now }
    requires before { AreBefore items.now from.old x.now }
    ensures stands { IsTrue result ↔ Contains items.now x.now }
    ensures passed { (y : Item) → item_cmp x.now y ≡ Less → AreBefore items.now from.new y }
{
    match place_from(items, *from, x) {
        Ok(at) => {
            *from = at + 1;
            same_item(&items[at], x)
        }
        Err(gap) => {
            *from = gap;
            false
        }
    }
}

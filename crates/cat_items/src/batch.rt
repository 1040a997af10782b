//! Changes of many places of a list in one pass, without memory.

ghost use Rattle.std.specs.Prelude.{◌≡◌, ◌↔◌, ◌<◌, ◌≤◌, ◌+◌, ◌++◌, List, Contains, length, take, drop, slice_index_or};
ghost use Rattle.finite_chains.specs.Chains.{IsWithin};
ghost use Rattle.cat_items.specs.Batch.{AreParts, HaveNoKeyInCommon, IsWithout};
ghost use Rattle.cat_items.specs.Catalogues.{IsInOrder, IsCut};
ghost use Rattle.cat_items.specs.declared.item.Item.{Item};

use crate::catalogue::{compare_items, cut};
use crate::item::Item;

/// Exchanges two neighbouring parts: from `from` to `middle`, and on to `to`. Where one is empty, nothing is moved.
fn exchange<T>(items: &mut [T], from: usize, middle: usize, to: usize)
    requires first { from ≤ middle }
    requires second { middle ≤ to }
    requires within { to ≤ length items.old }
    ensures len { length items.new ≡ length items.old }
    ensures parts { (before first second after : List T) → AreParts items.old from middle to before first second after → items.new ≡ before ++ (second ++ (first ++ after)) }
{
    if from < middle && middle < to {
        items[from..to].rotate_left(middle - from);
    }
}

/// The cut of an item that often comes behind the last.
fn cut_from_end(items: &[Item], item: &Item) -> usize
    requires { IsInOrder items.now }
    ensures { IsCut items.now result item.now }
{
    match items.last() {
        Some(last) if compare_items(last, item).is_lt() => items.len(),
        _ => cut(items, item),
    }
}

/// The cut, among the first `old` items, of the item at a later place.
fn cut_of_place(items: &[Item], old: usize, place: usize) -> usize
    requires first { old ≤ place }
    requires within { place < length items.now }
    requires order { IsInOrder (take old items.now) }
    ensures within { result ≤ old }
    ensures cut { (d : Item) → IsCut (take old items.now) result (slice_index_or items.now place d) }
{
    cut_from_end(&items[..old], &items[place])
}

/// The cut of an item among those from a place on.
fn cut_from_place(items: &[Item], from: usize, item: &Item) -> usize
    requires within { from ≤ length items.now }
    requires order { IsInOrder (drop from items.now) }
    ensures { IsCut (drop from items.now) result item.now }
{
    cut(&items[from..], item)
}

/// Puts two runs in order into one, from the end: the first `old` items, and the others, which have other keys.
pub fn merge(items: &mut [Item], mut old: usize)
    requires within { old ≤ length items.old }
    requires first { IsInOrder (take old items.old) }
    requires second { IsInOrder (drop old items.old) }
    requires apart { HaveNoKeyInCommon (take old items.old) (drop old items.old) }
    ensures order { IsInOrder items.new }
    ensures len { length items.new ≡ length items.old }
    ensures members { (x : Item) → Contains items.new x ↔ Contains items.old x }
{
    let mut end = items.len();
    while old < end {
        let at = cut_of_place(items, old, end - 1);
        exchange(items, at, old, end);
        end -= old - at + 1;
        old = at;
    }
}

/// Brings the items of `out`, each of which is there, behind the others, and tells how many others there are.
pub fn part_off(items: &mut [Item], out: &[Item]) -> usize
    requires order { IsInOrder items.old }
    requires out_order { IsInOrder out.now }
    requires out_within { IsWithin out.now items.old }
    ensures order { IsInOrder (take result items.new) }
    ensures members { IsWithout items.old out.now (take result items.new) }
    ensures len { result + length out.now ≡ length items.new }
    ensures same_len { length items.new ≡ length items.old }
{
    let mut kept = 0;
    let mut read = 0;
    for item in out {
        let next = read + cut_from_place(items, read, item);
        exchange(items, kept, read, next);
        kept += next - read;
        read = next + 1;
    }
    let end = items.len();
    exchange(items, kept, read, end);
    end - (read - kept)
}

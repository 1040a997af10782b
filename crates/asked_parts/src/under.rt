//! The items that stand under keys of a board.

ghost use Rattle.std.specs.Prelude.{◌↔◌, ◌+◌, ◌≤◌, IfOk, OnOk};
ghost use Rattle.std.specs.List.{Contains, sum_by};
ghost use Rattle.item_index.specs.Graphs.{IsNode, IsWhole};
ghost use Rattle.cat_items.specs.declared.item.Item.{Item};
ghost use Rattle.cat_items.specs.contracts.item.ItemPartialEq.TheImpl as same;
ghost use Rattle.board_graph.specs.BoardKeys.{IsHelper};
ghost use Rattle.topic_keys.specs.Lists.{Gets};
ghost use Rattle.asked_parts.specs.Under as spec;

use crate::helpers::is_helper;
use cat_items::{Catalogue, Item};
use indexmap::IndexSet;
use item_index::{Index, Steps};
use std::alloc::{AllocError, Global};
use std::hash::BuildHasher;
use std::sync::ledger::Ledger;
use topic_keys::in_order;

/// Puts in the item of this number, if it has one and no mark.
fn put_unmarked<S: BuildHasher + Drop, L: Ledger>(
    board: &Index<Item, S>,
    marks: &IndexSet<usize>,
    number: usize,
    found: &mut Vec<Item>,
    steps: &mut Steps<L>,
) -> Result<(), AllocError>
    requires { IsNode board.now number }
    ensures found { OnOk result (Gets (spec.IsUnmarkedAt board.now marks.now.keys number) found.old.items found.new.items) }
    ensures ticks { steps.new ≤ steps.old + 1 }
{
    if marks.contains(&number) {
        return Ok(());
    }
    let key = board.key(number, steps);
    if is_helper(key) {
        return Ok(());
    }
    found.push(key.copy()?)?;
    Ok(())
}

/// Puts in each unmarked item that this number rests on.
fn put_rests<S: BuildHasher + Drop, L: Ledger>(
    board: &Index<Item, S>,
    marks: &IndexSet<usize>,
    node: usize,
    found: &mut Vec<Item>,
    steps: &mut Steps<L>,
) -> Result<(), AllocError>
    requires node { IsNode board.now node }
    requires apart { spec.AreApart board.now marks.now.keys found.old.items }
    ensures found { OnOk result (Gets (spec.IsRestOf board.now marks.now.keys node) found.old.items found.new.items) }
    ensures apart { OnOk result (spec.AreApart board.now marks.now.keys found.new.items) }
    ensures ticks { steps.new ≤ steps.old + spec.rests_cost board.now node }
{
    let mut at = 0;
    while let Some(number) = board.rests(node, at, steps) {
        put_unmarked(board, marks, number, found, steps)?;
        at += 1;
    }
    Ok(())
}

/// Puts in each unmarked item under a helper's key.
fn put_under<S: BuildHasher + Drop, L: Ledger>(
    board: &Index<Item, S>,
    marks: &IndexSet<usize>,
    key: &Item,
    found: &mut Vec<Item>,
    steps: &mut Steps<L>,
) -> Result<(), AllocError>
    requires key { IsHelper key.now }
    requires apart { spec.AreApart board.now marks.now.keys found.old.items }
    ensures found { OnOk result (Gets (spec.IsUnderKey board.now marks.now.keys key.now) found.old.items found.new.items) }
    ensures apart { OnOk result (spec.AreApart board.now marks.now.keys found.new.items) }
    ensures ticks { steps.new ≤ steps.old + spec.look_ups board.now key.now }
{
    match board.node(key, steps) {
        None => Ok(()),
        Some(node) => put_rests(board, marks, node, found, steps),
    }
}

/// The unmarked items under these keys of topics. Of each key it looks up the node, all that this rests on, the end of that list, and
/// the keys of what has no mark. `Err` is want of memory.
pub fn items_under<S: BuildHasher + Drop, L: Ledger>(
    alloc: Global,
    board: &Index<Item, S>,
    marks: &IndexSet<usize>,
    keys: &[Item],
    steps: &mut Steps<L>,
) -> Result<Catalogue, AllocError>
    requires { (k : Item) → Contains keys.now k → IsHelper k }
    ensures found { IfOk result (λ found. (y : Item) → Contains found.items y ↔ spec.IsUnderAny board.now marks.now.keys keys.now y) }
    ensures apart { IfOk result (λ found. spec.AreApart board.now marks.now.keys found.items) }
    ensures ticks { steps.new ≤ steps.old + sum_by (spec.look_ups board.now) keys.now }
{
    let mut found = Vec::new(alloc);
    for key in keys {
        put_under(board, marks, key, &mut found, steps)?;
    }
    Ok(Catalogue::of_sorted(in_order(found)))
}

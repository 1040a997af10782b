//! The numbers of the keys with which an edit begins.

ghost use Rattle.std.specs.Prelude.{◌≡◌, ◌≤◌, ◌+◌, ◌*◌, Contains, OnOk, Some, None, false, length};
ghost use Rattle.cat_items.specs.contracts.item.ItemPartialEq.TheImpl as same;
ghost use Rattle.topic_keys.specs.Homes.{IsHome};
ghost use Rattle.topic_keys.specs.Lists.{Gets, IsKeyWhere};
ghost use Rattle.key_tests.specs.Tests as helpers;
ghost use Rattle.edit_suspects.specs.Seeds as spec;

use cat_items::Item;
use item_index::{Index, Steps};
use key_tests::{ghost_of, is_helper};
use std::alloc::{AllocError, Global};
use std::hash::BuildHasher;
use std::sync::ledger::Ledger;
use topic_keys::homes;

/// Puts the number of a key behind the others, if it has one.
fn find<S: BuildHasher + Drop, L: Ledger>(
    board: &Index<Item, S>,
    key: &Item,
    numbers: &mut Vec<usize>,
    steps: &mut Steps<L>,
) -> Result<(), AllocError>
    ensures found { OnOk result (Gets (spec.IsNumber same.ghosts.eq board.now key.now) numbers.old.items numbers.new.items) }
    ensures ticks { steps.new ≡ steps.old + 1 }
{
    if let Some(number) = board.node(key, steps) {
        numbers.push(number)?;
    }
    Ok(())
}

/// Puts the numbers of keys behind the others.
pub fn find_all<S: BuildHasher + Drop, L: Ledger>(
    board: &Index<Item, S>,
    keys: &[Item],
    numbers: &mut Vec<usize>,
    steps: &mut Steps<L>,
) -> Result<(), AllocError>
    ensures found { OnOk result (Gets (spec.IsNumberOf same.ghosts.eq board.now (Contains keys.now)) numbers.old.items numbers.new.items) }
    ensures ticks { steps.new ≤ steps.old + length keys.now }
{
    for key in keys {
        find(board, key, numbers, steps)?;
    }
    Ok(())
}

/// Puts in the number of an added item's own key.
fn find_own<S: BuildHasher + Drop, L: Ledger>(
    board: &Index<Item, S>,
    x: &Item,
    numbers: &mut Vec<usize>,
    steps: &mut Steps<L>,
) -> Result<(), AllocError>
    ensures found { OnOk result (Gets (spec.IsNumberOf same.ghosts.eq board.now (λ k. (helpers.is_helper x.now ≡ false) × (k ≡ x.now))) numbers.old.items numbers.new.items) }
    ensures ticks { steps.new ≤ steps.old + 1 }
{
    if is_helper(x) {
        return Ok(());
    }
    find(board, x, numbers, steps)
}

/// Puts in the number of its ghost.
fn find_ghost<S: BuildHasher + Drop, L: Ledger>(
    alloc: Global,
    board: &Index<Item, S>,
    x: &Item,
    numbers: &mut Vec<usize>,
    steps: &mut Steps<L>,
) -> Result<(), AllocError>
    ensures found { OnOk result (Gets (spec.IsNumberOf same.ghosts.eq board.now (λ k. helpers.ghost_of x.now ≡ Some k)) numbers.old.items numbers.new.items) }
    ensures ticks { steps.new ≤ steps.old + 1 }
{
    match ghost_of(alloc, x)? {
        None => Ok(()),
        Some(key) => find(board, &key, numbers, steps),
    }
}

/// Puts in the numbers of the topics under which it stands.
fn find_homes<S: BuildHasher + Drop, L: Ledger>(
    alloc: Global,
    board: &Index<Item, S>,
    x: &Item,
    numbers: &mut Vec<usize>,
    steps: &mut Steps<L>,
) -> Result<(), AllocError>
    ensures found { OnOk result (Gets (spec.IsNumberOf same.ghosts.eq board.now (IsKeyWhere (IsHome x.now))) numbers.old.items numbers.new.items) }
    ensures ticks { steps.new ≤ steps.old + 2 }
{
    let topics = homes(alloc, x)?;
    find_all(board, topics.as_slice(), numbers, steps)
}

/// Puts in the numbers by which the board may know an added item already.
fn find_added<S: BuildHasher + Drop, L: Ledger>(
    alloc: Global,
    board: &Index<Item, S>,
    x: &Item,
    numbers: &mut Vec<usize>,
    steps: &mut Steps<L>,
) -> Result<(), AllocError>
    ensures found { OnOk result (Gets (spec.IsNumberOf same.ghosts.eq board.now (spec.IsAddedKey x.now)) numbers.old.items numbers.new.items) }
    ensures ticks { steps.new ≤ steps.old + 4 }
{
    find_own(board, x, numbers, steps)?;
    find_ghost(alloc, board, x, numbers, steps)?;
    find_homes(alloc, board, x, numbers, steps)
}

/// Puts in the numbers by which the board may know added items already.
pub fn find_all_added<S: BuildHasher + Drop, L: Ledger>(
    alloc: Global,
    board: &Index<Item, S>,
    added: &[Item],
    numbers: &mut Vec<usize>,
    steps: &mut Steps<L>,
) -> Result<(), AllocError>
    ensures found { OnOk result (Gets (spec.IsNumberOf same.ghosts.eq board.now (spec.IsKeyOfAdded added.now)) numbers.old.items numbers.new.items) }
    ensures ticks { steps.new ≤ steps.old + 4 * length added.now }
{
    for x in added {
        find_added(alloc, board, x, numbers, steps)?;
    }
    Ok(())
}

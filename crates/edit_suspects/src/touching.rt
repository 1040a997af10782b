//! What an edit touches.

ghost use Rattle.std.specs.Prelude.{◌↔◌, ◌≤◌, ◌+◌, ℕ, Contains, List, IfOk};
ghost use Rattle.std.specs.List.{sum_by};
ghost use Rattle.cat_items.specs.contracts.item.ItemPartialEq.TheImpl as same;
ghost use Rattle.link_marks.specs.Reached.{look_ups};
ghost use Rattle.edit_suspects.specs.Seeds as spec;

use crate::seeds::{find_all, find_all_added};
use cat_items::{Edit, Item};
use indexmap::IndexSet;
use item_index::{Index, Steps};
use link_marks::reached;
use std::alloc::{AllocError, Global};
use std::hash::BuildHasher;
use std::sync::ledger::Ledger;

/// The numbers of the keys with which an edit begins.
fn seeds<S: BuildHasher + Drop, L: Ledger>(
    alloc: Global,
    board: &Index<Item, S>,
    edit: &Edit,
    steps: &mut Steps<L>,
) -> Result<Vec<usize>, AllocError>
    ensures found { IfOk result (λ numbers. (n : ℕ) → Contains numbers.items n ↔ spec.IsNumberOf same.ghosts.eq board.now (spec.IsSeedKey edit.now) n) }
    ensures ticks { steps.new ≤ steps.old + spec.seed_look_ups edit.now }
{
    let mut numbers = Vec::new(alloc);
    find_all(board, edit.target.as_slice(), &mut numbers, steps)?;
    find_all(board, edit.changed.as_slice(), &mut numbers, steps)?;
    find_all_added(alloc, board, edit.added.as_slice(), &mut numbers, steps)?;
    Ok(numbers)
}

/// What an edit touches on a board: the numbers of the keys with which it begins, and all that rests on these, directly or by way of others.
/// It looks up one key for each item that the edit destroys or changes and at most four for each that it adds, and then, of each number
/// that it touches, all that rest on it and the end of that list. `Err` is want of memory.
pub fn touched<S: BuildHasher + Drop, L: Ledger>(
    alloc: Global,
    board: &Index<Item, S>,
    edit: &Edit,
    steps: &mut Steps<L>,
) -> Result<IndexSet<usize>, AllocError>
    ensures touched { IfOk result (λ marks. spec.AreTouched same.ghosts.eq board.now edit.now marks.keys) }
    ensures spread { IfOk result (λ marks. spec.HaveSpread board.now edit.now marks.keys) }
    ensures ticks { (all : List ℕ) → spec.AreTouched same.ghosts.eq board.now edit.now all → steps.new ≤ steps.old + spec.seed_look_ups edit.now + sum_by (look_ups board.now.dependents) all }
{
    let from = seeds(alloc, board, edit, steps)?;
    reached(alloc, board, from.as_slice(), steps)
}

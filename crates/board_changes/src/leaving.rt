//! What goes out of a board: the keys of numbers, and the links that go with them.

ghost use Rattle.std.specs.Prelude.{◌≡◌, ◌≢◌, ◌+◌, ◌≤◌, ◌++◌, List, length, map, reverse, IfOk, OnOk};
ghost use Rattle.std.specs.List.{AllPairs, AllZip, flat_map, sum_by};
ghost use Rattle.item_index.specs.Graphs.{HasKey, IsNode};
ghost use Rattle.item_index.specs.Shelves.{list_at};
ghost use Rattle.graph_steps.specs.Steps.{AreNodes};
ghost use Rattle.cat_items.specs.declared.item.Item.{Item};
ghost use Rattle.board_changes.specs.Leaving as spec;

use cat_items::Item;
use indexmap::IndexSet;
use item_index::{Index, Steps};
use std::alloc::{AllocError, Global};
use std::sync::ledger::Ledger;

/// The keys of these numbers, last first. One look-up of each. `Err` is want of memory.
pub(crate) fn keys_of<L: Ledger>(
    alloc: Global,
    board: &Index<Item>,
    out: &[usize],
    steps: &mut Steps<L>,
) -> Result<Vec<Item>, AllocError>
    requires { AreNodes board.now out.now }
    ensures keys { IfOk result (λ keys. (old : List Item) × AllZip (HasKey board.now) out.now old × (keys.items ≡ reverse old)) }
    ensures few { steps.new ≤ steps.old + length out.now }
{
    let mut keys = Vec::new(alloc);
    for number in out {
        keys.push(board.key(*number, steps).copy()?)?;
    }
    keys.reverse();
    Ok(keys)
}

/// Links of a number to all that it rests on.
fn push_rests<L: Ledger>(
    board: &Index<Item>,
    node: usize,
    taken: &mut Vec<(usize, usize)>,
    steps: &mut Steps<L>,
) -> Result<(), AllocError>
    requires { IsNode board.now node }
    ensures taken { OnOk result (taken.new.items ≡ taken.old.items ++ map (λ m. (node, m)) (list_at board.now.rests node)) }
    ensures few { steps.new ≤ steps.old + spec.look_ups board.now.rests node }
{
    let mut at = 0;
    while let Some(rests_on) = board.rests(node, at, steps) {
        taken.push((node, rests_on))?;
        at += 1;
    }
    Ok(())
}

/// A link to a number from one that rests on it, if that stays.
fn push_if_stays(
    out: &IndexSet<usize>,
    dependent: usize,
    node: usize,
    taken: &mut Vec<(usize, usize)>,
) -> Result<(), AllocError>
    ensures { OnOk result (taken.new.items ≡ taken.old.items ++ spec.link_if_stays out.now.keys dependent node) }
{
    if !out.contains(&dependent) {
        taken.push((dependent, node))?;
    }
    Ok(())
}

/// Links to a number from all that rest on it and stay.
fn push_dependents<L: Ledger>(
    board: &Index<Item>,
    out: &IndexSet<usize>,
    node: usize,
    taken: &mut Vec<(usize, usize)>,
    steps: &mut Steps<L>,
) -> Result<(), AllocError>
    requires { IsNode board.now node }
    ensures taken { OnOk result (taken.new.items ≡ taken.old.items ++ flat_map (λ m. spec.link_if_stays out.now.keys m node) (list_at board.now.dependents node)) }
    ensures few { steps.new ≤ steps.old + spec.look_ups board.now.dependents node }
{
    let mut at = 0;
    while let Some(dependent) = board.dependents(node, at, steps) {
        push_if_stays(out, dependent, node, taken)?;
        at += 1;
    }
    Ok(())
}

fn push_links<L: Ledger>(
    board: &Index<Item>,
    out: &IndexSet<usize>,
    node: usize,
    taken: &mut Vec<(usize, usize)>,
    steps: &mut Steps<L>,
) -> Result<(), AllocError>
    requires { IsNode board.now node }
    ensures taken { OnOk result (taken.new.items ≡ taken.old.items ++ spec.links_with board.now out.now.keys node) }
    ensures few { steps.new ≤ steps.old + spec.look_ups_with board.now node }
{
    push_rests(board, node, taken, steps)?;
    push_dependents(board, out, node, taken, steps)
}

fn set_of(alloc: Global, numbers: &[usize]) -> Result<IndexSet<usize>, AllocError>
    requires { AllPairs (λ m n. m ≢ n) numbers.now }
    ensures { IfOk result (λ set. set.keys ≡ numbers.now) }
{
    let mut set = IndexSet::new(alloc);
    for number in numbers {
        set.insert(*number)?;
    }
    Ok(set)
}

/// The links that go with these numbers, each once. It looks up all that each rests on and that rests on it. `Err` is
/// want of memory.
pub(crate) fn links_of<L: Ledger>(
    alloc: Global,
    board: &Index<Item>,
    out: &[usize],
    steps: &mut Steps<L>,
) -> Result<Vec<(usize, usize)>, AllocError>
    requires nodes { AreNodes board.now out.now }
    requires once { AllPairs (λ m n. m ≢ n) out.now }
    ensures taken { IfOk result (λ taken. taken.items ≡ flat_map (spec.links_with board.now out.now) out.now) }
    ensures few { steps.new ≤ steps.old + sum_by (spec.look_ups_with board.now) out.now }
{
    let set = set_of(alloc, out)?;
    let mut taken = Vec::new(alloc);
    for number in out {
        push_links(board, &set, *number, &mut taken, steps)?;
    }
    Ok(taken)
}

//! The numbers that go out.

ghost use Rattle.std.specs.Prelude.{◌≡◌, ◌+◌, ◌≤◌, ◌++◌, [], ◌∷◌, IfOk, OnOk, filter, length, nat_eq};
ghost use Rattle.std.specs.List.{sum_by};
ghost use Rattle.indexmap.specs.IndexSet.{insert_all};
ghost use Rattle.item_index.specs.Graphs.{IsNode};
ghost use Rattle.graph_steps.specs.Steps.{AreNodes};
ghost use Rattle.board_plans.specs.Leaving as spec;

use crate::spent::spent_of;
use cat_items::Item;
use indexmap::IndexSet;
use item_index::{Index, Steps};
use key_tests::is_topic;
use std::alloc::{AllocError, Global};
use std::sync::ledger::Ledger;

/// Puts a number with its like: with topics, or with the others.
fn put_apart<L: Ledger>(
    board: &Index<Item>,
    number: usize,
    items: &mut IndexSet<usize>,
    topics: &mut Vec<usize>,
    steps: &mut Steps<L>,
) -> Result<(), AllocError>
    requires { IsNode board.now number }
    ensures items { OnOk result (items.new.keys ≡ insert_all nat_eq items.old.keys (filter (spec.is_item_at board.now) (number ∷ []))) }
    ensures topics { OnOk result (topics.new.items ≡ topics.old.items ++ filter (spec.is_topic_at board.now) (number ∷ [])) }
    ensures ticks { steps.new ≡ steps.old + 1 }
{
    if is_topic(board.key(number, steps)) {
        topics.push(number)?;
    } else {
        items.insert(number)?;
    }
    Ok(())
}

/// Those of the touched numbers whose keys are no topics', and those whose keys are. One look-up of each.
fn apart<L: Ledger>(
    alloc: Global,
    board: &Index<Item>,
    touched: &IndexSet<usize>,
    steps: &mut Steps<L>,
) -> Result<(IndexSet<usize>, Vec<usize>), AllocError>
    requires { AreNodes board.now touched.now.keys }
    ensures items { IfOk result (λ parts. parts.0.keys ≡ insert_all nat_eq [] (filter (spec.is_item_at board.now) touched.now.keys)) }
    ensures topics { IfOk result (λ parts. parts.1.items ≡ filter (spec.is_topic_at board.now) touched.now.keys) }
    ensures few { steps.new ≤ steps.old + length touched.now.keys }
{
    let mut items = IndexSet::new(alloc);
    let mut topics = Vec::new(alloc);
    for number in touched.as_slice() {
        put_apart(board, *number, &mut items, &mut topics, steps)?;
    }
    Ok((items, topics))
}

/// Puts in these too.
fn put_all(numbers: &mut IndexSet<usize>, others: &[usize]) -> Result<(), AllocError>
    ensures { OnOk result (numbers.new.keys ≡ insert_all nat_eq numbers.old.keys others.now) }
{
    for other in others {
        numbers.insert(*other)?;
    }
    Ok(())
}

/// Of the touched numbers those whose keys are no topics', and those of the topics that are linked with nothing else, each
/// once: topics first, and then the last that was touched, as links that came last are taken away soonest. It looks up the key of each, and of a topic the numbers that it is linked with, no further than to the first that
/// stays. `Err` is want of memory.
pub fn outgoing<L: Ledger>(
    alloc: Global,
    board: &Index<Item>,
    touched: &IndexSet<usize>,
    steps: &mut Steps<L>,
) -> Result<IndexSet<usize>, AllocError>
    requires { AreNodes board.now touched.now.keys }
    ensures out { IfOk result (λ out. spec.AreOutgoing board.now touched.now.keys out.keys) }
    ensures few { steps.new ≤ steps.old + sum_by (spec.look_ups board.now touched.now.keys) touched.now.keys }
{
    let (mut out, topics) = apart(alloc, board, touched, steps)?;
    let spent = spent_of(alloc, board, &out, topics.as_slice(), steps)?;
    put_all(&mut out, spent.as_slice())?;
    out.reverse();
    Ok(out)
}

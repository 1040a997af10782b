//! Numbers that are linked with nothing but given ones.

ghost use Rattle.std.specs.Prelude.{◌≡◌, ◌+◌, ◌≤◌, IfOk, filter, count_by};
ghost use Rattle.std.specs.List.{list_all, sum_by};
ghost use Rattle.item_index.specs.Graphs.{IsNode};
ghost use Rattle.item_index.specs.Shelves.{list_at};
ghost use Rattle.graph_steps.specs.Steps.{AreNodes};
ghost use Rattle.board_plans.specs.Spent as spec;

use indexmap::IndexSet;
use item_index::{Index, Steps};
use std::alloc::{AllocError, Global};
use std::hash::{BuildHasher, Hash};
use std::sync::ledger::Ledger;

/// Whether a number rests on nothing but these.
fn rests_go<K: Eq + Hash + Drop, S: BuildHasher + Drop, L: Ledger>(
    index: &Index<K, S>,
    going: &IndexSet<usize>,
    node: usize,
    steps: &mut Steps<L>,
) -> bool
    requires { IsNode index.now node }
    ensures go { result ≡ list_all (spec.is_among going.now.keys) (list_at index.now.rests node) }
    ensures few { steps.new ≤ steps.old + 1 + count_by (spec.is_among going.now.keys) (list_at index.now.rests node) }
{
    let mut at = 0;
    while let Some(rests_on) = index.rests(node, at, steps) {
        if !going.contains(&rests_on) {
            return false;
        }
        at += 1;
    }
    true
}

/// Whether nothing but these rests on a number.
fn dependents_go<K: Eq + Hash + Drop, S: BuildHasher + Drop, L: Ledger>(
    index: &Index<K, S>,
    going: &IndexSet<usize>,
    node: usize,
    steps: &mut Steps<L>,
) -> bool
    requires { IsNode index.now node }
    ensures go { result ≡ list_all (spec.is_among going.now.keys) (list_at index.now.dependents node) }
    ensures few { steps.new ≤ steps.old + 1 + count_by (spec.is_among going.now.keys) (list_at index.now.dependents node) }
{
    let mut at = 0;
    while let Some(dependent) = index.dependents(node, at, steps) {
        if !going.contains(&dependent) {
            return false;
        }
        at += 1;
    }
    true
}

/// Whether a number is linked with nothing but these.
fn is_spent<K: Eq + Hash + Drop, S: BuildHasher + Drop, L: Ledger>(
    index: &Index<K, S>,
    going: &IndexSet<usize>,
    node: usize,
    steps: &mut Steps<L>,
) -> bool
    requires { IsNode index.now node }
    ensures spent { result ≡ spec.has_no_other (spec.is_among going.now.keys) index.now node }
    ensures few { steps.new ≤ steps.old + spec.links_cost (spec.is_among going.now.keys) index.now node }
{
    if !rests_go(index, going, node, steps) {
        return false;
    }
    dependents_go(index, going, node, steps)
}

/// Those of some numbers that are linked with nothing but what goes. Of each it looks no further than to the first link
/// with another. `Err` is want of memory.
pub fn spent_of<K: Eq + Hash + Drop, S: BuildHasher + Drop, L: Ledger>(
    alloc: Global,
    index: &Index<K, S>,
    going: &IndexSet<usize>,
    numbers: &[usize],
    steps: &mut Steps<L>,
) -> Result<Vec<usize>, AllocError>
    requires { AreNodes index.now numbers.now }
    ensures spent { IfOk result (λ spent. spent.items ≡ filter (spec.has_no_other (spec.is_among going.now.keys) index.now) numbers.now) }
    ensures few { steps.new ≤ steps.old + sum_by (spec.links_cost (spec.is_among going.now.keys) index.now) numbers.now }
{
    let mut spent = Vec::new(alloc);
    for number in numbers {
        if is_spent(index, going, *number, steps) {
            spent.push(*number)?;
        }
    }
    Ok(spent)
}

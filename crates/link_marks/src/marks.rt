//! Numbers that are reached from others over what rests on them.

ghost use Rattle.std.specs.Prelude.{◌≡◌, ◌+◌, ◌≤◌, ℕ, List, IfOk, OnErr, OnOk};
ghost use Rattle.std.specs.List.{Contains, sum_by};
ghost use Rattle.item_index.specs.Graphs.{IsNode, IsWhole};
ghost use Rattle.item_index.specs.Shelves.{list_at};
ghost use Rattle.link_marks.specs.Reached as spec;
ghost use Rattle.link_marks.specs.Marked.{Grows, Joins};

use indexmap::IndexSet;
use item_index::{Index, Steps};
use std::alloc::{AllocError, Global};
use std::hash::{BuildHasher, Hash};
use std::sync::ledger::Ledger;

/// Marks a number, if it isn't marked.
fn mark(marked: &mut IndexSet<usize>, number: usize) -> Result<(), AllocError>
    ensures { OnOk result (Joins number marked.old.keys marked.new.keys) }
{
    marked.insert(number)?;
    Ok(())
}

/// Marks each of these numbers.
fn mark_all(marked: &mut IndexSet<usize>, numbers: &[usize]) -> Result<(), AllocError>
    ensures { OnOk result (Grows numbers.now marked.old.keys marked.new.keys) }
{
    for number in numbers {
        mark(marked, *number)?;
    }
    Ok(())
}

/// Marks each number that rests on this one.
fn mark_dependents<K: Eq + Hash + Drop, S: BuildHasher + Drop, L: Ledger>(
    marked: &mut IndexSet<usize>,
    index: &Index<K, S>,
    node: usize,
    steps: &mut Steps<L>,
) -> Result<(), AllocError>
    requires { IsNode index.now node }
    ensures grown { OnOk result (Grows (list_at index.now.dependents node) marked.old.keys marked.new.keys) }
    ensures ticks { OnOk result (steps.new ≡ steps.old + spec.look_ups index.now.dependents node) }
    ensures whole { OnOk result (IsWhole K.eq index.now) }
    ensures few { OnErr result (steps.new ≤ steps.old + spec.look_ups index.now.dependents node) }
{
    let mut at = 0;
    while let Some(dependent) = index.dependents(node, at, steps) {
        mark(marked, dependent)?;
        at += 1;
    }
    Ok(())
}

/// The numbers that are reached from these over what rests on them, each once and these first. Of each number it looks up all that rest on
/// it, and the end of that list. `Err` is want of memory.
pub fn reached<K: Eq + Hash + Drop, S: BuildHasher + Drop, L: Ledger>(
    alloc: Global,
    index: &Index<K, S>,
    from: &[usize],
    steps: &mut Steps<L>,
) -> Result<IndexSet<usize>, AllocError>
    requires { (n : ℕ) → Contains from.now n → IsNode index.now n }
    ensures reached { IfOk result (λ marked. spec.AreReached index.now.dependents from.now marked.keys) }
    ensures ticks { IfOk result (λ marked. steps.new ≡ steps.old + sum_by (spec.look_ups index.now.dependents) marked.keys) }
    ensures few { (all : List ℕ) → spec.AreReached index.now.dependents from.now all → steps.new ≤ steps.old + sum_by (spec.look_ups index.now.dependents) all }
{
    let mut marked = IndexSet::new(alloc);
    mark_all(&mut marked, from)?;
    let mut at = 0;
    while at < marked.len() {
        let node = marked.as_slice()[at];
        mark_dependents(&mut marked, index, node, steps)?;
        at += 1;
    }
    Ok(marked)
}

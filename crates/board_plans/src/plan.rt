//! The plan of an edit.

ghost use Rattle.std.specs.Prelude.{◌≡◌, ◌+◌, ◌≤◌, Bool, IfOk, List, length};
ghost use Rattle.std.specs.List.{All, sum_by};
ghost use Rattle.graph_steps.specs.Steps.{AreNodes};
ghost use Rattle.graph_changes.specs.Ends.{ArePlaced, links_of};
ghost use Rattle.cat_items.specs.declared.item.Item.{Item};
ghost use Rattle.cat_items.specs.contracts.item.ItemPartialEq.TheImpl as same;
ghost use Rattle.board_steps.specs.Plans.{IsPlanOf};
ghost use Rattle.board_plans.specs.Arrivals.{links_by};
ghost use Rattle.board_plans.specs.Leaving.{AreOutgoing, look_ups};
ghost use Rattle.board_plans.specs.Planning.{CanPlan};

use crate::arrivals::{Arrival, keys_of_all};
use crate::ends::ends_of;
use crate::leaving::outgoing;
use cat_items::Item;
use graph_changes::End;
use indexmap::IndexSet;
use item_index::{Index, Steps};
use std::alloc::{AllocError, Global};
use std::hash::Hash;
use std::sync::ledger::Ledger;

/// The keys of a set, in order.
fn listed<T: Eq + Hash + Drop>(alloc: Global, set: IndexSet<T>) -> Result<Vec<T>, AllocError>
    ensures { IfOk result (λ list. list.items ≡ set.keys) }
{
    set.into_iter().collect(alloc)
}

/// What makes of a board that of another catalogue: `change_by_ends` carries it out.
#[derive(Drop)]
pub struct Plan {
    pub out: Vec<usize>,
    pub keys: Vec<Item>,
    pub links: Vec<(End, End)>,
}

/// The plan for a board whose touched numbers are those of the suspects, and of topics, and to which these come. Touched topics go out too,
/// where all that they are linked with does, and come in again where a new suspect goes by them. It looks up each touched number, of topics
/// what they are linked with as far as that goes out, and an end of each new link at most. `Err` is want of memory.
pub fn plan_of<L: Ledger>(
    alloc: Global,
    board: &Index<Item>,
    touched: &IndexSet<usize>,
    arrivals: &[Arrival],
    steps: &mut Steps<L>,
) -> Result<Plan, AllocError>
    requires { AreNodes board.now touched.now.keys }
    ensures plan { IfOk result (λ plan. (c new : List Item) (suspect : Item → Bool) → CanPlan same.ghosts.eq board.now c new suspect touched.now.keys arrivals.now
        → IsPlanOf board.now c new suspect plan.out.items plan.keys.items (links_of board.now plan.out.items plan.keys.items plan.links.items)) }
    ensures out { IfOk result (λ plan. AreOutgoing board.now touched.now.keys plan.out.items) }
    ensures placed { IfOk result (λ plan. All (ArePlaced (length plan.keys.items)) plan.links.items) }
    ensures few { steps.new ≤ steps.old + sum_by (look_ups board.now touched.now.keys) touched.now.keys + sum_by (λ a. length (links_by a)) arrivals.now }
{
    let out = outgoing(alloc, board, touched, steps)?;
    let (mut keys, places) = keys_of_all(alloc, arrivals)?;
    let links = ends_of(
        alloc,
        board,
        &out,
        arrivals,
        places.as_slice(),
        &mut keys,
        steps,
    )?;
    Ok(Plan {
        out: listed(alloc, out)?,
        keys: listed(alloc, keys)?,
        links,
    })
}

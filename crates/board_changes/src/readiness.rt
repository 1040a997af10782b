//! A plan is made ready: all memory is taken that it takes to carry it out, and to take it back.

ghost use Rattle.std.specs.Prelude.{◌≡◌, ◌+◌, ◌≤◌, Bool, List, length, IfOk};
ghost use Rattle.std.specs.List.{All, sum_by};
ghost use Rattle.item_index.specs.Graphs.{IsWhole, with_spare};
ghost use Rattle.cat_items.specs.declared.item.Item.{Item};
ghost use Rattle.cat_items.specs.contracts.item.ItemPartialEq.TheImpl as same;
ghost use Rattle.graph_changes.specs.Ends.{ArePlaced};
ghost use Rattle.board_changes.specs.Leaving.{look_ups_with};
ghost use Rattle.board_changes.specs.Readiness.{IsPlanned, IsReady};

use crate::leaving::{keys_of, links_of};
use board_plans::Plan;
use cat_items::Item;
use item_index::{Index, Steps};
use std::alloc::{AllocError, Global};
use std::sync::ledger::Ledger;

/// What takes a plan back that was carried out: the numbers that go out then, the keys that come in, and the links that
/// are made.
#[derive(Drop)]
pub struct Ran {
    pub out: Vec<usize>,
    pub keys: Vec<Item>,
    pub links: Vec<(usize, usize)>,
}

/// A plan, with what takes it back: the numbers that go out then are known once it is carried out.
#[derive(Drop)]
pub struct Ready {
    pub plan: Plan,
    pub back: Ran,
}

/// Takes all memory that it takes to carry out a plan and to take it back. The board stays as it is, but for more room.
/// It looks up each number that goes out, and all that it is linked with. `Err` is want of memory.
pub fn make_ready<L: Ledger>(
    alloc: Global,
    board: &mut Index<Item>,
    plan: Plan,
    steps: &mut Steps<L>,
) -> Result<Ready, AllocError>
    requires whole { IsWhole same.ghosts.eq board.old }
    requires planned { ∥ ((c : List Item) × (new : List Item) × (suspect : Item → Bool) × IsPlanned same.ghosts.eq board.old c new suspect plan) ∥₁ }
    requires placed { All (ArePlaced (length plan.keys.items)) plan.links.items }
    ensures board { board.new ≡ with_spare board.old board.new.spare_keys board.new.spare_links }
    ensures grown { (board.old.spare_keys ≤ board.new.spare_keys) × (board.old.spare_links ≤ board.new.spare_links) }
    ensures ready { IfOk result (λ ready. IsReady same.ghosts.eq board.new ready) }
    ensures plan { IfOk result (λ ready. ready.plan ≡ plan) }
    ensures planned { IfOk result (λ ready. (c new : List Item) (suspect : Item → Bool) → IsPlanned same.ghosts.eq board.old c new suspect plan → IsPlanned same.ghosts.eq board.new c new suspect ready.plan) }
    ensures few { steps.new ≤ steps.old + sum_by (λ n. 1 + look_ups_with board.old n) plan.out.items }
{
    board.reserve(plan.keys.len(), plan.links.len().max(1))?;
    let out = plan.out.as_slice();
    let keys = keys_of(alloc, board, out, steps)?;
    let links = links_of(alloc, board, out, steps)?;
    let back = Ran {
        out: Vec::with_capacity(alloc, plan.keys.len())?,
        keys,
        links,
    };
    Ok(Ready { plan, back })
}

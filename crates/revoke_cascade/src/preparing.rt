//! An edit is made ready: what it touches, what stands, and the plan for its board.

ghost use Rattle.std.specs.Prelude.{◌≡◌, ◌+◌, ◌≤◌, ℕ, List, IfOk, IfSome, IsTrue, false, length};
ghost use Rattle.std.specs.List.{All, sum_by};
ghost use Rattle.item_index.specs.Graphs.{with_spare};
ghost use Rattle.graph_changes.specs.Ends.{ArePlaced};
ghost use Rattle.cat_items.specs.contracts.item.ItemPartialEq.TheImpl as same;
ghost use Rattle.cat_items.specs.declared.item.Item.{Item};
ghost use Rattle.cat_items.specs.Bound.{IsBound};
ghost use Rattle.cat_items.specs.Edits.{IsFurther};
ghost use Rattle.board_changes.specs.Leaving.{look_ups_with};
ghost use Rattle.board_changes.specs.Readiness.{IsReady};
ghost use Rattle.catalogue_changes.specs.Effects.{IsMadeBy};
ghost use Rattle.new_catalogues.specs.Further.{IsLeastFurther};
ghost use Rattle.revoke_cascade.specs.Outcomes.{IsOutcome, plan_in};
ghost use Rattle.revoke_cascade.specs.Prepared.{FitsSome, IsFitOn};

use crate::effects::effects_of;
use crate::judging::{Judged, judge};
use board_changes::{Ready, make_ready};
use board_plans::{Plan, plan_of};
use cat_items::{Catalogue, Edit, Item};
use catalogue_changes::{Effects, least_further};
use edit_arrivals::arrivals;
use edit_suspects::touched;
use item_index::{Index, Steps};
use std::alloc::{AllocError, Global};
use std::sync::ledger::Ledger;

/// Whether a plan is left off: where an edit is `restricted`, and with these effects takes or changes an item beyond its target.
fn is_left(restricted: bool, edit: &Edit, effects: &Effects) -> bool
    ensures left { (c edited new : List Item) → IsMadeBy c edited edit.now new effects.now → IsTrue result → IsTrue restricted × ((x : Item) × IsLeastFurther c edit.now new x) }
    ensures made { (c edited new : List Item) → IsMadeBy c edited edit.now new effects.now → result ≡ false → IsTrue restricted → (x : Item) → IsFurther c edit.now new x → ⊥ }
{
    if !restricted {
        return false;
    }
    match least_further(edit, effects) {
        Some(_) => true,
        None => false,
    }
}

/// What an edit does beyond what it says, and the plan for its board, unless it was left off.
#[derive(Drop)]
struct Planned {
    pub effects: Effects,
    pub plan: Option<Plan>,
}

/// Finds what the edit touches, judges it, and makes the plan for the board; not where it is `restricted` and goes further. That takes no more look-ups than the
/// bound of the edit (`few`), and what is left of these is enough to read what goes out (`spent`).
fn make_plan<L: Ledger>(
    alloc: Global,
    board: &Index<Item>,
    c: &Catalogue,
    edit: &Edit,
    restricted: bool,
    steps: &mut Steps<L>,
) -> Result<Planned, AllocError>
    requires { FitsSome board.now c.now.items edit.now }
    ensures outcome { IfOk result (λ planned. (edited : List Item) → IsFitOn board.now c.now.items edited edit.now → (new : List Item) × IsOutcome board.now c.now.items edit.now restricted new planned.effects planned.plan) }
    ensures placed { IfOk result (λ planned. IfSome planned.plan (λ plan. All (ArePlaced (length plan.keys.items)) plan.links.items)) }
    ensures spent { IfOk result (λ planned. IfSome planned.plan (λ plan. (edited : List Item) (bound : ℕ) → IsFitOn board.now c.now.items edited edit.now → IsBound c.now.items edit.now edited bound → steps.new + sum_by (λ n. 1 + look_ups_with board.now n) plan.out.items ≤ steps.old + bound)) }
    ensures few { (edited : List Item) (bound : ℕ) → IsFitOn board.now c.now.items edited edit.now → IsBound c.now.items edit.now edited bound → steps.new ≤ steps.old + bound }
{
    let marks = touched(alloc, board, edit, steps)?;
    let Judged { suspects, found } = judge(alloc, board, &marks, c, edit, steps)?;
    let effects = effects_of(alloc, c, edit, &suspects, &found)?;
    if is_left(restricted, edit, &effects) {
        return Ok(Planned {
            effects,
            plan: None,
        });
    }
    let arriving = arrivals(alloc, &found, &suspects)?;
    let plan = plan_of(alloc, board, &marks, arriving.as_slice(), steps)?;
    Ok(Planned {
        effects,
        plan: Some(plan),
    })
}

/// What an edit does beyond what it says, and how it is ready on an index, unless that was left off.
#[derive(Drop)]
pub(crate) struct Prepared {
    pub effects: Effects,
    pub ready: Option<Ready>,
}

/// Makes an edit ready on the board of its catalogue, with all memory that it takes to carry it out and to take it back; not where it is `restricted` and
/// takes or changes an item beyond its target. The board stays as it is, but for more room. It takes no more look-ups than the bound of the edit. `Err` is
/// want of memory.
pub(crate) fn prepare_on<L: Ledger>(
    alloc: Global,
    board: &mut Index<Item>,
    c: &Catalogue,
    edit: &Edit,
    restricted: bool,
    steps: &mut Steps<L>,
) -> Result<Prepared, AllocError>
    requires { FitsSome board.old c.now.items edit.now }
    ensures board { board.new ≡ with_spare board.old board.new.spare_keys board.new.spare_links }
    ensures grown { (board.old.spare_keys ≤ board.new.spare_keys) × (board.old.spare_links ≤ board.new.spare_links) }
    ensures ready { IfOk result (λ prepared. IfSome prepared.ready (IsReady same.ghosts.eq board.new)) }
    ensures outcome { IfOk result (λ prepared. (edited : List Item) → IsFitOn board.old c.now.items edited edit.now → (new : List Item) × IsOutcome board.new c.now.items edit.now restricted new prepared.effects (plan_in prepared.ready)) }
    ensures few { (edited : List Item) (bound : ℕ) → IsFitOn board.old c.now.items edited edit.now → IsBound c.now.items edit.now edited bound → steps.new ≤ steps.old + bound }
{
    let Planned { effects, plan } = make_plan(alloc, board, c, edit, restricted, steps)?;
    let Some(plan) = plan else {
        return Ok(Prepared {
            effects,
            ready: None,
        });
    };
    let ready = make_ready(alloc, board, plan, steps)?;
    Ok(Prepared {
        effects,
        ready: Some(ready),
    })
}

//! The suspects of an edit, and what of them stands.

ghost use Rattle.std.specs.Prelude.{◌≡◌, ◌↔◌, List, IfOk, true};
ghost use Rattle.std.specs.List.{Contains};
ghost use Rattle.finite_chains.specs.Chains.{IsWithin};
ghost use Rattle.cat_items.specs.contracts.item.ItemPartialEq.TheImpl as same;
ghost use Rattle.cat_items.specs.declared.item.Item.{Item};
ghost use Rattle.cat_items.specs.Catalogues.{IsInOrder};
ghost use Rattle.cat_items.specs.Fit.{IsFit};
ghost use Rattle.cat_items.specs.Good.{IsGood};
ghost use Rattle.cat_items.specs.Survivors.{IsWithSystem};
ghost use Rattle.item_index.specs.Graphs.{IsWhole};
ghost use Rattle.board_steps.specs.Plans.{IsFullBoard};
ghost use Rattle.asked_parts.specs.Parts.{IsPartOf};
ghost use Rattle.edit_suspects.specs.Seeds.{AreTouched, HaveSpread};
ghost use Rattle.edit_suspects.specs.Suspects.{AreFresh, is_suspect};
ghost use Rattle.revoke_cascade.specs.Prepared.{FitsSome, IsEditOn, IsFoundIn, IsJudgement, TakesToJudge};

use added_parts::all_stand;
use cat_items::{Catalogue, Edit, Item};
use edit_parts::{Suspected, suspects_by_all, suspects_of};
use indexmap::IndexSet;
use item_index::{Index, Steps};
use part_rescue::{found_of, rescued};
use role_graph::Walk;
use std::alloc::{AllocError, Global};
use std::sync::ledger::Ledger;

/// What stands of a part that has these suspects.
fn found_in(alloc: Global, part: &Catalogue, suspects: &Catalogue) -> Result<Catalogue, AllocError>
    requires { IsWithin suspects.now.items part.now.items }
    ensures { IfOk result (λ found. IsFoundIn part.now.items suspects.now.items found.items) }
{
    let mut walk = Walk::new(alloc, part)?;
    let marks = rescued(alloc, part, suspects, &mut walk)?;
    found_of(alloc, part, &marks)
}

/// The suspects of an edit that touches these numbers, and their part. Where all stands that the added items ask for, what the suspects ask for is looked
/// up on the board; else the whole catalogue is gone through, as what is missing isn't bounded by what the edit touches. `Err` is want of memory.
fn suspected<L: Ledger>(
    alloc: Global,
    board: &Index<Item>,
    marks: &IndexSet<usize>,
    c: &Catalogue,
    edit: &Edit,
    steps: &mut Steps<L>,
) -> Result<Suspected, AllocError>
    requires fits { FitsSome board.now c.now.items edit.now }
    requires touched { AreTouched same.ghosts.eq board.now edit.now marks.now.keys }
    requires spread { HaveSpread board.now edit.now marks.now.keys }
    ensures order { IfOk result (λ found. IsInOrder found.suspects.items) }
    ensures suspects { IfOk result (λ found. (old edited f fresh : List Item) → IsGood old → IsWhole same.ghosts.eq board.now → IsFullBoard board.now old → IsFit old edit.now edited → IsWithSystem edited f → AreFresh old edited fresh
        → (x : Item) → Contains found.suspects.items x ↔ (Contains f x × (is_suspect board.now marks.now.keys edit.now.added fresh x ≡ true))) }
    ensures part { IfOk result (λ found. (old edited fresh : List Item) → IsGood old → IsWhole same.ghosts.eq board.now → IsFullBoard board.now old → IsFit old edit.now edited → AreFresh old edited fresh → IsPartOf board.now old marks.now.keys found.suspects.items found.part.items) }
    ensures ticks { TakesToJudge board.now c.now.items edit.now marks.now.keys steps.old steps.new }
{
    if all_stand(alloc, c, edit)? {
        suspects_of(alloc, board, marks, edit, steps)
    } else {
        suspects_by_all(alloc, board, marks, c, edit, steps)
    }
}

/// What an edit's suspects are, and what stands of them and of what they ask for.
#[derive(Drop)]
pub(crate) struct Judged {
    pub suspects: Catalogue,
    pub found: Catalogue,
}

/// The suspects of an edit that touches these numbers, and what stands of them and of what they ask for. `Err` is want of memory.
pub(crate) fn judge<L: Ledger>(
    alloc: Global,
    board: &Index<Item>,
    marks: &IndexSet<usize>,
    c: &Catalogue,
    edit: &Edit,
    steps: &mut Steps<L>,
) -> Result<Judged, AllocError>
    requires fits { FitsSome board.now c.now.items edit.now }
    requires touched { AreTouched same.ghosts.eq board.now edit.now marks.now.keys }
    requires spread { HaveSpread board.now edit.now marks.now.keys }
    ensures judged { IfOk result (λ judged. (old edited f fresh : List Item) → IsEditOn board.now old edited f edit.now → AreFresh old edited fresh
        → IsJudgement board.now old edited f edit.now marks.now.keys fresh judged.suspects.items judged.found.items) }
    ensures ticks { TakesToJudge board.now c.now.items edit.now marks.now.keys steps.old steps.new }
{
    let Suspected { suspects, part } = suspected(alloc, board, marks, c, edit, steps)?;
    let found = found_in(alloc, &part, &suspects)?;
    Ok(Judged { suspects, found })
}

//! The suspects of an edit by the whole catalogue.

ghost use Rattle.std.specs.Prelude.{◌≡◌, ◌↔◌, ◌+◌, ◌≤◌, List, IfOk, length, true};
ghost use Rattle.std.specs.List.{Contains};
ghost use Rattle.std.specs.declared.cmp.Ordering.TheVariants.{Equal};
ghost use Rattle.item_index.specs.Graphs.{IsWhole};
ghost use Rattle.graph_steps.specs.Steps.{AreNodes};
ghost use Rattle.cat_items.specs.contracts.item.ItemPartialEq.TheImpl as same;
ghost use Rattle.cat_items.specs.declared.item.Item.{Item};
ghost use Rattle.cat_items.specs.Catalogues.{IsInOrder};
ghost use Rattle.cat_items.specs.Fit.{IsFit};
ghost use Rattle.cat_items.specs.Good.{IsGood};
ghost use Rattle.cat_items.specs.Order.{item_cmp};
ghost use Rattle.cat_items.specs.Survivors.{IsWithSystem};
ghost use Rattle.edit_rules.specs.Chosen.{IsRightOrRoleGrant};
ghost use Rattle.board_steps.specs.Plans.{IsFullBoard};
ghost use Rattle.edit_suspects.specs.Seeds.{HaveSpread};
ghost use Rattle.edit_suspects.specs.Suspects.{AreFresh, is_suspect};
ghost use Rattle.asked_parts.specs.Parts.{IsPartOf};
ghost use Rattle.edit_parts.specs.Parts.{AreBoth};
ghost use Rattle.edit_parts.specs.Whole as spec;

use crate::suspects::{Suspected, joined};
use crate::touched::{TouchedItems, touched_items};
use cat_items::{Catalogue, Edit, Item};
use indexmap::IndexSet;
use item_index::{Index, Steps};
use item_lists::{merged, without};
use std::alloc::{AllocError, Global};
use std::hash::BuildHasher;
use std::sync::ledger::Ledger;
use system_rights::system_items;

/// Copies of the items of a catalogue that the edit leaves and that aren't touched.
fn untouched(
    alloc: Global,
    c: &Catalogue,
    edit: &Edit,
    touched: &Catalogue,
) -> Result<Catalogue, AllocError>
    requires target_order { IsInOrder edit.now.target }
    requires changed_order { IsInOrder edit.now.changed }
    ensures order { IfOk result (λ kept. IsInOrder kept.items) }
    ensures members { IfOk result (λ kept. (x : Item) → Contains kept.items x ↔ spec.IsUntouched c.now.items edit.now touched.now.items x) }
{
    let standing = without(alloc, c.items(), edit.target.as_slice())?;
    let left = without(alloc, standing.items(), edit.changed.as_slice())?;
    let kept = without(alloc, left.items(), touched.items())?;
    Ok(kept)
}

/// The rights that the system could grant for the part and that are touched, or fresh.
fn touched_or_fresh(
    alloc: Global,
    c: &Catalogue,
    rights: &Catalogue,
    part: &Catalogue,
) -> Result<Catalogue, AllocError>
    requires { (x : Item) → Contains rights.now.items x → IsRightOrRoleGrant x }
    ensures order { IfOk result (λ further. IsInOrder further.items) }
    ensures members { IfOk result (λ further. (x : Item) → Contains further.items x ↔ spec.IsTouchedOrFresh c.now.items rights.now.items part.now.items x) }
{
    let before = system_items(alloc, c)?;
    let after = system_items(alloc, part)?;
    let known = without(alloc, before.as_slice(), rights.items())?;
    let standing = without(alloc, c.items(), rights.items())?;
    let unknown = without(alloc, after.as_slice(), known.items())?;
    let further = without(alloc, unknown.items(), standing.items())?;
    Ok(further)
}

/// Copies of some items and of the kept ones in one list.
fn with_kept(alloc: Global, some: &Catalogue, kept: &Catalogue) -> Result<Catalogue, AllocError>
    requires { (x y : Item) → Contains some.now.items x → Contains kept.now.items y → item_cmp x y ≡ Equal → x ≡ y }
    ensures order { IfOk result (λ part. IsInOrder part.items) }
    ensures members { IfOk result (λ part. AreBoth some.now.items kept.now.items part.items) }
{
    let part = merged(alloc, kept.items(), some.items())?;
    Ok(part)
}

/// What `suspects_of` finds, by the catalogue itself: the part has all unmarked items, whether or not a suspect asks for them. It looks up
/// the key of each marked number, and nothing else, and takes time and memory by the length of the catalogue. `Err` is want of memory.
pub fn suspects_by_all<S: BuildHasher + Drop, L: Ledger>(
    alloc: Global,
    board: &Index<Item, S>,
    marks: &IndexSet<usize>,
    catalogue: &Catalogue,
    edit: &Edit,
    steps: &mut Steps<L>,
) -> Result<Suspected, AllocError>
    requires nodes { AreNodes board.now marks.now.keys }
    requires good { IsGood catalogue.now.items }
    requires full { IsFullBoard board.now catalogue.now.items }
    requires fit { (edited : List Item) × IsFit catalogue.now.items edit.now edited }
    requires spread { HaveSpread board.now edit.now marks.now.keys }
    ensures order { IfOk result (λ found. IsInOrder found.suspects.items) }
    ensures suspects { IfOk result (λ found. (c edited f fresh : List Item) → IsGood c → IsWhole same.ghosts.eq board.now → IsFullBoard board.now c → IsFit c edit.now edited → IsWithSystem edited f → AreFresh c edited fresh
        → (x : Item) → Contains found.suspects.items x ↔ (Contains f x × (is_suspect board.now marks.now.keys edit.now.added fresh x ≡ true))) }
    ensures part { IfOk result (λ found. (c edited fresh : List Item) → IsGood c → IsWhole same.ghosts.eq board.now → IsFullBoard board.now c → IsFit c edit.now edited → AreFresh c edited fresh → IsPartOf board.now c marks.now.keys found.suspects.items found.part.items) }
    ensures ticks { steps.new ≤ steps.old + length marks.now.keys }
{
    let TouchedItems { items, rights } = touched_items(alloc, board, marks, edit, steps)?;
    let kept = untouched(alloc, catalogue, edit, &items)?;
    let start = joined(alloc, &items, &rights)?;
    let whole = with_kept(alloc, &start, &kept)?;
    let further = touched_or_fresh(alloc, catalogue, &rights, &whole)?;
    let suspects = joined(alloc, &items, &further)?;
    let part = with_kept(alloc, &suspects, &kept)?;
    Ok(Suspected { suspects, part })
}

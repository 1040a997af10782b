//! What an edit's marks speak of.

ghost use Rattle.std.specs.Prelude.{◌≡◌, ◌↔◌, ◌+◌, ◌≤◌, IfOk, OnOk, length};
ghost use Rattle.std.specs.List.{Contains};
ghost use Rattle.item_index.specs.Graphs.{IsNode};
ghost use Rattle.graph_steps.specs.Steps.{AreNodes};
ghost use Rattle.cat_items.specs.declared.item.Item.{Item};
ghost use Rattle.topic_keys.specs.Lists.{Gets};
ghost use Rattle.edit_parts.specs.Touched as spec;

use crate::putting::{push_all, push_left, push_right};
use asked_parts::is_helper;
use cat_items::{Catalogue, Edit, Item};
use indexmap::IndexSet;
use item_index::{Index, Steps};
use std::alloc::{AllocError, Global};
use std::hash::BuildHasher;
use std::sync::ledger::Ledger;
use topic_keys::in_order;

/// The items that an edit touches, and the rights by the system.
#[derive(Drop)]
pub struct TouchedItems {
    /// The marked items that the edit neither destroys nor changes, and those that it adds.
    pub items: Catalogue,
    /// The rights by the system to users and roles that are marked, or whose ghosts are, also where the edit destroys them.
    pub rights: Catalogue,
}

/// Pushes the item of a number, if the edit leaves it, and the right by the system that it is, or the ghost of.
fn push_marked<S: BuildHasher + Drop, L: Ledger>(
    alloc: Global,
    board: &Index<Item, S>,
    edit: &Edit,
    number: usize,
    items: &mut Vec<Item>,
    rights: &mut Vec<Item>,
    steps: &mut Steps<L>,
) -> Result<(), AllocError>
    requires node { IsNode board.now number }
    requires apart { spec.AreApart board.now edit.now }
    ensures items { OnOk result (Gets (spec.IsLeftAt board.now edit.now number) items.old.items items.new.items) }
    ensures rights { OnOk result (Gets (spec.IsRightAt board.now number) rights.old.items rights.new.items) }
    ensures ticks { steps.new ≡ steps.old + 1 }
{
    let key = board.key(number, steps);
    push_right(alloc, key, rights)?;
    if is_helper(key) {
        return Ok(());
    }
    push_left(edit, key, items)
}

/// What the marks say of an edit: the items that it touches and leaves or adds, and the rights by the system that it touches. It looks up the
/// key of each marked number, and nothing else. `Err` is want of memory.
pub fn touched_items<S: BuildHasher + Drop, L: Ledger>(
    alloc: Global,
    board: &Index<Item, S>,
    marks: &IndexSet<usize>,
    edit: &Edit,
    steps: &mut Steps<L>,
) -> Result<TouchedItems, AllocError>
    requires nodes { AreNodes board.now marks.now.keys }
    requires fits { spec.FitsBoard board.now edit.now }
    ensures items { IfOk result (λ touched. (x : Item) → Contains touched.items.items x ↔ spec.IsTouchedItem board.now marks.now.keys edit.now x) }
    ensures rights { IfOk result (λ touched. (x : Item) → Contains touched.rights.items x ↔ spec.IsTouchedRight board.now marks.now.keys x) }
    ensures ticks { steps.new ≤ steps.old + length marks.now.keys }
{
    let mut items = Vec::new(alloc);
    let mut rights = Vec::new(alloc);
    for number in marks.as_slice() {
        push_marked(alloc, board, edit, *number, &mut items, &mut rights, steps)?;
    }
    push_all(edit.added.as_slice(), &mut items)?;
    Ok(TouchedItems {
        items: Catalogue::of_sorted(in_order(items)),
        rights: Catalogue::of_sorted(in_order(rights)),
    })
}

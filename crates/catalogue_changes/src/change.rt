//! A change of a catalogue, and its making.

ghost use Rattle.std.specs.Prelude.{◌≡◌, ◌≤◌, List, IfOk, length};
ghost use Rattle.cat_items.specs.declared.item.Item.{Item};
ghost use Rattle.catalogue_changes.specs.Changes.{IsChange};
ghost use Rattle.catalogue_changes.specs.Effects.{IsMadeBy};

use crate::effects::Effects;
use crate::parts::{arriving, leaving, put_in_copies};
use cat_items::{Catalogue, Edit};
use std::alloc::{AllocError, Global};

/// The items that go out of a catalogue, and those that come into it.
#[derive(Drop)]
pub struct Change {
    pub leaving: Catalogue,
    pub coming: Catalogue,
}

/// What an edit with its effects changes. `Err` is want of memory.
///
/// An added item that stands already, and stays, doesn't come.
pub fn change_of(
    alloc: Global,
    c: &Catalogue,
    edit: &Edit,
    effects: &Effects,
) -> Result<Change, AllocError>
    requires { (edited new : List Item) × IsMadeBy c.now.items edited edit.now new effects.now }
    ensures { IfOk result (λ change. (edited new : List Item) → IsMadeBy c.now.items edited edit.now new effects.now → IsChange c.now.items new change) }
{
    let leaving = leaving(alloc, edit, effects)?;
    let mut coming = Catalogue::of_sorted(arriving(alloc, c, &leaving, edit.added.as_slice())?);
    coming.take_out_all(effects.fallen.as_slice());
    put_in_copies(alloc, &mut coming, effects.gained.as_slice())?;
    Ok(Change { leaving, coming })
}

/// How many items the catalogue has after the change. It takes no memory.
pub fn count_after(c: &Catalogue, change: &Change) -> usize
    requires { (new : List Item) × IsChange c.now.items new change.now }
    ensures { (new : List Item) → IsChange c.now.items new change.now → length new ≡ result }
{
    c.items().len() - change.leaving.items().len() + change.coming.items().len()
}

/// Makes the change in place. It takes no memory, and moves nothing where nothing leaves and nothing comes.
pub fn make(c: &mut Catalogue, change: Change)
    requires room { length change.coming.items ≤ c.old.spare }
    requires change { (new : List Item) × IsChange c.old.items new change }
    ensures { (new : List Item) → IsChange c.old.items new change → c.new.items ≡ new }
{
    let Change { leaving, coming } = change;
    c.take_out_all(leaving.items());
    c.put_in_all(coming.into_items());
}

//! What an edit does beyond what it says, by its suspects and by what was found of them.

ghost use Rattle.std.specs.Prelude.{IfOk, List};
ghost use Rattle.cat_items.specs.declared.item.Item.{Item};
ghost use Rattle.cat_items.specs.Catalogues.{IsInOrder};
ghost use Rattle.catalogue_changes.specs.Effects.{AreEffects};
ghost use Rattle.revoke_cascade.specs.Effects.{AreGainedOf, AreLostOf};
ghost use Rattle.revoke_cascade.specs.Prepared.{Tells};

use cat_items::{Catalogue, Edit, Item};
use catalogue_changes::Effects;
use item_lists::chosen_as;
use std::alloc::{AllocError, Global};

/// Of these old items those that the edit leaves and that weren't found.
fn lost_of(
    alloc: Global,
    old: &[Item],
    edit: &Edit,
    found: &Catalogue,
) -> Result<Vec<Item>, AllocError>
    requires old { IsInOrder old.now }
    requires target { IsInOrder edit.now.target }
    requires changed { IsInOrder edit.now.changed }
    ensures { IfOk result (λ lost. AreLostOf old.now edit.now found.now.items lost.items) }
{
    let beside = chosen_as(alloc, old, false, edit.target.as_slice())?;
    let left = chosen_as(alloc, beside.as_slice(), false, edit.changed.as_slice())?;
    let lost = chosen_as(alloc, left.as_slice(), false, found.items())?;
    Ok(lost)
}

/// Of these suspects those that were found, and are neither old nor added.
fn gained_of(
    alloc: Global,
    suspects: &Catalogue,
    old: &[Item],
    edit: &Edit,
    found: &Catalogue,
) -> Result<Vec<Item>, AllocError>
    requires old { IsInOrder old.now }
    requires added { IsInOrder edit.now.added }
    ensures { IfOk result (λ gained. AreGainedOf suspects.now.items old.now edit.now found.now.items gained.items) }
{
    let new = chosen_as(alloc, suspects.items(), false, old)?;
    let standing = chosen_as(alloc, new.as_slice(), true, found.items())?;
    let gained = chosen_as(alloc, standing.as_slice(), false, edit.added.as_slice())?;
    Ok(gained)
}

/// What an edit of the catalogue does beyond what it says, where these are its suspects, and this was found of them and of what was asked for to
/// judge them. `Err` is want of memory.
pub(crate) fn effects_of(
    alloc: Global,
    c: &Catalogue,
    edit: &Edit,
    suspects: &Catalogue,
    found: &Catalogue,
) -> Result<Effects, AllocError>
    requires target { IsInOrder edit.now.target }
    requires changed { IsInOrder edit.now.changed }
    requires added { IsInOrder edit.now.added }
    ensures { IfOk result (λ effects. (new : List Item) → Tells c.now.items edit.now suspects.now.items found.now.items new → AreEffects c.now.items edit.now new effects) }
{
    let old = chosen_as(alloc, suspects.items(), true, c.items())?;
    let lost = lost_of(alloc, old.as_slice(), edit, found)?;
    let gained = gained_of(alloc, suspects, old.as_slice(), edit, found)?;
    let fallen = chosen_as(alloc, edit.added.as_slice(), false, found.items())?;
    Ok(Effects {
        lost,
        gained,
        fallen,
    })
}

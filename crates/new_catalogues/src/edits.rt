//! The new catalogue of an edit.

ghost use Rattle.std.specs.Prelude.{◌≡◌, List, IfOk, OnOk};
ghost use Rattle.cat_items.specs.declared.item.Item.{Item};
ghost use Rattle.cat_items.specs.Batch.{IsJoined};
ghost use Rattle.cat_items.specs.Catalogues.{IsInOrder};
ghost use Rattle.cat_items.specs.Edits.{IsEdited, IsNew};
ghost use Rattle.cat_items.specs.Fit.{IsFit};
ghost use Rattle.cat_items.specs.Survivors.{IsWithSystem};
ghost use Rattle.new_catalogues.specs.Joining.{AreMissing, HaveOneItemAKey};

use cat_items::{Catalogue, Edit, Item, find};
use grant_chain::survivors;
use std::alloc::{AllocError, Global};
use system_rights::system_items;

/// Copies of all these items.
fn copies(alloc: Global, items: &[Item]) -> Result<Vec<Item>, AllocError>
    ensures { IfOk result (λ copies. copies.items ≡ items.now) }
{
    let mut copies = Vec::with_capacity(alloc, items.len())?;
    for x in items {
        copies.push(x.copy()?)?;
    }
    Ok(copies)
}

/// Copies of those of these items whose keys no item of the catalogue has.
fn missing(alloc: Global, c: &Catalogue, items: &[Item]) -> Result<Vec<Item>, AllocError>
    requires { IsInOrder items.now }
    ensures order { IfOk result (λ missing. IsInOrder missing.items) }
    ensures members { IfOk result (λ missing. AreMissing c.now.items items.now missing.items) }
{
    let mut missing = Vec::new(alloc);
    for x in items {
        if find(c, x).is_none() {
            missing.push(x.copy()?)?;
        }
    }
    Ok(missing)
}

/// Puts in those of these items that aren't there.
fn join(alloc: Global, c: &mut Catalogue, items: &[Item]) -> Result<(), AllocError>
    requires order { IsInOrder items.now }
    requires keys { HaveOneItemAKey c.old.items items.now }
    ensures order { OnOk result (IsInOrder c.new.items) }
    ensures members { OnOk result (IsJoined c.old.items items.now c.new.items) }
{
    let missing = missing(alloc, c, items)?;
    c.reserve(missing.len())?;
    c.put_in_all(missing);
    Ok(())
}

/// The catalogue without the target and the changed items, with the added ones.
fn edited(alloc: Global, c: &Catalogue, edit: &Edit) -> Result<Catalogue, AllocError>
    requires { (edited : List Item) × IsFit c.now.items edit.now edited }
    ensures { IfOk result (λ edited. IsEdited c.now.items edit.now edited.items) }
{
    let mut edited = Catalogue::of_sorted(copies(alloc, c.items())?);
    edited.take_out_all(edit.target.as_slice());
    edited.take_out_all(edit.changed.as_slice());
    join(alloc, &mut edited, edit.added.as_slice())?;
    Ok(edited)
}

/// Puts in the rights that the system could grant for the objects of the catalogue.
fn join_system_rights(alloc: Global, c: &mut Catalogue) -> Result<(), AllocError>
    ensures { OnOk result (IsWithSystem c.old.items c.new.items) }
{
    let rights = system_items(alloc, c)?;
    join(alloc, c, rights.as_slice())
}

/// The new catalogue of an edit: what survives by finite chains of support of the edited catalogue and of the
/// rights that the system could grant for its objects. `Err` is want of memory.
///
/// It is slow, as [`survivors`] is, and works on the whole catalogue whatever the edit.
pub fn new_catalogue(alloc: Global, c: &Catalogue, edit: &Edit) -> Result<Catalogue, AllocError>
    requires fit { (edited : List Item) × IsFit c.now.items edit.now edited }
    ensures { IfOk result (λ new. IsNew c.now.items edit.now new.items) }
{
    let mut all = edited(alloc, c, edit)?;
    join_system_rights(alloc, &mut all)?;
    survivors(alloc, &all)
}

//! The items that leave a catalogue and those that come.

ghost use Rattle.std.specs.Prelude.{◌≡◌, ◌↔◌, List, IfOk, OnOk, IsTrue};
ghost use Rattle.finite_chains.specs.Chains.{IsWithin};
ghost use Rattle.cat_items.specs.declared.item.Item.{Item};
ghost use Rattle.cat_items.specs.Batch.{HaveNoKeyInCommon, IsJoined};
ghost use Rattle.cat_items.specs.Catalogues.{IsInOrder};
ghost use Rattle.catalogue_changes.specs.Effects.{IsMadeBy};
ghost use Rattle.catalogue_changes.specs.Parts.{AreArriving, AreLeaving, StaysAs};

use crate::effects::Effects;
use cat_items::{Catalogue, Edit, Item, find};
use std::alloc::{AllocError, Global};

/// Copies of all these items.
fn copies(alloc: Global, items: &[Item]) -> Result<Vec<Item>, AllocError>
    ensures { IfOk result (λ copies. copies.items ≡ items.now) }
{
    let mut copies = Vec::with_capacity(alloc, items.len())?;
    for x in items {
        copies.push(x.copy()?)?;
    }
    Ok(copies)
}

/// Puts in copies of these items, whose keys no item has.
pub fn put_in_copies(alloc: Global, c: &mut Catalogue, items: &[Item]) -> Result<(), AllocError>
    requires order { IsInOrder items.now }
    requires new { HaveNoKeyInCommon c.old.items items.now }
    ensures order { OnOk result (IsInOrder c.new.items) }
    ensures members { OnOk result (IsJoined c.old.items items.now c.new.items) }
{
    let copies = copies(alloc, items)?;
    c.reserve(copies.len())?;
    c.put_in_all(copies);
    Ok(())
}

/// Copies of the target, of what is changed, and of what is lost.
pub fn leaving(alloc: Global, edit: &Edit, effects: &Effects) -> Result<Catalogue, AllocError>
    requires { (c edited new : List Item) × IsMadeBy c edited edit.now new effects.now }
    ensures { IfOk result (λ leaving. AreLeaving edit.now effects.now.lost.items leaving.items) }
{
    let mut leaving = Catalogue::of_sorted(copies(alloc, edit.target.as_slice())?);
    put_in_copies(alloc, &mut leaving, edit.changed.as_slice())?;
    put_in_copies(alloc, &mut leaving, effects.lost.as_slice())?;
    Ok(leaving)
}

/// Whether an item that doesn't leave has the key of this one.
fn stays_as(c: &Catalogue, leaving: &Catalogue, x: &Item) -> bool
    requires { IsWithin leaving.now.items c.now.items }
    ensures { IsTrue result ↔ StaysAs c.now.items leaving.now.items x.now }
{
    let _ = c.items();
    find(c, x).is_some() && find(leaving, x).is_none()
}

/// Copies of those of these items that don't stay as they are.
pub fn arriving(
    alloc: Global,
    c: &Catalogue,
    leaving: &Catalogue,
    items: &[Item],
) -> Result<Vec<Item>, AllocError>
    requires within { IsWithin leaving.now.items c.now.items }
    requires order { IsInOrder items.now }
    ensures order { IfOk result (λ arriving. IsInOrder arriving.items) }
    ensures members { IfOk result (λ arriving. AreArriving c.now.items leaving.now.items items.now arriving.items) }
{
    let mut arriving = Vec::new(alloc);
    for x in items {
        if !stays_as(c, leaving, x) {
            arriving.push(x.copy()?)?;
        }
    }
    Ok(arriving)
}

//! Descriptors that stand together in a catalogue.

ghost use Rattle.std.specs.Prelude.{◌↔◌, Contains, IfOk};
ghost use Rattle.cat_items.specs.declared.item.Item.{Item as AnyItem};
ghost use Rattle.cat_items.specs.Catalogues.{IsInOrder};
ghost use Rattle.cat_items.specs.Ranges.{IsIn};
ghost use Rattle.cat_items.specs.Shape.{IsColumnOf};
ghost use Rattle.edit_rules.specs.Chosen.{AreChosen};

use cat_items::{Catalogue, Item, Part, places};
use edit_rules::Chooses;
use sql_tree::{Items, Object};
use std::alloc::{AllocError, Global};

/// The descriptors of a part, in order.
pub fn items_in<'a>(c: &'a Catalogue, part: Part<'_>) -> &'a [Item]
    ensures order { IsInOrder result.now }
    ensures members { (x : AnyItem) → Contains result.now x ↔ (Contains c.now.items x × IsIn part.entry x) }
{
    &c.items()[places(c, part)]
}

/// The columns of a table, in order.
pub fn columns_of<'a>(c: &'a Catalogue, table: &Object) -> &'a [Item]
    ensures order { IsInOrder result.now }
    ensures members { (x : AnyItem) → Contains result.now x ↔ (Contains c.now.items x × IsColumnOf table.now x) }
{
    items_in(c, Part::Columns(table.into()))
}

/// Copies of those of these descriptors that pass a test, in order.
pub fn chosen_of<T: Chooses>(
    alloc: Global,
    items: &[Item],
    test: &T,
) -> Result<Items<Item>, AllocError>
    requires { IsInOrder items.now }
    ensures { IfOk result (AreChosen items.now (T.fits test.now)) }
{
    let mut found = Vec::new(alloc);
    for x in items {
        if test.chooses(x) {
            found.push(x.copy()?)?;
        }
    }
    Ok(Items::from_vec(found))
}
